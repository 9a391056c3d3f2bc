//! The copper of a board, what clients ask to change, and what they are answered.
#![tactic(auto)]

mod copies;
mod history;
mod items;
mod requests;
mod shapes;
mod views;
mod weights;

pub use history::{Act, Call, Calls, Entries, Entry, Reply, Why};
pub use items::{Item, ItemId, Items, KeepKind, Padstack, Stacks};
pub use requests::{Add, Adds, Clients, Layers, Request};
pub use shapes::{shape_at, shape_count};
pub use views::{ItemView, is_fixed, item_of_add, view, view_add};
pub use weights::weight;

#[cfg(test)]
mod tests;
