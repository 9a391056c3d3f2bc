//! What an index of boxes finds on a board: the least two loaded items that are too near, and the verdict of a request on
//! a client's own board.
#![tactic(auto)]

mod adds;
mod checker;
mod checks;
mod clashes;
mod entering;
mod findings;
mod following;
mod live_pairs;
mod near_live;
mod nearest;
mod pairs;
mod touched;

pub use checker::Checker;
pub use checks::{Checks, OneCheck};
pub use pairs::first_pair;
