//! Boundaries that keep what lies in an area to some clients.
#![tactic(auto)]

mod clients;
mod fences;
mod laws;
mod live;
mod spare;
mod touching;
mod walks;

pub use fences::Fences;
pub use laws::{boxes_only_save_steps, entitled_clients_rise_and_stand_once};
pub use touching::touches_area;

#[cfg(test)]
mod tests;
