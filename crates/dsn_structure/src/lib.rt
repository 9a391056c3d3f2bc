//! The structure section of a design.
#![tactic(auto)]

mod flips;
mod layers;
mod structure;

pub use flips::{FlipStyle, flip_at};
pub use structure::{Structure, read_structure};
