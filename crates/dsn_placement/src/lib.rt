//! The placement section of a design.
#![tactic(auto)]

mod place_lists;
mod place_parts;
mod placement;
mod poses;

pub use dsn_turns::{Flip, turn};
pub use placement::{PlacedPart, Placement, read_placement};
