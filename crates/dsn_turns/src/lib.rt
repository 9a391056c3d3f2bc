//! Points turned by eighths of a turn, and shapes led through turns and moves to their place.
#![tactic(auto)]

mod moves;
mod turns;

pub use moves::{Motion, carried, moved_shapes};
pub use turns::{Flip, Wide, turn};

#[cfg(test)]
mod tests;
