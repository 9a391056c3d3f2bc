//! The design of a board, the clearance that its copper must keep, and why an edit may not be made on any board.
#![tactic(auto)]

mod added_vias;
mod added_wires;
mod adds;
mod clearances;
mod copies;
mod design;
mod fences;
mod kinds;
mod largest;
mod laws;
mod names;
mod needs;
mod outline;
mod own;
mod pair_tables;
mod pairs;
mod reasons;
mod tables;
mod vias;

pub use clearances::{Rules, RulesView};
pub use design::{
    Areas, ClassRow, ClassRows, Design, Kind, Names, NetRow, NetRows, PairRow, PairRows, Parts,
    Stated, StatedRows, What,
};
pub use kinds::value_of;
pub use laws::{
    items_are_near_or_keep_their_need, need_is_at_most_the_largest_clearance,
    need_is_the_same_both_ways,
};
pub use needs::pad_kind;

#[cfg(test)]
mod fits;
#[cfg(test)]
mod reason_tests;
#[cfg(test)]
mod samples;
#[cfg(test)]
mod tests;
