//! One client's place at the journal: it looks, asks and leaves.
#![tactic(auto)]

mod desk;

pub use desk::{Answer, Desk, Placed};
