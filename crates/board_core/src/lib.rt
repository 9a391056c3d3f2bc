//! The board: what lies on it after some entries, and what a request is answered on it.
#![tactic(auto)]

mod answer;
mod barrings;
mod board;
mod clashes;
mod clearances;
mod covers;
mod deletes;
mod draws;
mod holds;
mod live_items;
mod made;
mod nears;
mod pairs;
mod reservings;
mod verdict;

pub use answer::slow_answer;
pub use board::Board;
pub use deletes::{deletes_why, held_why};
pub use pairs::{clean, slow_pair};
pub use verdict::{Pairs, Verdict};
