//! Laws of every legal history: a boundary keeps what lies in it, and a clean board stays clean.
#![tactic(auto)]

mod laws;

pub use laws::{every_board_is_clean, every_journal_is_shielded};
