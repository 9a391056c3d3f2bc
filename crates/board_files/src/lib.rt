//! The files of a board: its design is read and tested, and its session file is made and written.
#![tactic(auto)]

mod load;
mod store;

pub use load::{load_clean, load_design};
pub use store::{make_file, put_session};
