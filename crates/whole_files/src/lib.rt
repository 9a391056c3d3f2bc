//! Whole files and texts, why a program stops, and the line that tells it.
#![tactic(auto)]

mod arguments;
mod lines;
mod outside;
mod stop;

pub use arguments::words_of;
pub use lines::{tell, tell_stop};
pub use outside::{put_file, put_out, read_file};
pub use stop::Stop;
