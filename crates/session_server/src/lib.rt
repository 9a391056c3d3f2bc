//! The server of one client over a connection: its words, its session, and what it leaves.
#![tactic(auto)]

mod ends;
mod opening;
mod outcome;
mod server;
mod sit;
mod storing;
mod words;

pub use ends::End;
pub use outcome::{Links, Served};
pub use server::serve;
pub use words::{ServeWords, WordsWhy, read_words};
