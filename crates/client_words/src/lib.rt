//! The words that a client is given: an address, a design and a file of lines.
#![tactic(auto)]

mod command;
mod parse;
mod why;
mod words;

pub use why::ClientWhy;
pub use words::{ClientWords, read_client_words};
