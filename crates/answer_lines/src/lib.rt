//! The lines of a server that aren't entries: the one that greets, and the answers.
#![tactic(auto)]

mod answers;
mod numbers;
mod reasons;
mod words;

pub use answers::{Goes, decode_answer, is_hello};
