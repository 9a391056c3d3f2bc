//! Tests of sessions over links in memory, and the desk in memory that they have.
#![tactic(auto)]

mod memory_desk;

pub use memory_desk::MemDesk;

#[cfg(test)]
mod sessions;
