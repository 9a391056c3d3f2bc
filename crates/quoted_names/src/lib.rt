//! Names as texts write them: bare, or between quotes.
#![tactic(auto)]

mod names;

pub use names::put_name;

#[cfg(test)]
mod tests;
