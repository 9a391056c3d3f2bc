//! Things by their number: numbers are given once, from 1 on.
#![tactic(auto)]

mod numbers;
mod places;
mod slots;

pub use slots::Slots;

#[cfg(test)]
mod tests;
