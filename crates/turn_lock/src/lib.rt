//! A lock whose value stands for a list of calls, and whose seats know what they have seen of it.
#![tactic(auto)]

mod kept;
mod knowledge;
mod lock;
mod plays;
mod seat;
mod sleepers;
mod steps;

pub use kept::Kept;
pub use lock::TurnLock;
pub use seat::Seat;

#[cfg(test)]
mod tests;
