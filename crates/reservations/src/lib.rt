//! Reservations: which client holds which item.
#![tactic(auto)]

mod held;
mod places;

pub use held::Held;

#[cfg(test)]
mod tests;
