//! Tests of the board, through its public calls.
#![tactic(auto)]

#[cfg(test)]
mod boards;
#[cfg(test)]
mod designs;
