//! Tests of a client: its talk, its words and its replica.
#![tactic(auto)]

#[cfg(test)]
mod clients;
#[cfg(test)]
mod parts;
