//! Tests of the server of one client over objects in memory.
#![tactic(auto)]

#[cfg(test)]
mod sessions;
#[cfg(test)]
mod words;
