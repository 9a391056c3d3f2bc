//! The serial master: each request and each leave is answered at the journal as it is then.
#![tactic(auto)]

mod books;
mod master;

pub use master::SerialMaster;

#[cfg(test)]
mod tests;
