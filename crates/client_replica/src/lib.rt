//! A client's own board, which follows the entries of a journal.
#![tactic(auto)]

mod laws;
mod replica;
mod why;

pub use laws::{a_replica_counts_its_entries, a_replica_has_the_journals_board};
pub use replica::Replica;
pub use why::ReplicaWhy;
