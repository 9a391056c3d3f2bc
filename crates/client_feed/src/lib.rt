//! Feeds: the lines of a journal's entries.
#![tactic(auto)]

mod fault;
mod feeds;
mod lines;

pub use fault::FeedFault;
pub use feeds::{feed_since, read_feed};

#[cfg(test)]
mod tests;
