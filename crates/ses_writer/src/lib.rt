//! The text of a SPECCTRA session.
#![tactic(auto)]

mod by_net;
mod fixed;
mod library;
mod nets;
mod pieces;
mod points;
mod session;
mod vias;
mod wires;

pub use pieces::SesPieces;

#[cfg(test)]
mod samples;
#[cfg(test)]
mod tests;
