//! The network section of a design.
#![tactic(auto)]

mod classes;
mod laws;
mod network;
mod pairs;
mod pins;
mod references;

pub use classes::{Class, ViaLists};
pub use laws::a_pin_has_the_net_that_names_it;
pub use network::{Classes, Network, PairLists, read_network};
pub use pairs::ClassPairs;
pub use pins::PinNets;
pub use references::PinNames;
