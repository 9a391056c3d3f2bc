//! A client of a layout server, over files, a way out and an output.
#![tactic(auto)]

mod calling;
mod load;
mod stop;
mod visit;

pub use calling::{Talked, client};
