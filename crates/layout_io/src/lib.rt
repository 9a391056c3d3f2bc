//! The outside of the programs: byte sinks, named files and connections, in memory and real.
#![tactic(auto)]

mod calls;
mod fault;
mod gates;
mod host_files;
mod host_sink;
mod links;
mod memory_doors;
mod memory_files;
mod memory_link;
mod memory_sink;
mod numbers;
mod reader;
mod stored;
mod tcp;
mod traits;

pub use fault::IoFault;
pub use gates::{Dial, Door, Gate, OpenGate};
pub use host_files::HostFiles;
pub use host_sink::HostSink;
pub use links::Link;
pub use memory_doors::{MemDial, MemDoor};
pub use memory_files::MemFiles;
pub use memory_link::MemLink;
pub use memory_sink::MemSink;
pub use row_lists::{Row, Text};
pub use stored::{Bytes, Name, Stored};
pub use tcp::{TcpDial, TcpDoor, TcpLink};
pub use traits::{Files, Sink};

#[cfg(test)]
mod tests;
