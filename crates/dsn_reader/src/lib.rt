//! The wiring section and the whole design of a SPECCTRA text.
#![tactic(auto)]

mod assembly;
mod ends;
mod loaded;
mod pairs;
mod reader;
mod texts;
mod vias;
mod wires;
mod wiring;

pub use dsn_library::{Library, read_library};
pub use dsn_lists::{DesignFault, DesignKind, ReadWhy};
pub use dsn_network::{Network, read_network};
pub use dsn_placement::{Flip, Placement, read_placement, turn};
pub use dsn_structure::{Structure, read_structure};
pub use reader::read_design;
pub use texts::{a_design_has_no_fault, a_design_or_a_fault, one_design, one_first_fault};
pub use wiring::{Wiring, read_wiring};
