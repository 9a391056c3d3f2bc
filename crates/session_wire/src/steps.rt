//! What the lines of a script ask for.

use board_items::Request;
use row_lists::Row;

/// A line of a script.
#[derive(Debug, Drop)]
pub enum ScriptStep {
    /// A client asks for a change. Clients are numbered from 1.
    Do { client: u8, request: Request },
    /// A client leaves.
    Leave { client: u8 },
}

/// The lines of a script in their order.
pub type ScriptSteps = Row<ScriptStep>;
