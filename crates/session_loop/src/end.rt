//! How a session ends.
ghost use Rattle.std.specs.Prelude.{◌≡◌};
ghost use Rattle.session_loop.specs.declared.end.SessionEnd.TheVariants.{Memory};

use row_lists::{Copied, Row};
use std::alloc::AllocError;

/// How a session ended.
#[derive(Clone, Copy, Debug, PartialEq, Eq)]
pub enum SessionEnd {
    /// The line `bye` came.
    Bye,
    /// The input ended; a line without its end was dropped.
    EndOfInput,
    /// More bytes than a line may have held no line end.
    TooLong,
    /// The history was full.
    Full,
    /// A call on the link failed.
    LinkFault,
    /// Memory ran out.
    Memory,
}

/// The ends of sessions in order.
pub type Ends = Row<SessionEnd>;

impl Copied for SessionEnd {
    fn copied(&self) -> Result<SessionEnd, AllocError> {
        Ok(*self)
    }
}

impl From<AllocError> for SessionEnd {
    ghost from_gives = { λ _ e. e ≡ Memory };

    fn from(_e: AllocError) -> SessionEnd {
        SessionEnd::Memory
    }
}
