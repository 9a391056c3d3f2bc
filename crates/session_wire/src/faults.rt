//! Why a line isn't read.
ghost use Rattle.std.specs.Prelude.{◌≡◌};
ghost use Rattle.session_wire.specs.declared.faults.Halt.TheVariants.{Left, Memory};

use std::alloc::AllocError;
use thiserror::Error;

/// Why a line isn't read.
#[derive(Clone, Copy, Debug, PartialEq, Eq, Error)]
pub enum LineFault {
    /// The line has no reading. Its first word that no reading continues, which may be empty, begins
    /// at this byte, from 0; it is the line's length where the line ends too early.
    #[error("bad {at}")]
    Bad { at: u32 },
    /// Memory ran out.
    #[error("memory ran out")]
    Memory,
}

/// Why a part of a line isn't read.
#[derive(Clone, Copy)]
pub(crate) enum Halt {
    /// So many bytes are left at the first word that no reading continues, itself among them.
    Left { left: usize },
    /// Memory ran out.
    Memory,
}

impl From<usize> for Halt {
    ghost from_gives = { λ left halt. halt ≡ Left left };

    fn from(left: usize) -> Halt {
        Halt::Left { left }
    }
}

impl From<AllocError> for Halt {
    ghost from_gives = { λ _ halt. halt ≡ Memory };

    fn from(_e: AllocError) -> Halt {
        Halt::Memory
    }
}
