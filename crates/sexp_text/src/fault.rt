//! What is wrong with a text.
ghost use Rattle.std.specs.Prelude.{◌≡◌};
ghost use Rattle.sexp_text.specs.declared.fault.TextFault.TheVariants.{Memory};

use std::alloc::AllocError;
use thiserror::Error;

/// What is wrong with a text, and the byte at which it shows, from 0.
#[derive(Clone, Copy, Debug, PartialEq, Eq, Error)]
pub enum TextFault {
    /// A `(` that isn't closed: the innermost one at the end of the text.
    #[error("unclosed {at}")]
    Unclosed { at: u32 },
    /// A `)` too many.
    #[error("unopened {at}")]
    Unopened { at: u32 },
    /// A `"` that isn't closed before a line feed or the end.
    #[error("quote {at}")]
    Quote { at: u32 },
    /// A `(` that would be the 65th level.
    #[error("deep {at}")]
    Deep { at: u32 },
    /// Memory ran out.
    #[error("memory ran out")]
    Memory,
}

impl From<AllocError> for TextFault {
    ghost from_gives = { λ _ e. e ≡ Memory };

    fn from(_e: AllocError) -> TextFault {
        TextFault::Memory
    }
}
