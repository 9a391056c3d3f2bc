//! Why bytes aren't a feed.
ghost use Rattle.std.specs.Prelude.{◌≡◌};
ghost use Rattle.client_feed.specs.declared.fault.FeedFault.TheVariants.{Memory};

use std::alloc::AllocError;
use thiserror::Error;

/// Why bytes aren't a feed.
#[derive(Clone, Copy, Debug, PartialEq, Eq, Error)]
pub enum FeedFault {
    /// This line, from 1, is the first that isn't an entry; a last line without its line end isn't one.
    #[error("line {line} is no entry")]
    Line { line: u64 },
    /// Memory ran out.
    #[error("memory ran out")]
    Memory,
}

impl From<AllocError> for FeedFault {
    ghost from_gives = { λ _ e. e ≡ Memory };

    fn from(_e: AllocError) -> FeedFault {
        FeedFault::Memory
    }
}
