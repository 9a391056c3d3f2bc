//! Why the client stops.
ghost use Rattle.std.specs.Prelude.{◌≡◌};
ghost use Rattle.client_talk.specs.declared.stop.Stop.TheVariants.{Memory};

use std::alloc::AllocError;

/// Why the client stops before its end: the first fault that it met.
#[derive(Clone, Copy, Debug, PartialEq, Eq)]
pub enum Stop {
    /// A call on the link failed.
    Link,
    /// The link's input ended in the middle of the talk.
    Ended,
    /// A line of the server is none that may stand there, or the replica refuses its entry.
    Refused,
    /// A write of the output failed.
    Out,
    /// Memory ran out.
    Memory,
}

impl From<AllocError> for Stop {
    ghost from_gives = { λ _ e. e ≡ Memory };

    fn from(_e: AllocError) -> Stop {
        Stop::Memory
    }
}
