//! How `serve` ends: its statuses and their lines.
ghost use Rattle.std.specs.Prelude.{◌≡◌};
ghost use Rattle.whole_files.specs.Stops.{Tells, stop_line};
ghost use Rattle.session_server.specs.Ends.{status_of, TellsEnd, end_of_stop};
ghost use Rattle.session_server.specs.declared.ends.End.TheVariants.{Memory};

use board_items::ItemId;
use dsn_lists::{DesignFault, DesignKind};
use layout_io::Sink;
use std::alloc::AllocError;
use whole_files::{Stop, tell, tell_stop};

/// How `serve` ended: all was done, or the first fault that it met.
#[derive(Clone, Copy, Debug, PartialEq, Eq)]
pub enum End {
    /// The session was served, and the session file has the text of the last board.
    Done,
    /// The words aren't those of `serve`.
    Usage,
    /// The design has this first fault, told at this byte, from 0.
    Design { kind: DesignKind, at: u32 },
    /// An open or a read of the design's file failed.
    Read,
    /// A create or a write of the session file failed.
    Write,
    /// These two loaded items are the least that are too near to each other, the lower number first.
    Unclean { a: ItemId, b: ItemId },
    /// Memory ran out.
    Memory,
    /// The bind or an accept of the door failed.
    Door,
}

impl From<AllocError> for End {
    ghost from_gives = { λ _ e. e ≡ Memory };

    fn from(_e: AllocError) -> End {
        End::Memory
    }
}

impl End {
    /// The number of the end as an exit status.
    pub fn status(&self) -> u8
        ensures { result ≡ status_of self.now }
    {
        match self {
            End::Done => 0,
            End::Usage => 1,
            End::Design { .. } => 2,
            End::Read => 3,
            End::Write => 4,
            End::Unclean { .. } => 6,
            End::Memory => 7,
            End::Door => 8,
        }
    }
}

/// The end that a stop is. No stop here comes of a script.
pub(crate) fn end_of(stop: Stop) -> End
    ensures { result ≡ end_of_stop stop }
{
    match stop {
        Stop::Design(fault) => End::Design {
            kind: fault.kind,
            at: fault.at,
        },
        Stop::Read => End::Read,
        Stop::Write => End::Write,
        Stop::Unclean { a, b } => End::Unclean { a, b },
        Stop::Script(_) | Stop::Memory => End::Memory,
    }
}

// Writes the line of a stop. A fault of that writing changes nothing.
fn tell_line<O: Sink>(out: &mut O, stop: Stop)
    ensures { Tells (stop_line stop) (O.told out.old) (O.told out.new) }
{
    let _status = tell_stop(stop, out);
}

/// Writes the line of an end, where it has one. A fault of that writing changes nothing.
pub(crate) fn tell_end<O: Sink>(out: &mut O, end: End)
    ensures { TellsEnd end (O.told out.old) (O.told out.new) }
{
    match end {
        End::Done => {}
        End::Usage => tell(out, b"usage\n"),
        End::Design { kind, at } => tell_line(out, Stop::Design(DesignFault { kind, at })),
        End::Read => tell_line(out, Stop::Read),
        End::Write => tell_line(out, Stop::Write),
        End::Unclean { a, b } => tell_line(out, Stop::Unclean { a, b }),
        End::Memory => tell_line(out, Stop::Memory),
        End::Door => tell(out, b"door\n"),
    }
}
