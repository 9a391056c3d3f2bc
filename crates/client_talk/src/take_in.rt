//! What a line of the server does.
ghost use Rattle.std.specs.Prelude.{◌≡◌};
ghost use Rattle.client_talk.specs.Talks.{HasTaken, HasFollowed, HasAnswered};
ghost use Rattle.session_wire.specs.EntryLines.{IsEntry};

use crate::Stop;
use answer_lines::{Goes, decode_answer};
use board_items::Entry;
use client_replica::{Replica, ReplicaWhy};
use session_wire::{LineFault, decode_entry};
use std::alloc::Global;

// Has the replica take an entry.
fn follow(replica: &mut Replica, entry: &Entry) -> Result<(), Stop>
    requires { IsEntry entry.now }
    ensures { HasFollowed replica.old entry.now replica.new result }
{
    match replica.apply(entry) {
        Ok(()) => Ok(()),
        Err(ReplicaWhy::Memory) => Err(Stop::Memory),
        Err(_) => Err(Stop::Refused),
    }
}

// What a line says that isn't an entry.
fn answer_of(line: &[u8]) -> Result<Goes, Stop>
    ensures { HasAnswered line.now result }
{
    match decode_answer(line) {
        Some(goes) => Ok(goes),
        None => Err(Stop::Refused),
    }
}

/// Takes a line of the server in: an entry goes to the replica, an answer tells what comes behind it.
pub(crate) fn take_in(
    alloc: Global,
    replica: &mut Replica,
    line: &[u8],
) -> Result<Option<Goes>, Stop>
    ensures { HasTaken line.now replica.old replica.new result }
{
    match decode_entry(alloc, line) {
        Ok(entry) => {
            follow(replica, &entry)?;
            Ok(None)
        }
        Err(LineFault::Memory) => Err(Stop::Memory),
        Err(LineFault::Bad { .. }) => Ok(Some(answer_of(line)?)),
    }
}
