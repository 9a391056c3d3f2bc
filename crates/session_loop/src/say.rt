//! What goes to the other side of a link.
ghost use Rattle.std.specs.Prelude.{◌≡◌, OnOk};
ghost use Rattle.layout_io.specs.Causes.{HasCause, HasShortage};
ghost use Rattle.layout_io.specs.Links.{Across, IsSent};
ghost use Rattle.session_loop.specs.Sessions.{IsTimely};
ghost use Rattle.session_loop.specs.Stops.{SentFront, HasSaid, RisesAtFault, RisesAtShortage};

use crate::SessionEnd;
use crate::turn::{Then, Turn};
use layout_io::{IoFault, Link};

/// Writes all of a text. After an `Err` a front of it is written.
pub(crate) fn write_all<L: Link>(link: &mut L, text: &[u8]) -> Result<(), IoFault>
    ensures ok { OnOk result (Across (L.told link.old).wire (L.told link.new).wire (IsSent text.now)) }
    ensures front { Across (L.told link.old).wire (L.told link.new).wire (SentFront text.now) }
    ensures cause { HasCause (L.told link.old).write_faults (L.told link.new).write_faults result }
    ensures other_count { (L.told link.new).read_faults ≡ (L.told link.old).read_faults }
    ensures memory { HasShortage (L.told link.old).shortages (L.told link.new).shortages result }
    ensures timely { IsTimely (L.told link.old) (L.told link.new) }
{
    let mut rest = text;
    'pieces: while !rest.is_empty() {
        let count = link.write(rest)?;
        let (_, after) = rest.split_at(count);
        rest = after;
    }
    Ok(())
}

/// Writes the text of a turn, and tells the end that comes after it.
pub(crate) fn say<L: Link>(link: &mut L, turn: &Turn) -> Result<(), SessionEnd>
    ensures said { Across (L.told link.old).wire (L.told link.new).wire (HasSaid turn.now result) }
    ensures on { OnOk result (turn.now.goes ≡ Then.On) }
    ensures cause { RisesAtFault (L.told link.old).write_faults (L.told link.new).write_faults result }
    ensures other_count { (L.told link.new).read_faults ≡ (L.told link.old).read_faults }
    ensures memory { RisesAtShortage (L.told link.old).shortages (L.told link.new).shortages result }
    ensures timely { IsTimely (L.told link.old) (L.told link.new) }
{
    match write_all(link, turn.text.as_slice()) {
        Err(IoFault::Failed) => Err(SessionEnd::LinkFault),
        Err(IoFault::Memory) => Err(SessionEnd::Memory),
        Ok(()) => match turn.goes {
            Then::On => Ok(()),
            Then::Bye => Err(SessionEnd::Bye),
            Then::Full => Err(SessionEnd::Full),
            Then::TooLong => Err(SessionEnd::TooLong),
        },
    }
}
