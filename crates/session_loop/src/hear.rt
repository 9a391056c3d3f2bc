//! What comes from the other side of a link.
ghost use Rattle.std.specs.Prelude.{◌≡◌};
ghost use Rattle.layout_io.specs.Links.{Across};
ghost use Rattle.session_loop.specs.Sessions.{IsTimely};
ghost use Rattle.session_loop.specs.Stops.{HasRead, RisesAtFault};

use crate::SessionEnd;
use layout_io::{IoFault, Link};
use session_wire::Feeder;

/// Reads on, and keeps what was read.
pub(crate) fn hear<L: Link>(link: &mut L, feeder: &mut Feeder) -> Result<(), SessionEnd>
    ensures read { Across (L.told link.old).wire (L.told link.new).wire (HasRead feeder.old feeder.new result) }
    ensures cause { RisesAtFault (L.told link.old).read_faults (L.told link.new).read_faults result }
    ensures other_count { (L.told link.new).write_faults ≡ (L.told link.old).write_faults }
    ensures memory { (L.told link.new).shortages ≡ (L.told link.old).shortages }
    ensures timely { IsTimely (L.told link.old) (L.told link.new) }
{
    let mut room = [0u8; 4096];
    match link.read(&mut room) {
        Err(IoFault::Failed) => Err(SessionEnd::LinkFault),
        Err(IoFault::Memory) => Err(SessionEnd::Memory),
        Ok(0) => Err(SessionEnd::EndOfInput),
        Ok(count) => {
            feeder.feed(&room[..count])?;
            Ok(())
        }
    }
}
