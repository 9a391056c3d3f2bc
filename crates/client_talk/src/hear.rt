//! What comes from the server.
ghost use Rattle.std.specs.Prelude.{◌≡◌, List, ℕ, IfErr};
ghost use Rattle.layout_io.specs.Links.{Across};
ghost use Rattle.client_talk.specs.Hears.{HasRead, HasLine, HasHeard, LinkCause, OutCause, IsOfLink};

use crate::Stop;
use crate::input::Input;
use crate::print::print_line;
use layout_io::{Bytes, IoFault, Link, Sink};
use std::alloc::Global;
use std::sync::Wait;

// Reads on, and keeps what was read.
fn hear<L: Link>(link: &mut L, input: &mut Input) -> Result<(), Stop>
    ensures read { Across (L.told link.old).wire (L.told link.new).wire (HasRead input.old input.new result) }
    ensures cause { LinkCause (L.told link.old).read_faults (L.told link.new).read_faults (L.told link.old).write_faults (L.told link.new).write_faults result }
    ensures only { IfErr result IsOfLink }
{
    let mut room = [0u8; 4096];
    match link.read(&mut room) {
        Err(IoFault::Failed) => Err(Stop::Link),
        Err(IoFault::Memory) => Err(Stop::Memory),
        Ok(0) => Err(Stop::Ended),
        Ok(count) => {
            input.feed(&room[..count])?;
            Ok(())
        }
    }
}

// The next line, without its line end.
fn next_line<R: Wait, L: Link>(rt: &R, link: &mut L, input: &mut Input) -> Result<Bytes, Stop>
    ensures line { Across (L.told link.old).wire (L.told link.new).wire (HasLine input.old input.new result) }
    ensures cause { LinkCause (L.told link.old).read_faults (L.told link.new).read_faults (L.told link.old).write_faults (L.told link.new).write_faults result }
    ensures only { IfErr result IsOfLink }
{
    'pieces: for _turn in rt.forever() {
        if let Some(line) = input.take_line()? {
            return Ok(line);
        }
        hear(link, input)?;
    }
    unreachable!()
}

/// The next line, without its line end. It is copied to the output as it came.
pub(crate) fn hear_line<R: Wait, L: Link, O: Sink>(
    rt: &R,
    alloc: Global,
    link: &mut L,
    input: &mut Input,
    out: &mut O,
) -> Result<Bytes, Stop>
    ensures heard { Across (L.told link.old).wire (L.told link.new).wire (HasHeard input.old input.new (O.told out.old).written (O.told out.new).written result) }
    ensures cause { LinkCause (L.told link.old).read_faults (L.told link.new).read_faults (L.told link.old).write_faults (L.told link.new).write_faults result }
    ensures out_cause { OutCause (O.told out.old).faults (O.told out.new).faults result }
{
    let line = next_line(rt, link, input)?;
    print_line(alloc, out, line.as_slice())?;
    Ok(line)
}
