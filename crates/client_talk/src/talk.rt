//! The talk with the server: lines go out, and each is answered.
ghost use Rattle.std.specs.Prelude.{◌≡◌, ◌↔◌, IsTrue};
ghost use Rattle.layout_io.specs.Links.{Across};
ghost use Rattle.client_talk.specs.Hears.{LinkCause, OutCause};
ghost use Rattle.client_talk.specs.Lines.{bye, lines_of};
ghost use Rattle.client_talk.specs.Talks.{HasGreeted, HasAnswer, HasTurned, HasTalked};

use crate::Stop;
use crate::hear::hear_line;
use crate::input::Input;
use crate::lines::front_line;
use crate::print::say;
use crate::take_in::take_in;
use answer_lines::{Goes, is_hello};
use client_replica::Replica;
use layout_io::{Link, Sink};
use std::alloc::Global;
use std::sync::Wait;

/// Reads the line that greets.
pub(crate) fn greeted<R: Wait, L: Link, O: Sink>(
    rt: &R,
    alloc: Global,
    link: &mut L,
    input: &mut Input,
    out: &mut O,
) -> Result<(), Stop>
    ensures greeted { Across (L.told link.old).wire (L.told link.new).wire (HasGreeted input.old input.new (O.told out.old).written (O.told out.new).written result) }
    ensures cause { LinkCause (L.told link.old).read_faults (L.told link.new).read_faults (L.told link.old).write_faults (L.told link.new).write_faults result }
    ensures out_cause { OutCause (O.told out.old).faults (O.told out.new).faults result }
{
    let line = hear_line(rt, alloc, link, input, out)?;
    if !is_hello(line.as_slice()) {
        return Err(Stop::Refused);
    }
    Ok(())
}

// Reads up to the next answer. The entries before it go to the replica.
fn hear_answer<R: Wait, L: Link, O: Sink>(
    rt: &R,
    alloc: Global,
    link: &mut L,
    input: &mut Input,
    replica: &mut Replica,
    out: &mut O,
) -> Result<Goes, Stop>
    ensures answer { Across (L.told link.old).wire (L.told link.new).wire (HasAnswer input.old input.new replica.old replica.new (O.told out.old).written (O.told out.new).written result) }
    ensures cause { LinkCause (L.told link.old).read_faults (L.told link.new).read_faults (L.told link.old).write_faults (L.told link.new).write_faults result }
    ensures out_cause { OutCause (O.told out.old).faults (O.told out.new).faults result }
{
    'lines: for _line in rt.forever() {
        let line = hear_line(rt, alloc, link, input, out)?;
        match take_in(alloc, replica, line.as_slice())? {
            Some(goes) => return Ok(goes),
            None => {}
        }
    }
    unreachable!()
}

fn is_bye(line: &[u8]) -> bool
    ensures { IsTrue result ↔ (line.now ≡ bye) }
{
    line == b"bye".as_slice()
}

// Sends a line and reads up to its answer. `bye` has none.
fn turn<R: Wait, L: Link, O: Sink>(
    rt: &R,
    alloc: Global,
    link: &mut L,
    input: &mut Input,
    replica: &mut Replica,
    out: &mut O,
    line: &[u8],
) -> Result<Goes, Stop>
    ensures turned { Across (L.told link.old).wire (L.told link.new).wire (HasTurned line.now input.old input.new replica.old replica.new (O.told out.old).written (O.told out.new).written result) }
    ensures cause { LinkCause (L.told link.old).read_faults (L.told link.new).read_faults (L.told link.old).write_faults (L.told link.new).write_faults result }
    ensures out_cause { OutCause (O.told out.old).faults (O.told out.new).faults result }
{
    say(alloc, link, line)?;
    if is_bye(line) {
        return Ok(Goes::Last);
    }
    hear_answer(rt, alloc, link, input, replica, out)
}

/// Sends the lines of a text one after another, up to `bye` or an answer that is the last one, and then `bye`
/// where neither came.
pub(crate) fn talk<R: Wait, L: Link, O: Sink>(
    rt: &R,
    alloc: Global,
    link: &mut L,
    input: &mut Input,
    replica: &mut Replica,
    out: &mut O,
    text: &[u8],
) -> Result<(), Stop>
    ensures talked { Across (L.told link.old).wire (L.told link.new).wire (HasTalked (lines_of text.now) input.old input.new replica.old replica.new (O.told out.old).written (O.told out.new).written result) }
    ensures cause { LinkCause (L.told link.old).read_faults (L.told link.new).read_faults (L.told link.old).write_faults (L.told link.new).write_faults result }
    ensures out_cause { OutCause (O.told out.old).faults (O.told out.new).faults result }
{
    let mut rest = text;
    'lines: while let Some((line, after)) = front_line(rest) {
        match turn(rt, alloc, link, input, replica, out, line)? {
            Goes::Last => return Ok(()),
            Goes::On => rest = after,
        }
    }
    say(alloc, link, b"bye".as_slice())
}
