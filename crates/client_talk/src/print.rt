//! What goes to the output and to the server.
ghost use Rattle.std.specs.Prelude.{◌≡◌, ◌++◌, List, ℕ, OnOk, IfOk, IfErr, take};
ghost use Rattle.std.specs.Io.KnownBytes.{Appends};
ghost use Rattle.layout_io.specs.Causes.{HasCause};
ghost use Rattle.layout_io.specs.Links.{Across, IsSent};
ghost use Rattle.session_wire.specs.Kept.{ended};
ghost use Rattle.client_talk.specs.Hears.{Begins, SentFront, HasPrinted, HasSaid, LinkCause, OutCause, IsOfLink};

use crate::Stop;
use layout_io::{Bytes, IoFault, Link, Row, Sink};
use std::alloc::{AllocError, Global};

// Writes all of a text to the output. After an `Err` a front of it is written.
fn write_out<O: Sink>(out: &mut O, text: &[u8]) -> Result<(), IoFault>
    ensures ok { OnOk result (Appends (O.told out.old).written (O.told out.new).written text.now) }
    ensures begins { Begins text.now (O.told out.old).written (O.told out.new).written }
    ensures cause { HasCause (O.told out.old).faults (O.told out.new).faults result }
{
    let mut rest = text;
    'pieces: while !rest.is_empty() {
        let count = out.write(rest)?;
        let (_, after) = rest.split_at(count);
        rest = after;
    }
    Ok(())
}

// Writes all of a text to the link. After an `Err` a front of it is written.
fn write_link<L: Link>(link: &mut L, text: &[u8]) -> Result<(), IoFault>
    ensures ok { OnOk result (Across (L.told link.old).wire (L.told link.new).wire (IsSent text.now)) }
    ensures front { Across (L.told link.old).wire (L.told link.new).wire (SentFront text.now) }
    ensures cause { HasCause (L.told link.old).write_faults (L.told link.new).write_faults result }
    ensures other_count { (L.told link.new).read_faults ≡ (L.told link.old).read_faults }
{
    let mut rest = text;
    'pieces: while !rest.is_empty() {
        let count = link.write(rest)?;
        let (_, after) = rest.split_at(count);
        rest = after;
    }
    Ok(())
}

// The line with its line end.
fn whole_line(alloc: Global, line: &[u8]) -> Result<Bytes, AllocError>
    ensures { IfOk result (λ text. text ≡ ended line.now) }
{
    let mut text = Row::from_slice(alloc, line)?;
    text.push(b'\n')?;
    Ok(text)
}

/// Writes a text to the output.
pub(crate) fn print<O: Sink>(out: &mut O, text: &[u8]) -> Result<(), Stop>
    ensures printed { HasPrinted text.now (O.told out.old).written (O.told out.new).written result }
    ensures cause { OutCause (O.told out.old).faults (O.told out.new).faults result }
{
    match write_out(out, text) {
        Ok(()) => Ok(()),
        Err(IoFault::Failed) => Err(Stop::Out),
        Err(IoFault::Memory) => Err(Stop::Memory),
    }
}

/// Writes a line to the output.
pub(crate) fn print_line<O: Sink>(alloc: Global, out: &mut O, line: &[u8]) -> Result<(), Stop>
    ensures printed { HasPrinted (ended line.now) (O.told out.old).written (O.told out.new).written result }
    ensures cause { OutCause (O.told out.old).faults (O.told out.new).faults result }
{
    let text = whole_line(alloc, line)?;
    print(out, text.as_slice())
}

// Writes a text to the server.
fn tell<L: Link>(link: &mut L, text: &[u8]) -> Result<(), Stop>
    ensures said { Across (L.told link.old).wire (L.told link.new).wire (HasSaid text.now result) }
    ensures cause { LinkCause (L.told link.old).read_faults (L.told link.new).read_faults (L.told link.old).write_faults (L.told link.new).write_faults result }
    ensures only { IfErr result IsOfLink }
{
    match write_link(link, text) {
        Ok(()) => Ok(()),
        Err(IoFault::Failed) => Err(Stop::Link),
        Err(IoFault::Memory) => Err(Stop::Memory),
    }
}

/// Writes a line to the server.
pub(crate) fn say<L: Link>(alloc: Global, link: &mut L, line: &[u8]) -> Result<(), Stop>
    ensures said { Across (L.told link.old).wire (L.told link.new).wire (HasSaid (ended line.now) result) }
    ensures cause { LinkCause (L.told link.old).read_faults (L.told link.new).read_faults (L.told link.old).write_faults (L.told link.new).write_faults result }
    ensures only { IfErr result IsOfLink }
{
    let text = whole_line(alloc, line)?;
    tell(link, text.as_slice())
}
