//! The talk with a new replica.
ghost use Rattle.client_talk.specs.Hears.{LinkCause, OutCause};
ghost use Rattle.client_talk.specs.Lines.{lines_of};
ghost use Rattle.client_talk.specs.Meets.{HasSpoken};

use crate::Stop;
use crate::whole::converse;
use board_rules::Design;
use client_replica::Replica;
use layout_io::{Link, Sink};
use std::alloc::Global;
use std::sync::Wait;

/// Talks with the server as `converse` does, with a new replica of the design.
pub fn meet<R: Wait, L: Link, O: Sink>(
    rt: &R,
    alloc: Global,
    link: &mut L,
    design: Design,
    out: &mut O,
    text: &[u8],
) -> Result<(), Stop>
    ensures spoken { HasSpoken (lines_of text.now) design.parts (O.told out.old).written (O.told out.new).written (L.told link.old).wire (L.told link.new).wire result }
    ensures cause { LinkCause (L.told link.old).read_faults (L.told link.new).read_faults (L.told link.old).write_faults (L.told link.new).write_faults result }
    ensures out_cause { OutCause (O.told out.old).faults (O.told out.new).faults result }
{
    let mut replica = Replica::new(alloc, design)?;
    converse(rt, alloc, link, &mut replica, out, text)
}
