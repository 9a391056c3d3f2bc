//! The whole talk, from the line that greets to the board's line.
ghost use Rattle.std.specs.Prelude.{◌≡◌, ◌++◌, ◌∷◌, [], IfOk, OnOk, codes, length};
ghost use Rattle.layout_io.specs.Links.{Across};
ghost use Rattle.session_wire.specs.Numbers.{number_text};
ghost use Rattle.client_talk.specs.Hears.{HasPrinted, LinkCause, OutCause};
ghost use Rattle.client_talk.specs.Lines.{lines_of};
ghost use Rattle.client_talk.specs.Talks.{board_line, HasConversed};

use crate::Stop;
use crate::input::Input;
use crate::print::print;
use crate::talk::{greeted, talk};
use client_replica::Replica;
use itoa::Buffer;
use layout_io::{Bytes, Link, Row, Sink};
use std::alloc::{AllocError, Global};
use std::sync::Wait;

// A number behind a space.
fn put_number(to: &mut Bytes, number: u32) -> Result<(), AllocError>
    ensures { OnOk result (to.new ≡ to.old ++ number_text number) }
{
    let mut buffer = Buffer::new();
    to.append(b" ".as_slice())?;
    to.append(buffer.format(number).as_bytes())
}

// The board's line.
fn board_text(alloc: Global, count: u32, live: u32) -> Result<Bytes, AllocError>
    ensures { IfOk result (λ text. text ≡ board_line count live) }
{
    let mut text = Row::from_slice(alloc, b"board".as_slice())?;
    put_number(&mut text, count)?;
    put_number(&mut text, live)?;
    text.append(b"\n".as_slice())?;
    Ok(text)
}

// Writes the board's line to the output.
fn print_board<O: Sink>(alloc: Global, replica: &Replica, out: &mut O) -> Result<(), Stop>
    ensures printed { HasPrinted (board_line replica.now.board.count (length replica.now.board.live)) (O.told out.old).written (O.told out.new).written result }
    ensures cause { OutCause (O.told out.old).faults (O.told out.new).faults result }
{
    let text = board_text(alloc, replica.count(), replica.board().live())?;
    print(out, text.as_slice())
}

/// Talks with the server over the link: the lines of a text go out, and what comes is copied to the output and
/// goes to the replica. The board's line follows.
pub fn converse<R: Wait, L: Link, O: Sink>(
    rt: &R,
    alloc: Global,
    link: &mut L,
    replica: &mut Replica,
    out: &mut O,
    text: &[u8],
) -> Result<(), Stop>
    ensures conversed { Across (L.told link.old).wire (L.told link.new).wire (HasConversed (lines_of text.now) replica.old replica.new (O.told out.old).written (O.told out.new).written result) }
    ensures cause { LinkCause (L.told link.old).read_faults (L.told link.new).read_faults (L.told link.old).write_faults (L.told link.new).write_faults result }
    ensures out_cause { OutCause (O.told out.old).faults (O.told out.new).faults result }
{
    let mut input = Input::new(alloc);
    greeted(rt, alloc, link, &mut input, out)?;
    talk(rt, alloc, link, &mut input, replica, out, text)?;
    print_board(alloc, replica, out)
}
