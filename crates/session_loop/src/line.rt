//! What a line is answered: one turn of a session.
ghost use Rattle.std.specs.Prelude.{◌≡◌, ◌≤◌, ◌<◌, ◌++◌, ◌∷◌, [], List, ℕ, false, codes, length, IfOk, OnOk, OnErr, IfSome, IfNone};
ghost use Rattle.session_wire.specs.Numbers.{number_text};
ghost use Rattle.session_wire.specs.Kept.{Takes};
ghost use Rattle.board_items.specs.Formed.{IsFormed};
ghost use Rattle.session_loop.specs.Transcripts.{Reading, Asks, hello_line, bad_line, long_line};
ghost use Rattle.session_loop.specs.Sessions.{Says, IsShort};
ghost use Rattle.session_loop.specs.Turns.{Grew, IsAhead, IsTurn, IsNext, SaidAtMost, AnsweredAtMost, NextAtMost, IsQuiet, IsThen};

use crate::request::answer;
use crate::turn::{Ahead, Then, Turn};
use board_items::{Reply, Request};
use desk_core::Desk;
use itoa::Buffer;
use layout_io::{Bytes, Row};
use session_wire::{Feeder, LineFault, Message, Next, decode_line};
use std::alloc::{AllocError, Global};

// A number behind a space.
fn put_number(to: &mut Bytes, number: u32) -> Result<(), AllocError>
    ensures { OnOk result (to.new ≡ to.old ++ number_text number) }
{
    let mut buffer = Buffer::new();
    to.append(b" ".as_slice())?;
    to.append(buffer.format(number).as_bytes())
}

/// The line that greets.
pub(crate) fn hello_text(alloc: Global, client: u8, clients: u8) -> Result<Bytes, AllocError>
    ensures { IfOk result (λ text. text ≡ hello_line client clients) }
{
    let mut text = Row::from_slice(alloc, b"hello".as_slice())?;
    put_number(&mut text, u32::from(client))?;
    put_number(&mut text, u32::from(clients))?;
    text.append(b"\n".as_slice())?;
    Ok(text)
}

fn bad_text(alloc: Global, at: u32) -> Result<Bytes, AllocError>
    ensures { IfOk result (λ text. text ≡ bad_line at) }
{
    let mut text = Row::from_slice(alloc, b"bad".as_slice())?;
    put_number(&mut text, at)?;
    text.append(b"\n".as_slice())?;
    Ok(text)
}

// What comes behind a reply.
fn then_of(reply: Reply) -> Then
    ensures { IsThen reply result }
{
    match reply {
        Reply::Full => Then::Full,
        _ => Then::On,
    }
}

// The turn of a request.
fn ask_turn<K: Desk>(
    alloc: Global,
    desk: &mut K,
    ahead: &mut Ahead,
    request: Request,
) -> Result<Turn, AllocError>
    requires here { (K.told desk.old).left ≡ false }
    requires able { (K.told desk.old).ran_out ≡ false }
    requires formed { IsFormed request }
    ensures turn { IfOk result (λ turn. (k : ℕ) → IsAhead ahead.old (K.told desk.old).handed k → IsTurn (Asks request) k (K.told desk.new).handed (K.told desk.old).answers (K.told desk.new).answers ahead.new turn) }
    ensures at_most { OnErr result (AnsweredAtMost request (K.told desk.old).answers (K.told desk.new).answers) }
    ensures grew { Grew (K.told desk.old).handed (K.told desk.new).handed }
    ensures able { OnOk result ((K.told desk.new).ran_out ≡ false) }
    ensures here { (K.told desk.new).left ≡ false }
{
    let (reply, text) = answer(alloc, desk, ahead, request)?;
    Ok(Turn {
        text,
        goes: then_of(reply),
    })
}

// The turn of a line.
fn line_turn<K: Desk>(
    alloc: Global,
    desk: &mut K,
    ahead: &mut Ahead,
    line: &[u8],
) -> Result<Turn, AllocError>
    requires here { (K.told desk.old).left ≡ false }
    requires able { (K.told desk.old).ran_out ≡ false }
    ensures turn { IfOk result (λ turn. (k : ℕ) → IsAhead ahead.old (K.told desk.old).handed k → (r : Reading) × Says line.now r × IsTurn r k (K.told desk.new).handed (K.told desk.old).answers (K.told desk.new).answers ahead.new turn) }
    ensures at_most { OnErr result (SaidAtMost line.now (K.told desk.old).answers (K.told desk.new).answers) }
    ensures grew { Grew (K.told desk.old).handed (K.told desk.new).handed }
    ensures able { OnOk result ((K.told desk.new).ran_out ≡ false) }
    ensures here { (K.told desk.new).left ≡ false }
{
    match decode_line(alloc, line) {
        Err(LineFault::Memory) => Err(AllocError),
        Err(LineFault::Bad { at }) => Ok(Turn {
            text: bad_text(alloc, at)?,
            goes: Then::On,
        }),
        Ok(Message::Bye) => Ok(Turn {
            text: Row::new(alloc),
            goes: Then::Bye,
        }),
        Ok(Message::Ask { request }) => ask_turn(alloc, desk, ahead, request),
    }
}

// The turn of bytes that are too long for a line.
fn long_turn(alloc: Global) -> Result<Turn, AllocError>
    ensures { IfOk result (λ turn. turn ≡ record { text = long_line; goes = Then.TooLong }) }
{
    Ok(Turn {
        text: Row::from_slice(alloc, b"long\n".as_slice())?,
        goes: Then::TooLong,
    })
}

/// The next turn, where a whole line is kept, or more than one may have.
pub(crate) fn next_turn<K: Desk>(
    alloc: Global,
    desk: &mut K,
    feeder: &mut Feeder,
    ahead: &mut Ahead,
) -> Result<Option<Turn>, AllocError>
    requires here { (K.told desk.old).left ≡ false }
    requires able { (K.told desk.old).ran_out ≡ false }
    ensures turn { IfOk result (λ o. IfSome o (λ turn. (k : ℕ) → IsAhead ahead.old (K.told desk.old).handed k → IsNext feeder.old feeder.new k (K.told desk.new).handed (K.told desk.old).answers (K.told desk.new).answers ahead.new turn)) }
    ensures none { IfOk result (λ o. IfNone o (IsShort feeder.old × IsQuiet (K.told desk.old).handed (K.told desk.new).handed (K.told desk.old).answers (K.told desk.new).answers feeder.old feeder.new ahead.old ahead.new)) }
    ensures less { IfOk result (λ o. IfSome o (λ turn. turn.goes ≡ Then.On → length feeder.new < length feeder.old)) }
    ensures at_most { OnErr result (NextAtMost feeder.old (K.told desk.old).answers (K.told desk.new).answers) }
    ensures grew { Grew (K.told desk.old).handed (K.told desk.new).handed }
    ensures able { OnOk result ((K.told desk.new).ran_out ≡ false) }
    ensures here { (K.told desk.new).left ≡ false }
{
    match feeder.take_line() {
        Next::NotYet => Ok(None),
        Next::TooLong => Ok(Some(long_turn(alloc)?)),
        Next::Line { bytes } => Ok(Some(line_turn(alloc, desk, ahead, bytes.as_slice())?)),
    }
}
