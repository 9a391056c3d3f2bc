//! Lines out of bytes that come in pieces.
ghost use Rattle.std.specs.Prelude.{◌≡◌, ◌++◌, ◌∷◌, [], List, ℕ, IfOk, MatchOption, is_ok, if◌then◌else◌, ◌==◌};
ghost use Rattle.std.specs.List.{position, AllByRecursion};
ghost use Rattle.session_wire.specs.Steps.{IsLine};
ghost use Rattle.session_wire.specs.Kept.{kept, first_length, Takes, IsCut};

use layout_io::Bytes;
use row_lists::{LINE_LIMIT_BYTES, Row};
use std::alloc::{AllocError, Global};
use std::collections::VecDeque;
use std::marker::Model;

/// What comes next out of the bytes that a feeder keeps.
#[derive(Debug, Drop)]
pub enum Next {
    /// The first line, without its line end.
    Line { bytes: Bytes },
    /// No line end was fed yet.
    NotYet,
    /// More bytes than a line may have hold no line end.
    TooLong,
}

/// Bytes that were fed and not yet taken, seen by contracts as these bytes. Whole lines are kept one
/// by one, so that taking a line moves no other byte and takes no memory.
#[derive(Drop)]
pub struct Feeder {
    alloc: Global,
    lines: VecDeque<Bytes>,
    tail: Bytes,
}

impl Model for Feeder {
    ghost use Rattle.std.specs.Prelude.{List, ℕ};
    ghost use Rattle.session_wire.specs.Kept.{kept, AreCut};

    ghost Value = { List ℕ };

    ghost view = { λ f. kept f.lines.items f.tail };

    ghost invariant = { λ f. AreCut f.lines.items f.tail };
}

// Lines, and what follows the last of them.
#[derive(Drop)]
struct Cut {
    lines: VecDeque<Bytes>,
    tail: Bytes,
}

fn break_of(text: &[u8]) -> Option<usize>
    ensures { result ≡ position (λ b. b == 10) text.now }
{
    text.iter().position(|b| *b == b'\n')
}

// The first line without its end, and what follows it, where there is a line end.
fn split_line(text: &[u8]) -> Option<(&[u8], &[u8])>
    ensures { MatchOption result (IsLine text.now) (λ x. IsLine x.0.now × (text.now ≡ x.0.now ++ 10 ∷ x.1.now)) }
{
    let end = break_of(text)?;
    let (line, rest) = text.split_at(end);
    let (_, after) = rest.split_at(1);
    Some((line, after))
}

// The lines of a piece, the first of which began before.
fn cut_lines(alloc: Global, before: &Bytes, piece: &[u8]) -> Result<Cut, AllocError>
    requires { IsLine before.now }
    ensures { IfOk result (λ c. IsCut (before.now ++ piece.now) c.lines.items c.tail) }
{
    let mut lines = VecDeque::new(alloc);
    let mut line = before.copy()?;
    let mut rest = piece;
    'lines: while let Some((front, after)) = split_line(rest) {
        line.append(front)?;
        lines.push_back(line)?;
        line = Row::new(alloc);
        rest = after;
    }
    line.append(rest)?;
    Ok(Cut { lines, tail: line })
}

// The length of the first line, or 0 where there is none.
fn first_length(lines: &VecDeque<Bytes>) -> usize
    ensures { result ≡ first_length lines.now.items }
{
    match lines.front() {
        None => 0,
        Some(line) => line.len(),
    }
}

impl Feeder {
    /// A feeder that keeps no byte. It takes no memory.
    pub fn new(alloc: Global) -> Feeder
        ensures { result ≡ [] }
    {
        Feeder {
            alloc,
            lines: VecDeque::new(alloc),
            tail: Row::new(alloc),
        }
    }

    /// Takes a piece in behind the bytes kept. After an `Err`, for want of memory, they are as before.
    pub fn feed(&mut self, piece: &[u8]) -> Result<(), AllocError>
        ensures { self.new ≡ (if is_ok result then self.old ++ piece.now else self.old) }
    {
        match split_line(piece) {
            None => self.tail.append(piece),
            Some(_) => {
                let mut cut = cut_lines(self.alloc, &self.tail, piece)?;
                self.lines.append(&mut cut.lines)?;
                self.tail = cut.tail;
                Ok(())
            }
        }
    }

    /// Takes the first line and its line end off. Where there is none, the bytes stay.
    pub fn take_line(&mut self) -> Next
        ensures { Takes self.old self.new result }
    {
        if first_length(&self.lines) > LINE_LIMIT_BYTES {
            return Next::TooLong;
        }
        if let Some(bytes) = self.lines.pop_front() {
            return Next::Line { bytes };
        }
        if self.tail.len() > LINE_LIMIT_BYTES {
            return Next::TooLong;
        }
        Next::NotYet
    }
}
