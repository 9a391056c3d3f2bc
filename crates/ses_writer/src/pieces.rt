//! The text of a session in pieces.
ghost use Rattle.std.specs.Prelude.{◌≡◌, ◌<◌, ◌^◌, IfOk, length, min, take, drop};
ghost use Rattle.board_core.specs.Boards.{IsBoardOf};
ghost use Rattle.ses_writer.specs.Session.{session_of};

use crate::session::session_text;
use board_core::Board;
use board_rules::Design;
use layout_io::Bytes;
use std::alloc::{AllocError, Global};
use std::marker::Model;

/// How many bytes a piece has, but for the last one.
const PIECE: usize = 4096;

/// The session text of a design and a board, seen by contracts as the bytes that are left to take.
#[derive(Debug, Drop)]
pub struct SesPieces {
    text: Bytes,
    taken: usize,
}

impl Model for SesPieces {
    ghost use Rattle.std.specs.Prelude.{List, ℕ, ◌≤◌, length, drop};

    ghost Value = { List ℕ };

    ghost view = { λ s. drop s.taken s.text };

    ghost invariant = { λ s. s.taken ≤ length s.text };
}

impl SesPieces {
    /// The session text of a design and a board, to be taken in pieces. The whole text is made here, in
    /// memory, in one walk over the live items. Its one error is want of memory.
    pub fn new(alloc: Global, design: &Design, board: &Board) -> Result<SesPieces, AllocError>
        requires { IsBoardOf design.now.parts board.now }
        ensures { IfOk result (λ s. s ≡ session_of design.now.parts board.now.live) }
    {
        let text = session_text(alloc, design, board)?;
        Ok(SesPieces { text, taken: 0 })
    }

    /// Puts the next bytes of the text into the front of the room, and says how many: 4,096 where so many are
    /// left, else all that are left; 0 exactly at its end. It takes no memory.
    pub fn next(&mut self, into: &mut [u8; 4096]) -> usize
        ensures count { result ≡ min 4096 (length self.old) }
        ensures piece { take result into.new ≡ take result self.old }
        ensures rest { self.new ≡ drop result self.old }
    {
        let left = &self.text.as_slice()[self.taken..];
        let count = left.len().min(PIECE);
        into[..count].copy_from_slice(&left[..count]);
        self.taken += count;
        count
    }
}
