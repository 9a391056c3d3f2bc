//! What came over the link and wasn't taken yet.
ghost use Rattle.std.specs.Prelude.{◌≡◌, ◌≤◌, ◌++◌, ◌∷◌, [], drop, length, IfOk, OnErr, is_ok, if◌then◌else◌};
ghost use Rattle.client_talk.specs.Inputs.{TakesLine};

use crate::lines::split_line;
use layout_io::{Bytes, Row};
use std::alloc::{AllocError, Global};
use std::marker::Model;

/// Bytes that came and weren't taken yet, seen by contracts as these bytes.
#[derive(Drop)]
pub(crate) struct Input {
    alloc: Global,
    bytes: Bytes,
    at: usize,
}

impl Model for Input {
    ghost use Rattle.std.specs.Prelude.{List, ℕ, drop, length, ◌≤◌};

    ghost Value = { List ℕ };

    ghost view = { λ i. drop i.at i.bytes };

    ghost invariant = { λ i. i.at ≤ length i.bytes };
}

impl Input {
    /// No bytes. It takes no memory.
    pub(crate) fn new(alloc: Global) -> Input
        ensures { result ≡ [] }
    {
        Input {
            alloc,
            bytes: Row::new(alloc),
            at: 0,
        }
    }

    // The bytes.
    fn rest(&self) -> &[u8]
        ensures { result.now ≡ self.now }
    {
        let (_, rest) = self.bytes.as_slice().split_at(self.at);
        rest
    }

    /// Puts a piece behind the bytes. After an `Err`, for want of memory, they are as before.
    pub(crate) fn feed(&mut self, piece: &[u8]) -> Result<(), AllocError>
        ensures { self.new ≡ (if is_ok result then self.old ++ piece.now else self.old) }
    {
        let mut bytes = Row::from_slice(self.alloc, self.rest())?;
        bytes.append(piece)?;
        self.bytes = bytes;
        self.at = 0;
        Ok(())
    }

    /// Takes the first line and its end off, where there is one. After an `Err`, for want of memory, the bytes
    /// are as before.
    pub(crate) fn take_line(&mut self) -> Result<Option<Bytes>, AllocError>
        ensures { TakesLine self.old self.new result }
    {
        let Some((front, after)) = split_line(self.rest()) else {
            return Ok(None);
        };
        let line = Row::from_slice(self.alloc, front)?;
        let left = after.len();
        self.at = self.bytes.len() - left;
        Ok(Some(line))
    }
}
