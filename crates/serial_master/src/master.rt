//! The master of one history.
ghost use Rattle.std.specs.Prelude.{◌≡◌, ◌≤◌, [], ℕ, IfOk};
ghost use Rattle.row_lists.specs.Limits.{client_limit, weight_limit};
ghost use Rattle.board_core.specs.Boards.{last_board, IsBoardOf, IsSameBoard};
ghost use Rattle.board_core.specs.Histories.{journal_of, IsLegal};
ghost use Rattle.serial_master.specs.Bases.{AreAtEnd, IsFresh};
ghost use Rattle.serial_master.specs.Books.{IsKept};

use crate::books::{Books, Terms, ask, leave};
use board_core::Board;
use board_items::{Call, Calls, Entries, Entry, Request};
use board_rules::Design;
use client_desk::Answers;
use desk_core::Placed;
use row_lists::{Row, Shelf};
use std::alloc::{AllocError, Global};
use std::marker::{Brand, Model};
use std::sync::ledger::Blank;

/// Answers requests and leaves one after another, each at the journal as it is then, by testing every pair. It keeps room
/// for the leave of each client that is present, so that a leave takes no memory.
#[derive(Drop)]
pub struct SerialMaster {
    terms: Terms,
    books: Books,
}

impl Model for SerialMaster {
    ghost use Rattle.client_desk.specs.Standings.{Standing};
    ghost use Rattle.serial_master.specs.Books.{standing_of, IsKept};

    ghost Value = { Standing };

    ghost view = { λ m. standing_of m.terms m.books };

    ghost invariant = { λ m. IsKept m.terms m.books };
}

// The books before the first call, with room for the leave of each client.
fn opened(alloc: Global, terms: &Terms) -> Result<Books, AllocError>
    requires some { 1 ≤ terms.now.clients }
    requires few { terms.now.clients ≤ client_limit }
    requires least { 16 ≤ terms.now.limit }
    requires most { terms.now.limit ≤ weight_limit }
    ensures kept { IfOk result (IsKept terms.now) }
    ensures history { IfOk result (λ books. books.history.items ≡ []) }
{
    let mut journal = Shelf::new(alloc);
    journal.make_room(usize::from(terms.clients))?;
    let mut history = Shelf::new(alloc);
    history.make_room(usize::from(terms.clients))?;
    Ok(Books {
        board: Board::new(alloc, &terms.design)?,
        journal,
        history,
        weight: 0,
        present: u32::from(terms.clients),
    })
}

impl SerialMaster {
    /// A master of a design with an empty history, for 1 to 8 clients, and with the limit of a history's weight, 16 to
    /// 16,777,216. It takes the room for the leave of each client. Its one error is want of memory.
    pub fn start(
        alloc: Global,
        design: Design,
        clients: u8,
        limit: u32,
    ) -> Result<SerialMaster, AllocError>
        requires some { 1 ≤ clients }
        requires few { clients ≤ client_limit }
        requires least { 16 ≤ limit }
        requires most { limit ≤ weight_limit }
        ensures { IfOk result (λ m. m ≡ record { parts = design.parts; clients = clients; limit = limit; history = [] }) }
    {
        let terms = Terms {
            design,
            clients,
            limit,
        };
        let books = opened(alloc, &terms)?;
        Ok(SerialMaster { terms, books })
    }

    /// The calls in the order in which they were answered. Each was answered at the journal as it was then, and that
    /// journal's length is its base.
    pub fn history(&self) -> &[Call]
        ensures value { result.now ≡ self.now.history }
        ensures legal { IsLegal self.now.parts self.now.clients self.now.limit result.now }
        ensures bases { AreAtEnd [] result.now }
        ensures fresh { (client : ℕ) → IsFresh client result.now }
    {
        self.books.history.as_slice()
    }

    /// The entries that the calls made.
    pub fn journal(&self) -> &[Entry]
        ensures { result.now ≡ journal_of self.now.history }
    {
        self.books.journal.as_slice()
    }

    /// The board after the journal.
    pub fn board(&self) -> &Board
        ensures last { IsSameBoard result.now (last_board self.now.parts (journal_of self.now.history)) }
        ensures fits { IsBoardOf self.now.parts result.now }
    {
        &self.books.board
    }

    /// The design that the master was started with.
    pub fn design(&self) -> &Design
        ensures { result.now.parts ≡ self.now.parts }
    {
        &self.terms.design
    }

    /// The history and the journal. It takes no memory.
    pub fn into_lists(self) -> (Calls, Entries)
        ensures history { result.0 ≡ self.history }
        ensures journal { result.1 ≡ journal_of self.history }
    {
        let SerialMaster { books, .. } = self;
        let Books {
            journal,
            history,
            ..
        } = books;
        (
            Row::from_vec(history.into_vec()),
            Row::from_vec(journal.into_vec()),
        )
    }
}

impl Answers for SerialMaster {
    ghost standing = { λ m. m };

    fn look(&mut self, from: u32) -> Result<Entries, AllocError> {
        let journal = &self.books.journal;
        Entries::copy_of(journal.allocator(), &journal.as_slice()[from as usize..])
    }

    fn answer(&mut self, client: u8, request: Request) -> Result<Placed, AllocError> {
        ask::<Brand>(&self.terms, &mut self.books, client, request, Blank::new(1))
    }

    fn leave(&mut self, client: u8) -> u32 {
        leave(&self.terms, &mut self.books, client)
    }
}
