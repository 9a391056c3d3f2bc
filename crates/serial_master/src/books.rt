//! The steps of an answer: a request that has room is decided on and taken, and a leave is taken.
ghost use Rattle.std.specs.Prelude.{◌≡◌, ◌↔◌, ◌+◌, ◌*◌, ◌<◌, ◌≤◌, ◌^◌, true, IsTrue, IfOk, OnOk, OnErr, is_ok, length};
ghost use Rattle.board_items.specs.Formed.{IsFormed, IsFormedAct};
ghost use Rattle.board_items.specs.declared.history.Act.TheVariants as acts;
ghost use Rattle.board_core.specs.Boards.{HasFitAct, taken_by};
ghost use Rattle.board_core.specs.Histories.{IsPresent, is_leave};
ghost use Rattle.serial_master.specs.Books.{IsAtJournal, IsKept, HasStayed, HasTaken, HasDecided, HasAnswered, HasLeft};

use board_core::{Board, slow_answer};
use board_items::{Act, Call, Entry, Reply, Request, weight};
use board_rules::Design;
use desk_core::Placed;
use row_lists::Shelf;
use seg_geometry::Steps;
use std::alloc::AllocError;
use std::sync::ledger::{Blank, Ledger};

/// What stays: the design, how many clients there are, and what a history may weigh.
#[derive(Drop)]
pub struct Terms {
    pub design: Design,
    pub clients: u8,
    pub limit: u32,
}

/// The history with its weight, how many clients are present, and the journal with the board after it.
#[derive(Drop)]
pub struct Books {
    pub board: Board,
    pub journal: Shelf<Entry>,
    pub history: Shelf<Call>,
    pub weight: u32,
    pub present: u32,
}

// Puts an act at the journal's end, in room that was made. A leave takes no memory.
fn take(terms: &Terms, books: &mut Books, client: u8, act: Act) -> Result<(), AllocError>
    requires at { IsAtJournal terms.now books.old }
    requires formed { IsFormedAct act }
    requires fit { HasFitAct terms.now.design.parts act }
    requires numbers { books.old.board.next_id + taken_by act < 2 ^ 32 }
    requires count { length books.old.journal.items + 1 < 2 ^ 32 }
    requires room { 0 < books.old.journal.room }
    ensures ok { OnOk result (HasTaken terms.now books.old client act books.new) }
    ensures err { OnErr result (HasStayed terms.now books.old books.new) }
    ensures leave { is_leave act ≡ true → is_ok result ≡ true }
{
    let number = books.journal.len() as u32 + 1;
    let entry = Entry {
        number,
        client,
        act,
    };
    books.board.apply(&entry)?;
    books.journal.put(entry);
    Ok(())
}

// Whether the history has no room for a call that weighs so much, beside a leave of each client that is present.
fn is_full(terms: &Terms, books: &Books, weight: u32) -> bool
    ensures { IsTrue result ↔ terms.now.limit < books.now.weight + weight + 2 * books.now.present }
{
    let calls = books.weight;
    let present = books.present;
    u64::from(calls) + u64::from(weight) + 2 * u64::from(present) > u64::from(terms.limit)
}

// Decides on a request that has room, at the journal as it is.
fn decide<L: Ledger>(
    terms: &Terms,
    books: &mut Books,
    client: u8,
    request: Request,
    blank: Blank,
) -> Result<Reply, AllocError>
    requires name { blank.name ≡ L.name }
    requires parts { blank.parts ≡ L.parts }
    requires some { 0 < blank.parts }
    requires at { IsAtJournal terms.now books.old }
    requires formed { IsFormed request }
    requires numbers { books.old.board.next_id + taken_by (acts.Ask request) < 2 ^ 32 }
    requires count { length books.old.journal.items + 1 < 2 ^ 32 }
    requires room { 0 < books.old.journal.room }
    ensures ok { IfOk result (λ reply. HasDecided terms.now books.old client request books.new reply) }
    ensures err { OnErr result (HasStayed terms.now books.old books.new) }
{
    let mut steps = Steps::<L>::new(blank);
    match slow_answer(
        &terms.design,
        &books.board,
        terms.clients,
        client,
        &request,
        &mut steps,
    ) {
        Some(why) => Ok(Reply::No { why }),
        None => {
            let number = books.journal.len() as u32 + 1;
            take(terms, books, client, Act::Ask { request })?;
            Ok(Reply::Done { number })
        }
    }
}

// Makes room in both lists for a call and its entry, beside a leave of each client that is present.
fn make_room(terms: &Terms, books: &mut Books) -> Result<(), AllocError>
    requires { IsAtJournal terms.now books.old }
    ensures stayed { HasStayed terms.now books.old books.new }
    ensures journal { OnOk result (books.old.present + 1 ≤ books.new.journal.room) }
    ensures history { OnOk result (books.old.present + 1 ≤ books.new.history.room) }
{
    let count = books.present as usize + 1;
    books.journal.make_room(count)?;
    books.history.make_room(count)
}

/// Answers one request behind the calls as they are. After an `Err`, for want of memory, all is as before.
pub fn ask<L: Ledger>(
    terms: &Terms,
    books: &mut Books,
    client: u8,
    request: Request,
    blank: Blank,
) -> Result<Placed, AllocError>
    requires name { blank.name ≡ L.name }
    requires parts { blank.parts ≡ L.parts }
    requires some { 0 < blank.parts }
    requires kept { IsKept terms.now books.old }
    requires formed { IsFormed request }
    requires present { IsPresent terms.now.clients books.old.history.items client }
    ensures ok { IfOk result (λ placed. HasAnswered terms.now books.old client request books.new placed) }
    ensures err { OnErr result (HasStayed terms.now books.old books.new) }
{
    let base = books.journal.len() as u32;
    let act = Act::Ask {
        request: request.copy(books.journal.allocator())?,
    };
    let weight = weight(&act);
    if is_full(terms, books, weight) {
        return Ok(Placed {
            place: base,
            reply: Reply::Full,
        });
    }
    make_room(terms, books)?;
    let reply = decide::<L>(terms, books, client, request, blank)?;
    books.history.put(Call {
        client,
        base,
        act,
        reply,
    });
    books.weight += weight;
    Ok(Placed {
        place: books.journal.len() as u32,
        reply,
    })
}

/// Answers the leave of a client, and gives the number of its entry. It takes no memory.
pub fn leave(terms: &Terms, books: &mut Books, client: u8) -> u32
    requires kept { IsKept terms.now books.old }
    requires present { IsPresent terms.now.clients books.old.history.items client }
    ensures left { HasLeft terms.now books.old client books.new }
    ensures number { result ≡ length books.old.journal.items + 1 }
{
    let base = books.journal.len() as u32;
    let _taken = take(terms, books, client, Act::Leave);
    books.history.put(Call {
        client,
        base,
        act: Act::Leave,
        reply: Reply::Left { number: base + 1 },
    });
    books.weight += 2;
    books.present -= 1;
    base + 1
}
