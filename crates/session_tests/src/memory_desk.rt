//! A desk in memory, for tests.
ghost use Rattle.std.specs.Prelude.{◌≡◌, ◌≤◌, ◌<◌, ◌^◌, ◌+◌, ◌-◌, ◌++◌, ◌∷◌, [], List, ℕ, Bool, true, false, length, take, drop, IfOk, OnOk, OnErr, is_err, is_ok, if◌then◌else◌};
ghost use Rattle.std.specs.List.{AllByRecursion};
ghost use Rattle.board_items.specs.declared.history.Entry.{Entry};
ghost use Rattle.board_items.specs.Formed.{IsFormed};
ghost use Rattle.desk_core.specs.declared.desk.Answer.{Answer};
ghost use Rattle.desk_core.specs.Desks.{IsFormedEntry, IsShown, handed_after, answers_after};
ghost use Rattle.session_tests.specs.MemoryDesks.{IsKept, IsAccepted, HasGrown};

use board_items::{Act, Entries, Entry, Reply, Request};
use desk_core::{Answer, Desk, Placed};
use std::alloc::{AllocError, Global};
use std::marker::Model;

/// The journal of a desk in memory, and the answers that were given from it.
#[derive(Drop)]
pub struct MemDesk {
    alloc: Global,
    client: u8,
    most: u32,
    journal: Vec<Entry>,
    shown: usize,
    answers: Vec<Answer>,
    looked: bool,
    ran_out: bool,
    left: bool,
}

impl Model for MemDesk {
    ghost use Rattle.session_tests.specs.MemoryDesks.{DeskState, IsKept};

    ghost Value = { DeskState };

    ghost view = { λ d. record { client = d.client; most = d.most; journal = d.journal.items; shown = d.shown; answers = d.answers.items; looked = d.looked; ran_out = d.ran_out; left = d.left } };

    ghost invariant = { λ d. IsKept d.client d.most d.journal.items d.shown d.answers.items };
}

// Puts an accepted request at the journal's end, and its answer at the end of the answers.
fn accept(
    alloc: Global,
    journal: &mut Vec<Entry>,
    answers: &mut Vec<Answer>,
    client: u8,
    request: Request,
) -> Result<Placed, AllocError>
    requires few { length journal.old.items < 2 ^ 32 - 1 }
    ensures journal { IfOk result (λ p. (a : Entry) × (journal.new.items ≡ journal.old.items ++ a ∷ []) × IsAccepted client request (length journal.old.items) a) }
    ensures journal_err { OnErr result (journal.new.items ≡ journal.old.items) }
    ensures answers { answers.new.items ≡ answers_after answers.old.items request result }
    ensures place { IfOk result (λ p. p.place ≡ length journal.old.items + 1) }
{
    let number = journal.len() as u32 + 1;
    let copy = request.copy(alloc)?;
    journal.reserve(1)?;
    let reply = Reply::Done { number };
    answers.push(Answer {
        request,
        place: number,
        reply,
    })?;
    journal
        .push(Entry {
            number,
            client,
            act: Act::Ask { request: copy },
        })
        .unwrap();
    Ok(Placed {
        place: number,
        reply,
    })
}

// Puts a client's entry at the journal's end.
fn note_entry(journal: &mut Vec<Entry>, client: u8, request: Request) -> Result<(), AllocError>
    requires few { length journal.old.items < 2 ^ 32 - 1 }
    ensures ok { OnOk result ((a : Entry) × (journal.new.items ≡ journal.old.items ++ a ∷ []) × IsAccepted client request (length journal.old.items) a) }
    ensures err { OnErr result (journal.new.items ≡ journal.old.items) }
{
    let number = journal.len() as u32 + 1;
    journal.push(Entry {
        number,
        client,
        act: Act::Ask { request },
    })?;
    Ok(())
}

// Answers that the journal is full.
fn refuse(answers: &mut Vec<Answer>, request: Request, place: u32) -> Result<Placed, AllocError>
    ensures answers { answers.new.items ≡ answers_after answers.old.items request result }
    ensures place { IfOk result (λ p. p.place ≡ place) }
{
    let reply = Reply::Full;
    answers.push(Answer {
        request,
        place,
        reply,
    })?;
    Ok(Placed { place, reply })
}

// Has the request answered, at the end of the journal.
fn place(
    alloc: Global,
    journal: &mut Vec<Entry>,
    answers: &mut Vec<Answer>,
    client: u8,
    most: u32,
    request: Request,
) -> Result<Placed, AllocError>
    requires { length journal.old.items ≤ most }
    ensures journal { HasGrown client most request journal.old.items journal.new.items }
    ensures answers { answers.new.items ≡ answers_after answers.old.items request result }
    ensures place { IfOk result (λ p. (length journal.old.items ≤ p.place) × (p.place ≡ length journal.new.items)) }
{
    if journal.len() < most as usize {
        accept(alloc, journal, answers, client, request)
    } else {
        refuse(answers, request, journal.len() as u32)
    }
}

impl MemDesk {
    /// A desk of a client, whose journal takes so many entries. It takes no memory.
    pub fn new(alloc: Global, client: u8, most: u32) -> MemDesk
        requires some { 1 ≤ client }
        requires fits { client ≤ 8 }
        ensures { result ≡ record { client = client; most = most; journal = []; shown = 0; answers = []; looked = false; ran_out = false; left = false } }
    {
        MemDesk {
            alloc,
            client,
            most,
            journal: Vec::new(alloc),
            shown: 0,
            answers: Vec::new(alloc),
            looked: false,
            ran_out: false,
            left: false,
        }
    }

    /// Puts an entry of a client at the journal's end, as if that client had asked elsewhere. An
    /// `Err`, for want of memory, leaves the desk as it was.
    pub fn note(&mut self, client: u8, request: Request) -> Result<(), AllocError>
        requires some_client { 1 ≤ client }
        requires client_fits { client ≤ 8 }
        requires formed { IsFormed request }
        requires room { length self.old.journal < self.old.most }
        ensures journal { HasGrown client self.old.most request self.old.journal self.new.journal }
        ensures rest { self.new ≡ record self.old { journal = self.new.journal } }
    {
        note_entry(&mut self.journal, client, request)
    }

    /// Whether it has left.
    pub fn has_left(&self) -> bool
        ensures { result ≡ self.now.left }
    {
        self.left
    }

    /// The requests that were answered, each with its place and reply.
    pub fn given(&self) -> &[Answer]
        ensures { result.now ≡ self.now.answers }
    {
        &self.answers
    }
}

impl Desk for MemDesk {
    ghost use Rattle.session_tests.specs.MemoryDesks.{desk_told};

    ghost told = { λ d. desk_told d };

    fn look(&mut self) -> Result<Entries, AllocError> {
        match Entries::copy_of(self.alloc, &self.journal[self.shown..]) {
            Ok(entries) => {
                self.shown = self.journal.len();
                self.looked = true;
                Ok(entries)
            }
            Err(refused) => {
                self.ran_out = true;
                Err(refused)
            }
        }
    }

    fn ask(&mut self, request: Request) -> Result<Placed, AllocError> {
        match place(
            self.alloc,
            &mut self.journal,
            &mut self.answers,
            self.client,
            self.most,
            request,
        ) {
            Ok(placed) => {
                self.looked = false;
                Ok(placed)
            }
            Err(refused) => {
                self.ran_out = true;
                Err(refused)
            }
        }
    }

    fn leave(&mut self) -> u32 {
        self.left = true;
        (self.journal.len() as u32).saturating_add(1)
    }
}
