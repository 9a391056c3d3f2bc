//! The desk of one client.
ghost use Rattle.std.specs.Prelude.{◌≡◌, ◌≤◌, [], true, false, length, IfOk, OnErr};
ghost use Rattle.board_items.specs.Formed.{IsFormed};
ghost use Rattle.board_core.specs.Histories.{has_left};
ghost use Rattle.desk_core.specs.Desks.{answers_after};
ghost use Rattle.client_desk.specs.Standings.{journal, IsHere, IsPlaced};
ghost use Rattle.client_desk.specs.Given.{StartsWith, AreWithin, calls_of, HasAnswers};
ghost use Rattle.client_desk.specs.Seats.{IsSeatAt, desk_told};

use crate::answers::Answers;
use crate::place::Place;
use board_items::{Entries, Request};
use desk_core::{Answer, Desk, Placed};
use row_lists::Shelf;
use std::alloc::{AllocError, Global};
use std::marker::{Model, PhantomData};

/// What one client was handed out and answered, and the one who answers it.
#[derive(Drop)]
pub struct ClientDesk<M: Answers, J: Place> {
    master: M,
    client: u8,
    handed: u32,
    answers: Shelf<Answer>,
    looked: bool,
    ran_out: bool,
    left: bool,
    place: PhantomData<J>,
}

impl<M: Answers, J: Place> Model for ClientDesk<M, J> {
    ghost use Rattle.client_desk.specs.Seats.{DeskState, IsDesk, IsSeatAt};

    ghost Value = { DeskState };

    ghost view = { λ d. record { standing = M.standing d.master; client = d.client; handed = d.handed; answers = d.answers.items; looked = d.looked; ran_out = d.ran_out; left = d.left } };

    ghost invariant = { λ d. IsDesk (M.standing d.master) d.client d.handed d.answers.items d.left × IsSeatAt J.parts J.clients J.limit J.client (M.standing d.master) d.client };
}

// Has a request answered, and keeps the answer with a copy of the request. The memory is taken before it is asked.
fn ask_kept<M: Answers>(
    master: &mut M,
    client: u8,
    answers: &mut Shelf<Answer>,
    request: Request,
) -> Result<Placed, AllocError>
    requires here { IsHere (M.standing master.old) client }
    requires formed { IsFormed request }
    ensures placed { IfOk result (IsPlaced (M.standing master.old) client request (M.standing master.new)) }
    ensures err { OnErr result (M.standing master.new ≡ M.standing master.old) }
    ensures answers { answers.new.items ≡ answers_after answers.old.items request result }
{
    answers.make_room(1)?;
    let kept = request.copy(answers.allocator())?;
    let placed = master.answer(client, request)?;
    answers.put(Answer {
        request: kept,
        place: placed.place,
        reply: placed.reply,
    });
    Ok(placed)
}

impl<M: Answers, J: Place> ClientDesk<M, J> {
    /// The desk of a client who did nothing yet, over one who answers. It takes no memory.
    pub fn new(alloc: Global, master: M, client: u8) -> Self
        requires seat { IsSeatAt J.parts J.clients J.limit J.client (M.standing master) client }
        requires some { 1 ≤ client }
        requires there { client ≤ (M.standing master).clients }
        requires unheard { calls_of client (M.standing master).history ≡ [] }
        ensures { result ≡ record { standing = M.standing master; client = client; handed = 0; answers = []; looked = false; ran_out = false; left = false } }
    {
        ClientDesk {
            master,
            client,
            handed: 0,
            answers: Shelf::new(alloc),
            looked: false,
            ran_out: false,
            left: false,
            place: PhantomData,
        }
    }

    /// The one who answers, as it now stands. What the desk told stands in its history: the entries handed out begin the
    /// journal, which reaches each place, and the answers are those of the client's requests, in order and each once, and
    /// some that were full. It takes no memory.
    pub fn into_master(self) -> M
        ensures standing { M.standing result ≡ self.standing }
        ensures seat { IsSeatAt J.parts J.clients J.limit J.client (M.standing result) self.client }
        ensures handed { StartsWith (journal (M.standing result)) (desk_told self).handed }
        ensures reaches { AreWithin (length (journal (M.standing result))) self.answers }
        ensures answers { HasAnswers (M.standing result) self.client self.answers }
        ensures left { has_left self.client (M.standing result).history ≡ self.left }
    {
        let ClientDesk { master, .. } = self;
        master
    }
}

impl<M: Answers, J: Place> Desk for ClientDesk<M, J> {
    ghost use Rattle.client_desk.specs.Seats.{desk_told};

    ghost told = { desk_told };

    fn look(&mut self) -> Result<Entries, AllocError> {
        match self.master.look(self.handed) {
            Ok(entries) => {
                self.handed += entries.len() as u32;
                self.looked = true;
                Ok(entries)
            }
            Err(refused) => {
                self.ran_out = true;
                Err(refused)
            }
        }
    }

    fn ask(&mut self, request: Request) -> Result<Placed, AllocError> {
        match ask_kept(&mut self.master, self.client, &mut self.answers, request) {
            Ok(placed) => {
                self.looked = false;
                Ok(placed)
            }
            Err(refused) => {
                self.ran_out = true;
                Err(refused)
            }
        }
    }

    fn leave(&mut self) -> u32 {
        self.left = true;
        self.master.leave(self.client)
    }
}
