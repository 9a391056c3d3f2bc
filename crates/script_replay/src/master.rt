//! The serial master: each event is answered at the journal as it is then.
ghost use Rattle.std.specs.Prelude.{◌≡◌, ◌↔◌, ◌+◌, ◌*◌, ◌<◌, ◌≤◌, ◌^◌, [], ◌∷◌, ℕ, false, IsTrue, IfOk, OnOk, length};
ghost use Rattle.row_lists.specs.Limits.{client_limit, weight_limit};
ghost use Rattle.board_items.specs.Formed.{IsFormed, IsFormedAct};
ghost use Rattle.board_items.specs.declared.history.Act.TheVariants as acts;
ghost use Rattle.board_core.specs.Boards.{HasFitAct, taken_by};
ghost use Rattle.board_core.specs.Histories.{IsPresent, has_left};
ghost use Rattle.session_wire.specs.Steps.{IsStep};
ghost use Rattle.script_replay.specs.Scripts.{AreDue, client_of, events_of, events_of_steps};
ghost use Rattle.script_replay.specs.Masters.{IsAtJournal, IsSerialMaster, HasTaken, HasDecided, HasReplied, IsBegun};
ghost use Rattle.script_replay.specs.Replays.{Serves};

use board_core::{Board, slow_answer};
use board_items::{Act, Call, Calls, Entries, Entry, Reply, Request, weight};
use board_rules::Design;
use row_lists::{CLIENT_LIMIT, Row, WEIGHT_LIMIT};
use seg_geometry::Steps;
use session_wire::{ScriptStep, ScriptSteps};
use std::alloc::{AllocError, Global};
use std::sync::ledger::{Blank, Ledger};

/// What a client was answered.
#[derive(Clone, Copy, Debug, PartialEq, Eq)]
pub struct Answered {
    pub client: u8,
    pub reply: Reply,
}

/// The history with its weight, how many clients are present, and the journal with the board after it.
#[derive(Drop)]
pub struct SerialMaster {
    pub board: Board,
    pub journal: Entries,
    pub history: Calls,
    pub weight: u32,
    pub present: u32,
}

/// The answers to a script, and what stands at its end.
#[derive(Drop)]
pub struct Run {
    pub answers: Row<Answered>,
    pub master: SerialMaster,
}

// Puts an act at the journal's end.
fn take(design: &Design, master: &mut SerialMaster, client: u8, act: Act) -> Result<(), AllocError>
    requires at { IsAtJournal design.now master.old }
    requires formed { IsFormedAct act }
    requires fit { HasFitAct design.now.parts act }
    requires numbers { master.old.board.next_id + taken_by act < 2 ^ 32 }
    requires count { length master.old.journal + 1 < 2 ^ 32 }
    ensures { OnOk result (HasTaken design.now master.old client act master.new) }
{
    let number = master.journal.len() as u32 + 1;
    let entry = Entry {
        number,
        client,
        act,
    };
    master.board.apply(&entry)?;
    master.journal.push(entry)?;
    Ok(())
}

// Whether the history has no room for a call that weighs so much, beside a leave of each client that is present.
fn is_full(master: &SerialMaster, weight: u32) -> bool
    ensures { IsTrue result ↔ weight_limit < master.now.weight + weight + 2 * master.now.present }
{
    let calls = master.weight;
    let present = master.present;
    u64::from(calls) + u64::from(weight) + 2 * u64::from(present) > u64::from(WEIGHT_LIMIT)
}

// Decides on a request that has room, at the journal as it is.
#[tactic(auto, using(crate::proofs::Journals::no_decided))]
fn decide<L: Ledger>(
    alloc: Global,
    design: &Design,
    master: &mut SerialMaster,
    client: u8,
    request: &Request,
    steps: &mut Steps<L>,
) -> Result<Reply, AllocError>
    requires at { IsAtJournal design.now master.old }
    requires formed { IsFormed request.now }
    requires numbers { master.old.board.next_id + taken_by (acts.Ask request.now) < 2 ^ 32 }
    requires count { length master.old.journal + 1 < 2 ^ 32 }
    ensures { IfOk result (λ reply. HasDecided design.now master.old client request.now master.new reply) }
{
    match slow_answer(design, &master.board, CLIENT_LIMIT, client, request, steps) {
        Some(why) => Ok(Reply::No { why }),
        None => {
            let number = master.journal.len() as u32 + 1;
            let act = Act::Ask {
                request: request.copy(alloc)?,
            };
            take(design, master, client, act)?;
            Ok(Reply::Done { number })
        }
    }
}

// Answers one request behind the calls as they are.
fn ask<L: Ledger>(
    alloc: Global,
    design: &Design,
    master: &mut SerialMaster,
    client: u8,
    request: &Request,
    steps: &mut Steps<L>,
) -> Result<Reply, AllocError>
    requires master { IsSerialMaster design.now master.old }
    requires formed { IsFormed request.now }
    requires present { IsPresent client_limit master.old.history client }
    ensures { IfOk result (λ reply. HasReplied design.now master.old (record { client = client; act = acts.Ask request.now }) master.new reply) }
{
    let act = Act::Ask {
        request: request.copy(alloc)?,
    };
    let weight = weight(&act);
    if is_full(master, weight) {
        return Ok(Reply::Full);
    }
    let base = master.journal.len() as u32;
    let reply = decide(alloc, design, master, client, request, steps)?;
    master.history.push(Call {
        client,
        base,
        act,
        reply,
    })?;
    master.weight += weight;
    Ok(reply)
}

// Answers the leave of a client.
fn leave(design: &Design, master: &mut SerialMaster, client: u8) -> Result<Reply, AllocError>
    requires master { IsSerialMaster design.now master.old }
    requires present { IsPresent client_limit master.old.history client }
    ensures { IfOk result (λ reply. HasReplied design.now master.old (record { client = client; act = acts.Leave }) master.new reply) }
{
    let base = master.journal.len() as u32;
    take(design, master, client, Act::Leave)?;
    let reply = Reply::Left { number: base + 1 };
    master.history.push(Call {
        client,
        base,
        act: Act::Leave,
        reply,
    })?;
    master.weight += 2;
    master.present -= 1;
    Ok(reply)
}

// Answers one step behind the calls as they are.
fn answer_step<L: Ledger>(
    alloc: Global,
    design: &Design,
    master: &mut SerialMaster,
    step: &ScriptStep,
    steps: &mut Steps<L>,
) -> Result<Answered, AllocError>
    requires master { IsSerialMaster design.now master.old }
    requires formed { IsStep step.now }
    requires present { has_left (client_of step.now) master.old.history ≡ false }
    ensures served { IfOk result (λ a. Serves design.now master.old.history (events_of step.now) (a ∷ []) master.new.history) }
    ensures master { OnOk result (IsSerialMaster design.now master.new) }
{
    match step {
        ScriptStep::Do { client, request } => {
            let client = *client;
            let reply = ask(alloc, design, master, client, request, steps)?;
            Ok(Answered { client, reply })
        }
        ScriptStep::Leave { client } => {
            let client = *client;
            let reply = leave(design, master, client)?;
            Ok(Answered { client, reply })
        }
    }
}

// Answers the steps one after another.
fn answer_steps<L: Ledger>(
    alloc: Global,
    design: &Design,
    run: &mut Run,
    script: &[ScriptStep],
    steps: &mut Steps<L>,
) -> Result<(), AllocError>
    requires begun { IsBegun design.now run.old }
    requires due { AreDue [] script.now }
    ensures run { OnOk result (Serves design.now [] (events_of_steps script.now) run.new.answers run.new.master.history) }
    ensures master { OnOk result (IsSerialMaster design.now run.new.master) }
{
    for step in script {
        let answered = answer_step(alloc, design, &mut run.master, step, steps)?;
        run.answers.push(answered)?;
    }
    Ok(())
}

/// Answers a script's steps one after another, from the empty history on, with a count of its own.
#[tactic(auto, using(crate::proofs::Journals::begun))]
pub fn answer_all<L: Ledger>(
    alloc: Global,
    design: &Design,
    script: &ScriptSteps,
    blank: Blank,
) -> Result<Run, AllocError>
    requires name { blank.name ≡ L.name }
    requires parts { blank.parts ≡ L.parts }
    requires some { 0 < blank.parts }
    requires due { AreDue [] script.now }
    ensures run { IfOk result (λ run. Serves design.now [] (events_of_steps script.now) run.answers run.master.history) }
    ensures master { IfOk result (λ run. IsSerialMaster design.now run.master) }
{
    let mut steps = Steps::<L>::new(blank);
    let mut run = Run {
        answers: Row::new(alloc),
        master: SerialMaster {
            board: Board::new(alloc, design)?,
            journal: Entries::new(alloc),
            history: Calls::new(alloc),
            weight: 0,
            present: u32::from(CLIENT_LIMIT),
        },
    };
    answer_steps(alloc, design, &mut run, script.as_slice(), &mut steps)?;
    Ok(run)
}
