//! A script's steps, replayed for a design.
ghost use Rattle.std.specs.Prelude.{[], IfOk};
ghost use Rattle.board_core.specs.Boards.{first_board};
ghost use Rattle.board_core.specs.Clean.{IsCleanBoard};
ghost use Rattle.script_replay.specs.Scripts.{AreDue};
ghost use Rattle.script_replay.specs.Replays.{IsRunOf};

use crate::master::answer_all;
use crate::texts::{Texts, output_text};
use board_laws::{every_board_is_clean, every_journal_is_shielded};
use board_rules::Design;
use ses_writer::SesPieces;
use session_wire::ScriptSteps;
use std::alloc::{AllocError, Global};
use std::marker::Brand;
use std::sync::ledger::Blank;

/// Answers a script's steps one after another by one master that tests every pair, from the empty history on, and makes
/// the output and the session text of what comes of it. Its one error is want of memory.
pub fn replay_steps(
    alloc: Global,
    design: &Design,
    script: &ScriptSteps,
) -> Result<Texts, AllocError>
    requires due { AreDue [] script.now }
    requires clean { IsCleanBoard design.now.parts (first_board design.now.parts).rules (first_board design.now.parts).live }
    ensures { IfOk result (λ texts. IsRunOf design.now script.now texts.output texts.session) }
{
    let replayed = answer_all::<Brand>(alloc, design, script, Blank::new(1))?;
    let output = output_text(
        alloc,
        replayed.answers.as_slice(),
        replayed.master.journal.as_slice(),
    )?;
    let session = SesPieces::new(alloc, design, &replayed.master.board)?;
    every_journal_is_shielded();
    every_board_is_clean();
    Ok(Texts { output, session })
}
