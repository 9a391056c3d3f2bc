//! A script as its steps.
ghost use Rattle.std.specs.Prelude.{◌≡◌, ◌≢◌, ◌+◌, ◌<◌, ◌≤◌, ◌++◌, ◌∷◌, [], List, ℕ, IfOk, OnOk, IfErr, IfSome, IfNone, MatchOption, IsTrue, length, ◌==◌, ◌||◌, false};
ghost use Rattle.std.specs.List.{position};
ghost use Rattle.row_lists.specs.Limits.{text_limit_bytes};
ghost use Rattle.number_slots.specs.Slots.{is_among};
ghost use Rattle.session_wire.specs.Lines.{step_line};
ghost use Rattle.session_wire.specs.Steps.{IsStep, IsLine};
ghost use Rattle.session_wire.specs.declared.steps.ScriptStep.{ScriptStep};
ghost use Rattle.script_replay.specs.Scripts.{IsScript, IsBad, client_of, is_leave_by};
ghost use Rattle.script_replay.specs.Lines.{WhyBad, HasNoStep, HasNoPresent};
ghost use Rattle.script_replay.specs.declared.script.ScriptFault.TheVariants.{Memory};

use board_items::Clients;
use row_lists::{Row, TEXT_LIMIT_BYTES};
use session_wire::{LineFault, ScriptStep, ScriptSteps, decode_script_line};
use std::alloc::{AllocError, Global};

/// Why a script is refused.
#[derive(Clone, Copy, Debug, PartialEq, Eq)]
pub enum ScriptFault {
    /// The first line without a reading, or whose client has left before it, from 1; 0 where the script is too long.
    Line(u64),
    /// Memory ran out.
    Memory,
}

impl From<AllocError> for ScriptFault {
    ghost use Rattle.script_replay.specs.declared.script.ScriptFault.TheVariants.{Memory};

    ghost from_gives = { λ _ e. e ≡ Memory };

    fn from(_e: AllocError) -> ScriptFault {
        ScriptFault::Memory
    }
}

fn break_of(text: &[u8]) -> Option<usize>
    ensures { result ≡ position (λ b. b == 10) text.now }
{
    text.iter().position(|b| *b == b'\n')
}

// The first line without its end, and what follows it.
fn split_line(text: &[u8]) -> Option<(&[u8], &[u8])>
    ensures { MatchOption result ((line more : List ℕ) → text.now ≢ line ++ 10 ∷ more) (λ x. IsLine x.0.now × (text.now ≡ x.0.now ++ 10 ∷ x.1.now)) }
{
    let end = break_of(text)?;
    let (line, rest) = text.split_at(end);
    let (_, after) = rest.split_at(1);
    Some((line, after))
}

// The step of the first line, and what follows the line.
fn first_step<'a>(
    alloc: Global,
    text: &'a [u8],
) -> Result<Option<(ScriptStep, &'a [u8])>, ScriptFault>
    ensures some { IfOk result (λ o. IfSome o (λ x. IsStep x.0 × (text.now ≡ step_line x.0 ++ x.1.now))) }
    ensures none { IfOk result (λ o. IfNone o (HasNoStep text.now)) }
    ensures err { IfErr result (λ e. e ≡ Memory) }
{
    match split_line(text) {
        None => Ok(None),
        Some((line, after)) => match decode_script_line(alloc, line) {
            Ok(step) => Ok(Some((step, after))),
            Err(LineFault::Bad { at: _ }) => Ok(None),
            Err(LineFault::Memory) => Err(ScriptFault::Memory),
        },
    }
}

// The client of a step.
fn client_of_step(step: &ScriptStep) -> u8
    ensures { result ≡ client_of step.now }
{
    match step {
        ScriptStep::Do { client, .. } => *client,
        ScriptStep::Leave { client } => *client,
    }
}

// The step of the first line, whose client hasn't left, and what follows the line.
fn first_present<'a>(
    alloc: Global,
    gone: &[u8],
    text: &'a [u8],
) -> Result<Option<(ScriptStep, &'a [u8])>, ScriptFault>
    ensures step { IfOk result (λ o. IfSome o (λ x. IsStep x.0 × (text.now ≡ step_line x.0 ++ x.1.now))) }
    ensures present { IfOk result (λ o. IfSome o (λ x. is_among (client_of x.0) gone.now ≡ false)) }
    ensures none { IfOk result (λ o. IfNone o (HasNoPresent gone.now text.now)) }
    ensures err { IfErr result (λ e. e ≡ Memory) }
{
    let Some((step, after)) = first_step(alloc, text)? else {
        return Ok(None);
    };
    if gone.contains(&client_of_step(&step)) {
        return Ok(None);
    }
    Ok(Some((step, after)))
}

// Puts the client of a leave to those who have left.
fn note_leave(gone: &mut Clients, step: &ScriptStep) -> Result<(), AllocError>
    ensures { OnOk result ((c : ℕ) → is_among c gone.new ≡ (is_among c gone.old || is_leave_by c step.now)) }
{
    match step {
        ScriptStep::Do { .. } => Ok(()),
        ScriptStep::Leave { client } => gone.push(*client),
    }
}

// The steps of a script that isn't too long.
fn read_lines(alloc: Global, text: &[u8]) -> Result<ScriptSteps, ScriptFault>
    requires { length text.now ≤ text_limit_bytes }
    ensures ok { IfOk result (IsScript text.now) }
    ensures err { IfErr result (WhyBad text.now) }
{
    let mut steps = Row::new(alloc);
    let mut gone = Clients::new(alloc);
    let mut rest = text;
    while !rest.is_empty() {
        match first_present(alloc, gone.as_slice(), rest)? {
            None => return Err(ScriptFault::Line(steps.len() as u64 + 1)),
            Some((step, after)) => {
                note_leave(&mut gone, &step)?;
                steps.push(step)?;
                rest = after;
            }
        }
    }
    Ok(steps)
}

/// The steps of a script, or the first line that isn't one or whose client has left before it.
pub fn read_script(alloc: Global, text: &[u8]) -> Result<ScriptSteps, ScriptFault>
    ensures ok { IfOk result (IsScript text.now) }
    ensures err { IfErr result (WhyBad text.now) }
{
    if text.len() > TEXT_LIMIT_BYTES {
        return Err(ScriptFault::Line(0));
    }
    read_lines(alloc, text)
}
