//! How the lines of a script are read.
ghost use Rattle.std.specs.Prelude.{◌≡◌, ◌≤◌, ◌++◌, codes, IfOk, IfErr, length, ℕ, List, Result, Ok, Err};
ghost use Rattle.session_wire.specs.declared.faults.LineFault.TheVariants.{Bad};
ghost use Rattle.session_wire.specs.declared.steps.ScriptStep.{ScriptStep};
ghost use Rattle.session_wire.specs.Lines.{step_text};
ghost use Rattle.session_wire.specs.Words.{EndsWord};
ghost use Rattle.session_wire.specs.Parts.{WhyHalts};
ghost use Rattle.session_wire.specs.Places.{IsBadAt};
ghost use Rattle.session_wire.specs.Steps.{IsStep, IsLine, Reads, HasStep, WhyStopped, WhyUnread, Gives};

use crate::ScriptStep;
use crate::clients::client_at;
use crate::faults::{Halt, LineFault};
use crate::requests::request_at;
use crate::words::{end_at, is_word, split_word};
use std::alloc::Global;

// The step behind the word `do`, which ends the line.
fn do_at(alloc: Global, line: &[u8]) -> Result<ScriptStep, Halt>
    requires { EndsWord line.now }
    ensures ok { IfOk result (Reads (codes "do" ++ line.now)) }
    ensures err { IfErr result (WhyHalts (λ t. HasStep (codes "do" ++ t)) line.now) }
{
    let (client, from_request) = client_at(line)?;
    let (request, rest) = request_at(alloc, from_request)?;
    end_at(rest)?;
    Ok(ScriptStep::Do { client, request })
}

// The leave behind the word `leave`, which ends the line.
fn leave_at(line: &[u8]) -> Result<ScriptStep, Halt>
    requires { EndsWord line.now }
    ensures ok { IfOk result (Reads (codes "leave" ++ line.now)) }
    ensures err { IfErr result (WhyHalts (λ t. HasStep (codes "leave" ++ t)) line.now) }
{
    let (client, rest) = client_at(line)?;
    end_at(rest)?;
    Ok(ScriptStep::Leave { client })
}

// The step that the line spells: a row for each word that one may begin with.
fn step_of(alloc: Global, line: &[u8]) -> Result<ScriptStep, Halt>
    ensures ok { IfOk result (Reads line.now) }
    ensures err { IfErr result (WhyStopped line.now) }
{
    let (word, rest) = split_word(line);
    if is_word(word, b"do") {
        return do_at(alloc, rest);
    }
    if is_word(word, b"leave") {
        return leave_at(rest);
    }
    Err(Halt::Left { left: line.len() })
}

// The step that the line spells, or the byte at which it is bad.
fn decode_step(alloc: Global, line: &[u8]) -> Result<ScriptStep, LineFault>
    ensures ok { IfOk result (Reads line.now) }
    ensures err { IfErr result (WhyUnread line.now) }
{
    match step_of(alloc, line) {
        Ok(step) => Ok(step),
        Err(Halt::Left { left }) => Err(LineFault::Bad {
            at: (line.len() - left) as u32,
        }),
        Err(Halt::Memory) => Err(LineFault::Memory),
    }
}

/// The step that a line spells, without its line feed. It is bad exactly where the line spells none.
pub fn decode_script_line(alloc: Global, line: &[u8]) -> Result<ScriptStep, LineFault>
    ensures found { IfOk result (Reads line.now) }
    ensures only { (step : ScriptStep) → Reads line.now step → Gives result (Ok step) }
    ensures fault { IfErr result (WhyUnread line.now) }
    ensures first { (at : ℕ) → IsBadAt HasStep line.now at → Gives result (Err (Bad at)) }
{
    decode_step(alloc, line)
}

/// A step's text has no line feed.
pub fn step_is_one_line()
    ensures { (step : ScriptStep) → IsStep step → IsLine (step_text step) }
{}

/// A step's text has at most 398,672 bytes.
pub fn a_step_is_short()
    ensures { (step : ScriptStep) → IsStep step → length (step_text step) ≤ 398672 }
{}

/// A text spells one step at most.
pub fn one_step()
    ensures { (one : ScriptStep) (other : ScriptStep) → IsStep one → IsStep other → step_text one ≡ step_text other → one ≡ other }
{}

/// A line is bad at one byte at most.
pub fn one_bad_byte()
    ensures { (line : List ℕ) (a : ℕ) (b : ℕ) → IsBadAt HasStep line a → IsBadAt HasStep line b → a ≡ b }
{}

/// A line that spells a step is bad nowhere.
pub fn a_step_is_not_bad()
    ensures { (line : List ℕ) (step : ScriptStep) (at : ℕ) → Reads line step → IsBadAt HasStep line at → ⊥ }
{}

/// A line that spells no step is bad at some byte.
pub fn each_line_has_a_step_or_is_bad()
    ensures { (line : List ℕ) → ((step : ScriptStep) → Reads line step → ⊥) → ((at : ℕ) → IsBadAt HasStep line at → ⊥) → ⊥ }
{}
