//! The program's commands.
ghost use Rattle.std.specs.Prelude.{◌≡◌, ◌≢◌, ◌≤◌, ◌⊎◌, ◌↔◌, List, IsTrue, OnOk, IfErr, codes, length};
ghost use Rattle.board_rules.specs.declared.design.Design.{Design};
ghost use Rattle.session_wire.specs.declared.steps.ScriptStep.{ScriptStep};
ghost use Rattle.layout_server.specs.Words.{names_in, IsReplay, IsCheck};
ghost use Rattle.whole_files.specs.Words.{texts, text_at, names_behind, Asked};
ghost use Rattle.board_files.specs.Inputs.{HasToldClean};
ghost use Rattle.layout_server.specs.Inputs.{HasToldInputs};
ghost use Rattle.layout_server.specs.Checks.{Checks, CheckStop};
ghost use Rattle.whole_files.specs.Stops.{Stops, Tells, IsStatus, HasCounts, NoFault};
ghost use Rattle.layout_server.specs.Headline.{Replays, ReplayStop};

use crate::check::check;
use crate::replay::replay;
use layout_io::{Files, Sink};
use std::alloc::Global;
use whole_files::{Stop, tell, tell_stop};

fn is_replay(words: &[String]) -> bool
    ensures test { IsTrue result ↔ IsReplay (texts words.now) }
    ensures four { IsTrue result → length words.now ≡ 4 }
{
    words.len() == 4 && words[0].as_str() == "replay"
}

fn is_check(words: &[String]) -> bool
    ensures test { IsTrue result ↔ IsCheck (texts words.now) }
    ensures two { IsTrue result → length words.now ≡ 2 }
{
    words.len() == 2 && words[0].as_str() == "check"
}

// Replays what the words name.
fn replay_words<F: Files, O: Sink>(
    alloc: Global,
    words: &[String],
    files: &mut F,
    out: &mut O,
) -> Result<(), Stop>
    requires { length words.now ≡ 4 }
    ensures ok { OnOk result (Replays (names_in (texts words.now)) (F.told files.old) (F.told files.new) (O.told out.old) (O.told out.new)) }
    ensures err { IfErr result (ReplayStop (names_in (texts words.now)) (F.told files.old) (F.told files.new) (O.told out.old) (O.told out.new)) }
{
    let design = words[1].as_str();
    let script = words[2].as_str();
    let session = words[3].as_str();
    replay(alloc, files, out, design, script, session)
}

// Tests the design that the words name.
fn check_words<F: Files, O: Sink>(
    alloc: Global,
    words: &[String],
    files: &mut F,
    out: &mut O,
) -> Result<(), Stop>
    requires { length words.now ≡ 2 }
    ensures ok { OnOk result (Checks (text_at (texts words.now) 1) (F.told files.old) (F.told files.new) (O.told out.old) (O.told out.new)) }
    ensures err { IfErr result (CheckStop (text_at (texts words.now) 1) (F.told files.old) (F.told files.new) (O.told out.old) (O.told out.new)) }
{
    check(alloc, files, out, words[1].as_str())
}

// As `run`, where the words are those of `replay`.
#[tactic(auto, using(whole_files::proofs::Statuses::never_0))]
fn run_replay<F: Files, O: Sink>(alloc: Global, words: &[String], files: &mut F, out: &mut O) -> u8
    requires { length words.now ≡ 4 }
    ensures ok { result ≡ 0 → Replays (names_in (texts words.now)) (F.told files.old) (F.told files.new) (O.told out.old) (O.told out.new) }
    ensures stopped { result ≢ 0 → Stops (ReplayStop (names_in (texts words.now)) (F.told files.old) (F.told files.new) (O.told out.old)) (O.told out.new) result }
{
    match replay_words(alloc, words, files, out) {
        Ok(()) => 0,
        Err(stop) => tell_stop(stop, out),
    }
}

// As `run`, where the words are those of `check`.
#[tactic(auto, using(whole_files::proofs::Statuses::never_0))]
fn run_check<F: Files, O: Sink>(alloc: Global, words: &[String], files: &mut F, out: &mut O) -> u8
    requires { length words.now ≡ 2 }
    ensures ok { result ≡ 0 → Checks (text_at (texts words.now) 1) (F.told files.old) (F.told files.new) (O.told out.old) (O.told out.new) }
    ensures stopped { result ≢ 0 → Stops (CheckStop (text_at (texts words.now) 1) (F.told files.old) (F.told files.new) (O.told out.old)) (O.told out.new) result }
{
    match check_words(alloc, words, files, out) {
        Ok(()) => 0,
        Err(stop) => tell_stop(stop, out),
    }
}

/// Does what the words say, and gives the exit status: 0 done, 1 wrong words, 2 the design has no
/// reading, 3 an open or read failed, 4 a create or write failed, 5 a line of the script has no
/// reading, 6 two loaded items are too near, 7 want of memory. Each but 0 writes a line of its own to `out`.
#[tactic(auto, using(crate::proofs::Words::one_form))]
pub fn run<F: Files, O: Sink>(alloc: Global, words: &[String], files: &mut F, out: &mut O) -> u8
    // Status 1 exactly for the words, with its line.
    ensures usage { result ≡ 1 → (IsReplay (texts words.now) → ⊥) × (IsCheck (texts words.now) → ⊥) × Tells (codes "usage\n") (O.told out.old) (O.told out.new) }
    ensures form { result ≢ 1 → IsReplay (texts words.now) ⊎ IsCheck (texts words.now) }
    ensures statuses { IsStatus result }
    // `replay`: at 0 the output and the session file are those of the script's steps, from the bytes of the design on.
    ensures replayed { IsReplay (texts words.now) → result ≡ 0 → Replays (names_in (texts words.now)) (F.told files.old) (F.told files.new) (O.told out.old) (O.told out.new) }
    // From 2 on: why it stopped, what was written, and the status's line.
    ensures stopped { IsReplay (texts words.now) → 2 ≤ result → Stops (ReplayStop (names_in (texts words.now)) (F.told files.old) (F.told files.new) (O.told out.old)) (O.told out.new) result }
    // `check`: at 0 the output is the line of the design's loaded items, which are clean, and no file changed.
    ensures checked { IsCheck (texts words.now) → result ≡ 0 → Checks (text_at (texts words.now) 1) (F.told files.old) (F.told files.new) (O.told out.old) (O.told out.new) }
    ensures check_stopped { IsCheck (texts words.now) → 2 ≤ result → Stops (CheckStop (text_at (texts words.now) 1) (F.told files.old) (F.told files.new) (O.told out.old)) (O.told out.new) result }
    // A fault only where a count rose, and none is passed over.
    ensures counts { HasCounts result (F.told files.old) (F.told files.new) (O.told out.old) (O.told out.new) }
    // No other file is touched: the names behind the command are asked for, in their order.
    ensures asked { Asked (names_behind (texts words.now)) (F.told files.old).asked (F.told files.new).asked }
    // Inputs with a reading, and no count that rose, give 0, or want of memory.
    ensures complete { (d : Design) (steps : List ScriptStep) → IsReplay (texts words.now) → HasToldInputs (names_in (texts words.now)) d steps (F.told files.old).disk → NoFault (F.told files.old) (F.told files.new) (O.told out.old) (O.told out.new) → (result ≡ 0) ⊎ (result ≡ 7) }
    ensures check_complete { (d : Design) → IsCheck (texts words.now) → HasToldClean (text_at (texts words.now) 1) d (F.told files.old).disk → NoFault (F.told files.old) (F.told files.new) (O.told out.old) (O.told out.new) → (result ≡ 0) ⊎ (result ≡ 7) }
{
    if is_replay(words) {
        return run_replay(alloc, words, files, out);
    }
    if is_check(words) {
        return run_check(alloc, words, files, out);
    }
    tell(out, b"usage\n");
    1
}
