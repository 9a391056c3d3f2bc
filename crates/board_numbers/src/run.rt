//! The program's one command.
ghost use Rattle.std.specs.Prelude.{◌≡◌, ◌≢◌, ◌≤◌, ◌⊎◌, ◌↔◌, List, ℕ, IsTrue, OnOk, IfErr, codes, length};
ghost use Rattle.whole_files.specs.Words.{texts, text_at, names_behind, Asked};
ghost use Rattle.whole_files.specs.Stops.{Stops, Tells, HasCounts, NoFault};
ghost use Rattle.board_numbers.specs.Headline.{IsNumbers, HasToldNumbers, Numbers, NumbersStop, IsGiven};

use crate::load::numbers;
use layout_io::{Files, Sink};
use std::alloc::Global;
use whole_files::{Stop, tell, tell_stop};

fn is_numbers(words: &[String]) -> bool
    ensures test { IsTrue result ↔ IsNumbers (texts words.now) }
    ensures two { IsTrue result → length words.now ≡ 2 }
{
    words.len() == 2 && words[0].as_str() == "numbers"
}

// Writes the numbers of the design that the words name.
fn number_words<F: Files, O: Sink>(
    alloc: Global,
    words: &[String],
    files: &mut F,
    out: &mut O,
) -> Result<(), Stop>
    requires { length words.now ≡ 2 }
    ensures ok { OnOk result (Numbers (text_at (texts words.now) 1) (F.told files.old) (F.told files.new) (O.told out.old) (O.told out.new)) }
    ensures err { IfErr result (NumbersStop (text_at (texts words.now) 1) (F.told files.old) (F.told files.new) (O.told out.old) (O.told out.new)) }
{
    numbers(alloc, files, out, words[1].as_str())
}

// As `run`, where the words have the form.
#[tactic(auto, using(whole_files::proofs::Statuses::never_0))]
fn run_numbers<F: Files, O: Sink>(alloc: Global, words: &[String], files: &mut F, out: &mut O) -> u8
    requires { length words.now ≡ 2 }
    ensures ok { result ≡ 0 → Numbers (text_at (texts words.now) 1) (F.told files.old) (F.told files.new) (O.told out.old) (O.told out.new) }
    ensures stopped { result ≢ 0 → Stops (NumbersStop (text_at (texts words.now) 1) (F.told files.old) (F.told files.new) (O.told out.old)) (O.told out.new) result }
{
    match number_words(alloc, words, files, out) {
        Ok(()) => 0,
        Err(stop) => tell_stop(stop, out),
    }
}

/// Does what the words say, and gives the exit status: 0 done, 1 wrong words, 2 the design has no reading, 3 an open or
/// read failed, 4 a write failed, 7 want of memory. Each but 0 writes a line of its own to `out`.
pub fn run<F: Files, O: Sink>(alloc: Global, words: &[String], files: &mut F, out: &mut O) -> u8
    // Status 1 exactly for the words, with its line.
    ensures usage { result ≡ 1 → (IsNumbers (texts words.now) → ⊥) × Tells (codes "usage\n") (O.told out.old) (O.told out.new) }
    ensures form { result ≢ 1 → IsNumbers (texts words.now) }
    ensures statuses { IsGiven result }
    // At 0 the output is the text of the design's numbers, and no file changed.
    ensures numbered { result ≡ 0 → Numbers (text_at (texts words.now) 1) (F.told files.old) (F.told files.new) (O.told out.old) (O.told out.new) }
    // From 2 on: why it stopped, what was written, and the status's line.
    ensures stopped { 2 ≤ result → Stops (NumbersStop (text_at (texts words.now) 1) (F.told files.old) (F.told files.new) (O.told out.old)) (O.told out.new) result }
    // A fault only where a count rose, and none is passed over.
    ensures counts { HasCounts result (F.told files.old) (F.told files.new) (O.told out.old) (O.told out.new) }
    // No other file is touched: the name behind the command is asked for.
    ensures asked { Asked (names_behind (texts words.now)) (F.told files.old).asked (F.told files.new).asked }
    // A design that has a reading, and no count that rose, give 0, or want of memory.
    ensures complete { (text : List ℕ) → IsNumbers (texts words.now) → HasToldNumbers (text_at (texts words.now) 1) text (F.told files.old).disk → NoFault (F.told files.old) (F.told files.new) (O.told out.old) (O.told out.new) → (result ≡ 0) ⊎ (result ≡ 7) }
{
    if is_numbers(words) {
        return run_numbers(alloc, words, files, out);
    }
    tell(out, b"usage\n");
    1
}
