//! Requests of a line.
ghost use Rattle.std.specs.Prelude.{◌≡◌, ◌++◌, ◌∷◌, codes, IfOk, IfErr, ℕ, List};
ghost use Rattle.board_items.specs.Formed.{IsFormed};
ghost use Rattle.session_wire.specs.Words.{IsWord, EndsWord};
ghost use Rattle.session_wire.specs.Requests.{next_request_text};
ghost use Rattle.session_wire.specs.Parts.{Then, Begins, WhyHalts};

use crate::edits::edit_at;
use crate::faults::Halt;
use crate::fences::{entitle_at, fence_at, unfence_at};
use crate::held_items::{release_at, reserve_at};
use crate::rules::rule_at;
use crate::words::{is_word, word_at};
use board_items::Request;
use std::alloc::Global;

// The request that begins with the word, and what follows it: a row for each word that one may begin with.
pub(crate) fn request_behind<'a>(
    alloc: Global,
    word: &[u8],
    rest: &'a [u8],
) -> Result<(Request, &'a [u8]), Halt>
    requires word { IsWord word.now }
    requires ends { EndsWord rest.now }
    ensures ok { IfOk result (λ x. Then IsFormed next_request_text (32 ∷ (word.now ++ rest.now)) x.0 x.1.now) }
    ensures err { IfErr result (WhyHalts (Begins IsFormed next_request_text) (32 ∷ (word.now ++ rest.now))) }
{
    if is_word(word, b"edit") {
        return edit_at(alloc, rest);
    }
    if is_word(word, b"reserve") {
        return reserve_at(rest);
    }
    if is_word(word, b"release") {
        return release_at(rest);
    }
    if is_word(word, b"fence") {
        return fence_at(alloc, rest);
    }
    if is_word(word, b"unfence") {
        return unfence_at(rest);
    }
    if is_word(word, b"entitle") {
        return entitle_at(rest);
    }
    if is_word(word, b"rule") {
        return rule_at(rest);
    }
    Err(Halt::Left {
        left: word.len() + rest.len(),
    })
}

// The next request, and what follows it.
pub(crate) fn request_at(alloc: Global, line: &[u8]) -> Result<(Request, &[u8]), Halt>
    requires { EndsWord line.now }
    ensures ok { IfOk result (λ x. Then IsFormed next_request_text line.now x.0 x.1.now) }
    ensures err { IfErr result (WhyHalts (Begins IsFormed next_request_text) line.now) }
{
    let Some((word, rest)) = word_at(line) else {
        return Err(Halt::Left { left: 0 });
    };
    request_behind(alloc, word, rest)
}
