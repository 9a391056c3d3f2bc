//! Whole texts that are numbers, without leading zeros.
ghost use Rattle.std.specs.Prelude.{◌≡◌, ◌<◌, ◌≤◌, ◌^◌, ◌++◌, ◌∷◌, ◌↔◌, ◌≢◌, IsTrue, length, IfSome, IfNone, decimal, ℕ, slice_index};
ghost use Rattle.std.specs.Str.Parse.{AllDigits, digits_value};
ghost use Rattle.session_wire.specs.Numbers.{IsBetween};
ghost use Rattle.answer_lines.specs.Forms.{IsNumber, AreNumbers};
ghost use Rattle.answer_lines.specs.Answers.{IsNumbered, IsTwice};

use crate::words::{after, front_word};
use std::str;

// What the digits stand for, where there are only digits.
fn value_of(digits: &[u8]) -> Option<u32>
    requires { slice_index digits.now 0 ≢ 43 }
    ensures some { IfSome result (λ n. AllDigits 10 digits.now × (n ≡ digits_value 10 digits.now) × (n < 2 ^ 32)) }
    ensures none { IfNone result (AllDigits 10 digits.now → 0 < length digits.now → digits_value 10 digits.now < 2 ^ 32 → ⊥) }
{
    let text = str::from_utf8(digits).ok()?;
    text.parse::<u32>().ok()
}

// The number that the word spells, without a leading zero or a plus sign.
fn number_of(word: &[u8]) -> Option<u32>
    ensures some { IfSome result (λ n. (n < 2 ^ 32) × (word.now ≡ decimal n)) }
    ensures none { IfNone result ((n : ℕ) → n < 2 ^ 32 → word.now ≡ decimal n → ⊥) }
{
    if word.is_empty() {
        return None;
    }
    if word[0] == b'+' {
        return None;
    }
    if word[0] == b'0' && word.len() > 1 {
        return None;
    }
    value_of(word)
}

// The number between two bounds that the word spells.
fn number_in(word: &[u8], least: u32, most: u32) -> Option<u32>
    ensures some { IfSome result (λ n. IsBetween least most n × (word.now ≡ decimal n)) }
    ensures none { IfNone result ((n : ℕ) → IsBetween least most n → word.now ≡ decimal n → ⊥) }
{
    let number = number_of(word)?;
    if number < least {
        return None;
    }
    if most < number {
        return None;
    }
    Some(number)
}

// The whole text is a number between two bounds.
fn is_number(text: &[u8], least: u32, most: u32) -> bool
    ensures { IsTrue result ↔ IsNumber least most text.now }
{
    match number_in(text, least, most) {
        None => false,
        Some(_) => true,
    }
}

/// Whether the whole text is two numbers with a space between them, each between two bounds.
pub(crate) fn are_numbers(text: &[u8], least: u32, first: u32, second: u32) -> bool
    ensures { IsTrue result ↔ AreNumbers least first second text.now }
{
    match front_word(text) {
        None => false,
        Some((word, rest)) => is_number(word, least, first) && is_number(rest, least, second),
    }
}

/// Whether the whole text is a word with its space and a number up to a bound.
pub(crate) fn is_numbered(text: &[u8], word: &[u8], most: u32) -> bool
    ensures { IsTrue result ↔ IsNumbered word.now most text.now }
{
    match after(text, word) {
        None => false,
        Some(rest) => is_number(rest, 0, most),
    }
}

/// Whether the whole text is a word with its space and two numbers, the second one up to a bound.
pub(crate) fn is_twice(text: &[u8], word: &[u8], most: u32) -> bool
    ensures { IsTrue result ↔ IsTwice word.now most text.now }
{
    match after(text, word) {
        None => false,
        Some(rest) => are_numbers(rest, 0, u32::MAX, most),
    }
}
