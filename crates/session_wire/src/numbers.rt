//! Numbers of a line, without leading zeros.
ghost use Rattle.std.specs.Prelude.{◌≡◌, ◌<◌, ◌≤◌, ◌^◌, length, IfSome, IfNone, IfOk, IfErr, decimal, ℕ, slice_index, ◌≢◌};
ghost use Rattle.std.specs.Str.Parse.{AllDigits, digits_value};
ghost use Rattle.session_wire.specs.Words.{EndsWord};
ghost use Rattle.session_wire.specs.Numbers.{number_text, IsBetween};
ghost use Rattle.session_wire.specs.Parts.{Then, Begins, StopsAt};

use crate::words::word_at;
use std::str;

// What the digits stand for, where there are only digits.
fn value_of(digits: &[u8]) -> Option<u32>
    requires { slice_index digits.now 0 ≢ 43 }
    ensures some { IfSome result (λ n. AllDigits 10 digits.now × (n ≡ digits_value 10 digits.now) × (n < 2 ^ 32)) }
    ensures none { IfNone result (AllDigits 10 digits.now → 0 < length digits.now → digits_value 10 digits.now < 2 ^ 32 → ⊥) }
{
    let text = str::from_utf8(digits).ok()?;
    text.parse::<u32>().ok()
}

// The number that the word spells, without a leading zero or a plus sign.
pub(crate) fn number_of(word: &[u8]) -> Option<u32>
    ensures some { IfSome result (λ n. (n < 2 ^ 32) × (word.now ≡ decimal n)) }
    ensures none { IfNone result ((n : ℕ) → n < 2 ^ 32 → word.now ≡ decimal n → ⊥) }
{
    if word.is_empty() {
        return None;
    }
    if word[0] == b'+' {
        return None;
    }
    if word[0] == b'0' && word.len() > 1 {
        return None;
    }
    value_of(word)
}

// The number between two bounds that the word spells.
pub(crate) fn number_in(word: &[u8], least: u32, most: u32) -> Option<u32>
    ensures some { IfSome result (λ n. IsBetween least most n × (word.now ≡ decimal n)) }
    ensures none { IfNone result ((n : ℕ) → IsBetween least most n → word.now ≡ decimal n → ⊥) }
{
    let number = number_of(word)?;
    if number < least {
        return None;
    }
    if most < number {
        return None;
    }
    Some(number)
}

// The next number, between two bounds, and what follows it.
pub(crate) fn number_at(line: &[u8], least: u32, most: u32) -> Result<(u32, &[u8]), usize>
    requires here { EndsWord line.now }
    requires some { least ≤ most }
    ensures ok { IfOk result (λ x. Then (IsBetween least most) number_text line.now x.0 x.1.now) }
    ensures err { IfErr result (StopsAt (Begins (IsBetween least most) number_text) line.now) }
{
    let Some((word, rest)) = word_at(line) else {
        return Err(0);
    };
    match number_in(word, least, most) {
        Some(number) => Ok((number, rest)),
        None => Err(line.len() - 1),
    }
}
