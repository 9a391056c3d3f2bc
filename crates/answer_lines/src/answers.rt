//! What a client reads of a server's lines.
ghost use Rattle.std.specs.Prelude.{◌≡◌, ◌⊎◌, ◌↔◌, IsTrue, MatchOption};
ghost use Rattle.answer_lines.specs.Answers.{IsHello, IsNo, GoesOn, IsLast, IsAnswer};

use crate::numbers::{are_numbers, is_numbered};
use crate::reasons::is_reason;
use crate::words::after;
use row_lists::{CLIENT_LIMIT, LINE_LIMIT_BYTES};

/// What comes behind an answer of a server.
#[derive(Clone, Copy, Debug, PartialEq, Eq)]
pub enum Goes {
    /// The session goes on.
    On,
    /// It was the last answer.
    Last,
}

/// Whether the line greets: `hello`, the client's number and how many clients there are, each from 1 to 8.
pub fn is_hello(line: &[u8]) -> bool
    ensures { IsTrue result ↔ IsHello line.now }
{
    match after(line, b"hello ") {
        None => false,
        Some(rest) => are_numbers(rest, 1, CLIENT_LIMIT as u32, CLIENT_LIMIT as u32),
    }
}

fn is_no(line: &[u8]) -> bool
    ensures { IsTrue result ↔ IsNo line.now }
{
    match after(line, b"no ") {
        None => false,
        Some(text) => is_reason(text),
    }
}

fn goes_on(line: &[u8]) -> bool
    ensures { IsTrue result ↔ GoesOn line.now }
{
    is_numbered(line, b"ok ", u32::MAX)
        || is_no(line)
        || is_numbered(line, b"bad ", LINE_LIMIT_BYTES as u32)
}

fn is_last(line: &[u8]) -> bool
    ensures { IsTrue result ↔ IsLast line.now }
{
    line == b"full".as_slice() || line == b"long".as_slice() || line == b"memory".as_slice()
}

/// What comes behind the answer that a line is, without its line feed; none where it is no answer. Answers are `ok` with
/// a number, `no` with a reason and its numbers, `bad` with a byte from 0 to 8,192, and the last ones `full`, `long` and
/// `memory`. It takes no memory.
pub fn decode_answer(line: &[u8]) -> Option<Goes>
    ensures { MatchOption result (GoesOn line.now ⊎ IsLast line.now → ⊥) (λ goes. IsAnswer goes line.now) }
{
    if goes_on(line) {
        return Some(Goes::On);
    }
    if is_last(line) {
        return Some(Goes::Last);
    }
    None
}
