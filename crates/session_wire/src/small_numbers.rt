//! Numbers of a boundary's layers and clients.
ghost use Rattle.std.specs.Prelude.{◌≡◌, ◌≤◌, IfOk, IfErr, ℕ, List};
ghost use Rattle.std.specs.List.{flat_map};
ghost use Rattle.session_wire.specs.Words.{EndsWord};
ghost use Rattle.session_wire.specs.Numbers.{number_text, IsSmall};
ghost use Rattle.session_wire.specs.Parts.{Then, Begins, StopsAt, AreSo, AreThen, AreCounted, CountedThen, counted_text, WhyHalts};

use crate::faults::Halt;
use crate::numbers::number_at;
use row_lists::Row;
use std::alloc::{AllocError, Global};

// The next number of a layer or a client, and what follows it.
pub(crate) fn small_number_at(line: &[u8]) -> Result<(u8, &[u8]), usize>
    requires { EndsWord line.now }
    ensures ok { IfOk result (λ x. Then IsSmall number_text line.now x.0 x.1.now) }
    ensures err { IfErr result (StopsAt (Begins IsSmall number_text) line.now) }
{
    let (number, rest) = number_at(line, 0, u8::MAX as u32)?;
    Ok((number as u8, rest))
}

// So many numbers, and what follows them.
fn small_numbers_at(alloc: Global, line: &[u8], count: u32) -> Result<(Row<u8>, &[u8]), Halt>
    requires { EndsWord line.now }
    ensures ok { IfOk result (λ x. AreThen IsSmall number_text count line.now x.0 x.1.now) }
    ensures err { IfErr result (WhyHalts (Begins (AreSo count IsSmall) (flat_map number_text)) line.now) }
{
    let mut numbers = Row::new(alloc);
    let mut rest = line;
    for _turn in 0..count {
        let (number, following) = small_number_at(rest)?;
        numbers.push(number)?;
        rest = following;
    }
    Ok((numbers, rest))
}

// How many numbers there are, as many as two bounds allow, these, and what follows them.
pub(crate) fn counted_small_numbers_at(
    alloc: Global,
    line: &[u8],
    least: u32,
    most: u32,
) -> Result<(Row<u8>, &[u8]), Halt>
    requires here { EndsWord line.now }
    requires some { least ≤ most }
    ensures ok { IfOk result (λ x. CountedThen IsSmall number_text least most line.now x.0 x.1.now) }
    ensures err { IfErr result (WhyHalts (Begins (AreCounted least most IsSmall) (counted_text number_text)) line.now) }
{
    let (count, rest) = number_at(line, least, most)?;
    small_numbers_at(alloc, rest, count)
}
