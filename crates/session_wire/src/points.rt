//! Coordinates and points of a line, in nm.
ghost use Rattle.std.specs.Prelude.{◌≡◌, ◌≤◌, ◌∷◌, ◌≢◌, IfOk, IfErr, IfSome, IfNone, ℕ, List, ℤ, unsigned_abs};
ghost use Rattle.std.specs.Fmt.{signed_decimal};
ghost use Rattle.seg_geometry.specs.Points.{IsInRange};
ghost use Rattle.session_wire.specs.Words.{EndsWord};
ghost use Rattle.session_wire.specs.Points.{coordinate_text, point_text, IsCoordinate};
ghost use Rattle.session_wire.specs.Parts.{Then, Begins, StopsAt, AreSo, AreThen, AreCounted, CountedThen, counted_text, WhyHalts};
ghost use Rattle.std.specs.List.{flat_map};

use crate::faults::Halt;
use crate::numbers::{number_at, number_in};
use crate::words::{after, word_at};
use row_lists::COORDINATE_LIMIT_NM;
use seg_geometry::{Points, Pt};
use std::alloc::{AllocError, Global};

// The coordinate that the word spells.
fn coordinate_of(word: &[u8]) -> Option<i64>
    ensures some { IfSome result (λ z. IsCoordinate z × (word.now ≡ signed_decimal z)) }
    ensures none { IfNone result ((z : ℤ) → IsCoordinate z → word.now ≡ signed_decimal z → ⊥) }
{
    match after(word, b"-") {
        Some(digits) => negative_of(digits),
        None => positive_of(word),
    }
}

// The coordinate below 0 with these digits.
fn negative_of(digits: &[u8]) -> Option<i64>
    ensures some { IfSome result (λ z. IsCoordinate z × (45 ∷ digits.now ≡ signed_decimal z)) }
    ensures none { IfNone result ((z : ℤ) → IsCoordinate z → 45 ∷ digits.now ≡ signed_decimal z → ⊥) }
{
    let size = number_in(digits, 1, COORDINATE_LIMIT_NM as u32)?;
    Some(-i64::from(size))
}

// The coordinate from 0 on with these digits.
fn positive_of(digits: &[u8]) -> Option<i64>
    requires { (rest : List ℕ) → digits.now ≢ 45 ∷ rest }
    ensures some { IfSome result (λ z. IsCoordinate z × (digits.now ≡ signed_decimal z)) }
    ensures none { IfNone result ((z : ℤ) → IsCoordinate z → digits.now ≡ signed_decimal z → ⊥) }
{
    let size = number_in(digits, 0, COORDINATE_LIMIT_NM as u32)?;
    Some(i64::from(size))
}

// The next coordinate, and what follows it.
fn coordinate_at(line: &[u8]) -> Result<(i64, &[u8]), usize>
    requires { EndsWord line.now }
    ensures ok { IfOk result (λ x. Then IsCoordinate coordinate_text line.now x.0 x.1.now) }
    ensures err { IfErr result (StopsAt (Begins IsCoordinate coordinate_text) line.now) }
{
    let Some((word, rest)) = word_at(line) else {
        return Err(0);
    };
    match coordinate_of(word) {
        Some(coordinate) => Ok((coordinate, rest)),
        None => Err(line.len() - 1),
    }
}

// The next point, and what follows it.
pub(crate) fn point_at(line: &[u8]) -> Result<(Pt, &[u8]), usize>
    requires { EndsWord line.now }
    ensures ok { IfOk result (λ x. Then IsInRange point_text line.now x.0 x.1.now) }
    ensures err { IfErr result (StopsAt (Begins IsInRange point_text) line.now) }
{
    let (x, from_y) = coordinate_at(line)?;
    let (y, rest) = coordinate_at(from_y)?;
    Ok((Pt { x, y }, rest))
}

// So many points, and what follows them.
fn points_at(alloc: Global, line: &[u8], count: u32) -> Result<(Points, &[u8]), Halt>
    requires { EndsWord line.now }
    ensures ok { IfOk result (λ x. AreThen IsInRange point_text count line.now x.0 x.1.now) }
    ensures err { IfErr result (WhyHalts (Begins (AreSo count IsInRange) (flat_map point_text)) line.now) }
{
    let mut points = Points::new(alloc);
    let mut rest = line;
    for _turn in 0..count {
        let (point, following) = point_at(rest)?;
        points.push(point)?;
        rest = following;
    }
    Ok((points, rest))
}

// How many points there are, as many as two bounds allow, these, and what follows them.
pub(crate) fn counted_points_at(
    alloc: Global,
    line: &[u8],
    least: u32,
    most: u32,
) -> Result<(Points, &[u8]), Halt>
    requires here { EndsWord line.now }
    requires some { least ≤ most }
    ensures ok { IfOk result (λ x. CountedThen IsInRange point_text least most line.now x.0 x.1.now) }
    ensures err { IfErr result (WhyHalts (Begins (AreCounted least most IsInRange) (counted_text point_text)) line.now) }
{
    let (count, rest) = number_at(line, least, most)?;
    points_at(alloc, rest, count)
}
