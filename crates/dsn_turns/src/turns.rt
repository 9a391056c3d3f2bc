//! Turns by eighths, about the origin.
ghost use Rattle.std.specs.Prelude.{◌≡◌, ◌+◌, ◌*◌, ◌/◌, ◌^◌, ◌≤◌, IfSome, IfNone, Some, ◌-ℤ◌, ◌+ℤ◌, unsigned_abs};
ghost use Rattle.seg_geometry.specs.declared.points.Pt.{Pt};
ghost use Rattle.seg_geometry.specs.Points.{IsInRange};
ghost use Rattle.dsn_turns.specs.Turns.{quarters, flipped_before, flipped_after, IsTurned};
ghost use Rattle.dsn_turns.specs.Turning.{size_root, root_of, begun, turned, within, turn_of};
ghost use Rattle.dsn_turns.specs.Wides.{point_of, IsAtMost};

use row_lists::COORDINATE_LIMIT_NM;
use seg_geometry::Pt;

/// How far a coordinate may be from 0, in nanometres.
const LIMIT_NM: u128 = COORDINATE_LIMIT_NM as u128;

/// Whether a part is mirrored, and whether that comes before its turn or after it.
#[derive(Clone, Copy, Debug, PartialEq, Eq)]
pub enum Flip {
    /// It isn't mirrored.
    Plain,
    /// x is negated before the turn.
    Before,
    /// x is negated after the turn.
    After,
}

/// A point with whole coordinates, in nanometres, that may be far out of range.
#[derive(Clone, Copy, Debug, PartialEq, Eq)]
pub struct Wide {
    pub x: i128,
    pub y: i128,
}

// The size divided by the root of two, rounded down. The square itself may not fit 128 bits, its half does.
fn root_of_size(size: u128) -> u128
    requires { size ≤ 2 ^ 64 }
    ensures value { result ≡ size_root size }
    ensures bound { result ≤ 2 ^ 64 }
{
    let half = size / 2;
    (2 * half * (half + size % 2)).isqrt()
}

// The same with the sign.
fn root(d: i128) -> i128
    requires { unsigned_abs d ≤ 2 ^ 64 }
    ensures value { result ≡ root_of d }
    ensures bound { unsigned_abs result ≤ 2 ^ 64 }
{
    let size = root_of_size(d.unsigned_abs()) as i128;
    if d < 0 {
        return -size;
    }
    size
}

// The point after an eighth of a turn where the eighths are odd, else as it is.
#[tactic(auto, unfolding(crate::specs::Turning::eighth))]
fn after_eighth(p: Wide, eighths: u8) -> Wide
    requires { IsAtMost (2 ^ 63) p }
    ensures point { point_of result ≡ begun eighths (point_of p) }
    ensures bound { IsAtMost (2 ^ 64) result }
{
    if eighths % 2 == 0 {
        return p;
    }
    Wide {
        x: root(p.x - p.y),
        y: root(p.x + p.y),
    }
}

// The point after so many quarter turns.
fn after_quarters(p: Wide, count: u8) -> Wide
    requires { IsAtMost (2 ^ 64) p }
    ensures point { point_of result ≡ quarters count (point_of p) }
    ensures bound { IsAtMost (2 ^ 64) result }
{
    let mut q = p;
    for _quarter in 0..count {
        q = Wide { x: -q.y, y: q.x };
    }
    q
}

// The point, mirrored where that comes before the turn.
fn before_turn(p: Pt, flip: Flip) -> Wide
    ensures point { point_of result ≡ flipped_before flip p }
    ensures bound { IsAtMost (2 ^ 63) result }
{
    let x = i128::from(p.x);
    let y = i128::from(p.y);
    match flip {
        Flip::Before => Wide { x: -x, y },
        _ => Wide { x, y },
    }
}

// The point, mirrored where that comes after the turn.
fn after_turn(p: Wide, flip: Flip) -> Wide
    requires { IsAtMost (2 ^ 64) p }
    ensures point { point_of result ≡ flipped_after flip (point_of p) }
    ensures bound { IsAtMost (2 ^ 64) result }
{
    match flip {
        Flip::After => Wide { x: -p.x, y: p.y },
        _ => p,
    }
}

/// The point where it is in range.
#[tactic(auto, unfolding(crate::specs::Turning::within))]
pub(crate) fn narrowed(p: Wide) -> Option<Pt>
    ensures { result ≡ within (point_of p) }
{
    if p.x.unsigned_abs() > LIMIT_NM {
        return None;
    }
    if p.y.unsigned_abs() > LIMIT_NM {
        return None;
    }
    Some(Pt {
        x: p.x as i64,
        y: p.y as i64,
    })
}

/// The turned point, wherever it comes to lie.
#[tactic(auto, unfolding(crate::specs::Turning::turned))]
pub(crate) fn turned(p: Pt, eighths: u8, flip: Flip) -> Wide
    ensures point { point_of result ≡ turned p eighths flip }
    ensures bound { IsAtMost (2 ^ 64) result }
{
    let begun = after_eighth(before_turn(p, flip), eighths);
    after_turn(after_quarters(begun, eighths / 2), flip)
}

// The turned point where it is in range.
#[tactic(auto, unfolding(crate::specs::Turning::turn_of))]
fn turned_within(p: Pt, eighths: u8, flip: Flip) -> Option<Pt>
    ensures { result ≡ turn_of p eighths flip }
{
    narrowed(turned(p, eighths, flip))
}

/// The point turned about the origin by eighths of a turn, from the x axis towards the y axis, and
/// mirrored before or after. An even number of eighths turns exactly; an odd one rounds each
/// coordinate towards 0, in whole nanometres, before the quarter turns. It is `None` exactly where
/// a coordinate of the turned point is more than 1,000,000,000 nm from 0.
pub fn turn(p: Pt, eighths: u8, flip: Flip) -> Option<Pt>
    ensures found { IfSome result (λ q. IsTurned p eighths flip q × IsInRange q) }
    ensures none { IfNone result ((q : Pt) → IsTurned p eighths flip q → IsInRange q → ⊥) }
    ensures only { (q : Pt) → IsTurned p eighths flip q → IsInRange q → result ≡ Some q }
    ensures reads { result ≡ turn_of p eighths flip }
{
    turned_within(p, eighths, flip)
}
