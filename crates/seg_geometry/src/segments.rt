//! Whether two segments keep a distance.
ghost use Rattle.std.specs.Prelude.{◌≡◌, ◌≤◌, ◌+◌, ◌*◌, ◌↔◌, pos, ◌*ℤ◌, ◌≤ℤ◌, unsigned_abs, IsTrue};
ghost use Rattle.seg_geometry.specs.Points.{IsInRange, IsSegInRange};
ghost use Rattle.seg_geometry.specs.Apart.{IsApart};
ghost use Rattle.seg_geometry.specs.Ends.{IsPointApart, IsMeeting, IsUnitQuotient, EndsApart};

use crate::points::{Pt, Seg};
use crate::steps::Steps;
use crate::vectors::{Vector, cross, dot, way};
use std::sync::ledger::Ledger;

/// Whether a vector is at least k/2 long, given the square of its length.
fn is_long(square: i64, k: u64) -> bool
    requires k_small { k ≤ 400000000 }
    requires square_small { unsigned_abs square ≤ 8000000000000000000 }
    requires not_negative { pos 0 ≤ℤ square }
    ensures { IsTrue result ↔ (pos (k * k) ≤ℤ (pos 4 *ℤ square)) }
{
    4 * u128::from(square.unsigned_abs()) >= u128::from(k * k)
}

/// Whether no point of `t` is nearer than k/2 to `p`.
fn point_keeps(p: Pt, t: Seg, k: u64) -> bool
    requires p_in { IsInRange p }
    requires t_in { IsSegInRange t }
    requires k_small { k ≤ 400000000 }
    ensures { IsTrue result ↔ IsPointApart p t k }
{
    let piece = way(t.a, t.b);
    let from_start = way(t.a, p);
    let along = dot(from_start, piece);
    let length = dot(piece, piece);
    if along <= 0 {
        is_long(dot(from_start, from_start), k)
    } else if along >= length {
        let from_end = way(t.b, p);
        is_long(dot(from_end, from_end), k)
    } else {
        let aside = u128::from(cross(from_start, piece).unsigned_abs());
        4 * (aside * aside) >= u128::from(k * k) * u128::from(length.unsigned_abs())
    }
}

/// Whether (first/scale, second/scale) lies in the unit square.
fn is_unit_quotient(scale: i64, first: i64, second: i64) -> bool
    ensures { IsTrue result ↔ IsUnitQuotient scale first second }
{
    if scale > 0 {
        0 <= first && first <= scale && 0 <= second && second <= scale
    } else {
        scale < 0 && first <= 0 && scale <= first && second <= 0 && scale <= second
    }
}

/// Whether two segments that are not parallel have a point in common.
fn meets(s: Seg, t: Seg) -> bool
    requires s_in { IsSegInRange s }
    requires t_in { IsSegInRange t }
    ensures { IsTrue result ↔ IsMeeting s t }
{
    let u = way(s.a, s.b);
    let v = way(t.a, t.b);
    let w = way(t.a, s.a);
    is_unit_quotient(cross(u, v), cross(v, w), cross(u, w))
}

/// Whether each end keeps the distance k/2 from the other segment.
fn ends_keep(s: Seg, t: Seg, k: u64) -> bool
    requires s_in { IsSegInRange s }
    requires t_in { IsSegInRange t }
    requires k_small { k ≤ 400000000 }
    ensures { IsTrue result ↔ EndsApart s t k }
{
    point_keeps(s.a, t, k)
        && point_keeps(s.b, t, k)
        && point_keeps(t.a, s, k)
        && point_keeps(t.b, s, k)
}

/// Whether no two points of `s` and `t` are nearer than k/2 nm. It takes one step.
pub fn seg_keeps<L: Ledger>(s: Seg, t: Seg, k: u64, steps: &mut Steps<L>) -> bool
    requires s_in { IsSegInRange s }
    requires t_in { IsSegInRange t }
    requires k_small { k ≤ 400000000 }
    ensures apart { IsTrue result ↔ IsApart s t k }
    ensures cost { steps.new ≡ steps.old + 1 }
{
    steps.tick();
    if k == 0 {
        return true;
    }
    !meets(s, t) && ends_keep(s, t, k)
}
