//! Whether two shapes are apart, and whether a shape touches an area or lies within it.
ghost use Rattle.std.specs.Prelude.{ℕ, ◌≤◌, ◌+◌, ◌*◌, ◌↔◌, length, All, IsTrue};
ghost use Rattle.seg_geometry.specs.Points.{IsInRange, IsSegInRange};
ghost use Rattle.seg_geometry.specs.Apart.{IsApart};
ghost use Rattle.row_lists.specs.Limits.{width_limit_nm};
ghost use Rattle.area_geometry.specs.Copper.{Copper, copper_of, pieces_of, IsWithinLimits};
ghost use Rattle.area_geometry.specs.Apart.{pair_count, AreAllApart, AreCoresApart, AreShapesApart, BeginsOutside, IsFirstInside, LiesWithin, Touches};

use crate::rings::holds;
use crate::shapes::ShapeView;
use seg_geometry::{Pt, Seg, Steps, seg_keeps};
use std::sync::ledger::Ledger;

/// Whether a segment keeps k/2 from each segment or edge of a shape's core.
fn piece_keeps<L: Ledger>(piece: Seg, t: ShapeView<'_>, k: u64, steps: &mut Steps<L>) -> bool
    requires piece_in { IsSegInRange piece }
    requires t_in { IsWithinLimits (copper_of t) }
    requires k_small { k ≤ 400000000 }
    ensures apart { IsTrue result ↔ All (λ b. IsApart piece b k) (pieces_of (copper_of t.entry)) }
    ensures cost { steps.new ≤ steps.old + length (pieces_of (copper_of t.entry)) }
{
    for j in 0..t.piece_count() {
        if !seg_keeps(piece, t.piece(j), k, steps) {
            return false;
        }
    }
    true
}

/// Whether each segment or edge of one core keeps k/2 from each of the other.
fn pieces_keep<L: Ledger>(s: ShapeView<'_>, t: ShapeView<'_>, k: u64, steps: &mut Steps<L>) -> bool
    requires s_in { IsWithinLimits (copper_of s) }
    requires t_in { IsWithinLimits (copper_of t) }
    requires k_small { k ≤ 400000000 }
    ensures apart { IsTrue result ↔ AreAllApart (copper_of s.entry) (copper_of t.entry) k }
    ensures cost { steps.new ≤ steps.old + pair_count (copper_of s.entry) (copper_of t.entry) }
{
    for i in 0..s.piece_count() {
        if !piece_keeps(s.piece(i), t, k, steps) {
            return false;
        }
    }
    true
}

/// Whether the first point of `s` lies outside `t`. It does where `t` is a chain.
fn begins_outside(s: ShapeView<'_>, t: ShapeView<'_>) -> bool
    requires s_in { IsWithinLimits (copper_of s) }
    requires t_in { IsWithinLimits (copper_of t) }
    ensures { IsTrue result ↔ BeginsOutside (copper_of s.entry) (copper_of t.entry) }
{
    if !t.area {
        return true;
    }
    s.points.is_empty() || !holds(t, s.point(0))
}

/// Whether two cores keep k/2, and neither begins in the other.
fn cores_keep<L: Ledger>(s: ShapeView<'_>, t: ShapeView<'_>, k: u64, steps: &mut Steps<L>) -> bool
    requires s_in { IsWithinLimits (copper_of s) }
    requires t_in { IsWithinLimits (copper_of t) }
    requires k_small { k ≤ 400000000 }
    ensures apart { IsTrue result ↔ AreCoresApart (copper_of s.entry) (copper_of t.entry) k }
    ensures cost { steps.new ≤ steps.old + pair_count (copper_of s.entry) (copper_of t.entry) }
{
    begins_outside(s, t) && begins_outside(t, s) && pieces_keep(s, t, k, steps)
}

/// Whether two shapes are apart by the clearance `c`, in nanometres. It takes at most one step for each pair of a
/// segment or edge of the one and a segment or edge of the other.
pub fn shape_keeps<L: Ledger>(
    s: ShapeView<'_>,
    t: ShapeView<'_>,
    c: u32,
    steps: &mut Steps<L>,
) -> bool
    requires s_in { IsWithinLimits (copper_of s) }
    requires t_in { IsWithinLimits (copper_of t) }
    requires c_small { c ≤ width_limit_nm }
    ensures apart { IsTrue result ↔ AreShapesApart (copper_of s.entry) (copper_of t.entry) c }
    ensures cost { steps.new ≤ steps.old + pair_count (copper_of s.entry) (copper_of t.entry) }
{
    if s.layer != t.layer {
        return true;
    }
    let k = u64::from(s.width) + u64::from(t.width) + 2 * u64::from(c);
    cores_keep(s, t, k, steps)
}

/// Whether a shape is nearer than 1 nm to the area within a ring of points, or lies in it, whatever the layer. It takes
/// at most one step for each pair of a segment or edge of the shape and an edge of the area.
pub fn touches<L: Ledger>(s: ShapeView<'_>, area: &[Pt], steps: &mut Steps<L>) -> bool
    requires s_in { IsWithinLimits (copper_of s) }
    requires area_in { All IsInRange area.now }
    ensures touches { IsTrue result ↔ Touches (copper_of s.entry) area.now }
    ensures cost { steps.new ≤ steps.old + length (pieces_of (copper_of s.entry)) * length area.now }
{
    !shape_keeps(s, ShapeView::of_area(area, s.layer), 1, steps)
}

/// Whether the first point of `s` lies in an area. It doesn't where `s` has no point.
fn begins_inside(s: ShapeView<'_>, area: ShapeView<'_>) -> bool
    requires s_in { IsWithinLimits (copper_of s) }
    requires area_in { IsWithinLimits (copper_of area) }
    requires is_area { IsTrue area.area }
    ensures { IsTrue result ↔ IsFirstInside (copper_of s.entry).points (copper_of area.entry).points }
{
    !s.points.is_empty() && holds(area, s.point(0))
}

/// Whether a shape lies within the area inside a ring of points: it begins in the area, and is apart by 1 nm from the
/// ring, whatever the layer. It takes at most one step for each pair of a segment or edge of the shape and an edge of
/// the area.
#[tactic(auto, using(crate::proofs::Outlines::lies_to))]
pub fn lies_within<L: Ledger>(s: ShapeView<'_>, area: &[Pt], steps: &mut Steps<L>) -> bool
    requires s_in { IsWithinLimits (copper_of s) }
    requires area_in { All IsInRange area.now }
    ensures within { IsTrue result ↔ LiesWithin (copper_of s.entry) area.now }
    ensures cost { steps.new ≤ steps.old + length (pieces_of (copper_of s.entry)) * length area.now }
{
    let ring = ShapeView::of_area(area, s.layer);
    if !begins_inside(s, ring) {
        return false;
    }
    if !begins_outside(ring, s) {
        return false;
    }
    pieces_keep(s, ring, u64::from(s.width) + 2, steps)
}

/// Two shapes are apart both ways round.
pub fn apart_both_ways()
    ensures { (s t : Copper) (c : ℕ) → AreShapesApart s t c → AreShapesApart t s c }
{}
