//! Rectangles with sides along the axes: round some points, and whether two meet.
ghost use Rattle.std.specs.Prelude.{◌≡◌, ◌<◌, ◌≤◌, ◌↔◌, pos, ◌+ℤ◌, ◌-ℤ◌, length, All, IsTrue, unsigned_abs};
ghost use Rattle.std.specs.Int.{int_min, int_max};
ghost use Rattle.row_lists.specs.Limits.{coordinate_limit_nm};
ghost use Rattle.seg_geometry.specs.Points.{IsInRange};
ghost use Rattle.seg_geometry.specs.Rectangles.{IsLeastGrown, Meets, RangesMeet};

use crate::points::Pt;

/// The points from `lo` to `hi` along both axes, the sides included. It has none where `lo` lies beyond `hi`.
#[derive(Clone, Copy, Debug, PartialEq, Eq)]
pub struct Rect {
    pub lo: Pt,
    pub hi: Pt,
}

/// The rectangle, stretched to hold the point too.
pub fn stretched(r: Rect, p: Pt) -> Rect
    ensures left { result.lo.x ≡ int_min r.lo.x p.x }
    ensures low { result.lo.y ≡ int_min r.lo.y p.y }
    ensures right { result.hi.x ≡ int_max r.hi.x p.x }
    ensures high { result.hi.y ≡ int_max r.hi.y p.y }
{
    Rect {
        lo: Pt {
            x: r.lo.x.min(p.x),
            y: r.lo.y.min(p.y),
        },
        hi: Pt {
            x: r.hi.x.max(p.x),
            y: r.hi.y.max(p.y),
        },
    }
}

/// The rectangle, with each side moved out by `by` nm.
pub fn grown(r: Rect, by: u64) -> Rect
    requires low { IsInRange r.lo }
    requires high { IsInRange r.hi }
    requires by_small { by ≤ coordinate_limit_nm }
    ensures left { result.lo.x ≡ r.lo.x -ℤ pos by }
    ensures low { result.lo.y ≡ r.lo.y -ℤ pos by }
    ensures right { result.hi.x ≡ r.hi.x +ℤ pos by }
    ensures high { result.hi.y ≡ r.hi.y +ℤ pos by }
{
    let by = by as i64;
    Rect {
        lo: Pt {
            x: r.lo.x - by,
            y: r.lo.y - by,
        },
        hi: Pt {
            x: r.hi.x + by,
            y: r.hi.y + by,
        },
    }
}

/// The least rectangle round the points, with each side moved out by `by` nm.
pub fn rect_of(points: &[Pt], by: u64) -> Rect
    requires some { 0 < length points.now }
    requires in_range { All IsInRange points.now }
    requires by_small { by ≤ coordinate_limit_nm }
    ensures { IsLeastGrown result points.now by }
{
    let mut frame = Rect {
        lo: points[0],
        hi: points[0],
    };
    for p in points {
        frame = stretched(frame, *p);
    }
    grown(frame, by)
}

/// Whether two ranges have a number in common, their ends included.
fn ranges_meet(low: i64, high: i64, other_low: i64, other_high: i64) -> bool
    ensures { IsTrue result ↔ RangesMeet low high other_low other_high }
{
    low.max(other_low) <= high.min(other_high)
}

/// Whether two rectangles have a point in common, their sides included.
pub fn rect_meets(r: Rect, s: Rect) -> bool
    ensures { IsTrue result ↔ Meets r s }
{
    ranges_meet(r.lo.x, r.hi.x, s.lo.x, s.hi.x) && ranges_meet(r.lo.y, r.hi.y, s.lo.y, s.hi.y)
}
