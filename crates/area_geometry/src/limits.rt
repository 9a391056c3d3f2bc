//! Whether a shape lies within the limits, for all shapes.
ghost use Rattle.std.specs.Prelude.{◌≤◌, ◌↔◌, ◌+ℤ◌, All, IsTrue, unsigned_abs};
ghost use Rattle.row_lists.specs.Limits.{coordinate_limit_nm};
ghost use Rattle.seg_geometry.specs.Points.{IsInRange};
ghost use Rattle.area_geometry.specs.Copper.{copper_of, moved, IsWithinLimits};

use crate::shapes::ShapeView;
use row_lists::{COORDINATE_LIMIT_NM, WIDTH_LIMIT_NM};
use seg_geometry::Pt;

// Whether a sum of two coordinates is in range.
fn is_sum_in_range(a: i64, b: i64) -> bool
    ensures { IsTrue result ↔ (unsigned_abs (a +ℤ b) ≤ coordinate_limit_nm) }
{
    (i128::from(a) + i128::from(b)).unsigned_abs() <= u128::from(COORDINATE_LIMIT_NM)
}

// Whether a point is in range where it is moved by another.
fn lies_in_range(p: Pt, at: Pt) -> bool
    ensures { IsTrue result ↔ IsInRange (moved at p) }
{
    is_sum_in_range(p.x, at.x) && is_sum_in_range(p.y, at.y)
}

// Whether all points are in range where they are moved by another.
fn all_in_range(points: &[Pt], at: Pt) -> bool
    ensures { IsTrue result ↔ All (λ p. IsInRange (moved at p)) points.now }
{
    points.iter().all(|p| lies_in_range(*p, at))
}

/// Whether all points of a shape are in range at their places, and its width is at most 100,000,000 nm.
pub fn is_within_limits(s: ShapeView<'_>) -> bool
    ensures { IsTrue result ↔ IsWithinLimits (copper_of s.entry) }
{
    s.width <= WIDTH_LIMIT_NM && all_in_range(s.points, s.at)
}
