//! The box of a shape, and that shapes whose boxes don't meet are apart.
ghost use Rattle.std.specs.Prelude.{◌≤◌, ◌<◌, ◌⊎◌, ◌↔◌, ℕ, IsTrue, length};
ghost use Rattle.row_lists.specs.Limits.{width_limit_nm};
ghost use Rattle.area_geometry.specs.Copper.{Copper, copper_of, IsWithinLimits};
ghost use Rattle.area_geometry.specs.Boxes.{IsBox, AreBoxesNear, are_boxes_near};
ghost use Rattle.area_geometry.specs.Apart.{AreShapesApart};

use crate::shapes::ShapeView;
use seg_geometry::{Rect, grown, stretched};

/// The box of a shape: the least rectangle round its points, with each side moved out by half of its width, rounded
/// up, and by `by` nm more. The shape has a point. It takes no memory.
pub fn box_of(s: ShapeView<'_>, by: u32) -> Rect
    requires some { 0 < length (copper_of s).points }
    requires limits { IsWithinLimits (copper_of s) }
    requires by_small { by ≤ width_limit_nm }
    ensures { IsBox result (copper_of s.entry) by }
{
    let first = s.point(0);
    let mut frame = Rect {
        lo: first,
        hi: first,
    };
    for i in 1..s.points.len() {
        frame = stretched(frame, s.point(i));
    }
    grown(frame, u64::from(s.width).div_ceil(2) + u64::from(by))
}

/// The boxes of two shapes meet on one layer, with that of the first moved out by `by` nm more, or the shapes are apart
/// by any clearance up to `by`.
pub fn shapes_are_near_or_apart()
    ensures { (s t : Copper) (c by : ℕ) → c ≤ by → AreBoxesNear by s t ⊎ AreShapesApart s t c }
{}

/// The boxes of two shapes on one layer meet exactly where, along both axes, some point of each comes as near to one of
/// the other as both widths and `by` reach.
pub fn near_boxes_reach_each_other()
    ensures { (by : ℕ) (s t : Copper) → AreBoxesNear by s t ↔ IsTrue (are_boxes_near by s t) }
{}
