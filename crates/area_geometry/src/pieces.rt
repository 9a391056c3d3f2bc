//! The segments of a chain and the edges of an area, at their place.
ghost use Rattle.std.specs.Prelude.{◌≡◌, ◌+◌, ◌<◌, length, slice_get};
ghost use Rattle.seg_geometry.specs.Points.{IsInRange, IsSegInRange};
ghost use Rattle.area_geometry.specs.Copper.{area_on, copper_of, pieces_of, IsWithinLimits};

use crate::shapes::ShapeView;
use seg_geometry::{Pt, Seg};

/// The index that follows `i` round a ring of `count`.
fn following(i: usize, count: usize) -> usize
    requires { i < count }
    ensures on { i + 1 < count → result ≡ i + 1 }
    ensures back { i + 1 ≡ count → result ≡ 0 }
{
    if i + 1 < count { i + 1 } else { 0 }
}

impl<'a> ShapeView<'a> {
    /// The area within the ring of the points, with width 0.
    pub(crate) fn of_area(points: &'a [Pt], layer: u8) -> Self
        ensures { copper_of result ≡ area_on layer points.now }
    {
        ShapeView {
            layer,
            area: true,
            points,
            width: 0,
            at: Pt { x: 0, y: 0 },
        }
    }

    /// The point `i` of the core, from 0.
    pub(crate) fn point(self, i: usize) -> Pt
        requires limits { IsWithinLimits (copper_of self) }
        requires within { i < length self.points.now }
        ensures is { slice_get (copper_of self.entry).points i ≡ Some result }
        ensures in_range { IsInRange result }
    {
        let p = self.points[i];
        Pt {
            x: p.x + self.at.x,
            y: p.y + self.at.y,
        }
    }

    /// How many segments or edges the core has.
    pub(crate) fn piece_count(self) -> usize
        ensures { result ≡ length (pieces_of (copper_of self.entry)) }
    {
        let count = self.points.len();
        if self.area {
            count
        } else if count == 1 {
            1
        } else {
            count.saturating_sub(1)
        }
    }

    /// The segment or edge `i` of the core, from 0. An area's last edge leads back to its first point.
    pub(crate) fn piece(self, i: usize) -> Seg
        requires limits { IsWithinLimits (copper_of self) }
        requires within { i < length (pieces_of (copper_of self)) }
        ensures is { slice_get (pieces_of (copper_of self.entry)) i ≡ Some result }
        ensures in_range { IsSegInRange result }
    {
        let next = following(i, self.points.len());
        Seg {
            a: self.point(i),
            b: self.point(next),
        }
    }
}
