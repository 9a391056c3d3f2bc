//! Whether a point lies in an area.
ghost use Rattle.std.specs.Prelude.{◌≡◌, ◌↔◌, All, IsTrue};
ghost use Rattle.seg_geometry.specs.Points.{IsInRange, IsSegInRange};
ghost use Rattle.area_geometry.specs.Copper.{copper_of, IsWithinLimits};
ghost use Rattle.area_geometry.specs.Rings.{counts, IsInside};

use crate::shapes::ShapeView;
use seg_geometry::{Pt, Seg, cross_sign};

/// Whether the ray from `v` towards greater x crosses the edge.
fn crosses(v: Pt, edge: Seg) -> bool
    requires v_in { IsInRange v }
    requires edge_in { IsSegInRange edge }
    ensures { result ≡ counts v edge }
{
    match (edge.a.y > v.y, edge.b.y > v.y) {
        (false, true) => cross_sign(edge.a, edge.b, v) > 0,
        (true, false) => cross_sign(edge.a, edge.b, v) < 0,
        _ => false,
    }
}

/// Whether `v` lies in the area that the view shows.
pub(crate) fn holds(area: ShapeView<'_>, v: Pt) -> bool
    requires area_in { IsWithinLimits (copper_of area) }
    requires is_area { IsTrue area.area }
    requires v_in { IsInRange v }
    ensures { IsTrue result ↔ IsInside v (copper_of area.entry).points }
{
    let mut crossed = 0u64;
    for i in 0..area.piece_count() {
        if crosses(v, area.piece(i)) {
            crossed += 1;
        }
    }
    crossed % 2 == 1
}

/// Whether a point lies in the area within a ring of points: whether the ray from it towards greater x crosses an odd
/// number of edges.
pub fn inside(p: Pt, area: &[Pt]) -> bool
    requires p_in { IsInRange p }
    requires area_in { All IsInRange area.now }
    ensures { IsTrue result ↔ IsInside p area.now }
{
    holds(ShapeView::of_area(area, 0), p)
}
