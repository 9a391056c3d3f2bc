//! Whether an item, or an area, touches an area.
ghost use Rattle.std.specs.Prelude.{◌≡◌, ◌≤◌, ◌+◌, ◌<◌, ◌^◌, ◌↔◌, true, IsTrue, All, Any, length};
ghost use Rattle.seg_geometry.specs.Points.{IsInRange};
ghost use Rattle.seg_geometry.specs.Rectangles.{IsLeastGrown};
ghost use Rattle.area_geometry.specs.Copper.{IsWithinLimits, area_on, copper_of};
ghost use Rattle.area_geometry.specs.Apart.{Touches};
ghost use Rattle.area_geometry.specs.Boxes.{IsBox};
ghost use Rattle.board_items.specs.Adds.{item_seen};
ghost use Rattle.board_items.specs.Shapes.{copper_of_item};
ghost use Rattle.number_slots.specs.Slots.{is_among};
ghost use Rattle.boundaries.specs.Touching.{IsTouching, TouchesArea};
ghost use Rattle.boundaries.specs.Costs.{near_most, shape_most, shapes_most};

use area_geometry::{ShapeView, box_of, touches};
use board_items::{ItemView, Stacks, shape_at, shape_count};
use seg_geometry::{Pt, Rect, Steps, rect_meets};
use std::sync::ledger::Ledger;

// Whether a shape touches an area, whatever its layer. It takes no step where the shape's box, moved out by 1 nm, misses
// the area's box.
fn touches_framed<L: Ledger>(
    s: ShapeView<'_>,
    own: Rect,
    area: &[Pt],
    frame: Rect,
    steps: &mut Steps<L>,
) -> bool
    requires s_in { IsWithinLimits (copper_of s) }
    requires own { IsBox own (copper_of s) 1 }
    requires area_in { All IsInRange area.now }
    requires frame { IsLeastGrown frame area.now 0 }
    ensures touches { IsTrue result ↔ Touches (copper_of s.entry) area.now }
    ensures cost { steps.new ≤ steps.old + near_most area.now (copper_of s.entry) }
{
    if !rect_meets(own, frame) {
        return false;
    }
    touches(s, area, steps)
}

// Whether a shape lies on one of the layers and touches the area.
fn shape_touches<L: Ledger>(
    s: ShapeView<'_>,
    layers: &[u8],
    area: &[Pt],
    frame: Rect,
    steps: &mut Steps<L>,
) -> bool
    requires s_in { IsWithinLimits (copper_of s) }
    requires area_in { All IsInRange area.now }
    requires frame { IsLeastGrown frame area.now 0 }
    ensures touches { IsTrue result ↔ IsTouching layers.now area.now (copper_of s.entry) }
    ensures cost { steps.new ≤ steps.old + shape_most layers.now area.now (copper_of s.entry) }
{
    if s.points.is_empty() {
        return false;
    }
    layers.contains(&s.layer) && touches_framed(s, box_of(s, 1), area, frame, steps)
}

/// Whether an item lies on one of these layers and isn't apart there by 1 nm from the area within a ring of points, whose
/// least rectangle is the frame. It takes no memory, and at most one step for each segment or edge of the item and each
/// edge of the area, where the boxes of the item's shape, moved out by 1 nm, and of the area meet.
pub fn touches_area<L: Ledger>(
    item: ItemView<'_>,
    stacks: &Stacks,
    layers: &[u8],
    area: &[Pt],
    frame: Rect,
    steps: &mut Steps<L>,
) -> bool
    requires item_in { All IsWithinLimits (copper_of_item stacks.now (item_seen item)) }
    requires item_few { length (copper_of_item stacks.now (item_seen item)) < 2 ^ 32 }
    requires area_in { All IsInRange area.now }
    requires frame { IsLeastGrown frame area.now 0 }
    ensures touches { IsTrue result ↔ TouchesArea (copper_of_item stacks.now (item_seen item.entry)) layers.now area.now }
    ensures cost { steps.new ≤ steps.old + shapes_most layers.now area.now (copper_of_item stacks.now (item_seen item.entry)) }
{
    for i in 0..shape_count(item, stacks) {
        if shape_touches(shape_at(item, stacks, i), layers, area, frame, steps) {
            return true;
        }
    }
    false
}

/// Whether one of the layers is among the others.
pub fn share_layer(layers: &[u8], others: &[u8]) -> bool
    ensures { IsTrue result ↔ Any (λ layer. is_among layer others.now ≡ true) layers.now }
{
    layers.iter().any(|layer| others.contains(layer))
}

// The area within a ring of points, on layer 0.
fn area_view(area: &[Pt]) -> ShapeView<'_>
    ensures { copper_of result ≡ area_on 0 area.now }
{
    ShapeView {
        layer: 0,
        area: true,
        points: area,
        width: 0,
        at: Pt { x: 0, y: 0 },
    }
}

/// Whether two areas aren't apart by 1 nm, whatever their layers. The area's least rectangle, moved out by 1 nm, is
/// `own`, and that of the other one is the frame. It takes no step where these two miss each other.
pub fn area_near<L: Ledger>(
    area: &[Pt],
    own: Rect,
    other: &[Pt],
    frame: Rect,
    steps: &mut Steps<L>,
) -> bool
    requires area_in { All IsInRange area.now }
    requires own { IsLeastGrown own area.now 1 }
    requires other_in { All IsInRange other.now }
    requires frame { IsLeastGrown frame other.now 0 }
    ensures touches { IsTrue result ↔ Touches (area_on 0 area.now) other.now }
    ensures cost { steps.new ≤ steps.old + near_most other.now (area_on 0 area.now) }
{
    touches_framed(area_view(area), own, other, frame, steps)
}
