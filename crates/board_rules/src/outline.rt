//! Whether items lie inside the outline.
ghost use Rattle.std.specs.Prelude.{◌↔◌, ◌≤◌, ◌<◌, ◌+◌, ◌*◌, ◌^◌, length, All, Any, IsTrue};
ghost use Rattle.std.specs.List.{AllByRecursion};
ghost use Rattle.area_geometry.specs.Copper.{copper_of, pieces_of, IsWithinLimits};
ghost use Rattle.area_geometry.specs.Apart.{LiesWithin};
ghost use Rattle.board_items.specs.Adds.{item_seen};
ghost use Rattle.board_items.specs.Shapes.{copper_of_item};
ghost use Rattle.board_items.specs.Segments.{segments_of};
ghost use Rattle.board_rules.specs.Costs.{edges_of};
ghost use Rattle.board_rules.specs.Designs.{IsFitArea};
ghost use Rattle.board_rules.specs.Reasons.{IsInside};

use area_geometry::{ShapeView, lies_within};
use board_items::{ItemView, Stacks, shape_at, shape_count};
use seg_geometry::{Points, Steps};
use std::sync::ledger::Ledger;

// Whether a shape lies within one of these areas.
fn lies_in_one<L: Ledger>(s: ShapeView<'_>, areas: &[Points], steps: &mut Steps<L>) -> bool
    requires s_in { IsWithinLimits (copper_of s) }
    requires areas_in { AllByRecursion IsFitArea areas.now }
    ensures within { IsTrue result ↔ Any (LiesWithin (copper_of s.entry)) areas.now }
    ensures cost { steps.new ≤ steps.old + length (pieces_of (copper_of s.entry)) * edges_of areas.now }
{
    for area in areas {
        if lies_within(s, area.as_slice(), steps) {
            return true;
        }
    }
    false
}

// Whether a shape is inside an outline of these areas.
fn shape_lies_inside<L: Ledger>(s: ShapeView<'_>, areas: &[Points], steps: &mut Steps<L>) -> bool
    requires s_in { IsWithinLimits (copper_of s) }
    requires areas_in { AllByRecursion IsFitArea areas.now }
    ensures inside { IsTrue result ↔ IsInside areas.now (copper_of s.entry) }
    ensures cost { steps.new ≤ steps.old + length (pieces_of (copper_of s.entry)) * edges_of areas.now }
{
    if areas.is_empty() {
        return true;
    }
    lies_in_one(s, areas, steps)
}

// Whether each shape of an item is inside an outline of these areas.
pub(crate) fn lies_inside<L: Ledger>(
    item: ItemView<'_>,
    stacks: &Stacks,
    areas: &[Points],
    steps: &mut Steps<L>,
) -> bool
    requires copper_in { All IsWithinLimits (copper_of_item stacks.now (item_seen item)) }
    requires few { length (copper_of_item stacks.now (item_seen item)) < 2 ^ 32 }
    requires areas_in { AllByRecursion IsFitArea areas.now }
    ensures inside { IsTrue result ↔ All (IsInside areas.now) (copper_of_item stacks.now (item_seen item.entry)) }
    ensures cost { steps.new ≤ steps.old + segments_of stacks.now (item_seen item.entry) * edges_of areas.now }
{
    for i in 0..shape_count(item, stacks) {
        if !shape_lies_inside(shape_at(item, stacks, i), areas, steps) {
            return false;
        }
    }
    true
}
