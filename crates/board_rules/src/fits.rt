//! Whether an item may be asked about, for tests.
ghost use Rattle.std.specs.Prelude.{◌≡◌, ◌<◌, ◌^◌, length, All, IsTrue};
ghost use Rattle.area_geometry.specs.Copper.{copper_of, IsWithinLimits};
ghost use Rattle.board_items.specs.Adds.{item_seen};
ghost use Rattle.board_items.specs.Shapes.{copper_of_item};
ghost use Rattle.board_rules.specs.Designs.{NamesThere, HasEnough, IsFitItem};

use crate::Parts;
use area_geometry::{ShapeView, is_within_limits};
use board_items::{ItemView, Stacks, shape_at, shape_count};

fn has_few(item: ItemView<'_>, stacks: &Stacks) -> bool
    ensures { IsTrue result → length (copper_of_item stacks.now (item_seen item.entry)) < 2 ^ 32 }
{
    match item {
        ItemView::Wire { .. } => true,
        ItemView::Via { padstack, .. } => match stacks.as_slice().get(padstack as usize) {
            None => true,
            Some(stack) => stack.shapes.len() < 100,
        },
        _ => false,
    }
}

fn all_fit(item: ItemView<'_>, stacks: &Stacks) -> bool
    requires { length (copper_of_item stacks.now (item_seen item)) < 2 ^ 32 }
    ensures { IsTrue result → All IsWithinLimits (copper_of_item stacks.now (item_seen item.entry)) }
{
    for i in 0..shape_count(item, stacks) {
        if !is_within_limits(shape_at(item, stacks, i)) {
            return false;
        }
    }
    true
}

// Whether a shape has its points: an area three, a chain one.
fn has_enough(s: ShapeView<'_>) -> bool
    ensures { IsTrue result → HasEnough (copper_of s.entry) }
{
    if s.area {
        return 3 <= s.points.len();
    }
    1 <= s.points.len()
}

fn have_enough(item: ItemView<'_>, stacks: &Stacks) -> bool
    requires { length (copper_of_item stacks.now (item_seen item)) < 2 ^ 32 }
    ensures { IsTrue result → All HasEnough (copper_of_item stacks.now (item_seen item.entry)) }
{
    for i in 0..shape_count(item, stacks) {
        if !has_enough(shape_at(item, stacks, i)) {
            return false;
        }
    }
    true
}

fn names_there(parts: &Parts, item: ItemView<'_>) -> bool
    ensures { IsTrue result → NamesThere parts.now (item_seen item.entry) }
{
    match item {
        ItemView::Wire { net, layer, .. } => {
            (net as usize) < parts.nets.len() && (layer as usize) < parts.layers.len()
        }
        ItemView::Via { net, padstack, .. } => {
            (net as usize) < parts.nets.len() && (padstack as usize) < parts.stacks.len()
        }
        _ => false,
    }
}

// Whether a wire or a via may lie in a design of these parts.
pub(crate) fn fits_item(parts: &Parts, item: ItemView<'_>) -> bool
    ensures { IsTrue result → IsFitItem parts.now (item_seen item.entry) }
{
    if !names_there(parts, item) {
        return false;
    }
    if !has_few(item, &parts.stacks) {
        return false;
    }
    if !have_enough(item, &parts.stacks) {
        return false;
    }
    all_fit(item, &parts.stacks)
}
