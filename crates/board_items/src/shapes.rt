//! The shapes of an item at their place.
ghost use Rattle.std.specs.Prelude.{◌≡◌, ◌≤◌, ◌<◌, ◌-◌, ◌^◌, length, map, slice_get, Some};
ghost use Rattle.area_geometry.specs.Copper.{copper_of, placed};
ghost use Rattle.board_items.specs.Adds.{item_seen};
ghost use Rattle.board_items.specs.Shapes.{copper_of_item, chain_on, shapes_of};

use crate::items::Stacks;
use crate::views::ItemView;
use area_geometry::{ShapeView, Shapes};
use seg_geometry::Pt;

// The place that moves nothing.
const ORIGIN: Pt = Pt { x: 0, y: 0 };

// How many shapes the padstack of this number has; none where there is no such padstack.
fn stack_count(stacks: &Stacks, padstack: u32) -> usize
    ensures { result ≡ length (shapes_of (slice_get stacks.now padstack)) }
{
    match stacks.as_slice().get(padstack as usize) {
        None => 0,
        Some(stack) => stack.shapes.len(),
    }
}

// The number, or the greatest of 32 bits where it is greater.
fn saturated(count: usize) -> u32
    ensures few { count < 2 ^ 32 → result ≡ count }
    ensures many { 2 ^ 32 ≤ count → result ≡ 2 ^ 32 - 1 }
{
    u32::try_from(count).unwrap_or(u32::MAX)
}

// How many shapes an item has.
fn count_of(item: ItemView<'_>, stacks: &Stacks) -> usize
    ensures { result ≡ length (copper_of_item stacks.now (item_seen item.entry)) }
{
    match item {
        ItemView::Wire { .. } => 1,
        ItemView::Via { padstack, .. } => stack_count(stacks, padstack),
        ItemView::Pad { shapes, .. } => shapes.len(),
        ItemView::Keep { shapes, .. } => shapes.len(),
    }
}

/// How many shapes an item has, or 4,294,967,295 where they are more. A via of a padstack that isn't there has none.
pub fn shape_count(item: ItemView<'_>, stacks: &Stacks) -> u32
    ensures few { length (copper_of_item stacks.now (item_seen item.entry)) < 2 ^ 32 → result ≡ length (copper_of_item stacks.now (item_seen item.entry)) }
    ensures many { 2 ^ 32 ≤ length (copper_of_item stacks.now (item_seen item.entry)) → result ≡ 2 ^ 32 - 1 }
{
    saturated(count_of(item, stacks))
}

// A chain at its place.
fn chain_view(layer: u8, width: u32, points: &[Pt]) -> ShapeView<'_>
    ensures { copper_of result ≡ chain_on layer width points.now }
{
    ShapeView {
        layer,
        area: false,
        points,
        width,
        at: ORIGIN,
    }
}

// The shape `i` of a list, from 0, moved by a point.
fn placed_shape(shapes: &Shapes, at: Pt, i: usize) -> ShapeView<'_>
    requires { i < length (map (placed at) shapes.now) }
    ensures { slice_get (map (placed at) shapes.now) i ≡ Some (copper_of result) }
{
    shapes.get(i).view(at)
}

// The shape `i` of a padstack, from 0, moved by a point.
fn stack_shape(stacks: &Stacks, padstack: u32, at: Pt, i: usize) -> ShapeView<'_>
    requires { i < length (map (placed at) (shapes_of (slice_get stacks.now padstack))) }
    ensures { slice_get (map (placed at) (shapes_of (slice_get stacks.now padstack))) i ≡ Some (copper_of result) }
{
    let stack = stacks.get(padstack as usize);
    placed_shape(&stack.shapes, at, i)
}

/// The shape `i` of an item, from 0, at its place.
pub fn shape_at<'a>(item: ItemView<'a>, stacks: &'a Stacks, i: u32) -> ShapeView<'a>
    requires { i < length (copper_of_item stacks.now (item_seen item)) }
    ensures { slice_get (copper_of_item stacks.now (item_seen item.entry)) i ≡ Some (copper_of result) }
{
    let i = i as usize;
    match item {
        ItemView::Wire {
            layer,
            width,
            points,
            ..
        } => chain_view(layer, width, points),
        ItemView::Via { padstack, at, .. } => stack_shape(stacks, padstack, at, i),
        ItemView::Pad { shapes, .. } => placed_shape(shapes, ORIGIN, i),
        ItemView::Keep { shapes, .. } => placed_shape(shapes, ORIGIN, i),
    }
}
