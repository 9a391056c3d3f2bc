//! The boxes of items in an index.
ghost use Rattle.std.specs.Prelude.{◌≡◌, ◌<◌, ◌+◌, ◌^◌, OnOk, length};
ghost use Rattle.area_geometry.specs.Copper.{copper_of, IsWithinLimits};
ghost use Rattle.board_items.specs.Adds.{item_seen};
ghost use Rattle.board_items.specs.Shapes.{copper_of_item};
ghost use Rattle.board_rules.specs.Designs.{IsFitItem, HasEnough};
ghost use Rattle.number_slots.specs.Slots.{numbered};
ghost use Rattle.check_core.specs.Filings.{EntersShape, Enters, EntersAll, Lengthens};

use area_geometry::{ShapeView, box_of};
use board_items::{ItemView, shape_at, shape_count, view};
use board_rules::Design;
use seg_geometry::Near;
use std::alloc::AllocError;

// Enters the box of a shape under a number. An `Err` is want of memory.
fn enter_shape<N: Near>(near: &mut N, id: u32, shape: ShapeView<'_>) -> Result<(), AllocError>
    requires limits { IsWithinLimits (copper_of shape) }
    requires enough { HasEnough (copper_of shape) }
    ensures entered { OnOk result
        (EntersShape id (copper_of shape.entry) (N.filed near.old) (N.filed near.new)) }
    ensures own { Lengthens id (N.filed near.old) (N.filed near.new) }
{
    near.insert(id, shape.layer, box_of(shape, 0))
}

/// Enters the box of each shape of an item under a number. An `Err` is want of memory; some of the boxes may then be
/// entered.
pub fn enter<N: Near>(
    near: &mut N,
    design: &Design,
    id: u32,
    item: ItemView<'_>,
) -> Result<(), AllocError>
    requires { IsFitItem design.now.parts (item_seen item) }
    ensures entered { OnOk result
        (Enters id (copper_of_item design.now.parts.stacks (item_seen item.entry)) (N.filed near.old) (N.filed near.new)) }
    ensures own { Lengthens id (N.filed near.old) (N.filed near.new) }
{
    for i in 0..shape_count(item, design.stacks()) {
        enter_shape(near, id, shape_at(item, design.stacks(), i))?;
    }
    Ok(())
}

/// Enters the loaded items of a design, numbered from 1. An `Err` is want of memory; some of them may then be entered.
pub fn enter_loaded<N: Near>(near: &mut N, design: &Design) -> Result<(), AllocError>
    ensures { OnOk result
        (EntersAll design.now.parts.stacks (numbered 1 design.now.parts.items) (N.filed near.old) (N.filed near.new)) }
{
    for (i, item) in design.items().as_slice().iter().enumerate() {
        enter(near, design, i as u32 + 1, view(item))?;
    }
    Ok(())
}
