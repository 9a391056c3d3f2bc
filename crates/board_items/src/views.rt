//! Items that are borrowed.
ghost use Rattle.std.specs.Prelude.{◌≡◌, ◌≤◌, ◌<◌, IfSome, IfNone, IfOk};
ghost use Rattle.board_items.specs.Adds.{layer_of_add, item_of_add, item_seen, is_fixed};

use crate::items::{Item, KeepKind};
use crate::requests::Add;
use area_geometry::Shapes;
use row_lists::Copied;
use seg_geometry::Pt;
use std::alloc::AllocError;

/// A borrowed item, as `Item`.
#[derive(Clone, Copy, Debug)]
pub enum ItemView<'a> {
    Wire {
        net: u32,
        layer: u8,
        width: u32,
        points: &'a [Pt],
        fix: bool,
    },
    Via {
        net: u32,
        padstack: u32,
        at: Pt,
        fix: bool,
    },
    Pad {
        net: Option<u32>,
        shapes: &'a Shapes,
    },
    Keep {
        kind: KeepKind,
        shapes: &'a Shapes,
    },
}

/// The item, borrowed.
pub fn view(item: &Item) -> ItemView<'_>
    ensures { item_seen result ≡ item.now }
{
    match item {
        Item::Wire {
            net,
            layer,
            width,
            points,
            fix,
        } => ItemView::Wire {
            net: *net,
            layer: *layer,
            width: *width,
            points: points.as_slice(),
            fix: *fix,
        },
        Item::Via {
            net,
            padstack,
            at,
            fix,
        } => ItemView::Via {
            net: *net,
            padstack: *padstack,
            at: *at,
            fix: *fix,
        },
        Item::Pad { net, shapes } => ItemView::Pad { net: *net, shapes },
        Item::Keep { kind, shapes } => ItemView::Keep {
            kind: *kind,
            shapes,
        },
    }
}

/// The item that an add makes, which isn't fixed; none where a wire's layer is above 255.
pub fn view_add(add: &Add) -> Option<ItemView<'_>>
    ensures some { IfSome result (λ seen. item_seen seen ≡ item_of_add add.now) }
    ensures none { IfNone result (255 < layer_of_add add.now) }
{
    match add {
        Add::Wire {
            net,
            layer,
            width,
            points,
        } => {
            let layer = u8::try_from(*layer).ok()?;
            Some(ItemView::Wire {
                net: *net,
                layer,
                width: *width,
                points: points.as_slice(),
                fix: false,
            })
        }
        Add::Via { net, padstack, at } => Some(ItemView::Via {
            net: *net,
            padstack: *padstack,
            at: *at,
            fix: false,
        }),
    }
}

/// Whether the item can't be deleted: a pad, a keepout, or wiring that is marked so.
pub fn is_fixed(item: ItemView<'_>) -> bool
    ensures { result ≡ is_fixed (item_seen item.entry) }
{
    match item {
        ItemView::Wire { fix, .. } => fix,
        ItemView::Via { fix, .. } => fix,
        ItemView::Pad { .. } => true,
        ItemView::Keep { .. } => true,
    }
}

/// The item that an add makes, which isn't fixed, as an item of its own; none where a wire's layer is above 255. Its
/// one error is want of memory.
pub fn item_of_add(add: &Add) -> Result<Option<Item>, AllocError>
    ensures some { IfOk result (λ o. IfSome o (λ item. item ≡ item_of_add add.now)) }
    ensures within { IfOk result (λ o. IfSome o (λ item. layer_of_add add.now ≤ 255)) }
    ensures none { IfOk result (λ o. IfNone o (255 < layer_of_add add.now)) }
{
    match add {
        Add::Wire {
            net,
            layer,
            width,
            points,
        } => {
            let Ok(layer) = u8::try_from(*layer) else {
                return Ok(None);
            };
            Ok(Some(Item::Wire {
                net: *net,
                layer,
                width: *width,
                points: points.copied()?,
                fix: false,
            }))
        }
        Add::Via { net, padstack, at } => Ok(Some(Item::Via {
            net: *net,
            padstack: *padstack,
            at: *at,
            fix: false,
        })),
    }
}
