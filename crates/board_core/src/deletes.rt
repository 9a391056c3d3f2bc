//! Why items can't be deleted.
ghost use Rattle.std.specs.Prelude.{[]};
ghost use Rattle.board_core.specs.Edits.{IsDeleteReason, IsDeletesReason, IsOtherReason, IsHeldReason};

use crate::board::Board;
use board_items::{ItemId, Why, is_fixed, view};
use reservations::Held;

// Why the item of a number can't be deleted, where these numbers are deleted before it.
fn delete_why(board: &Board, before: &[u32], id: u32) -> Option<Why>
    ensures { IsDeleteReason board.now.live before.now id result }
{
    if before.contains(&id) {
        return Some(Why::Repeated { id: ItemId(id) });
    }
    let Some(item) = board.item(ItemId(id)) else {
        return Some(Why::Missing { id: ItemId(id) });
    };
    if is_fixed(view(item)) {
        return Some(Why::Fixed { id: ItemId(id) });
    }
    None
}

/// The first reason against deletes, one after another. It takes no step.
pub fn deletes_why(board: &Board, deletes: &[u32]) -> Option<Why>
    ensures { IsDeletesReason board.now.live [] deletes.now result }
{
    for (i, id) in deletes.iter().enumerate() {
        let (before, _) = deletes.split_at(i);
        if let Some(why) = delete_why(board, before, *id) {
            return Some(why);
        }
    }
    None
}

// The reason that names another client than this one who holds the item of a number.
fn other_why(held: &Held, client: u8, id: u32) -> Option<Why>
    ensures { IsOtherReason held.now.pairs client id result }
{
    let holder = held.holder(ItemId(id))?;
    if holder == client {
        return None;
    }
    Some(Why::Reserved {
        id: ItemId(id),
        client: holder,
    })
}

/// The first of the deletes that another client holds. It takes no step.
pub fn held_why(board: &Board, client: u8, deletes: &[u32]) -> Option<Why>
    ensures { IsHeldReason board.now.held client deletes.now result }
{
    for id in deletes {
        if let Some(why) = other_why(board.held(), client, *id) {
            return Some(why);
        }
    }
    None
}
