//! What reserving and releasing an item is answered.
ghost use Rattle.std.specs.Prelude.{◌≤◌, ◌+◌};
ghost use Rattle.board_core.specs.Boards.{IsBoardOf};
ghost use Rattle.board_core.specs.Costs.{touch_at_most};
ghost use Rattle.board_core.specs.Reservings.{IsHolderReason, IsReserveReason, IsReleaseReason};

use crate::barrings::item_why;
use crate::board::Board;
use board_items::{ItemId, Why, is_fixed, view};
use board_rules::Design;
use reservations::Held;
use seg_geometry::Steps;
use std::sync::ledger::Ledger;

// The reason that names the client who holds an item, whoever it is.
fn holder_why(held: &Held, id: ItemId) -> Option<Why>
    ensures { IsHolderReason held.now.pairs id.0 result }
{
    let client = held.holder(id)?;
    Some(Why::Reserved { id, client })
}

/// What reserving an item is answered.
pub fn reserve_why<L: Ledger>(
    design: &Design,
    board: &Board,
    client: u8,
    id: ItemId,
    steps: &mut Steps<L>,
) -> Option<Why>
    requires board { IsBoardOf design.now.parts board.now }
    ensures reason { IsReserveReason design.now.parts board.now client id.0 result }
    ensures cost { steps.new ≤ steps.old + touch_at_most design.now.parts board.now id.0 }
{
    let Some(item) = board.item(id) else {
        return Some(Why::Missing { id });
    };
    if is_fixed(view(item)) {
        return Some(Why::Fixed { id });
    }
    if let Some(why) = holder_why(board.held(), id) {
        return Some(why);
    }
    item_why(design, board, client, id.0, steps)
}

/// What releasing an item is answered.
pub fn release_why(board: &Board, client: u8, id: ItemId) -> Option<Why>
    ensures { IsReleaseReason board.now client id.0 result }
{
    if board.item(id).is_none() {
        return Some(Why::Missing { id });
    }
    let Some(holder) = board.held().holder(id) else {
        return Some(Why::Unheld { id });
    };
    if holder != client {
        return Some(Why::Unheld { id });
    }
    None
}
