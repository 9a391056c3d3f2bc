//! Which live items adds are too near to.
ghost use Rattle.std.specs.Prelude.{◌+◌, ◌<◌, ◌≤◌, ◌^◌, length};
ghost use Rattle.std.specs.List.{AllByRecursion};
ghost use Rattle.board_rules.specs.FitAdds.{IsFitAdd};
ghost use Rattle.number_slots.specs.Slots.{without};
ghost use Rattle.board_core.specs.Boards.{IsBoardOf};
ghost use Rattle.board_core.specs.Costs.{clashes_most};
ghost use Rattle.board_core.specs.Edits.{IsClashReason};

use crate::board::Board;
use crate::nears::least_near;
use board_items::{Add, ItemId, Why, view_add};
use board_rules::Design;
use seg_geometry::Steps;
use std::sync::ledger::Ledger;

/// The least add, and then the least live item that isn't deleted, that are too near under the board's rules.
pub fn clash_why<L: Ledger>(
    design: &Design,
    board: &Board,
    deletes: &[u32],
    adds: &[Add],
    steps: &mut Steps<L>,
) -> Option<Why>
    requires adds_fit { AllByRecursion (IsFitAdd design.now.parts) adds.now }
    requires few { length adds.now < 2 ^ 32 }
    requires board { IsBoardOf design.now.parts board.now }
    ensures reason { IsClashReason design.now.parts board.now.rules board.now.live deletes.now 1 adds.now result }
    ensures cost { steps.new ≤ steps.old + clashes_most design.now.parts (without deletes.now board.now.live) adds.now }
{
    let rules = board.rules_view();
    let items = board.live_items();
    for (i, add) in adds.iter().enumerate() {
        let item = view_add(add)?;
        if let Some(id) = least_near(design, rules, items, 0, deletes, item, steps) {
            let add = i as u32 + 1;
            return Some(Why::Clash {
                add,
                id: ItemId(id),
            });
        }
    }
    None
}
