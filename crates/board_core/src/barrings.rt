//! Which boundaries bar a client from a change.
ghost use Rattle.std.specs.Prelude.{◌≡◌, ◌≤◌, ◌+◌, ◌∷◌, []};
ghost use Rattle.std.specs.List.{AllByRecursion};
ghost use Rattle.number_slots.specs.Leasts.{IsLeast};
ghost use Rattle.board_items.specs.Adds.{item_seen, item_of_add};
ghost use Rattle.board_items.specs.Shapes.{copper_of_item};
ghost use Rattle.boundaries.specs.Costs.{boundary_most};
ghost use Rattle.board_rules.specs.Designs.{IsFitItem};
ghost use Rattle.board_rules.specs.FitAdds.{IsFitAdd};
ghost use Rattle.board_core.specs.Boards.{IsBoardOf};
ghost use Rattle.board_core.specs.Bars.{IsBarredItem, lesser_of};
ghost use Rattle.board_core.specs.Barrings.{IsBarring, IsProtectedReason};
ghost use Rattle.board_core.specs.Costs.{touch_most, touch_at_most, deletes_most, adds_touch_most};

use crate::board::Board;
use board_items::{Add, ItemId, ItemView, Why, view, view_add};
use board_rules::Design;
use seg_geometry::Steps;
use std::sync::ledger::Ledger;

/// The lesser of two numbers, where they are there.
pub fn lesser(a: Option<u32>, b: Option<u32>) -> Option<u32>
    ensures { result ≡ lesser_of a b }
{
    match (a, b) {
        (None, b) => b,
        (a, None) => a,
        (Some(a), Some(b)) => if a <= b { Some(a) } else { Some(b) },
    }
}

// The least boundary that an item touches and that doesn't entitle the client.
fn item_bar<L: Ledger>(
    design: &Design,
    board: &Board,
    client: u8,
    item: ItemView<'_>,
    steps: &mut Steps<L>,
) -> Option<u32>
    requires item_fits { IsFitItem design.now.parts (item_seen item) }
    ensures least { IsLeast (IsBarredItem design.now.parts board.now client (item_seen item.entry)) result }
    ensures cost { steps.new ≤ steps.old + touch_most design.now.parts board.now.fences (item_seen item.entry) }
{
    let fences = board.fences();
    let _ = fences.last();
    fences.least_foreign(item, design.stacks(), client, 0, steps)
}

// The least boundary that bars a client from the live item of a number.
fn delete_bar<L: Ledger>(
    design: &Design,
    board: &Board,
    client: u8,
    id: u32,
    steps: &mut Steps<L>,
) -> Option<u32>
    requires board { IsBoardOf design.now.parts board.now }
    ensures least { IsLeast (IsBarring design.now.parts board.now client (id ∷ []) []) result }
    ensures cost { steps.new ≤ steps.old + touch_at_most design.now.parts board.now id }
{
    let item = board.item(ItemId(id))?;
    item_bar(design, board, client, view(item), steps)
}

// The least boundary that bars a client from the item that an add makes.
fn add_bar<L: Ledger>(
    design: &Design,
    board: &Board,
    client: u8,
    add: &Add,
    steps: &mut Steps<L>,
) -> Option<u32>
    requires fit { IsFitAdd design.now.parts add.now }
    ensures least { IsLeast (IsBarredItem design.now.parts board.now client (item_of_add add.now)) result }
    ensures cost { steps.new ≤ steps.old + touch_most design.now.parts board.now.fences (item_of_add add.now) }
{
    let item = view_add(add)?;
    item_bar(design, board, client, item, steps)
}

// The least boundary that bars a client from the live items of these numbers.
fn deletes_bar<L: Ledger>(
    design: &Design,
    board: &Board,
    client: u8,
    deletes: &[u32],
    steps: &mut Steps<L>,
) -> Option<u32>
    requires board { IsBoardOf design.now.parts board.now }
    ensures least { IsLeast (IsBarring design.now.parts board.now client deletes.now []) result }
    ensures cost { steps.new ≤ steps.old + deletes_most design.now.parts board.now deletes.now }
{
    let mut least = None;
    for id in deletes {
        least = lesser(least, delete_bar(design, board, client, *id, steps));
    }
    least
}

// The least boundary that bars a client from the items that adds make.
fn adds_bar<L: Ledger>(
    design: &Design,
    board: &Board,
    client: u8,
    adds: &[Add],
    steps: &mut Steps<L>,
) -> Option<u32>
    requires fit { AllByRecursion (IsFitAdd design.now.parts) adds.now }
    ensures least { IsLeast (IsBarring design.now.parts board.now client [] adds.now) result }
    ensures cost { steps.new ≤ steps.old + adds_touch_most design.now.parts board.now.fences adds.now }
{
    let mut least = None;
    for add in adds {
        least = lesser(least, add_bar(design, board, client, add, steps));
    }
    least
}

/// The reason that names the least boundary that bars a client from these deletes and adds.
pub fn protected_why<L: Ledger>(
    design: &Design,
    board: &Board,
    client: u8,
    deletes: &[u32],
    adds: &[Add],
    steps: &mut Steps<L>,
) -> Option<Why>
    requires board { IsBoardOf design.now.parts board.now }
    requires fit { AllByRecursion (IsFitAdd design.now.parts) adds.now }
    ensures reason { IsProtectedReason design.now.parts board.now client deletes.now adds.now result }
    ensures cost { steps.new ≤ steps.old + (deletes_most design.now.parts board.now deletes.now + adds_touch_most design.now.parts board.now.fences adds.now) }
{
    let by_deletes = deletes_bar(design, board, client, deletes, steps);
    let by_adds = adds_bar(design, board, client, adds, steps);
    let fence = lesser(by_deletes, by_adds)?;
    Some(Why::Protected { fence })
}

/// The reason that names the least boundary that bars a client from the live item of a number.
pub fn item_why<L: Ledger>(
    design: &Design,
    board: &Board,
    client: u8,
    id: u32,
    steps: &mut Steps<L>,
) -> Option<Why>
    requires board { IsBoardOf design.now.parts board.now }
    ensures reason { IsProtectedReason design.now.parts board.now client (id ∷ []) [] result }
    ensures cost { steps.new ≤ steps.old + touch_at_most design.now.parts board.now id }
{
    let fence = delete_bar(design, board, client, id, steps)?;
    Some(Why::Protected { fence })
}
