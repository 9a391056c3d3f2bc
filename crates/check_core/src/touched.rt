//! Which boundaries an edit meets, and which of its deletes aren't there.
ghost use Rattle.std.specs.Prelude.{◌≡◌, ◌↔◌, ◌≤◌, ◌+◌, ℕ, length, IfOk, OnOk, IsTrue, Any};
ghost use Rattle.std.specs.List.{AllByRecursion, Contains};
ghost use Rattle.std.specs.List.Sorted.{IsStrictlyIncreasing};
ghost use Rattle.board_items.specs.Adds.{item_of_add, item_seen};
ghost use Rattle.board_items.specs.Formed.{IsFormedAdd};
ghost use Rattle.board_items.specs.Shapes.{copper_of_item};
ghost use Rattle.board_rules.specs.Designs.{IsFitItem};
ghost use Rattle.boundaries.specs.Touching.{IsTouched};
ghost use Rattle.board_core.specs.Boards.{IsBoardOf};
ghost use Rattle.board_core.specs.Costs.{touch_most, touch_at_most, deletes_most, adds_touch_most};
ghost use Rattle.board_core.specs.Verdicts.{IsRightAdd, IsMet, IsLate};
ghost use Rattle.check_core.specs.CheckCosts.{fences_most};
ghost use Rattle.check_core.specs.Tries.{AreTried, GrowsBy, IsMetByDelete, IsMetByAdd, IsLateDelete};

use crate::adds::item_made;
use board_core::Board;
use board_items::{Add, ItemId, ItemView, view};
use board_rules::Design;
use near_slots::rising;
use seg_geometry::{Ids, Steps};
use std::alloc::{AllocError, Global};
use std::sync::ledger::Ledger;

// Adds the boundaries that an item touches. An `Err` is want of memory.
fn item_touched<L: Ledger>(
    design: &Design,
    board: &Board,
    item: ItemView<'_>,
    found: &mut Ids,
    steps: &mut Steps<L>,
) -> Result<(), AllocError>
    requires { IsFitItem design.now.parts (item_seen item) }
    ensures found { OnOk result (GrowsBy (IsTouched board.now.fences (copper_of_item design.now.parts.stacks (item_seen item.entry))) found.old found.new) }
    ensures cost { steps.new ≤ steps.old + touch_most design.now.parts board.now.fences (item_seen item.entry) }
{
    let ids = board.fences().touched_by(item, design.stacks(), steps)?;
    found.append_all(ids.into_vec())
}

// Adds the boundaries that the live item of a number touches, where there is one. An `Err` is want of memory.
fn delete_touched<L: Ledger>(
    design: &Design,
    board: &Board,
    id: u32,
    found: &mut Ids,
    steps: &mut Steps<L>,
) -> Result<(), AllocError>
    requires { IsBoardOf design.now.parts board.now }
    ensures found { OnOk result (GrowsBy (IsMetByDelete design.now.parts board.now id) found.old found.new) }
    ensures cost { steps.new ≤ steps.old + touch_at_most design.now.parts board.now id }
{
    let Some(item) = board.item(ItemId(id)) else {
        return Ok(());
    };
    item_touched(design, board, view(item), found, steps)
}

// Adds the boundaries that an add, if it is right, touches. An `Err` is want of memory.
fn add_touched<L: Ledger>(
    design: &Design,
    board: &Board,
    add: &Add,
    right: bool,
    found: &mut Ids,
    steps: &mut Steps<L>,
) -> Result<(), AllocError>
    requires formed { IsFormedAdd add.now }
    requires right { IsTrue right ↔ IsRightAdd design.now.parts add.now }
    ensures found { OnOk result (GrowsBy (IsMetByAdd design.now.parts board.now add.now) found.old found.new) }
    ensures cost { steps.new ≤ steps.old + touch_most design.now.parts board.now.fences (item_of_add add.now) }
{
    if !right {
        return Ok(());
    }
    item_touched(design, board, item_made(add), found, steps)
}

// Adds the boundaries that the live items of these numbers touch. An `Err` is want of memory.
fn deletes_touched<L: Ledger>(
    design: &Design,
    board: &Board,
    deletes: &[u32],
    found: &mut Ids,
    steps: &mut Steps<L>,
) -> Result<(), AllocError>
    requires { IsBoardOf design.now.parts board.now }
    ensures found { OnOk result (GrowsBy (λ n. Any (λ id. IsMetByDelete design.now.parts board.now id n) deletes.now) found.old found.new) }
    ensures cost { steps.new ≤ steps.old + deletes_most design.now.parts board.now deletes.now }
{
    for id in deletes {
        delete_touched(design, board, *id, found, steps)?;
    }
    Ok(())
}

// Adds the boundaries that adds, where they are right, touch. An `Err` is want of memory.
fn adds_touched<L: Ledger>(
    design: &Design,
    board: &Board,
    adds: &[Add],
    right: &[bool],
    found: &mut Ids,
    steps: &mut Steps<L>,
) -> Result<(), AllocError>
    requires formed { AllByRecursion IsFormedAdd adds.now }
    requires right { AreTried design.now.parts adds.now right.now }
    ensures found { OnOk result (GrowsBy (λ n. Any (λ add. IsMetByAdd design.now.parts board.now add n) adds.now) found.old found.new) }
    ensures cost { steps.new ≤ steps.old + adds_touch_most design.now.parts board.now.fences adds.now }
{
    for (i, add) in adds.iter().enumerate() {
        add_touched(design, board, add, right[i], found, steps)?;
    }
    Ok(())
}

/// The live boundaries that a delete that is live, or an add that is right, touches; rising, each once. An `Err` is want
/// of memory.
pub fn touched<L: Ledger>(
    design: &Design,
    board: &Board,
    deletes: &[u32],
    adds: &[Add],
    right: &[bool],
    steps: &mut Steps<L>,
) -> Result<Ids, AllocError>
    requires board { IsBoardOf design.now.parts board.now }
    requires formed { AllByRecursion IsFormedAdd adds.now }
    requires right { AreTried design.now.parts adds.now right.now }
    ensures rising { IfOk result IsStrictlyIncreasing }
    ensures exact { IfOk result (λ touched. (n : ℕ) → Contains touched n ↔ IsMet design.now.parts board.now deletes.now adds.now n) }
    ensures cost { steps.new ≤ steps.old + fences_most design.now.parts board.now deletes.now adds.now }
{
    let mut found = Ids::new(design.stacks().allocator());
    deletes_touched(design, board, deletes, &mut found, steps)?;
    adds_touched(design, board, adds, right, &mut found, steps)?;
    Ok(rising(found.into_vec()))
}

// Adds a number that isn't live. An `Err` is want of memory.
fn put_late(board: &Board, id: u32, found: &mut Ids) -> Result<(), AllocError>
    ensures { OnOk result (GrowsBy (IsLateDelete board.now.live id) found.old found.new) }
{
    if board.item(ItemId(id)).is_some() {
        return Ok(());
    }
    found.push(id)
}

/// The deletes that aren't live; rising, each once. An `Err` is want of memory.
pub fn late(alloc: Global, board: &Board, deletes: &[u32]) -> Result<Ids, AllocError>
    ensures rising { IfOk result IsStrictlyIncreasing }
    ensures exact { IfOk result (λ late. (id : ℕ) → Contains late id ↔ IsLate board.now.live deletes.now id) }
{
    let mut found = Ids::new(alloc);
    for id in deletes {
        put_late(board, *id, &mut found)?;
    }
    Ok(rising(found.into_vec()))
}
