//! The live items that an item is too near to, asked of an index.
ghost use Rattle.std.specs.Prelude.{◌≡◌, ◌↔◌, ◌≤◌, ◌+◌, ℕ, IfOk, OnOk, IsTrue};
ghost use Rattle.std.specs.List.{Contains};
ghost use Rattle.std.specs.List.Sorted.{IsStrictlyIncreasing};
ghost use Rattle.row_lists.specs.Limits.{width_limit_nm};
ghost use Rattle.board_items.specs.Adds.{item_seen};
ghost use Rattle.board_rules.specs.Costs.{pair_most};
ghost use Rattle.board_rules.specs.Designs.{IsFitItem};
ghost use Rattle.board_rules.specs.Needs.{largest_of};
ghost use Rattle.board_rules.specs.Rules.{under, IsFitView};
ghost use Rattle.number_slots.specs.Sums.{sum_between};
ghost use Rattle.board_core.specs.Boards.{IsBoardOf};
ghost use Rattle.board_core.specs.Edits.{IsNear};
ghost use Rattle.check_core.specs.Filings.{AreFiled};
ghost use Rattle.check_core.specs.NearCosts.{near_most};
ghost use Rattle.check_core.specs.Nearby.{PutsWhere};

use crate::nearest::found_near;
use board_core::Board;
use board_items::{ItemId, ItemView, view};
use board_rules::{Design, RulesView};
use seg_geometry::{Ids, Near, Steps};
use std::alloc::AllocError;
use std::sync::ledger::Ledger;

/// Whether the item of a number is live, isn't deleted, and is too near to an item.
pub fn is_near_live<L: Ledger>(
    design: &Design,
    rules: RulesView<'_>,
    board: &Board,
    deletes: &[u32],
    item: ItemView<'_>,
    id: u32,
    steps: &mut Steps<L>,
) -> bool
    requires rules_fit { IsFitView design.now.parts rules }
    requires item_fits { IsFitItem design.now.parts (item_seen item) }
    requires board { IsBoardOf design.now.parts board.now }
    ensures near { IsTrue result ↔ IsNear design.now.parts (under rules.entry) board.now.live deletes.now (item_seen item.entry) id }
    ensures cost { steps.new ≤ steps.old + sum_between (pair_most design.now.parts (item_seen item.entry)) id (id + 1) board.now.live }
{
    if deletes.contains(&id) {
        return false;
    }
    match board.item(ItemId(id)) {
        None => false,
        Some(other) => !design.pair_keeps(rules, item, view(other), steps),
    }
}

// Puts a number at the end, where its item is live, isn't deleted and is too near to an item. An `Err` is want of memory.
fn put_near<L: Ledger>(
    design: &Design,
    rules: RulesView<'_>,
    board: &Board,
    deletes: &[u32],
    item: ItemView<'_>,
    id: u32,
    clashes: &mut Ids,
    steps: &mut Steps<L>,
) -> Result<(), AllocError>
    requires rules_fit { IsFitView design.now.parts rules }
    requires item_fits { IsFitItem design.now.parts (item_seen item) }
    requires board { IsBoardOf design.now.parts board.now }
    ensures put { OnOk result (PutsWhere (IsNear design.now.parts (under rules.entry) board.now.live deletes.now (item_seen item.entry) id) id clashes.old clashes.new) }
    ensures cost { steps.new ≤ steps.old + sum_between (pair_most design.now.parts (item_seen item.entry)) id (id + 1) board.now.live }
{
    if !is_near_live(design, rules, board, deletes, item, id, steps) {
        return Ok(());
    }
    clashes.push(id)
}

/// The live items that aren't deleted and are too near to an item; rising, each once. The index holds the boxes of all
/// live items, and `by` is the largest clearance in nm under these rules. An `Err` is want of memory.
pub fn clashes_of<N: Near, L: Ledger>(
    design: &Design,
    rules: RulesView<'_>,
    near: &N,
    by: u32,
    board: &Board,
    deletes: &[u32],
    item: ItemView<'_>,
    steps: &mut Steps<L>,
) -> Result<Ids, AllocError>
    requires rules_fit { IsFitView design.now.parts rules }
    requires item_fits { IsFitItem design.now.parts (item_seen item) }
    requires board { IsBoardOf design.now.parts board.now }
    requires largest { by ≡ largest_of design.now.parts (under rules) }
    requires by_small { by ≤ width_limit_nm }
    requires filed { AreFiled design.now.parts.stacks board.now.live (N.filed near.now) }
    ensures exact { IfOk result (λ ids. (id : ℕ) → Contains ids id ↔ IsNear design.now.parts (under rules.entry) board.now.live deletes.now (item_seen item.entry) id) }
    ensures rising { IfOk result IsStrictlyIncreasing }
    ensures cost { steps.new ≤ steps.old + near_most design.now.parts by (item_seen item.entry) board.now.live }
{
    let _next = board.next_id();
    let ids = found_near(design, near, by, item)?;
    let mut clashes = Ids::new(design.stacks().allocator());
    for id in ids.as_slice() {
        put_near(
            design,
            rules,
            board,
            deletes,
            item,
            *id,
            &mut clashes,
            steps,
        )?;
    }
    Ok(clashes)
}
