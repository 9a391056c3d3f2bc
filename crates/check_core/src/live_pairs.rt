//! The least two live items that are too near, by an index.
ghost use Rattle.std.specs.Prelude.{◌≡◌, ◌≤◌, ◌+◌, ℕ, IfOk, IfSome, IfNone, IsTrue, not};
ghost use Rattle.std.specs.List.{Contains};
ghost use Rattle.std.specs.List.Sorted.{IsStrictlyIncreasing};
ghost use Rattle.row_lists.specs.Limits.{width_limit_nm};
ghost use Rattle.board_items.specs.declared.items.Item.{Item};
ghost use Rattle.board_rules.specs.Costs.{pair_most};
ghost use Rattle.board_rules.specs.Designs.{IsFitItem};
ghost use Rattle.board_rules.specs.Needs.{KeepsNeed, largest_of};
ghost use Rattle.board_rules.specs.Rules.{under, IsFitView};
ghost use Rattle.number_slots.specs.Slots.{IsAt, IsThere};
ghost use Rattle.number_slots.specs.Sums.{sum_between};
ghost use Rattle.board_core.specs.Boards.{IsBoardOf};
ghost use Rattle.board_core.specs.Clean.{IsCleanBoard, IsLeastPair};
ghost use Rattle.check_core.specs.Filings.{AreFiled};
ghost use Rattle.check_core.specs.NearCosts.{near_pair_most, near_most, near_pairs_most, from_on};
ghost use Rattle.check_core.specs.Nearest.{IsTooNear, KeepsLater, IsLeastOf, Each};

use crate::near_live::is_near_live;
use crate::nearest::found_near;
use board_core::Board;
use board_items::{Item, ItemId, view};
use board_rules::{Design, RulesView};
use seg_geometry::{Near, Steps};
use std::alloc::AllocError;
use std::sync::ledger::Ledger;

// Whether item `number` is too near to the live item `id`, which has a greater number.
fn is_later_near<L: Ledger>(
    design: &Design,
    rules: RulesView<'_>,
    board: &Board,
    number: u32,
    item: &Item,
    id: u32,
    steps: &mut Steps<L>,
) -> bool
    requires rules_fit { IsFitView design.now.parts rules }
    requires item_fits { IsFitItem design.now.parts item.now }
    requires board { IsBoardOf design.now.parts board.now }
    ensures near { IsTrue result → IsTooNear (KeepsNeed design.now.parts (under rules.entry)) board.now.live number item.now id }
    ensures kept { IsTrue (not result) → KeepsLater (KeepsNeed design.now.parts (under rules.entry)) board.now.live number item.now id }
    ensures cost { steps.new ≤ steps.old + sum_between (pair_most design.now.parts item.now) id (id + 1) (from_on (number + 1) board.now.live) }
{
    if id <= number {
        return false;
    }
    is_near_live(design, rules, board, &[], view(item), id, steps)
}

// The first of these numbers to which item `number` is too near.
fn first_later<L: Ledger>(
    design: &Design,
    rules: RulesView<'_>,
    by: u32,
    board: &Board,
    number: u32,
    item: &Item,
    ids: &[u32],
    steps: &mut Steps<L>,
) -> Option<u32>
    requires rules_fit { IsFitView design.now.parts rules }
    requires item_fits { IsFitItem design.now.parts item.now }
    requires board { IsBoardOf design.now.parts board.now }
    requires rising { IsStrictlyIncreasing ids.now }
    requires near { (id : ℕ) → Contains ids.now id → sum_between (pair_most design.now.parts item.now) id (id + 1) (from_on (number + 1) board.now.live) ≡ sum_between (near_pair_most design.now.parts by item.now) id (id + 1) (from_on (number + 1) board.now.live) }
    ensures least { IsLeastOf (KeepsNeed design.now.parts (under rules.entry)) board.now.live number item.now (Contains ids.now) result }
    ensures cost { steps.new ≤ steps.old + near_most design.now.parts by item.now (from_on (number + 1) board.now.live) }
{
    for id in ids {
        if is_later_near(design, rules, board, number, item, *id, steps) {
            return Some(*id);
        }
    }
    None
}

// The least live item of a greater number that item `number` is too near to; none where there is none. The index holds
// the live items, and `by` is the largest clearance in nm under these rules. An `Err` is want of memory.
fn nearest_live<N: Near, L: Ledger>(
    design: &Design,
    rules: RulesView<'_>,
    near: &N,
    by: u32,
    board: &Board,
    number: u32,
    item: &Item,
    steps: &mut Steps<L>,
) -> Result<Option<u32>, AllocError>
    requires rules_fit { IsFitView design.now.parts rules }
    requires item_fits { IsFitItem design.now.parts item.now }
    requires board { IsBoardOf design.now.parts board.now }
    requires largest { by ≡ largest_of design.now.parts (under rules) }
    requires by_small { by ≤ width_limit_nm }
    requires filed { AreFiled design.now.parts.stacks board.now.live (N.filed near.now) }
    ensures least { IfOk result (λ best. IsLeastOf (KeepsNeed design.now.parts (under rules.entry)) board.now.live number item.now Each best) }
    ensures cost { steps.new ≤ steps.old + near_most design.now.parts by item.now (from_on (number + 1) board.now.live) }
{
    let _next = board.next_id();
    let ids = found_near(design, near, by, view(item))?;
    Ok(first_later(
        design,
        rules,
        by,
        board,
        number,
        item,
        ids.as_slice(),
        steps,
    ))
}

// The least live item of a greater number that the live item `number` is too near to; none where there is none. An `Err`
// is want of memory.
fn nearest_at<N: Near, L: Ledger>(
    design: &Design,
    rules: RulesView<'_>,
    near: &N,
    by: u32,
    board: &Board,
    number: u32,
    steps: &mut Steps<L>,
) -> Result<Option<u32>, AllocError>
    requires rules_fit { IsFitView design.now.parts rules }
    requires board { IsBoardOf design.now.parts board.now }
    requires largest { by ≡ largest_of design.now.parts (under rules) }
    requires by_small { by ≤ width_limit_nm }
    requires filed { AreFiled design.now.parts.stacks board.now.live (N.filed near.now) }
    ensures least { IfOk result (λ best. (x : Item) → IsAt board.now.live number x → IsLeastOf (KeepsNeed design.now.parts (under rules.entry)) board.now.live number x Each best) }
    ensures there { IfOk result (λ best. IfSome best (λ b. IsThere board.now.live number)) }
    ensures cost { steps.new + near_pairs_most design.now.parts by (from_on (number + 1) board.now.live) ≤ steps.old + near_pairs_most design.now.parts by (from_on number board.now.live) }
{
    let _next = board.next_id();
    match board.item(ItemId(number)) {
        None => Ok(None),
        Some(item) => nearest_live(design, rules, near, by, board, number, item, steps),
    }
}

/// The least two live items, by the lower number and then by the higher one, that are too near under these rules; none
/// where each two keep their need. The index holds the live items. An `Err` is want of memory.
pub fn least_pair_of<N: Near, L: Ledger>(
    design: &Design,
    rules: RulesView<'_>,
    near: &N,
    board: &Board,
    steps: &mut Steps<L>,
) -> Result<Option<(u32, u32)>, AllocError>
    requires rules_fit { IsFitView design.now.parts rules }
    requires board { IsBoardOf design.now.parts board.now }
    requires filed { AreFiled design.now.parts.stacks board.now.live (N.filed near.now) }
    ensures some { IfOk result (λ r. IfSome r (λ pair. IsLeastPair design.now.parts (under rules.entry) board.now.live pair.0 pair.1)) }
    ensures none { IfOk result (λ r. IfNone r (IsCleanBoard design.now.parts (under rules.entry) board.now.live)) }
    ensures cost { steps.new ≤ steps.old + near_pairs_most design.now.parts (largest_of design.now.parts (under rules.entry)) board.now.live }
{
    let by = design.largest_clearance(rules);
    for number in 1..board.next_id() {
        if let Some(other) = nearest_at(design, rules, near, by, board, number, steps)? {
            return Ok(Some((number, other)));
        }
    }
    Ok(None)
}
