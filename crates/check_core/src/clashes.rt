//! Which adds and live items are too near, by an index.
ghost use Rattle.std.specs.Prelude.{◌≡◌, ◌↔◌, ◌≤◌, ◌<◌, ◌+◌, ◌++◌, ◌^◌, ℕ, length, IfOk, IsTrue, is_ok, option_to_list, true};
ghost use Rattle.std.specs.List.{AllByRecursion, Contains};
ghost use Rattle.row_lists.specs.Limits.{add_limit, width_limit_nm};
ghost use Rattle.board_items.specs.Adds.{item_of_add};
ghost use Rattle.board_items.specs.Formed.{IsFormedAdd};
ghost use Rattle.board_rules.specs.Needs.{largest_of};
ghost use Rattle.board_rules.specs.Rules.{under, IsFitView};
ghost use Rattle.board_rules.specs.declared.design.Parts.{Parts};
ghost use Rattle.board_core.specs.Boards.{IsBoardOf};
ghost use Rattle.board_core.specs.Verdicts.{ArePairsRising, IsClash, IsRightAdd, IsUncleanList};
ghost use Rattle.number_slots.specs.Slots.{IsAt};
ghost use Rattle.check_core.specs.CheckCosts.{near_adds_most};
ghost use Rattle.check_core.specs.Filings.{AreFiled};
ghost use Rattle.check_core.specs.NearCosts.{near_most, near_pairs_most};
ghost use Rattle.check_core.specs.Tries.{AreTried, AreNearAdd, AreClashes, paired};

use crate::adds::item_made;
use crate::live_pairs::least_pair_of;
use crate::near_live::clashes_of;
use board_core::{Board, Pairs};
use board_items::Add;
use board_rules::{Design, RulesView};
use seg_geometry::{Ids, Near, Steps};
use std::alloc::{AllocError, Global};
use std::sync::ledger::Ledger;

/// The rules of a board as they are.
pub fn rules_of(board: &Board) -> RulesView<'_>
    ensures rules { under result ≡ board.now.rules }
    ensures fits { (p : Parts) → IsBoardOf p board.now → IsFitView p result }
{
    RulesView {
        rules: board.rules(),
        change: None,
    }
}

// The live items that an add, if it is right, is too near to.
fn add_clashes<N: Near, L: Ledger>(
    design: &Design,
    board: &Board,
    near: &N,
    by: u32,
    deletes: &[u32],
    add: &Add,
    right: bool,
    steps: &mut Steps<L>,
) -> Result<Ids, AllocError>
    requires board { IsBoardOf design.now.parts board.now }
    requires filed { AreFiled design.now.parts.stacks board.now.live (N.filed near.now) }
    requires largest { by ≡ largest_of design.now.parts board.now.rules }
    requires by_small { by ≤ width_limit_nm }
    requires formed { IsFormedAdd add.now }
    requires right { IsTrue right ↔ IsRightAdd design.now.parts add.now }
    ensures near { IfOk result (AreNearAdd design.now.parts board.now deletes.now add.now) }
    ensures cost { steps.new ≤ steps.old + near_most design.now.parts by (item_of_add add.now) board.now.live }
{
    if !right {
        return Ok(Ids::new(design.stacks().allocator()));
    }
    clashes_of(
        design,
        rules_of(board),
        near,
        by,
        board,
        deletes,
        item_made(add),
        steps,
    )
}

// Puts the pairs of a number with each of these at the end. An `Err` is want of memory.
fn put_pairs(pairs: &mut Pairs, a: u32, ids: &[u32]) -> Result<(), AllocError>
    ensures { is_ok result ≡ true → pairs.new ≡ pairs.old ++ paired a ids.now }
{
    for id in ids {
        pairs.push((a, *id))?;
    }
    Ok(())
}

// The clashes of adds, of which some are right, one add after another.
fn clashes_by_add<N: Near, L: Ledger>(
    design: &Design,
    board: &Board,
    near: &N,
    deletes: &[u32],
    adds: &[Add],
    right: &[bool],
    steps: &mut Steps<L>,
) -> Result<Pairs, AllocError>
    requires board { IsBoardOf design.now.parts board.now }
    requires filed { AreFiled design.now.parts.stacks board.now.live (N.filed near.now) }
    requires formed { AllByRecursion IsFormedAdd adds.now }
    requires few { length adds.now ≤ add_limit }
    requires right { AreTried design.now.parts adds.now right.now }
    ensures clashes { IfOk result (AreClashes design.now.parts board.now deletes.now 1 adds.now) }
    ensures cost { steps.new ≤ steps.old + near_adds_most design.now.parts (largest_of design.now.parts board.now.rules) board.now.live adds.now }
{
    let by = design.largest_clearance(rules_of(board));
    let mut pairs = Pairs::new(design.stacks().allocator());
    for (i, add) in adds.iter().enumerate() {
        let ids = add_clashes(design, board, near, by, deletes, add, right[i], steps)?;
        put_pairs(&mut pairs, i as u32 + 1, ids.as_slice())?;
    }
    Ok(pairs)
}

/// Each add that is right, and each live item that isn't deleted, that are too near. An `Err` is want of memory.
pub fn clashes<N: Near, L: Ledger>(
    design: &Design,
    board: &Board,
    near: &N,
    deletes: &[u32],
    adds: &[Add],
    right: &[bool],
    steps: &mut Steps<L>,
) -> Result<Pairs, AllocError>
    requires board { IsBoardOf design.now.parts board.now }
    requires filed { AreFiled design.now.parts.stacks board.now.live (N.filed near.now) }
    requires formed { AllByRecursion IsFormedAdd adds.now }
    requires few { length adds.now ≤ add_limit }
    requires right { AreTried design.now.parts adds.now right.now }
    ensures rising { IfOk result ArePairsRising }
    ensures exact { IfOk result (λ clashes. (a id : ℕ) → IsAt clashes a id ↔ IsClash design.now.parts board.now deletes.now adds.now a id) }
    ensures cost { steps.new ≤ steps.old + near_adds_most design.now.parts (largest_of design.now.parts board.now.rules) board.now.live adds.now }
{
    clashes_by_add(design, board, near, deletes, adds, right, steps)
}

// Two numbers as a list. An `Err` is want of memory.
fn listed(alloc: Global, pair: Option<(u32, u32)>) -> Result<Pairs, AllocError>
    ensures { IfOk result (λ pairs. pairs ≡ option_to_list pair) }
{
    let mut pairs = Pairs::new(alloc);
    if let Some(pair) = pair {
        pairs.push(pair)?;
    }
    Ok(pairs)
}

/// The least two live items that are too near under rules, as a list. An `Err` is want of memory.
pub fn unclean<N: Near, L: Ledger>(
    design: &Design,
    rules: RulesView<'_>,
    board: &Board,
    near: &N,
    steps: &mut Steps<L>,
) -> Result<Pairs, AllocError>
    requires rules_fit { IsFitView design.now.parts rules }
    requires board { IsBoardOf design.now.parts board.now }
    requires filed { AreFiled design.now.parts.stacks board.now.live (N.filed near.now) }
    ensures list { IfOk result (IsUncleanList design.now.parts (under rules.entry) board.now.live) }
    ensures cost { steps.new ≤ steps.old + near_pairs_most design.now.parts (largest_of design.now.parts (under rules.entry)) board.now.live }
{
    let pair = least_pair_of(design, rules, near, board, steps)?;
    listed(design.stacks().allocator(), pair)
}
