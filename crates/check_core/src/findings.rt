//! What is found of a request on a board, by an index.
ghost use Rattle.std.specs.Prelude.{◌≡◌, ◌≤◌, ◌<◌, ◌+◌, ℕ, [], length, IfOk, IfSome, IfNone};
ghost use Rattle.row_lists.specs.Limits.{width_limit_nm};
ghost use Rattle.board_items.specs.Formed.{IsFormed, IsFormedEdit};
ghost use Rattle.board_rules.specs.Costs.{static_most};
ghost use Rattle.board_rules.specs.Needs.{largest_of};
ghost use Rattle.board_rules.specs.Reasons.{IsStaticReason};
ghost use Rattle.board_rules.specs.Rules.{under, with_rule, IsFitView};
ghost use Rattle.board_core.specs.Boards.{IsBoardOf};
ghost use Rattle.board_core.specs.Verdicts.{HasFound, HasPair, HasNothing};
ghost use Rattle.check_core.specs.CheckCosts.{check_most};
ghost use Rattle.check_core.specs.Filings.{AreFiled};
ghost use Rattle.check_core.specs.NearCosts.{near_pairs_most};

use crate::adds::{edit_plain, try_each};
use crate::clashes::{clashes, rules_of, unclean};
use crate::touched::{late, touched};
use board_core::{Board, Pairs};
use board_items::{Add, Request, Why};
use board_rules::{Design, RulesView};
use seg_geometry::{Ids, Near, Steps};
use std::alloc::AllocError;
use std::sync::ledger::Ledger;

/// The first reason against a request by itself, and its three lists.
#[derive(Drop)]
pub struct Found {
    pub plain: Option<Why>,
    pub clashes: Pairs,
    pub touched: Ids,
    pub late: Ids,
}

/// What is found of an edit. An `Err` is want of memory.
pub fn edit_found<N: Near, L: Ledger>(
    design: &Design,
    board: &Board,
    near: &N,
    deletes: &[u32],
    adds: &[Add],
    steps: &mut Steps<L>,
) -> Result<Found, AllocError>
    requires board { IsBoardOf design.now.parts board.now }
    requires filed { AreFiled design.now.parts.stacks board.now.live (N.filed near.now) }
    requires formed { IsFormedEdit deletes.now adds.now }
    ensures plain { IfOk result (λ f. (clients : ℕ) → IsStaticReason design.now.parts board.now.rules clients (Request.Edit deletes.now adds.now) f.plain) }
    ensures lists { IfOk result (λ f. HasFound design.now.parts board.now deletes.now adds.now f.clashes f.touched f.late) }
    ensures cost { steps.new ≤ steps.old + check_most design.now.parts board.now (Request.Edit deletes.now adds.now) }
{
    let tried = try_each(design, adds, steps)?;
    let right = tried.right.as_slice();
    let plain = edit_plain(design, rules_of(board), deletes, adds, tried.why, steps);
    let clashes = clashes(design, board, near, deletes, adds, right, steps)?;
    let touched = touched(design, board, deletes, adds, right, steps)?;
    let late = late(design.stacks().allocator(), board, deletes)?;
    Ok(Found {
        plain,
        clashes,
        touched,
        late,
    })
}

// The list of a change of a clearance: nothing where there is no such class. An `Err` is want of memory.
fn rule_pairs<N: Near, L: Ledger>(
    design: &Design,
    board: &Board,
    near: &N,
    class: u32,
    clearance: u32,
    steps: &mut Steps<L>,
) -> Result<Pairs, AllocError>
    requires board { IsBoardOf design.now.parts board.now }
    requires filed { AreFiled design.now.parts.stacks board.now.live (N.filed near.now) }
    requires fits { clearance ≤ width_limit_nm }
    ensures pair { IfOk result (λ pairs. HasPair design.now.parts board.now class clearance pairs [] []) }
    ensures cost { steps.new ≤ steps.old + near_pairs_most design.now.parts (largest_of design.now.parts (with_rule class clearance board.now.rules)) board.now.live }
{
    let rules = board.rules();
    if !rules.has(class) {
        return Ok(Pairs::new(design.stacks().allocator()));
    }
    let rules = RulesView {
        rules,
        change: Some((class, clearance)),
    };
    unclean(design, rules, board, near, steps)
}

/// What is found of a change of a clearance. An `Err` is want of memory.
pub fn rule_found<N: Near, L: Ledger>(
    design: &Design,
    board: &Board,
    near: &N,
    plain: Option<Why>,
    class: u32,
    clearance: u32,
    steps: &mut Steps<L>,
) -> Result<Found, AllocError>
    requires board { IsBoardOf design.now.parts board.now }
    requires filed { AreFiled design.now.parts.stacks board.now.live (N.filed near.now) }
    requires fits { clearance ≤ width_limit_nm }
    ensures plain { IfOk result (λ f. f.plain ≡ plain) }
    ensures lists { IfOk result (λ f. HasPair design.now.parts board.now class clearance f.clashes f.touched f.late) }
    ensures cost { steps.new ≤ steps.old + near_pairs_most design.now.parts (largest_of design.now.parts (with_rule class clearance board.now.rules)) board.now.live }
{
    let alloc = design.stacks().allocator();
    let clashes = rule_pairs(design, board, near, class, clearance, steps)?;
    Ok(Found {
        plain,
        clashes,
        touched: Ids::new(alloc),
        late: Ids::new(alloc),
    })
}

/// What is found of any other request: nothing but the reason against it by itself.
pub fn nothing_found(design: &Design, plain: Option<Why>) -> Found
    ensures plain { result.plain ≡ plain }
    ensures lists { HasNothing result.clashes result.touched result.late }
{
    let alloc = design.stacks().allocator();
    Found {
        plain,
        clashes: Pairs::new(alloc),
        touched: Ids::new(alloc),
        late: Ids::new(alloc),
    }
}
