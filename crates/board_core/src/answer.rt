//! What a request is answered, by testing every pair.
ghost use Rattle.std.specs.Prelude.{◌≡◌, ◌+◌, ◌≤◌, IfNone, length, ℕ};
ghost use Rattle.std.specs.List.{AllByRecursion};
ghost use Rattle.row_lists.specs.Limits.{add_limit};
ghost use Rattle.board_items.specs.Formed.{IsFormed};
ghost use Rattle.board_rules.specs.FitAdds.{IsFitAdd, HasFitAdds};
ghost use Rattle.board_core.specs.Boards.{IsBoardOf};
ghost use Rattle.board_core.specs.Edits.{IsBoardReason};
ghost use Rattle.board_core.specs.Answers.{IsAnswer};
ghost use Rattle.board_core.specs.Costs.{board_most, answer_most};

use crate::barrings::protected_why;
use crate::board::Board;
use crate::clashes::clash_why;
use crate::clearances::unclean_why;
use crate::covers::{entitle_why, fence_why, unfence_why};
use crate::deletes::{deletes_why, held_why};
use crate::reservings::{release_why, reserve_why};
use board_items::{Add, Request, Why};
use board_rules::Design;
use seg_geometry::Steps;
use std::sync::ledger::Ledger;

// What an edit of a client that is right by itself is answered on a board.
fn board_why<L: Ledger>(
    design: &Design,
    board: &Board,
    client: u8,
    deletes: &[u32],
    adds: &[Add],
    steps: &mut Steps<L>,
) -> Option<Why>
    requires board { IsBoardOf design.now.parts board.now }
    requires few { length adds.now ≤ add_limit }
    requires fit { AllByRecursion (IsFitAdd design.now.parts) adds.now }
    ensures reason { IsBoardReason design.now.parts board.now client deletes.now adds.now result }
    ensures cost { steps.new ≤ steps.old + board_most design.now.parts board.now deletes.now adds.now result }
{
    if let Some(why) = deletes_why(board, deletes) {
        return Some(why);
    }
    if let Some(why) = held_why(board, client, deletes) {
        return Some(why);
    }
    if let Some(why) = protected_why(design, board, client, deletes, adds, steps) {
        return Some(why);
    }
    clash_why(design, board, deletes, adds, steps)
}

/// What a request of a client is answered on a board, for so many clients: the first reason against it, or none, by
/// testing every pair. An edit that is refused by itself, for its deletes or for a boundary is held against no live
/// item. It takes no memory.
pub fn slow_answer<L: Ledger>(
    design: &Design,
    board: &Board,
    clients: u8,
    client: u8,
    request: &Request,
    steps: &mut Steps<L>,
) -> Option<Why>
    requires board { IsBoardOf design.now.parts board.now }
    requires formed { IsFormed request.now }
    ensures answer { IsAnswer design.now.parts clients board.now client request.now result }
    ensures fits { IfNone result (HasFitAdds design.now.parts request.now) }
    ensures cost { steps.new ≤ steps.old + answer_most design.now.parts board.now request.now result }
{
    if let Some(why) = design.static_why(board.rules_view(), request, clients, steps) {
        return Some(why);
    }
    match request {
        Request::Edit { deletes, adds } => {
            board_why(
                design,
                board,
                client,
                deletes.as_slice(),
                adds.as_slice(),
                steps,
            )
        }
        Request::Reserve { id } => reserve_why(design, board, client, *id, steps),
        Request::Release { id } => release_why(board, client, *id),
        Request::Fence { layers, area, .. } => {
            fence_why(design, board, client, layers, area, steps)
        }
        Request::Unfence { fence } => unfence_why(board, client, *fence),
        Request::Entitle {
            fence,
            client: other,
        } => entitle_why(board, clients, client, *fence, *other),
        Request::Rule { class, clearance } => {
            unclean_why(design, board, *class, *clearance, steps)
        }
    }
}
