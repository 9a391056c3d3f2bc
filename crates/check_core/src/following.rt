//! How an index follows an entry of a journal.
ghost use Rattle.std.specs.Prelude.{◌≡◌, ◌≤◌, ◌<◌, ◌+◌, ◌^◌, ◌∷◌, [], length, OnOk, OnErr};
ghost use Rattle.std.specs.List.{AllByRecursion};
ghost use Rattle.board_items.specs.Formed.{IsFormedAct};
ghost use Rattle.board_rules.specs.FitAdds.{IsFitAdd};
ghost use Rattle.board_core.specs.Boards.{made_of, made_from, taken_by, after, IsSameBoard};
ghost use Rattle.check_core.specs.Changes.{deletes_in, adds_in, LengthensWithin, outside, left_below};
ghost use Rattle.check_core.specs.Filings.{EntersAll};

use crate::adds::item_made;
use crate::entering::enter;
use board_core::Board;
use board_items::{Act, Add, Entry, Request};
use board_rules::Design;
use seg_geometry::Near;
use std::alloc::AllocError;

/// What an entry deletes.
pub fn deletes_of(entry: &Entry) -> &[u32]
    ensures { result.now ≡ deletes_in entry.now.act }
{
    match &entry.act {
        Act::Ask {
            request: Request::Edit { deletes, .. },
        } => deletes.as_slice(),
        _ => &[],
    }
}

/// What an entry adds.
pub fn adds_of(entry: &Entry) -> &[Add]
    ensures { result.now ≡ adds_in entry.now.act }
{
    match &entry.act {
        Act::Ask {
            request: Request::Edit { adds, .. },
        } => adds.as_slice(),
        _ => &[],
    }
}

// Enters the boxes of what an add makes under a number. An `Err` is want of memory; some of the boxes may then be entered.
fn enter_add<N: Near>(near: &mut N, design: &Design, id: u32, add: &Add) -> Result<(), AllocError>
    requires { IsFitAdd design.now.parts add.now }
    ensures made { OnOk result (EntersAll design.now.parts.stacks (made_of id add.now) (N.filed near.old) (N.filed near.new)) }
    ensures own { LengthensWithin id (id + 1) (N.filed near.old) (N.filed near.new) }
{
    enter(near, design, id, item_made(add))
}

// Enters the boxes of what adds make, each under the next number. An `Err` is want of memory; some of them may then be
// entered.
fn enter_adds<N: Near>(
    near: &mut N,
    design: &Design,
    first: u32,
    adds: &[Add],
) -> Result<(), AllocError>
    requires fit { AllByRecursion (IsFitAdd design.now.parts) adds.now }
    requires few { first + length adds.now < 2 ^ 32 }
    ensures made { OnOk result (EntersAll design.now.parts.stacks (made_from first adds.now) (N.filed near.old) (N.filed near.new)) }
    ensures own { LengthensWithin first (first + length adds.now) (N.filed near.old) (N.filed near.new) }
{
    for (i, add) in adds.iter().enumerate() {
        enter_add(near, design, first + i as u32, add)?;
    }
    Ok(())
}

/// Takes so many numbers, from the first on, out of an index. It takes no memory.
pub fn take_out<N: Near>(near: &mut N, first: u32, count: usize)
    requires { first + count < 2 ^ 32 }
    ensures { N.filed near.new ≡ outside first (first + count) (N.filed near.old) }
{
    for i in 0..count {
        near.remove(first + i as u32);
    }
}

// Takes a number that lies below a bound out of an index.
fn leave_one<N: Near>(near: &mut N, id: u32, bound: u32)
    ensures { N.filed near.new ≡ left_below (id ∷ []) bound (N.filed near.old) }
{
    if id < bound {
        near.remove(id);
    }
}

/// Takes those of these numbers that lie below a bound out of an index. It takes no memory.
pub fn leave<N: Near>(near: &mut N, ids: &[u32], bound: u32)
    ensures { N.filed near.new ≡ left_below ids.now bound (N.filed near.old) }
{
    for id in ids {
        leave_one(near, *id, bound);
    }
}

/// Enters the boxes of what an entry adds, and then takes it on the board. After an `Err`, for want of memory, the board
/// is as before, and some of the boxes may be entered.
pub fn put<N: Near>(
    board: &mut Board,
    near: &mut N,
    design: &Design,
    next: u32,
    entry: &Entry,
) -> Result<(), AllocError>
    requires first { next ≡ board.old.next_id }
    requires next { board.old.next_id + taken_by entry.now.act < 2 ^ 32 }
    requires count { board.old.count + 1 < 2 ^ 32 }
    requires formed { IsFormedAct entry.now.act }
    requires fit { AllByRecursion (IsFitAdd design.now.parts) (adds_in entry.now.act) }
    ensures made { OnOk result (EntersAll design.now.parts.stacks (made_from next (adds_in entry.now.act)) (N.filed near.old) (N.filed near.new)) }
    ensures taken { OnOk result (IsSameBoard board.new (after board.old entry.now.client entry.now.act)) }
    ensures own { LengthensWithin next (next + length (adds_in entry.now.act)) (N.filed near.old) (N.filed near.new) }
    ensures err { OnErr result (IsSameBoard board.new board.old) }
{
    enter_adds(near, design, next, adds_of(entry))?;
    board.apply(entry)
}
