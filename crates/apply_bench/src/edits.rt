//! Edits of a board, made in code.
ghost use Rattle.std.specs.Prelude.{◌<◌, ◌^◌, IfOk};
ghost use Rattle.std.specs.List.{AllByRecursion};
ghost use Rattle.board_items.specs.Formed.{IsFormedAdd};

use board_core::Board;
use board_items::{Act, Add, Adds, Entry, Request};
use row_lists::{ADD_LIMIT, DELETE_LIMIT};
use seg_geometry::{Ids, Points, Pt};
use std::alloc::{AllocError, Global};

/// How many wires an edit of the fill adds.
const ADDS: u32 = 64;

// A wire in a grid of 1,000,000 rows with 100 each; behind its end the grid begins again.
fn wire(alloc: Global, place: u32) -> Result<Add, AllocError>
    ensures { IfOk result IsFormedAdd }
{
    let x = i64::from(place % 100) * 2_000_000;
    let y = i64::from(place / 100 % 1_000_000) * 1_000;
    let ends = [Pt { x, y }, Pt { x: x + 900_000, y }];
    Ok(Add::Wire {
        net: 0,
        layer: 0,
        width: 100_000,
        points: Points::from_slice(alloc, &ends)?,
    })
}

// Applies an edit of at most 256 deletes and 64 adds, where numbers are left for it.
fn take(board: &mut Board, deletes: Ids, adds: Adds) -> Result<(), AllocError>
    requires numbers { AllByRecursion (λ d. d < 2 ^ 32) deletes }
    requires formed { AllByRecursion IsFormedAdd adds }
{
    if deletes.len() > DELETE_LIMIT {
        return Ok(());
    }
    if adds.len() > ADD_LIMIT {
        return Ok(());
    }
    let many = adds.len() as u32;
    let Some(_) = board.next_id().checked_add(many) else {
        return Ok(());
    };
    let Some(number) = board.count().checked_add(1) else {
        return Ok(());
    };
    let request = Request::Edit { deletes, adds };
    let act = Act::Ask { request };
    board.apply(&Entry {
        number,
        client: 1,
        act,
    })
}

// The wires of these places.
fn wires(alloc: Global, first: u32, past: u32) -> Result<Adds, AllocError>
    ensures { IfOk result (AllByRecursion IsFormedAdd) }
{
    let mut adds = Adds::new(alloc);
    for place in first..past {
        adds.push(wire(alloc, place)?)?;
    }
    Ok(adds)
}

/// Puts so many wires on the board, by edits of up to 64.
pub fn fill(alloc: Global, board: &mut Board, live: u32) -> Result<(), AllocError> {
    for turn in 0..live.div_ceil(ADDS) {
        let first = turn.saturating_mul(ADDS);
        let past = first.saturating_add(ADDS).min(live);
        take(board, Ids::new(alloc), wires(alloc, first, past)?)?;
    }
    Ok(())
}

/// Makes so many edits that each delete an item of the fill, from the first on; each adds a wire too where `adds` says so.
pub fn change(alloc: Global, board: &mut Board, adds: bool, edits: u32) -> Result<(), AllocError> {
    for edit in 1..edits.saturating_add(1) {
        let deletes = Ids::from_slice(alloc, &[edit])?;
        let past = if adds { 1 } else { 0 };
        take(board, deletes, wires(alloc, 0, past)?)?;
    }
    Ok(())
}
