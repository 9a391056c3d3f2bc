//! What a new boundary is answered on a board, and a change of one.
ghost use Rattle.std.specs.Prelude.{◌≡◌, ◌≤◌, ◌+◌, ◌*◌, ℕ, length, slice_get, Some};
ghost use Rattle.number_slots.specs.Leasts.{IsLeast};
ghost use Rattle.number_slots.specs.Sums.{sum_between};
ghost use Rattle.board_items.specs.declared.items.Item.{Item};
ghost use Rattle.seg_geometry.specs.Rectangles.{IsLeastGrown};
ghost use Rattle.board_items.specs.Shapes.{copper_of_item};
ghost use Rattle.boundaries.specs.Boundaries.{IsFitArea};
ghost use Rattle.boundaries.specs.Costs.{shapes_most, overlap_most, fences_most};
ghost use Rattle.board_core.specs.Boards.{IsBoardOf};
ghost use Rattle.board_core.specs.Bars.{IsCoveredPair};
ghost use Rattle.board_core.specs.Barrings.{IsCovered, IsPlaceReason, IsUnfenceReason, IsEntitleReason};
ghost use Rattle.board_core.specs.Costs.{covered_most, held_most};

use crate::barrings::lesser;
use crate::board::Board;
use board_items::{ItemId, Layers, Why, view};
use board_rules::Design;
use boundaries::touches_area;
use seg_geometry::{Points, Rect, Steps, rect_of};
use std::sync::ledger::Ledger;

// The number of an item, where a client other than this one holds it and it touches an area on some layers. The area's
// least rectangle is the frame.
fn covered<L: Ledger>(
    design: &Design,
    board: &Board,
    client: u8,
    layers: &Layers,
    area: &Points,
    frame: Rect,
    pair: (ItemId, u8),
    steps: &mut Steps<L>,
) -> Option<u32>
    requires board { IsBoardOf design.now.parts board.now }
    requires area { IsFitArea area.now }
    requires frame { IsLeastGrown frame area.now 0 }
    ensures least { IsLeast (IsCoveredPair design.now.parts board.now.live client layers.now area.now (pair.0.0, pair.1)) result }
    ensures cost { steps.new ≤ steps.old + covered_most design.now.parts board.now.live layers.now area.now pair.0.0 }
{
    let (id, holder) = pair;
    if holder == client {
        return None;
    }
    let item = board.item(id)?;
    if !touches_area(
        view(item),
        design.stacks(),
        layers.as_slice(),
        area.as_slice(),
        frame,
        steps,
    ) {
        return None;
    }
    Some(id.0)
}

// The least item that another client holds and that touches an area on some layers.
fn least_covered<L: Ledger>(
    design: &Design,
    board: &Board,
    client: u8,
    layers: &Layers,
    area: &Points,
    steps: &mut Steps<L>,
) -> Option<u32>
    requires board { IsBoardOf design.now.parts board.now }
    requires area { IsFitArea area.now }
    ensures least { IsLeast (IsCovered design.now.parts board.now client layers.now area.now) result }
    ensures cost { steps.new ≤ steps.old + held_most design.now.parts board.now.live layers.now area.now board.now.held }
{
    let frame = rect_of(area.as_slice(), 0);
    let mut least = None;
    for i in 0..board.held().len() {
        let pair = board.held().at(i)?;
        least = lesser(
            least,
            covered(design, board, client, layers, area, frame, pair, steps),
        );
    }
    least
}

/// What a new boundary that is right by itself is answered on a board.
pub fn fence_why<L: Ledger>(
    design: &Design,
    board: &Board,
    client: u8,
    layers: &Layers,
    area: &Points,
    steps: &mut Steps<L>,
) -> Option<Why>
    requires board { IsBoardOf design.now.parts board.now }
    requires area { IsFitArea area.now }
    ensures reason { IsPlaceReason design.now.parts board.now client layers.now area.now result }
    ensures cost { steps.new ≤ steps.old + (fences_most (overlap_most layers.now area.now) 0 board.now.fences + held_most design.now.parts board.now.live layers.now area.now board.now.held) }
{
    if let Some(fence) = board.fences().overlap(layers, area, client, steps) {
        return Some(Why::Overlap { fence });
    }
    let id = least_covered(design, board, client, layers, area, steps)?;
    Some(Why::Covers { id: ItemId(id) })
}

/// What taking a boundary away is answered.
pub fn unfence_why(board: &Board, client: u8, fence: u32) -> Option<Why>
    ensures { IsUnfenceReason board.now client fence result }
{
    let Some(owner) = board.fences().owner(fence) else {
        return Some(Why::NoFence { fence });
    };
    if owner != client {
        return Some(Why::NotOwner { fence });
    }
    None
}

/// What entitling another client in a boundary is answered, for so many clients.
pub fn entitle_why(board: &Board, clients: u8, client: u8, fence: u32, other: u8) -> Option<Why>
    ensures { IsEntitleReason clients board.now client fence other result }
{
    if let Some(why) = unfence_why(board, client, fence) {
        return Some(why);
    }
    if other == 0 {
        return Some(Why::Client { client: other });
    }
    if other > clients {
        return Some(Why::Client { client: other });
    }
    None
}
