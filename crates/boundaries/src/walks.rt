//! Walks over the live boundaries, in the order of their numbers.
ghost use Rattle.std.specs.Prelude.{◌≡◌, ◌≤◌, ◌+◌, ◌<◌, ◌^◌, ◌↔◌, ℕ, true, length, slice_get, Some, IfSome, IfNone, IfOk, All};
ghost use Rattle.std.specs.List.Sorted.{IsStrictlyIncreasing};
ghost use Rattle.number_slots.specs.Leasts.{IsLeast};
ghost use Rattle.number_slots.specs.Slots.{is_among, IsAt, IsRisingFrom};
ghost use Rattle.area_geometry.specs.Copper.{IsWithinLimits};
ghost use Rattle.board_items.specs.Adds.{item_seen};
ghost use Rattle.board_items.specs.Shapes.{copper_of_item};
ghost use Rattle.boundaries.specs.Boundaries.{Boundary, IsFitArea};
ghost use Rattle.boundaries.specs.Touching.{IsForeign, IsOverlapped, IsTouched};
ghost use Rattle.boundaries.specs.Costs.{boundary_most, overlap_most, fences_most};

use crate::live::Live;
use board_items::{ItemView, Stacks};
use seg_geometry::{Ids, Pt, Steps, rect_of};
use std::alloc::{AllocError, Global};
use std::sync::ledger::Ledger;

/// The place of the boundary of a number.
pub fn place_of(live: &[Live], number: u32) -> Option<usize>
    ensures some { IfSome result (λ i. (b : Boundary) × (slice_get live.now i ≡ Some (number, b))) }
    ensures none { IfNone result ((b : Boundary) → IsAt live.now number b → ⊥) }
{
    for (i, fence) in live.iter().enumerate() {
        if fence.number() == number {
            return Some(i);
        }
    }
    None
}

/// The boundary of a number.
pub fn live_at(live: &[Live], number: u32) -> Option<&Live>
    requires { IsRisingFrom 1 live.now }
    ensures some { IfSome result (λ f. IsAt live.now number f.now.1) }
    ensures only { IfSome result (λ f. (b : Boundary) → IsAt live.now number b → b ≡ f.now.1) }
    ensures none { IfNone result ((b : Boundary) → IsAt live.now number b → ⊥) }
{
    let i = place_of(live, number)?;
    Some(&live[i])
}

/// The least boundary above a number that the item touches and that doesn't entitle the client.
pub fn least_foreign<L: Ledger>(
    live: &[Live],
    item: ItemView<'_>,
    stacks: &Stacks,
    client: u8,
    above: u32,
    steps: &mut Steps<L>,
) -> Option<u32>
    requires rising { IsRisingFrom 1 live.now }
    requires item_in { All IsWithinLimits (copper_of_item stacks.now (item_seen item)) }
    requires item_few { length (copper_of_item stacks.now (item_seen item)) < 2 ^ 32 }
    ensures least { IsLeast (IsForeign live.now (copper_of_item stacks.now (item_seen item.entry)) client above) result }
    ensures cost { steps.new ≤ steps.old + fences_most (boundary_most (copper_of_item stacks.now (item_seen item.entry))) above live.now }
{
    for fence in live {
        if fence.bars(item, stacks, client, above, steps) {
            return Some(fence.number());
        }
    }
    None
}

/// The boundaries that the item touches.
pub fn touched_by<L: Ledger>(
    alloc: Global,
    live: &[Live],
    item: ItemView<'_>,
    stacks: &Stacks,
    steps: &mut Steps<L>,
) -> Result<Ids, AllocError>
    requires rising { IsRisingFrom 1 live.now }
    requires item_in { All IsWithinLimits (copper_of_item stacks.now (item_seen item)) }
    requires item_few { length (copper_of_item stacks.now (item_seen item)) < 2 ^ 32 }
    ensures exact { IfOk result (λ ids. (n : ℕ) → (is_among n ids ≡ true) ↔ IsTouched live.now (copper_of_item stacks.now (item_seen item.entry)) n) }
    ensures rising { IfOk result IsStrictlyIncreasing }
    ensures cost { steps.new ≤ steps.old + fences_most (boundary_most (copper_of_item stacks.now (item_seen item.entry))) 0 live.now }
{
    let mut ids = Ids::new(alloc);
    for fence in live {
        if fence.is_touched(item, stacks, steps) {
            ids.push(fence.number())?;
        }
    }
    Ok(ids)
}

/// The least boundary that an area on some layers overlaps and that doesn't entitle the client.
pub fn least_overlapped<L: Ledger>(
    live: &[Live],
    layers: &[u8],
    area: &[Pt],
    client: u8,
    steps: &mut Steps<L>,
) -> Option<u32>
    requires rising { IsRisingFrom 1 live.now }
    requires area_fits { IsFitArea area.now }
    ensures least { IsLeast (IsOverlapped live.now layers.now area.now client) result }
    ensures cost { steps.new ≤ steps.old + fences_most (overlap_most layers.now area.now) 0 live.now }
{
    let own = rect_of(area, 1);
    for fence in live {
        if fence.is_overlapped(layers, area, own, client, steps) {
            return Some(fence.number());
        }
    }
    None
}
