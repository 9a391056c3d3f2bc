//! The items that an item is too near to, asked of an index.
ghost use Rattle.std.specs.Prelude.{◌≡◌, ◌≤◌, ℕ, IfOk, OnOk, IsTrue, not, length, ◌⊎◌, Any};
ghost use Rattle.std.specs.List.{Contains};
ghost use Rattle.std.specs.List.Sorted.{IsStrictlyIncreasing};
ghost use Rattle.row_lists.specs.Limits.{width_limit_nm};
ghost use Rattle.area_geometry.specs.Copper.{copper_of, IsWithinLimits};
ghost use Rattle.board_items.specs.Adds.{item_seen};
ghost use Rattle.board_items.specs.Shapes.{copper_of_item};
ghost use Rattle.board_rules.specs.Designs.{IsFitItem, HasEnough};
ghost use Rattle.board_rules.specs.Needs.{KeepsNeed, largest_of};
ghost use Rattle.board_rules.specs.Rules.{under, IsFitView};
ghost use Rattle.number_slots.specs.Slots.{numbered};
ghost use Rattle.check_core.specs.Filings.{AreFiled, FindsNear, FindsAll, IsFoundBy};
ghost use Rattle.check_core.specs.Nearest.{IsTooNear, KeepsLater, IsLeastOf, Each};

use area_geometry::{ShapeView, box_of};
use board_items::{Item, ItemView, shape_at, shape_count, view};
use board_rules::{Design, RulesView};
use near_slots::rising;
use seg_geometry::{Ids, Near, Steps};
use std::alloc::AllocError;
use std::sync::ledger::Ledger;

// Adds the ids of all that is filed near a shape's box, moved out by `by` nm. An `Err` is want of memory.
fn add_near<N: Near>(
    near: &N,
    shape: ShapeView<'_>,
    by: u32,
    found: &mut Ids,
) -> Result<(), AllocError>
    requires limits { IsWithinLimits (copper_of shape) }
    requires enough { HasEnough (copper_of shape) }
    requires by_small { by ≤ width_limit_nm }
    ensures kept { OnOk result ((id : ℕ) → Contains found.old id → Contains found.new id) }
    ensures found { OnOk result (FindsNear by (N.filed near.now) found.new (copper_of shape.entry)) }
    ensures sound { OnOk result ((id : ℕ) → Contains found.new id → Contains found.old id ⊎ IsFoundBy by (N.filed near.now) id (copper_of shape.entry)) }
{
    let ids = near.query(shape.layer, box_of(shape, by))?;
    found.append_all(ids.into_vec())?;
    Ok(())
}

/// The ids of all that is filed near one of an item's shapes, by their boxes moved out by `by` nm, and no others; rising,
/// each once. An `Err` is want of memory.
pub fn found_near<N: Near>(
    design: &Design,
    near: &N,
    by: u32,
    item: ItemView<'_>,
) -> Result<Ids, AllocError>
    requires item_fits { IsFitItem design.now.parts (item_seen item) }
    requires by_small { by ≤ width_limit_nm }
    ensures all { IfOk result
        (FindsAll by (copper_of_item design.now.parts.stacks (item_seen item.entry)) (N.filed near.now)) }
    ensures sound { IfOk result (λ ids. (id : ℕ) → Contains ids id → Any (IsFoundBy by (N.filed near.now) id) (copper_of_item design.now.parts.stacks (item_seen item.entry))) }
{
    let stacks = design.stacks();
    let mut found = Ids::new(stacks.allocator());
    for i in 0..shape_count(item, stacks) {
        add_near(near, shape_at(item, stacks, i), by, &mut found)?;
    }
    Ok(rising(found.into_vec()))
}

// Whether item `number` is too near to the loaded item `id`, which has a greater number.
fn is_too_near<L: Ledger>(
    design: &Design,
    rules: RulesView<'_>,
    number: u32,
    item: &Item,
    id: u32,
    steps: &mut Steps<L>,
) -> bool
    requires rules_fit { IsFitView design.now.parts rules }
    requires item_fits { IsFitItem design.now.parts item.now }
    ensures near { IsTrue result → IsTooNear (KeepsNeed design.now.parts (under rules.entry)) (numbered 1 design.now.parts.items) number item.now id }
    ensures kept { IsTrue (not result) → KeepsLater (KeepsNeed design.now.parts (under rules.entry)) (numbered 1 design.now.parts.items) number item.now id }
{
    if id <= number {
        return false;
    }
    match design.items().as_slice().get(id as usize - 1) {
        None => false,
        Some(other) => !design.pair_keeps(rules, view(item), view(other), steps),
    }
}

// The first of these numbers to which item `number` is too near.
fn first_of<L: Ledger>(
    design: &Design,
    rules: RulesView<'_>,
    number: u32,
    item: &Item,
    ids: &[u32],
    steps: &mut Steps<L>,
) -> Option<u32>
    requires rules_fit { IsFitView design.now.parts rules }
    requires item_fits { IsFitItem design.now.parts item.now }
    requires rising { IsStrictlyIncreasing ids.now }
    ensures { IsLeastOf (KeepsNeed design.now.parts (under rules.entry)) (numbered 1 design.now.parts.items) number item.now (Contains ids.now) result }
{
    for id in ids {
        if is_too_near(design, rules, number, item, *id, steps) {
            return Some(*id);
        }
    }
    None
}

/// The least loaded item of a greater number that item `number` is too near to; none where there is none. The index
/// holds the loaded items, and `by` is the largest clearance in nm under these rules. An `Err` is want of memory.
pub fn nearest<N: Near, L: Ledger>(
    design: &Design,
    rules: RulesView<'_>,
    near: &N,
    by: u32,
    number: u32,
    item: &Item,
    steps: &mut Steps<L>,
) -> Result<Option<u32>, AllocError>
    requires rules_fit { IsFitView design.now.parts rules }
    requires item_fits { IsFitItem design.now.parts item.now }
    requires largest { by ≡ largest_of design.now.parts (under rules) }
    requires by_small { by ≤ width_limit_nm }
    requires filed { AreFiled design.now.parts.stacks (numbered 1 design.now.parts.items) (N.filed near.now) }
    ensures { IfOk result (λ best. IsLeastOf (KeepsNeed design.now.parts (under rules.entry)) (numbered 1 design.now.parts.items) number item.now Each best) }
{
    let ids = found_near(design, near, by, view(item))?;
    Ok(first_of(design, rules, number, item, ids.as_slice(), steps))
}
