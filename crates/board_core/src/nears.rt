//! Which live item is too near to another one.
ghost use Rattle.std.specs.Prelude.{◌≡◌, ◌↔◌, ◌+◌, ◌<◌, ◌≤◌, ◌^◌, IsTrue, if◌then◌else◌};
ghost use Rattle.std.specs.List.{AllByRecursion};
ghost use Rattle.board_items.specs.Adds.{item_seen};
ghost use Rattle.board_rules.specs.Costs.{pair_most};
ghost use Rattle.board_rules.specs.Designs.{IsFitItem};
ghost use Rattle.board_rules.specs.Needs.{KeepsNeed};
ghost use Rattle.board_rules.specs.Rules.{under, IsFitView};
ghost use Rattle.number_slots.specs.Slots.{is_among, without, IsRisingFrom};
ghost use Rattle.number_slots.specs.Leasts.{IsLeast};
ghost use Rattle.board_core.specs.Boards.{AreFitItems};
ghost use Rattle.board_core.specs.Costs.{item_most, near_item_most};
ghost use Rattle.board_core.specs.Edits.{IsNear, IsNearItem};
ghost use Rattle.board_core.specs.LiveItems.{places_of, live_from, AreNumbered};

use crate::live_items::LiveItems;
use board_items::{Item, ItemView, view};
use board_rules::{Design, RulesView};
use seg_geometry::Steps;
use std::sync::ledger::Ledger;

// Whether an item that has a number isn't deleted, and is too near to another item. What is deleted takes no step.
fn is_near<L: Ledger>(
    design: &Design,
    rules: RulesView<'_>,
    deletes: &[u32],
    item: ItemView<'_>,
    id: u32,
    other: &Item,
    steps: &mut Steps<L>,
) -> bool
    requires rules { IsFitView design.now.parts rules }
    requires item_fits { IsFitItem design.now.parts (item_seen item) }
    requires other_fits { IsFitItem design.now.parts other.now }
    ensures near { IsTrue result ↔ IsNearItem design.now.parts (under rules.entry) deletes.now (item_seen item.entry) (id, other.now) }
    ensures cost { steps.new ≤ steps.old + near_item_most design.now.parts deletes.now (item_seen item.entry) (id, other.now) }
{
    if deletes.contains(&id) {
        return false;
    }
    !design.pair_keeps(rules, item, view(other), steps)
}

/// The least live item, from a place of a walk on, that isn't deleted and is too near to another item.
pub fn least_near<L: Ledger>(
    design: &Design,
    rules: RulesView<'_>,
    items: LiveItems<'_>,
    from: usize,
    deletes: &[u32],
    item: ItemView<'_>,
    steps: &mut Steps<L>,
) -> Option<u32>
    requires rules { IsFitView design.now.parts rules }
    requires item_fits { IsFitItem design.now.parts (item_seen item) }
    requires numbered { AreNumbered items }
    requires fit { AreFitItems design.now.parts (live_from items from) }
    requires rising { IsRisingFrom 1 (live_from items from) }
    ensures least { IsLeast (IsNear design.now.parts (under rules.entry) (live_from items.entry from) deletes.now (item_seen item.entry)) result }
    ensures cost { steps.new ≤ steps.old + item_most design.now.parts (item_seen item.entry) (without deletes.now (live_from items.entry from)) }
{
    for i in from..items.len() {
        let Some((id, other)) = items.at(i) else {
            continue;
        };
        if is_near(design, rules, deletes, item, id.0, other, steps) {
            return Some(id.0);
        }
    }
    None
}
