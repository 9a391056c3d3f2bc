//! Whether live items keep their needs.
ghost use Rattle.std.specs.Prelude.{◌≡◌, ◌+◌, ◌<◌, ◌≤◌, IfSome, IfNone, None};
ghost use Rattle.board_rules.specs.Rules.{under, IsFitView};
ghost use Rattle.number_slots.specs.Slots.{IsRisingFrom};
ghost use Rattle.board_core.specs.Boards.{first_board, AreFitItems};
ghost use Rattle.board_core.specs.Costs.{pairs_most};
ghost use Rattle.board_core.specs.Clean.{IsCleanBoard, IsLeastPair};
ghost use Rattle.board_core.specs.LiveItems.{live_from, AreNumbered};

use crate::live_items::LiveItems;
use crate::nears::least_near;
use board_items::{ItemId, view};
use board_rules::{Design, RulesView};
use seg_geometry::Steps;
use std::marker::Brand;
use std::sync::ledger::{Blank, Ledger};

/// The least two live items, by the lower number and then by the higher one, that don't keep their need under these
/// rules; none exactly where each two keep it. Every pair is tested until one is too near. It takes no memory.
pub fn least_pair<L: Ledger>(
    design: &Design,
    rules: RulesView<'_>,
    items: LiveItems<'_>,
    steps: &mut Steps<L>,
) -> Option<(ItemId, ItemId)>
    requires rules { IsFitView design.now.parts rules }
    requires numbered { AreNumbered items }
    requires fit { AreFitItems design.now.parts (live_from items 0) }
    requires rising { IsRisingFrom 1 (live_from items 0) }
    ensures some { IfSome result (λ pair. IsLeastPair design.now.parts (under rules.entry) (live_from items.entry 0) pair.0.0 pair.1.0) }
    ensures none { IfNone result (IsCleanBoard design.now.parts (under rules.entry) (live_from items.entry 0)) }
    ensures cost { steps.new ≤ steps.old + pairs_most design.now.parts (live_from items.entry 0) }
{
    for i in 0..items.len() {
        let Some((id, item)) = items.at(i) else {
            continue;
        };
        if let Some(other) = least_near(design, rules, items, i + 1, &[], view(item), steps) {
            return Some((id, ItemId(other)));
        }
    }
    None
}

/// The least two loaded items, by the lower number and then by the higher one, that don't keep their need; none
/// exactly where each two keep it. Every pair is tested until one is too near. It takes no memory.
pub fn slow_pair<L: Ledger>(design: &Design, steps: &mut Steps<L>) -> Option<(ItemId, ItemId)>
    ensures some { IfSome result (λ pair. IsLeastPair design.now.parts (first_board design.now.parts).rules (first_board design.now.parts).live pair.0.0 pair.1.0) }
    ensures none { IfNone result (IsCleanBoard design.now.parts (first_board design.now.parts).rules (first_board design.now.parts).live) }
    ensures cost { steps.new ≤ steps.old + pairs_most design.now.parts (first_board design.now.parts).live }
{
    let rules = RulesView {
        rules: design.start_rules(),
        change: None,
    };
    least_pair(
        design,
        rules,
        LiveItems::Loaded(design.items().as_slice()),
        steps,
    )
}

// As `slow_pair`, with a count of its own.
fn counted_pair<L: Ledger>(design: &Design, blank: Blank) -> Option<(ItemId, ItemId)>
    requires name { blank.name ≡ L.name }
    requires parts { blank.parts ≡ L.parts }
    requires count { 0 < blank.parts }
    ensures some { IfSome result (λ pair. IsLeastPair design.now.parts (first_board design.now.parts).rules (first_board design.now.parts).live pair.0.0 pair.1.0) }
    ensures none { IfNone result (IsCleanBoard design.now.parts (first_board design.now.parts).rules (first_board design.now.parts).live) }
{
    let mut steps = Steps::<L>::new(blank);
    slow_pair(design, &mut steps)
}

/// As `slow_pair`, with a count of its own.
pub fn clean(design: &Design) -> Option<(ItemId, ItemId)>
    ensures some { IfSome result (λ pair. IsLeastPair design.now.parts (first_board design.now.parts).rules (first_board design.now.parts).live pair.0.0 pair.1.0) }
    ensures none { IfNone result (IsCleanBoard design.now.parts (first_board design.now.parts).rules (first_board design.now.parts).live) }
    ensures only { IsCleanBoard design.now.parts (first_board design.now.parts).rules (first_board design.now.parts).live → result ≡ None }
{
    counted_pair::<Brand>(design, Blank::new(1))
}
