//! Adds of one request that are too near to each other.
ghost use Rattle.std.specs.Prelude.{◌≡◌, ◌≤◌, ◌+◌, length};
ghost use Rattle.std.specs.List.{AllByRecursion};
ghost use Rattle.row_lists.specs.Limits.{add_limit};
ghost use Rattle.board_items.specs.Adds.{item_of_add, item_seen, layer_of_add};
ghost use Rattle.board_rules.specs.Designs.{IsFitItem};
ghost use Rattle.board_rules.specs.Reasons.{IsNearReason, IsOwnReason};
ghost use Rattle.board_rules.specs.FitAdds.{IsFitAdd};
ghost use Rattle.board_rules.specs.Costs.{near_most, own_most};
ghost use Rattle.board_rules.specs.Rules.{under, IsFitView};

use crate::clearances::RulesView;
use crate::design::Design;
use board_items::{Add, ItemView, Why, view_add};
use seg_geometry::Steps;
use std::sync::ledger::Ledger;

// The item that an add makes.
fn item_made(add: &Add) -> ItemView<'_>
    requires { layer_of_add add.now ≤ 255 }
    ensures { item_seen result ≡ item_of_add add.now }
{
    view_add(add).unwrap()
}

impl Design {
    // The first of the adds behind add `a` that is too near to its item. The first of those has the number `a` + 1.
    fn near_why<L: Ledger>(
        &self,
        rules: RulesView<'_>,
        a: u32,
        item: ItemView<'_>,
        others: &[Add],
        steps: &mut Steps<L>,
    ) -> Option<Why>
        requires view { IsFitView self.now.parts rules }
        requires fits { IsFitItem self.now.parts (item_seen item) }
        requires others_fit { AllByRecursion (IsFitAdd self.now.parts) others.now }
        requires few { a + length others.now ≤ add_limit }
        ensures reason { IsNearReason self.now.parts (under rules.entry) a (item_seen item.entry) (a + 1) others.now result }
        ensures cost { steps.new ≤ steps.old + near_most self.now.parts (item_seen item.entry) others.now }
    {
        let mut b = a + 1;
        for other in others {
            if !self.pair_keeps(rules, item, item_made(other), steps) {
                return Some(Why::Own { a, b });
            }
            b += 1;
        }
        None
    }

    /// The reason that names the least two adds that are too near under these rules, or none. It takes no memory, and at
    /// most a step for each two segments of two adds.
    pub fn own_why<L: Ledger>(
        &self,
        rules: RulesView<'_>,
        adds: &[Add],
        steps: &mut Steps<L>,
    ) -> Option<Why>
        requires view { IsFitView self.now.parts rules }
        requires fits { AllByRecursion (IsFitAdd self.now.parts) adds.now }
        requires few { length adds.now ≤ add_limit }
        ensures reason { IsOwnReason self.now.parts (under rules.entry) 1 adds.now result }
        ensures cost { steps.new ≤ steps.old + own_most self.now.parts adds.now }
    {
        for i in 0..adds.len() {
            let item = item_made(&adds[i]);
            if let Some(why) = self.near_why(rules, i as u32 + 1, item, &adds[i + 1..], steps) {
                return Some(why);
            }
        }
        None
    }
}
