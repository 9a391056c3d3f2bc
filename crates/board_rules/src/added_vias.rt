//! The first reason against a via that is added.
ghost use Rattle.std.specs.Prelude.{◌≤◌, ◌+◌};
ghost use Rattle.board_items.specs.Adds.{item_of_add};
ghost use Rattle.board_items.specs.Formed.{IsFormedVia};
ghost use Rattle.board_rules.specs.Reasons.{IsAddReason};
ghost use Rattle.board_rules.specs.Costs.{outline_most};

use crate::design::Design;
use crate::outline::lies_inside;
use board_items::{Add, ItemView, Why};
use seg_geometry::{Pt, Steps};
use std::sync::ledger::Ledger;

impl Design {
    // The first reason against the via of number `a` by itself.
    pub(crate) fn via_why<L: Ledger>(
        &self,
        a: u32,
        net: u32,
        padstack: u32,
        at: Pt,
        steps: &mut Steps<L>,
    ) -> Option<Why>
        requires { IsFormedVia net padstack at }
        ensures reason { IsAddReason self.now.parts a (Add.Via net padstack at) result }
        ensures cost { steps.new ≤ steps.old + outline_most self.now.parts (item_of_add (Add.Via net padstack at)) }
    {
        if self.parts.nets.len() <= net as usize {
            return Some(Why::Net { add: a });
        }
        if self.parts.stacks.len() <= padstack as usize {
            return Some(Why::Padstack { add: a });
        }
        if !self.may_have(net, padstack) {
            return Some(Why::Padstack { add: a });
        }
        if !self.via_in_range(padstack, at) {
            return Some(Why::Range { add: a });
        }
        let via = ItemView::Via {
            net,
            padstack,
            at,
            fix: false,
        };
        if !lies_inside(
            via,
            &self.parts.stacks,
            self.parts.outline.as_slice(),
            steps,
        ) {
            return Some(Why::Outside { add: a });
        }
        None
    }
}
