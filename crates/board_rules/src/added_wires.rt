//! The first reason against a wire that is added.
ghost use Rattle.std.specs.Prelude.{◌≤◌, ◌+◌};
ghost use Rattle.board_items.specs.Adds.{item_of_add};
ghost use Rattle.board_items.specs.Formed.{IsFormedWire};
ghost use Rattle.board_rules.specs.Reasons.{IsAddReason};
ghost use Rattle.board_rules.specs.Costs.{outline_most};

use crate::design::Design;
use crate::outline::lies_inside;
use board_items::{Add, ItemView, Why};
use seg_geometry::{Pt, Steps};
use std::sync::ledger::Ledger;

impl Design {
    // The first reason against the wire of number `a` by itself.
    pub(crate) fn wire_why<L: Ledger>(
        &self,
        a: u32,
        net: u32,
        layer: u32,
        width: u32,
        points: &[Pt],
        steps: &mut Steps<L>,
    ) -> Option<Why>
        requires { IsFormedWire net layer width points.now }
        ensures reason { IsAddReason self.now.parts a (Add.Wire net layer width points.now) result }
        ensures cost { steps.new ≤ steps.old + outline_most self.now.parts (item_of_add (Add.Wire net layer width points.now)) }
    {
        if self.parts.nets.len() <= net as usize {
            return Some(Why::Net { add: a });
        }
        if self.parts.layers.len() <= layer as usize {
            return Some(Why::Layer { add: a });
        }
        if width < self.least_width(net) {
            return Some(Why::Narrow { add: a });
        }
        let wire = ItemView::Wire {
            net,
            layer: layer as u8,
            width,
            points,
            fix: false,
        };
        if !lies_inside(
            wire,
            &self.parts.stacks,
            self.parts.outline.as_slice(),
            steps,
        ) {
            return Some(Why::Outside { add: a });
        }
        None
    }
}
