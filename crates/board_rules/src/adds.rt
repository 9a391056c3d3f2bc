//! The first reason against adds by themselves.
ghost use Rattle.std.specs.Prelude.{◌≤◌, ◌+◌, length};
ghost use Rattle.std.specs.List.{AllByRecursion};
ghost use Rattle.row_lists.specs.Limits.{add_limit};
ghost use Rattle.board_items.specs.Adds.{item_of_add};
ghost use Rattle.board_items.specs.Formed.{IsFormedAdd};
ghost use Rattle.board_rules.specs.Reasons.{IsAddReason, IsAddsReason};
ghost use Rattle.board_rules.specs.Costs.{outline_most, adds_most};

use crate::design::Design;
use board_items::{Add, Why};
use seg_geometry::Steps;
use std::sync::ledger::Ledger;

impl Design {
    /// The first reason against the add of number `a` by itself, or none: no such net, layer or padstack, a width below
    /// its class's, a point out of range, a shape that isn't inside the outline. It takes no memory, and at most a step
    /// for each segment of the add and each edge of the outline.
    pub fn add_why<L: Ledger>(&self, a: u32, add: &Add, steps: &mut Steps<L>) -> Option<Why>
        requires { IsFormedAdd add.now }
        ensures reason { IsAddReason self.now.parts a add.now result }
        ensures cost { steps.new ≤ steps.old + outline_most self.now.parts (item_of_add add.now) }
    {
        match add {
            Add::Wire {
                net,
                layer,
                width,
                points,
            } => self.wire_why(a, *net, *layer, *width, points.as_slice(), steps),
            Add::Via { net, padstack, at } => self.via_why(a, *net, *padstack, *at, steps),
        }
    }

    // The first reason against adds by themselves.
    pub(crate) fn adds_why<L: Ledger>(&self, adds: &[Add], steps: &mut Steps<L>) -> Option<Why>
        requires formed { AllByRecursion IsFormedAdd adds.now }
        requires few { length adds.now ≤ add_limit }
        ensures reason { IsAddsReason self.now.parts 1 adds.now result }
        ensures cost { steps.new ≤ steps.old + adds_most self.now.parts adds.now }
    {
        let mut a = 1;
        for add in adds {
            if let Some(why) = self.add_why(a, add, steps) {
                return Some(why);
            }
            a += 1;
        }
        None
    }
}
