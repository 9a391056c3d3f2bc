//! The first reason against a request that doesn't depend on the board.
ghost use Rattle.std.specs.Prelude.{◌≡◌, ◌↔◌, ◌≤◌, ◌+◌, [], ℕ, List, Option, IsTrue, IfNone};
ghost use Rattle.std.specs.List.{AllByRecursion};
ghost use Rattle.board_items.specs.Formed.{IsFormed, IsFormedEdit};
ghost use Rattle.board_rules.specs.Reasons.{IsStaticReason};
ghost use Rattle.board_rules.specs.FitAdds.{IsFitAdd, HasFitAdds};
ghost use Rattle.board_rules.specs.Costs.{adds_most, own_most, static_most};
ghost use Rattle.board_rules.specs.Rules.{under, IsFitView};

use crate::clearances::RulesView;
use crate::design::Design;
use board_items::{Add, Request, Why};
use seg_geometry::Steps;
use std::sync::ledger::Ledger;

// Whether there is no delete and no add.
fn is_empty(deletes: &[u32], adds: &[Add]) -> bool
    ensures { IsTrue result ↔ (deletes.now ≡ []) × (adds.now ≡ []) }
{
    deletes.is_empty() && adds.is_empty()
}

impl Design {
    // The first reason against an edit.
    fn edit_why<L: Ledger>(
        &self,
        rules: RulesView<'_>,
        deletes: &[u32],
        adds: &[Add],
        steps: &mut Steps<L>,
    ) -> Option<Why>
        requires view { IsFitView self.now.parts rules }
        requires formed { IsFormedEdit deletes.now adds.now }
        ensures reason { (clients : ℕ) → IsStaticReason self.now.parts (under rules.entry) clients (Request.Edit deletes.now adds.now) result }
        ensures fits { IfNone result (AllByRecursion (IsFitAdd self.now.parts) adds.now) }
        ensures cost { steps.new ≤ steps.old + (adds_most self.now.parts adds.now + own_most self.now.parts adds.now) }
    {
        if is_empty(deletes, adds) {
            return Some(Why::Empty);
        }
        if let Some(why) = self.adds_why(adds, steps) {
            return Some(why);
        }
        self.own_why(rules, adds, steps)
    }

    // The reason against a change of a class: that it isn't there.
    pub(crate) fn rule_why(&self, class: u32) -> Option<Why>
        ensures { (rules : List (Option ℕ)) (clients clearance : ℕ) → IsStaticReason self.now.parts rules clients (Request.Rule class clearance) result }
    {
        if self.parts.classes.len() <= class as usize {
            return Some(Why::NoClass { class });
        }
        None
    }

    /// The first reason under these rules against a request that doesn't depend on the board, or none: of an edit that
    /// it is empty, that an add by itself is at fault, or that two of its adds are too near; of a boundary its area, its
    /// layers and its clients, of which there are `clients`; of a rule that its class isn't there. It takes no memory. Of an edit it takes at most a step for each
    /// segment of an add and each edge of the outline, and for each two segments of two adds; else it takes none.
    pub fn static_why<L: Ledger>(
        &self,
        rules: RulesView<'_>,
        request: &Request,
        clients: u8,
        steps: &mut Steps<L>,
    ) -> Option<Why>
        requires view { IsFitView self.now.parts rules }
        requires formed { IsFormed request.now }
        ensures reason { IsStaticReason self.now.parts (under rules.entry) clients request.now result }
        ensures fits { IfNone result (HasFitAdds self.now.parts request.now) }
        ensures cost { steps.new ≤ steps.old + static_most self.now.parts request.now }
    {
        match request {
            Request::Edit { deletes, adds } => {
                self.edit_why(rules, deletes.as_slice(), adds.as_slice(), steps)
            }
            Request::Fence {
                layers,
                area,
                clients: entitled,
            } => self.fence_why(
                layers.as_slice(),
                area.as_slice(),
                entitled.as_slice(),
                clients,
            ),
            Request::Rule { class, .. } => self.rule_why(*class),
            Request::Reserve { .. } => None,
            Request::Release { .. } => None,
            Request::Unfence { .. } => None,
            Request::Entitle { .. } => None,
        }
    }
}
