//! Two items of a board against each other.
ghost use Rattle.std.specs.Prelude.{◌≤◌, ◌<◌, ◌+◌, ◌*◌, ◌^◌, ◌↔◌, length, All, IsTrue};
ghost use Rattle.row_lists.specs.Limits.{width_limit_nm};
ghost use Rattle.area_geometry.specs.Copper.{copper_of, pieces_of, IsWithinLimits};
ghost use Rattle.area_geometry.specs.Apart.{AreShapesApart};
ghost use Rattle.board_items.specs.Adds.{item_seen};
ghost use Rattle.board_items.specs.Shapes.{copper_of_item};
ghost use Rattle.board_items.specs.Segments.{segments_in, segments_of};
ghost use Rattle.board_rules.specs.Costs.{pair_most};
ghost use Rattle.board_rules.specs.Designs.{IsFitItem};
ghost use Rattle.board_rules.specs.Needs.{AreApart, KeepsNeed};
ghost use Rattle.board_rules.specs.Rules.{under, IsFitView};

use crate::clearances::RulesView;
use crate::design::Design;
use area_geometry::{ShapeView, shape_keeps};
use board_items::{ItemView, Stacks, shape_at, shape_count};
use seg_geometry::Steps;
use std::sync::ledger::Ledger;

// Whether a shape keeps a distance in nm from each shape of an item.
fn shape_clears<L: Ledger>(
    s: ShapeView<'_>,
    b: ItemView<'_>,
    stacks: &Stacks,
    gap: u32,
    steps: &mut Steps<L>,
) -> bool
    requires s_in { IsWithinLimits (copper_of s) }
    requires b_in { All IsWithinLimits (copper_of_item stacks.now (item_seen b)) }
    requires b_few { length (copper_of_item stacks.now (item_seen b)) < 2 ^ 32 }
    requires gap_fits { gap ≤ width_limit_nm }
    ensures apart { IsTrue result ↔ All (λ t. AreShapesApart (copper_of s.entry) t gap) (copper_of_item stacks.now (item_seen b.entry)) }
    ensures cost { steps.new ≤ steps.old + length (pieces_of (copper_of s.entry)) * segments_in (copper_of_item stacks.now (item_seen b.entry)) }
{
    for j in 0..shape_count(b, stacks) {
        if !shape_keeps(s, shape_at(b, stacks, j), gap, steps) {
            return false;
        }
    }
    true
}

// Whether each shape of the one item keeps a distance in nm from each shape of the other.
fn items_keep<L: Ledger>(
    a: ItemView<'_>,
    b: ItemView<'_>,
    stacks: &Stacks,
    gap: u32,
    steps: &mut Steps<L>,
) -> bool
    requires a_in { All IsWithinLimits (copper_of_item stacks.now (item_seen a)) }
    requires a_few { length (copper_of_item stacks.now (item_seen a)) < 2 ^ 32 }
    requires b_in { All IsWithinLimits (copper_of_item stacks.now (item_seen b)) }
    requires b_few { length (copper_of_item stacks.now (item_seen b)) < 2 ^ 32 }
    requires gap_fits { gap ≤ width_limit_nm }
    ensures apart { IsTrue result ↔ AreApart stacks.now (item_seen a.entry) (item_seen b.entry) gap }
    ensures cost { steps.new ≤ steps.old + segments_of stacks.now (item_seen a.entry) * segments_of stacks.now (item_seen b.entry) }
{
    for i in 0..shape_count(a, stacks) {
        if !shape_clears(shape_at(a, stacks, i), b, stacks, gap, steps) {
            return false;
        }
    }
    true
}

impl Design {
    /// Whether two items have no need under these rules, or keep it. It takes no memory, and at most one step for each segment or edge of
    /// the one and each of the other.
    pub fn pair_keeps<L: Ledger>(
        &self,
        rules: RulesView<'_>,
        a: ItemView<'_>,
        b: ItemView<'_>,
        steps: &mut Steps<L>,
    ) -> bool
        requires view { IsFitView self.now.parts rules }
        requires a_fits { IsFitItem self.now.parts (item_seen a) }
        requires b_fits { IsFitItem self.now.parts (item_seen b) }
        ensures keeps { IsTrue result ↔ KeepsNeed self.now.parts (under rules.entry) (item_seen a.entry) (item_seen b.entry) }
        ensures cost { steps.new ≤ steps.old + pair_most self.now.parts (item_seen a.entry) (item_seen b.entry) }
    {
        rules.keep_limits();
        match self.need(rules, a, b) {
            None => true,
            Some(gap) => items_keep(a, b, &self.parts.stacks, gap, steps),
        }
    }
}
