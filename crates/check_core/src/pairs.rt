//! Whether the loaded items keep their needs, by an index.
ghost use Rattle.std.specs.Prelude.{◌≡◌, ◌<◌, IfOk, IfSome, IfNone, None, []};
ghost use Rattle.board_rules.specs.Classes.{untyped_of};
ghost use Rattle.board_rules.specs.Rules.{under, IsFitView};
ghost use Rattle.board_core.specs.Boards.{first_board};
ghost use Rattle.board_core.specs.Clean.{IsCleanBoard, IsLeastPair};
ghost use Rattle.number_slots.specs.Slots.{numbered};
ghost use Rattle.check_core.specs.Filings.{AreFiled};

use crate::entering::enter_loaded;
use crate::nearest::nearest;
use board_items::ItemId;
use board_rules::{Design, RulesView};
use seg_geometry::{Near, Steps};
use std::alloc::AllocError;
use std::marker::Brand;
use std::sync::ledger::{Blank, Ledger};

// The least pair of loaded items that are too near, by an index that holds them. An `Err` is want of memory.
fn least_pair<N: Near, L: Ledger>(
    design: &Design,
    rules: RulesView<'_>,
    near: &N,
    steps: &mut Steps<L>,
) -> Result<Option<(ItemId, ItemId)>, AllocError>
    requires rules_fit { IsFitView design.now.parts rules }
    requires filed { AreFiled design.now.parts.stacks (numbered 1 design.now.parts.items) (N.filed near.now) }
    ensures some { IfOk result (λ r. IfSome r (λ pair. IsLeastPair design.now.parts (under rules.entry) (numbered 1 design.now.parts.items) pair.0.0 pair.1.0)) }
    ensures none { IfOk result (λ r. IfNone r (IsCleanBoard design.now.parts (under rules.entry) (numbered 1 design.now.parts.items))) }
{
    let by = design.largest_clearance(rules);
    for (i, item) in design.items().as_slice().iter().enumerate() {
        let number = i as u32 + 1;
        if let Some(other) = nearest(design, rules, near, by, number, item, steps)? {
            return Ok(Some((ItemId(number), ItemId(other))));
        }
    }
    Ok(None)
}

// As `least_pair`, with a count of its own.
fn counted_pair<N: Near, L: Ledger>(
    design: &Design,
    rules: RulesView<'_>,
    near: &N,
    blank: Blank,
) -> Result<Option<(ItemId, ItemId)>, AllocError>
    requires name { blank.name ≡ L.name }
    requires parts { blank.parts ≡ L.parts }
    requires count { 0 < blank.parts }
    requires rules_fit { IsFitView design.now.parts rules }
    requires filed { AreFiled design.now.parts.stacks (numbered 1 design.now.parts.items) (N.filed near.now) }
    ensures some { IfOk result (λ r. IfSome r (λ pair. IsLeastPair design.now.parts (under rules.entry) (numbered 1 design.now.parts.items) pair.0.0 pair.1.0)) }
    ensures none { IfOk result (λ r. IfNone r (IsCleanBoard design.now.parts (under rules.entry) (numbered 1 design.now.parts.items))) }
{
    let mut steps = Steps::<L>::new(blank);
    least_pair(design, rules, near, &mut steps)
}

/// The least two loaded items, by the lower number and then by the higher one, that don't keep their need; none
/// exactly where each two keep it. It is `board_core::clean` by an index, which is empty. An `Err` is want of memory.
pub fn first_pair<N: Near + Drop>(
    design: &Design,
    near: N,
) -> Result<Option<(ItemId, ItemId)>, AllocError>
    requires { N.filed near ≡ [] }
    ensures some { IfOk result (λ r. IfSome r (λ pair. IsLeastPair design.now.parts (untyped_of design.now.parts) (first_board design.now.parts).live pair.0.0 pair.1.0)) }
    ensures none { IfOk result (λ r. IfNone r (IsCleanBoard design.now.parts (untyped_of design.now.parts) (first_board design.now.parts).live)) }
    ensures only { IsCleanBoard design.now.parts (untyped_of design.now.parts) (first_board design.now.parts).live → IfOk result (λ r. r ≡ None) }
{
    let mut near = near;
    enter_loaded(&mut near, design)?;
    let rules = RulesView {
        rules: design.start_rules(),
        change: None,
    };
    counted_pair::<N, Brand>(design, rules, &near, Blank::new(1))
}
