//! Which adds are right by themselves, and the first reason against an edit by itself.
ghost use Rattle.std.specs.Prelude.{◌≡◌, ◌↔◌, ◌≤◌, ◌+◌, [], ℕ, length, IfOk, IsTrue};
ghost use Rattle.std.specs.List.{AllByRecursion};
ghost use Rattle.row_lists.specs.Limits.{add_limit};
ghost use Rattle.board_items.specs.Adds.{item_of_add, item_seen, layer_of_add};
ghost use Rattle.board_items.specs.Formed.{IsFormedAdd, IsFormedEdit};
ghost use Rattle.board_rules.specs.Costs.{adds_most, own_most};
ghost use Rattle.board_rules.specs.Reasons.{IsAddsReason, IsStaticReason};
ghost use Rattle.board_rules.specs.Rules.{under, IsFitView};
ghost use Rattle.check_core.specs.Tries.{earlier_of, AreTried};

use board_items::{Add, ItemView, Request, Why, view_add};
use board_rules::{Design, RulesView};
use row_lists::Row;
use seg_geometry::Steps;
use std::alloc::AllocError;
use std::sync::ledger::Ledger;

/// The first reason against adds by themselves, and a mark for each: whether it is right.
#[derive(Drop)]
pub struct Tried {
    pub why: Option<Why>,
    pub right: Row<bool>,
}

/// The item that an add makes.
pub fn item_made(add: &Add) -> ItemView<'_>
    requires { layer_of_add add.now ≤ 255 }
    ensures { item_seen result ≡ item_of_add add.now }
{
    view_add(add).unwrap()
}

// The first of two reasons that is there.
fn earlier(a: Option<Why>, b: Option<Why>) -> Option<Why>
    ensures { result ≡ earlier_of a b }
{
    match a {
        None => b,
        Some(why) => Some(why),
    }
}

/// Tests each add by itself, once. An `Err` is want of memory.
pub fn try_each<L: Ledger>(
    design: &Design,
    adds: &[Add],
    steps: &mut Steps<L>,
) -> Result<Tried, AllocError>
    requires formed { AllByRecursion IsFormedAdd adds.now }
    requires few { length adds.now ≤ add_limit }
    ensures why { IfOk result (λ t. IsAddsReason design.now.parts 1 adds.now t.why) }
    ensures right { IfOk result (λ t. AreTried design.now.parts adds.now t.right) }
    ensures cost { steps.new ≤ steps.old + adds_most design.now.parts adds.now }
{
    let mut why = None;
    let mut right = Row::new(design.stacks().allocator());
    for (i, add) in adds.iter().enumerate() {
        let own = design.add_why(i as u32 + 1, add, steps);
        right.push(own.is_none())?;
        why = earlier(why, own);
    }
    Ok(Tried { why, right })
}

// Whether there is no delete and no add.
fn is_empty(deletes: &[u32], adds: &[Add]) -> bool
    ensures { IsTrue result ↔ (deletes.now ≡ []) × (adds.now ≡ []) }
{
    deletes.is_empty() && adds.is_empty()
}

/// The first reason against an edit by itself, by that against its adds.
pub fn edit_plain<L: Ledger>(
    design: &Design,
    rules: RulesView<'_>,
    deletes: &[u32],
    adds: &[Add],
    why: Option<Why>,
    steps: &mut Steps<L>,
) -> Option<Why>
    requires view { IsFitView design.now.parts rules }
    requires formed { IsFormedEdit deletes.now adds.now }
    requires why { IsAddsReason design.now.parts 1 adds.now why }
    ensures reason { (clients : ℕ) → IsStaticReason design.now.parts (under rules.entry) clients (Request.Edit deletes.now adds.now) result }
    ensures cost { steps.new ≤ steps.old + own_most design.now.parts adds.now }
{
    if is_empty(deletes, adds) {
        return Some(Why::Empty);
    }
    if let Some(why) = why {
        return Some(why);
    }
    design.own_why(rules, adds, steps)
}
