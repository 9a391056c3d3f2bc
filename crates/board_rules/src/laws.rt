//! Laws of what two items must keep.
ghost use Rattle.std.specs.Prelude.{◌≡◌, ◌≤◌, ◌⊎◌, ℕ, List, Option, Some};
ghost use Rattle.board_items.specs.declared.items.Item.{Item};
ghost use Rattle.board_rules.specs.declared.design.Parts.{Parts};
ghost use Rattle.board_rules.specs.Needs.{need_in, largest_of, KeepsNeed};
ghost use Rattle.board_rules.specs.NearItems.{AreItemsNear};

/// What two items must keep under any rules is the same both ways round.
pub fn need_is_the_same_both_ways()
    ensures { (p : Parts) (rules : List (Option ℕ)) (a b : Item) → need_in p rules a b ≡ need_in p rules b a }
{}

/// No two items must keep more than the largest clearance under the same rules.
pub fn need_is_at_most_the_largest_clearance()
    ensures { (p : Parts) (rules : List (Option ℕ)) (a b : Item) (c : ℕ) → need_in p rules a b ≡ Some c → c ≤ largest_of p rules }
{}

/// On some layer two items have a shape each whose boxes meet, with that of the first moved out by the largest clearance
/// under any rules, or the items have no need under these, or keep it.
pub fn items_are_near_or_keep_their_need()
    ensures { (p : Parts) (rules : List (Option ℕ)) (a b : Item) → AreItemsNear p.stacks (largest_of p rules) a b ⊎ KeepsNeed p rules a b }
{}
