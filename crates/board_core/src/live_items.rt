//! A walk over live items.
ghost use Rattle.std.specs.Prelude.{◌≡◌, ◌<◌, ◌+◌, ◌∷◌, length, drop, IfSome, IfNone};
ghost use Rattle.number_slots.specs.Slots.{there, at_numbers};
ghost use Rattle.board_core.specs.LiveItems.{places_of, live_from, AreNumbered};

use board_items::{Item, ItemId};
use number_slots::Slots;

/// The live items of a board, or those that a design loads, by their places in a walk. Their numbers rise with the
/// places, and at some places of a board nothing lies any more.
#[derive(Clone, Copy)]
pub enum LiveItems<'a> {
    /// Items that are numbered from 1 on.
    Loaded(&'a [Item]),
    /// What a board keeps, and the numbers that a walk over it goes by.
    OnBoard {
        numbers: &'a [u32],
        items: &'a Slots<Item>,
    },
}

// What a board keeps at the number of a place, from 0, and the number; none where nothing lies there any more.
fn kept_at<'a>(numbers: &[u32], items: &'a Slots<Item>, i: usize) -> Option<(ItemId, &'a Item)>
    requires { i < length numbers.now }
    ensures some { IfSome result (λ x. at_numbers (drop i numbers.now) (there 1 items.now) ≡ (x.0.0, x.1.now) ∷ at_numbers (drop (i + 1) numbers.now) (there 1 items.now)) }
    ensures none { IfNone result (at_numbers (drop i numbers.now) (there 1 items.now) ≡ at_numbers (drop (i + 1) numbers.now) (there 1 items.now)) }
{
    let number = numbers[i];
    let item = items.at(number)?;
    Some((ItemId(number), item))
}

impl<'a> LiveItems<'a> {
    /// How many places there are.
    pub fn len(self) -> usize
        ensures { result ≡ places_of self.entry }
    {
        match self {
            LiveItems::Loaded(items) => items.len(),
            LiveItems::OnBoard { numbers, .. } => numbers.len(),
        }
    }

    /// The item at the place `i`, from 0, and its number; none where nothing lies there any more.
    pub fn at(self, i: usize) -> Option<(ItemId, &'a Item)>
        requires there { i < places_of self }
        requires few { AreNumbered self }
        ensures some { IfSome result (λ x. live_from self.entry i ≡ (x.0.0, x.1.now) ∷ live_from self.entry (i + 1)) }
        ensures none { IfNone result (live_from self.entry i ≡ live_from self.entry (i + 1)) }
    {
        match self {
            LiveItems::Loaded(items) => Some((ItemId(i as u32 + 1), &items[i])),
            LiveItems::OnBoard { numbers, items } => kept_at(numbers, items, i),
        }
    }
}
