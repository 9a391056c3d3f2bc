//! Slots: one for each number that was given.
ghost use Rattle.std.specs.Prelude.{◌≡◌, ◌≤◌, ◌<◌, ◌+◌, ◌++◌, ◌∷◌, [], ◌^◌, ◌*◌, ℕ, is_ok, if◌then◌else◌, length, slice_get, Some, None, IfSome, IfNone, OnOk, OnErr};
ghost use Rattle.number_slots.specs.Slots.{there, without, at_numbers, IsAt, IsRisingFrom};

use crate::numbers::{note, squeeze};
use crate::places::{clear, fill, nth_thing, thing_at};
use slab::Slab;
use std::alloc::{AllocError, Global};
use std::marker::Model;

/// Things by their number, from 1 on, seen by contracts as a slot for each number, empty where nothing stands. A number
/// that was given takes 8 bytes for good; a thing takes memory only while it is there, and its room is used again.
#[derive(Debug, Drop)]
pub struct Slots<T> {
    /// What a walk goes by.
    numbers: Vec<u32>,
    places: Vec<usize>,
    things: Slab<T>,
}

impl<T> Model for Slots<T> {
    ghost use Rattle.std.specs.Prelude.{List, Option};
    ghost use Rattle.number_slots.specs.Places.{slots_of, IsKept, IsWalk};

    ghost Value = { List (Option T) };

    ghost view = { λ s. slots_of s.things s.places.items };

    ghost invariant = { λ s. IsKept s.places.items s.things × IsWalk s.numbers.items s.places.items s.things };
}

impl<T> Slots<T> {
    /// No numbers. It takes no memory.
    pub fn new(alloc: Global) -> Slots<T>
        ensures { result ≡ [] }
    {
        Slots {
            numbers: Vec::new(alloc),
            places: Vec::new(alloc),
            things: Slab::new(alloc),
        }
    }

    /// How many things are there.
    pub fn count(&self) -> u32
        ensures { result ≡ length (there 1 self.now) }
    {
        self.things.len() as u32
    }

    /// The allocator of the slots.
    pub fn allocator(&self) -> Global {
        *self.places.allocator()
    }

    /// The number that was given last, 0 at first. The numbers of what is there rise, from 1 on and up to it.
    pub fn last(&self) -> u32
        ensures last { result ≡ length self.now }
        ensures few { result + 1 < 2 ^ 32 }
        ensures within { (n : ℕ) (x : T) → IsAt (there 1 self.now) n x → (0 < n) × (n ≤ result) }
        ensures rising { IsRisingFrom 1 (there 1 self.now) }
    {
        self.places.len() as u32
    }

    /// What stands under a number.
    pub fn at(&self, number: u32) -> Option<&T>
        ensures some { IfSome result (λ x. IsAt (there 1 self.now) number x.now) }
        ensures only { IfSome result (λ x. (y : T) → IsAt (there 1 self.now) number y → y ≡ x.now) }
        ensures none { IfNone result ((x : T) → IsAt (there 1 self.now) number x → ⊥) }
    {
        thing_at(self.places.as_slice(), &self.things, number)
    }

    /// The numbers that a walk over all that is there goes by: what stands at them, one after another, is all of it, and
    /// under less than half of them nothing stands.
    pub fn numbers(&self) -> &[u32]
        ensures all { at_numbers result.now (there 1 self.now) ≡ there 1 self.now }
        ensures few { length result.now ≤ 2 * length (there 1 self.now) + 1 }
    {
        self.numbers.as_slice()
    }

    /// The `i`-th thing, from 0, in the order of their numbers, and its number. It walks over all before it.
    pub fn nth(&self, i: u32) -> Option<(u32, &T)>
        ensures some { IfSome result (λ x. slice_get (there 1 self.now) i ≡ Some (x.0, x.1.now)) }
        ensures none { IfNone result (length (there 1 self.now) ≤ i) }
    {
        nth_thing(
            self.numbers.as_slice(),
            self.places.as_slice(),
            &self.things,
            i,
        )
    }

    /// Takes away what stands under these numbers, and then puts what was made, or nothing, under the next numbers. It
    /// touches nothing else. After an `Err`, for want of memory, all is as before.
    pub fn replace(&mut self, numbers: &[u32], made: Vec<Option<T>>) -> Result<(), AllocError>
    where
        T: Drop,
        requires { length self.old + length made.items + 1 < 2 ^ 32 }
        ensures left { OnOk result (there 1 self.new ≡ without numbers.now (there 1 self.old) ++ there (length self.old + 1) made.items) }
        ensures length { OnOk result (length self.new ≡ length self.old + length made.items) }
        ensures err { OnErr result (self.new ≡ self.old) }
    {
        self.numbers.reserve(made.len())?;
        self.places.reserve(made.len())?;
        self.things.reserve(made.len())?;
        clear(&mut self.places, &mut self.things, numbers);
        squeeze(&mut self.numbers, self.places.as_slice(), &self.things);
        note(
            &mut self.numbers,
            self.places.len() as u32 + 1,
            made.as_slice(),
        );
        fill(&mut self.places, &mut self.things, made);
        Ok(())
    }
}
