//! The pairs of an item and the client that holds it.
ghost use Rattle.std.specs.Prelude.{◌≡◌, ◌≤◌, ◌<◌, ◌+◌, ◌++◌, ◌∷◌, [], ◌^◌, ℕ, false, is_some, length, slice_get, Some, IfSome, IfNone, IfOk, OnOk, OnErr, IsTrue};
ghost use Rattle.reservations.specs.Held.{is_held, released, not_of, IsHolder, AreHeldOnce};
ghost use Rattle.reservations.specs.Places.{pairs_of};

use crate::places::{Place, client_at, keep_others, nth_pair, put, reindex, take};
use board_items::ItemId;
use indexmap::IndexMap;
use std::alloc::{AllocError, Global};
use std::marker::Model;

/// Who holds which item, in the order in which they were reserved. An item is held once at most.
#[derive(Debug, Drop)]
pub struct Held {
    places: Vec<Place>,
    index: IndexMap<u32, usize>,
}

impl Model for Held {
    ghost use Rattle.std.specs.Prelude.{◌-◌, min};
    ghost use Rattle.std.specs.Vec.{vec_len, vec_capacity};
    ghost use Rattle.indexmap.specs.IndexMap.{spare};
    ghost use Rattle.reservations.specs.Held.{Holding};
    ghost use Rattle.reservations.specs.Places.{pairs_of, IsKept};

    ghost Value = { Holding };

    ghost view = { λ h. record { pairs = pairs_of h.places.items; room = min (vec_capacity h.places - vec_len h.places) (spare h.index) } };

    ghost invariant = { λ h. IsKept h.index h.places.items };
}

impl Held {
    /// No reservations and no room. It takes no memory.
    pub fn new(alloc: Global) -> Held
        ensures { result.pairs ≡ [] }
    {
        Held {
            places: Vec::new(alloc),
            index: IndexMap::new(alloc),
        }
    }

    // No reservations, with room for this many.
    fn with_room(alloc: Global, room: usize) -> Result<Held, AllocError>
        ensures pairs { IfOk result (λ held. held.pairs ≡ []) }
        ensures room { IfOk result (λ held. room ≤ held.room) }
    {
        let places = Vec::with_capacity(alloc, room)?;
        let index = IndexMap::with_capacity(alloc, room)?;
        Ok(Held { places, index })
    }

    /// The client that holds an item.
    pub fn holder(&self, id: ItemId) -> Option<u8>
        ensures some { IfSome result (λ client. IsHolder self.now.pairs id.0 client) }
        ensures only { IfSome result (λ client. (other : ℕ) → IsHolder self.now.pairs id.0 other → other ≡ client) }
        ensures none { IfNone result ((client : ℕ) → IsHolder self.now.pairs id.0 client → ⊥) }
        ensures held { is_held id.0 self.now.pairs ≡ is_some result }
    {
        client_at(self.places.as_slice(), &self.index, id.0)
    }

    // Whether one more reservation takes no memory.
    fn has_room(&self) -> bool
        ensures { IsTrue result → 0 < self.now.room }
    {
        self.places.len() < self.places.capacity() && self.index.len() < self.index.capacity()
    }

    // The same pairs, with room for as many again, and without the places of those that have ended.
    fn grown(&self) -> Result<Held, AllocError>
        ensures pairs { IfOk result (λ held. held.pairs ≡ self.now.pairs) }
        ensures room { IfOk result (λ held. 0 < held.room) }
    {
        let alloc = *self.places.allocator();
        let mut held = Held::with_room(alloc, 2 * self.index.len() + 8)?;
        reserve_all(&mut held, self.places.as_slice());
        Ok(held)
    }

    /// Makes room for one reservation. After an `Err`, for want of memory, all is as before.
    pub fn make_room(&mut self) -> Result<(), AllocError>
        ensures ok { OnOk result (0 < self.new.room) }
        ensures same { self.new.pairs ≡ self.old.pairs }
        ensures err { OnErr result (self.new.room ≡ self.old.room) }
    {
        if self.has_room() {
            return Ok(());
        }
        *self = self.grown()?;
        Ok(())
    }

    /// Lets a client hold an item that is free. It uses room for one reservation and takes no memory.
    pub fn reserve(&mut self, id: ItemId, client: u8)
        requires free { is_held id.0 self.old.pairs ≡ false }
        requires room { 0 < self.old.room }
        requires few { length self.old.pairs + 1 < 2 ^ 32 }
        ensures pairs { self.new.pairs ≡ self.old.pairs ++ (id.0, client) ∷ [] }
        ensures room { self.old.room ≤ self.new.room + 1 }
    {
        put(&mut self.places, &mut self.index, id.0, client);
    }

    /// Frees an item, whoever holds it; where nobody does, nothing changes. Room stays.
    pub fn release(&mut self, id: ItemId)
        ensures pairs { self.new.pairs ≡ released id.0 self.old.pairs }
        ensures room { self.old.room ≤ self.new.room }
    {
        take(&mut self.places, &mut self.index, id.0);
    }

    /// Frees all that a client holds. Room stays.
    pub fn drop_client(&mut self, client: u8)
        ensures pairs { self.new.pairs ≡ not_of client self.old.pairs }
        ensures room { self.old.room ≤ self.new.room }
    {
        keep_others(&mut self.places, client);
        reindex(self.places.as_slice(), &mut self.index);
    }

    /// How many items are held. No item is held twice.
    pub fn len(&self) -> u32
        ensures len { result ≡ length self.now.pairs }
        ensures once { AreHeldOnce self.now.pairs }
    {
        self.index.len() as u32
    }

    /// The `i`-th item that is held, from 0, in the order of reserving, and its client.
    pub fn at(&self, i: u32) -> Option<(ItemId, u8)>
        ensures some { IfSome result (λ pair. slice_get self.now.pairs i ≡ Some (pair.0.0, pair.1)) }
        ensures none { IfNone result (length self.now.pairs ≤ i) }
    {
        let pair = nth_pair(self.places.as_slice(), i)?;
        Some((ItemId(pair.0), pair.1))
    }
}

// Reserves the pairs that stand in places, for which there is room and more.
fn reserve_all(held: &mut Held, places: &[Place])
    requires empty { held.old.pairs ≡ [] }
    requires once { AreHeldOnce (pairs_of places.now) }
    requires few { length (pairs_of places.now) < 2 ^ 32 }
    requires room { length (pairs_of places.now) < held.old.room }
    ensures pairs { held.new.pairs ≡ pairs_of places.now }
    ensures room { 0 < held.new.room }
{
    for place in places {
        let Some(pair) = *place else {
            continue;
        };
        held.reserve(ItemId(pair.0), pair.1);
    }
}
