//! Slots in which rectangles are filed, found by number and by id.
ghost use Rattle.std.specs.Prelude.{◌≡◌, ◌≢◌, ℕ, ◌++◌, [], ◌∷◌, length, slice_index_or, slice_set, is_ok, if◌then◌else◌, IfOk, IfSome, IfNone, Some, None, option_copied};
ghost use Rattle.seg_geometry.specs.declared.near.Filed.{Filed};
ghost use Rattle.near_slots.specs.Slots.{IsAt, IsFreeOf};

use crate::buckets::{Buckets, Spot};
use seg_geometry::Filed;
use std::alloc::{AllocError, Global};
use std::marker::Model;

/// Slots in the order in which they were filled. A slot is filled once, and then vacant for ever.
#[derive(Debug, Drop)]
pub struct Shelf {
    slots: Vec<Option<Filed>>,
    ids: Buckets,
}

impl Model for Shelf {
    ghost use Rattle.std.specs.Prelude.{List, Option};
    ghost use Rattle.seg_geometry.specs.declared.near.Filed.{Filed};
    ghost use Rattle.near_slots.specs.Slots.{HasIds};

    ghost Value = { List (Option Filed) };

    ghost view = { λ s. s.slots.items };

    ghost invariant = { λ s. HasIds s.ids s.slots.items };
}

impl Shelf {
    /// No slot. Its one error is want of memory.
    pub fn new(alloc: Global) -> Result<Shelf, AllocError>
        ensures { IfOk result (λ s. s ≡ []) }
    {
        Ok(Shelf {
            slots: Vec::new(alloc),
            ids: Buckets::new(alloc, 1)?,
        })
    }

    /// The allocator from which it takes its memory.
    pub fn alloc(&self) -> Global {
        *self.slots.allocator()
    }

    /// The number of slots, which is that of the next one.
    pub fn len(&self) -> usize
        ensures { result ≡ length self.now }
    {
        self.slots.len()
    }

    /// Fills the next slot. After an `Err`, for want of memory, the slots are as before.
    pub fn push(&mut self, filed: Filed) -> Result<(), AllocError>
        ensures { self.new ≡ (if is_ok result then self.old ++ Some filed ∷ [] else self.old) }
    {
        self.ids.put(Spot {
            key: u64::from(filed.id),
            slot: self.slots.len(),
            rect: filed.rect,
        })?;
        self.slots.push(Some(filed))?;
        Ok(())
    }

    /// What is filed in a slot; none also where there is no such slot.
    pub fn at(&self, slot: usize) -> Option<&Filed>
        ensures { option_copied result ≡ slice_index_or self.now slot None }
    {
        match self.slots.get(slot) {
            Some(Some(filed)) => Some(filed),
            _ => None,
        }
    }

    // What is filed in a slot under an id.
    fn under(&self, id: u32, slot: usize) -> Option<Filed>
        ensures at { IfSome result (IsAt self.now slot) }
        ensures of { IfSome result (λ filed. filed.id ≡ id) }
        ensures none { IfNone result (IsFreeOf id self.now slot) }
    {
        let filed = self.at(slot)?;
        if filed.id == id { Some(*filed) } else { None }
    }

    // A slot of an id, where there is one.
    fn find(&self, id: u32) -> Option<(usize, Filed)>
        ensures at { IfSome result (λ t. IsAt self.now t.0 t.1) }
        ensures of { IfSome result (λ t. t.1.id ≡ id) }
        ensures none { IfNone result ((k : ℕ) → IsFreeOf id self.now k) }
    {
        for spot in self.ids.bucket(u64::from(id)) {
            if let Some(filed) = self.under(id, spot.slot) {
                return Some((spot.slot, filed));
            }
        }
        None
    }

    /// Empties one slot of an id and tells its number and what was in it; none where the id has no slot. It takes no
    /// memory.
    pub fn take(&mut self, id: u32) -> Option<(usize, Filed)>
        ensures was { IfSome result (λ t. IsAt self.old t.0 t.1) }
        ensures of { IfSome result (λ t. t.1.id ≡ id) }
        ensures emptied { IfSome result (λ t. self.new ≡ slice_set self.old t.0 None) }
        ensures none { IfNone result ((k : ℕ) → IsFreeOf id self.old k) }
        ensures kept { IfNone result (self.new ≡ self.old) }
    {
        let (slot, filed) = self.find(id)?;
        self.ids.remove(u64::from(id), slot);
        self.slots[slot] = None;
        Some((slot, filed))
    }
}
