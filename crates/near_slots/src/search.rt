//! A search of slots for what is near a rectangle.
ghost use Rattle.std.specs.Prelude.{◌≡◌, ◌↔◌, ℕ, IsTrue, OnOk};
ghost use Rattle.std.specs.List.{Contains};
ghost use Rattle.std.specs.List.Sorted.{IsStrictlyIncreasing};
ghost use Rattle.seg_geometry.specs.Near.{IsNear};
ghost use Rattle.near_slots.specs.Tables.{IsIn};
ghost use Rattle.near_slots.specs.Looks.{Adds};

use crate::buckets::{Buckets, Spot};
use crate::shelf::Shelf;
use seg_geometry::{Filed, Ids, Rect, rect_meets};
use std::alloc::AllocError;

/// What is sought: all that is filed on a layer and meets a rectangle, sides included.
#[derive(Clone, Copy)]
pub struct Search<'a> {
    pub shelf: &'a Shelf,
    pub layer: u8,
    pub rect: Rect,
}

// Whether it is filed on the layer, and meets the rectangle.
fn is_near(layer: u8, rect: Rect, filed: &Filed) -> bool
    ensures { IsTrue result ↔ IsNear layer rect filed.now }
{
    filed.layer == layer && rect_meets(filed.rect, rect)
}

impl Search<'_> {
    // Adds the id of what is in a spot's slot, where it is near. An `Err` is want of memory.
    fn look_at(&self, spot: &Spot, found: &mut Vec<u32>) -> Result<(), AllocError>
        ensures { OnOk result (Adds self.now (λ s. s ≡ spot.now) found.old.items found.new.items) }
    {
        // Most spots are passed over here, without a look at their slots, which lie elsewhere in memory.
        if !rect_meets(spot.rect, self.rect) {
            return Ok(());
        }
        let Some(filed) = self.shelf.at(spot.slot) else {
            return Ok(());
        };
        if !is_near(self.layer, self.rect, filed) {
            return Ok(());
        }
        found.push(filed.id)?;
        Ok(())
    }

    /// Adds the ids of what is near in the slots of these spots, in any order and maybe more than once. An `Err` is
    /// want of memory.
    pub fn look_in(&self, spots: &[Spot], found: &mut Vec<u32>) -> Result<(), AllocError>
        ensures { OnOk result (Adds self.now (Contains spots.now) found.old.items found.new.items) }
    {
        for spot in spots {
            self.look_at(spot, found)?;
        }
        Ok(())
    }

    /// Adds the ids of what is near in the slots of all spots of a table. An `Err` is want of memory.
    pub fn look_through(&self, table: &Buckets, found: &mut Vec<u32>) -> Result<(), AllocError>
        ensures { OnOk result (Adds self.now (IsIn table.now) found.old.items found.new.items) }
    {
        for bucket in table.all() {
            self.look_in(bucket.spots(), found)?;
        }
        Ok(())
    }
}

/// The same ids, rising, each once.
pub fn rising(mut ids: Vec<u32>) -> Ids
    ensures same { (id : ℕ) → Contains result id ↔ Contains ids.items id }
    ensures rising { IsStrictlyIncreasing result }
{
    ids.sort_unstable();
    ids.dedup();
    Ids::from_vec(ids)
}
