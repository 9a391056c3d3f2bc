//! The plainest list of rectangles: a query looks at all of it.
ghost use Rattle.std.specs.Prelude.{◌≡◌, ◌↔◌, ◌⊎◌, ℕ, [], IsTrue, IfOk, OnOk};
ghost use Rattle.std.specs.List.{Contains, Any};
ghost use Rattle.seg_geometry.specs.Near.{IsNear};

use near_slots::rising;
use seg_geometry::{Filed, Ids, Near, Rect, rect_meets};
use std::alloc::{AllocError, Global};
use std::marker::Model;

/// A list of rectangles.
#[derive(Debug, Drop)]
pub struct Scan {
    list: Vec<Filed>,
}

impl Model for Scan {
    ghost use Rattle.std.specs.Prelude.{List};
    ghost use Rattle.seg_geometry.specs.declared.near.Filed.{Filed};

    ghost Value = { List Filed };

    ghost view = { λ s. s.list.items };
}

// Whether it is filed on the layer, and meets the rectangle.
fn is_near(layer: u8, rect: Rect, filed: &Filed) -> bool
    ensures { IsTrue result ↔ IsNear layer rect filed.now }
{
    filed.layer == layer && rect_meets(filed.rect, rect)
}

// Adds the id of what is near.
fn add_near(layer: u8, rect: Rect, filed: &Filed, ids: &mut Vec<u32>) -> Result<(), AllocError>
    ensures { OnOk result ((id : ℕ) → Contains ids.new.items id
        ↔ (Contains ids.old.items id ⊎ ((filed.now.id ≡ id) × IsNear layer rect filed.now))) }
{
    if !is_near(layer, rect, filed) {
        return Ok(());
    }
    ids.push(filed.id)?;
    Ok(())
}

impl Scan {
    /// An empty list.
    pub fn new(alloc: Global) -> Scan
        ensures { result ≡ [] }
    {
        Scan {
            list: Vec::new(alloc),
        }
    }

    // The ids under which something near is filed, in any order and maybe more than once.
    fn found(&self, layer: u8, rect: Rect) -> Result<Vec<u32>, AllocError>
        ensures { IfOk result (λ ids. (id : ℕ) →
            Contains ids.items id ↔ Any (λ f. (f.id ≡ id) × IsNear layer rect f) self.now) }
    {
        let mut ids = Vec::new(*self.list.allocator());
        for filed in &self.list {
            add_near(layer, rect, filed, &mut ids)?;
        }
        Ok(ids)
    }
}

impl Near for Scan {
    ghost filed = { λ s. s };

    fn insert(&mut self, id: u32, layer: u8, rect: Rect) -> Result<(), AllocError> {
        self.list.push(Filed { id, layer, rect })?;
        Ok(())
    }

    fn remove(&mut self, id: u32) {
        self.list.retain(|filed| filed.id != id);
    }

    fn query(&self, layer: u8, rect: Rect) -> Result<Ids, AllocError> {
        Ok(rising(self.found(layer, rect)?))
    }
}
