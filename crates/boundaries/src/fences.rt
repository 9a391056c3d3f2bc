//! The live boundaries.
ghost use Rattle.std.specs.Prelude.{◌≡◌, ◌≤◌, ◌+◌, ◌*◌, ◌++◌, ◌∷◌, [], ◌<◌, ◌^◌, ◌↔◌, ℕ, true, IsTrue, length, slice_get, Some, IfSome, IfNone, IfOk, OnOk, All};
ghost use Rattle.std.specs.List.Sorted.{IsStrictlyIncreasing};
ghost use Rattle.number_slots.specs.Leasts.{IsLeast};
ghost use Rattle.number_slots.specs.Slots.{is_among, without, IsAt, IsRisingFrom};
ghost use Rattle.seg_geometry.specs.Points.{IsInRange};
ghost use Rattle.area_geometry.specs.Copper.{IsWithinLimits};
ghost use Rattle.board_items.specs.Adds.{item_seen};
ghost use Rattle.board_items.specs.Shapes.{copper_of_item};
ghost use Rattle.boundaries.specs.Boundaries.{Boundary, Fencing, IsSameFencing, HasRoomFor, boundary_of, fence_made, entitled_at, IsEntitledAt, IsOwner, IsFitArea};
ghost use Rattle.boundaries.specs.Touching.{IsForeign, IsOverlapped, IsTouched};
ghost use Rattle.boundaries.specs.Costs.{boundary_most, overlap_most, fences_most};

use crate::live::Live;
use crate::spare::Spare;
use crate::walks::{least_foreign, least_overlapped, live_at, place_of, touched_by};
use board_items::{Clients, ItemView, Layers, Stacks};
use seg_geometry::{Ids, Points, Steps};
use std::alloc::{AllocError, Global};
use std::marker::Model;
use std::sync::ledger::Ledger;

/// The live boundaries, in the order of their numbers. A number is given once, from 1 on.
#[derive(Drop)]
pub struct Fences {
    live: Vec<Live>,
    last: u32,
    spare: Option<Spare>,
}

impl Model for Fences {
    ghost use Rattle.std.specs.Prelude.{◌<◌};
    ghost use Rattle.std.specs.Vec.{vec_len, vec_capacity};
    ghost use Rattle.boundaries.specs.Boundaries.{Fencing};
    ghost use Rattle.boundaries.specs.Marks.{AreLive, HasPlace};

    ghost Value = { Fencing };

    ghost view = { λ f. record { fences = f.live.items; last = f.last; room = f.spare } };

    ghost invariant = { λ f. AreLive f.live.items f.last × HasPlace f.spare (vec_len f.live) (vec_capacity f.live) };
}

impl Fences {
    /// No boundaries, and no room. It takes no memory.
    pub fn new(alloc: Global) -> Fences
        ensures none { result.fences ≡ [] }
        ensures last { result.last ≡ 0 }
    {
        Fences {
            live: Vec::new(alloc),
            last: 0,
            spare: None,
        }
    }

    /// Makes room for one boundary of this area and these layers. After an `Err`, for want of memory, all is as before.
    pub fn make_room(&mut self, area: &Points, layers: &Layers) -> Result<(), AllocError>
        ensures same { IsSameFencing self.old self.new }
        ensures room { OnOk result (HasRoomFor self.new layers.now area.now) }
    {
        let spare = Spare::new(*self.live.allocator(), layers.len(), area.len())?;
        self.live.reserve(1)?;
        self.spare = Some(spare);
        Ok(())
    }

    /// Whether there is room for a boundary of this area and these layers.
    pub fn has_room(&self, area: &Points, layers: &Layers) -> bool
        ensures { IsTrue result ↔ HasRoomFor self.now layers.now area.now }
    {
        match &self.spare {
            None => false,
            Some(spare) => spare.fits(layers.len(), area.len()),
        }
    }

    /// Draws a boundary, whose number it answers. An area of fewer than 3 points takes its number and makes none.
    pub fn fence(&mut self, owner: u8, layers: &Layers, area: &Points, clients: &Clients) -> u32
        requires room { HasRoomFor self.old layers.now area.now }
        requires in_range { All IsInRange area.now }
        requires few { self.old.last + 1 < 2 ^ 32 }
        ensures number { result ≡ self.old.last + 1 }
        ensures made { self.new.fences ≡ self.old.fences ++ fence_made (self.old.last + 1) (boundary_of owner layers.now area.now clients.now) }
        ensures last { self.new.last ≡ self.old.last + 1 }
    {
        self.last += 1;
        let spare = self.spare.take().unwrap();
        if area.len() < 3 {
            return self.last;
        }
        let (layers, area) = spare.filled(layers.as_slice(), area.as_slice());
        self.live.push_reserved(Live::new(self.last, owner, layers, area, clients.as_slice()));
        self.last
    }

    /// Takes the boundary of a number away, where there is one.
    pub fn unfence(&mut self, fence: u32)
        ensures left { self.new.fences ≡ without (fence ∷ []) self.old.fences }
        ensures last { self.new.last ≡ self.old.last }
    {
        if let Some(i) = place_of(self.live.as_slice(), fence) {
            self.live.remove(i);
        }
    }

    /// Entitles one more client in the boundary of a number, where there is one.
    pub fn entitle(&mut self, fence: u32, client: u8)
        ensures entitled { self.new.fences ≡ entitled_at fence client self.old.fences }
        ensures last { self.new.last ≡ self.old.last }
    {
        if let Some(i) = place_of(self.live.as_slice(), fence) {
            self.live[i].entitle(client);
        }
    }

    /// The client that drew the live boundary of a number.
    pub fn owner(&self, fence: u32) -> Option<u8>
        ensures some { IfSome result (IsOwner self.now.fences fence) }
        ensures only { IfSome result (λ owner. (b : Boundary) → IsAt self.now.fences fence b → b.owner ≡ owner) }
        ensures none { IfNone result ((b : Boundary) → IsAt self.now.fences fence b → ⊥) }
    {
        let fence = live_at(self.live.as_slice(), fence)?;
        Some(fence.owner())
    }

    /// Whether there is a live boundary of this number in which the client is entitled. Its owner always is.
    pub fn entitled(&self, fence: u32, client: u8) -> bool
        ensures { IsTrue result ↔ IsEntitledAt self.now.fences fence client }
    {
        match live_at(self.live.as_slice(), fence) {
            None => false,
            Some(fence) => fence.entitles(client),
        }
    }

    /// The number that was given last, 0 at first.
    pub fn last(&self) -> u32
        ensures last { result ≡ self.now.last }
        ensures within { (n : ℕ) (b : Boundary) → IsAt self.now.fences n b → (0 < n) × (n ≤ result) }
        ensures rising { IsRisingFrom 1 self.now.fences }
    {
        self.last
    }

    /// How many boundaries are live.
    pub fn count(&self) -> u32
        ensures { result ≡ length self.now.fences }
    {
        self.live.as_slice().len() as u32
    }

    /// The number of the `i`-th live boundary, from 0.
    pub fn number_at(&self, i: u32) -> Option<u32>
        ensures some { IfSome result (λ n. (b : Boundary) × (slice_get self.now.fences i ≡ Some (n, b))) }
        ensures none { IfNone result (length self.now.fences ≤ i) }
    {
        let live = self.live.as_slice();
        let i = i as usize;
        if live.len() <= i {
            return None;
        }
        Some(live[i].number())
    }

    /// The live boundaries that an item touches, rising. Its one error is want of memory.
    pub fn touched_by<L: Ledger>(
        &self,
        item: ItemView<'_>,
        stacks: &Stacks,
        steps: &mut Steps<L>,
    ) -> Result<Ids, AllocError>
        requires item_in { All IsWithinLimits (copper_of_item stacks.now (item_seen item)) }
        requires item_few { length (copper_of_item stacks.now (item_seen item)) < 2 ^ 32 }
        ensures exact { IfOk result (λ ids. (n : ℕ) → (is_among n ids ≡ true) ↔ IsTouched self.now.fences (copper_of_item stacks.now (item_seen item.entry)) n) }
        ensures rising { IfOk result IsStrictlyIncreasing }
        ensures cost { steps.new ≤ steps.old + fences_most (boundary_most (copper_of_item stacks.now (item_seen item.entry))) 0 self.now.fences }
    {
        touched_by(
            *self.live.allocator(),
            self.live.as_slice(),
            item,
            stacks,
            steps,
        )
    }

    /// The least live boundary with a number greater than `above` that an item touches and in which the client isn't
    /// entitled. It takes steps for boundaries greater than `above` alone.
    pub fn least_foreign<L: Ledger>(
        &self,
        item: ItemView<'_>,
        stacks: &Stacks,
        client: u8,
        above: u32,
        steps: &mut Steps<L>,
    ) -> Option<u32>
        requires item_in { All IsWithinLimits (copper_of_item stacks.now (item_seen item)) }
        requires item_few { length (copper_of_item stacks.now (item_seen item)) < 2 ^ 32 }
        ensures least { IsLeast (IsForeign self.now.fences (copper_of_item stacks.now (item_seen item.entry)) client above) result }
        ensures cost { steps.new ≤ steps.old + fences_most (boundary_most (copper_of_item stacks.now (item_seen item.entry))) above self.now.fences }
    {
        least_foreign(self.live.as_slice(), item, stacks, client, above, steps)
    }

    /// The least live boundary that has one of these layers, isn't apart by 1 nm from the area, and doesn't entitle the
    /// client.
    pub fn overlap<L: Ledger>(
        &self,
        layers: &Layers,
        area: &Points,
        client: u8,
        steps: &mut Steps<L>,
    ) -> Option<u32>
        requires { IsFitArea area.now }
        ensures least { IsLeast (IsOverlapped self.now.fences layers.now area.now client) result }
        ensures cost { steps.new ≤ steps.old + fences_most (overlap_most layers.now area.now) 0 self.now.fences }
    {
        least_overlapped(
            self.live.as_slice(),
            layers.as_slice(),
            area.as_slice(),
            client,
            steps,
        )
    }
}
