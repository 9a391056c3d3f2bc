//! A boundary that is live, under its number.
ghost use Rattle.std.specs.Prelude.{◌≡◌, ◌≤◌, ◌+◌, ◌<◌, ◌^◌, ◌↔◌, IsTrue, All, length};
ghost use Rattle.seg_geometry.specs.Rectangles.{IsLeastGrown};
ghost use Rattle.area_geometry.specs.Copper.{IsWithinLimits};
ghost use Rattle.board_items.specs.Adds.{item_seen};
ghost use Rattle.board_items.specs.Shapes.{copper_of_item};
ghost use Rattle.boundaries.specs.Boundaries.{Boundary, IsFitArea, boundary_of, entitling, IsEntitled};
ghost use Rattle.boundaries.specs.Touching.{TouchesBoundary, Overlaps};
ghost use Rattle.boundaries.specs.Costs.{above_most, boundary_most, overlap_most};

use crate::clients::ClientSet;
use crate::touching::{area_near, share_layer, touches_area};
use board_items::{ItemView, Layers, Stacks};
use seg_geometry::{Points, Pt, Rect, Steps, rect_of};
use std::marker::Model;
use std::sync::ledger::Ledger;

/// A boundary, seen by contracts as its number and what it is.
#[derive(Drop)]
pub struct Live {
    number: u32,
    owner: u8,
    layers: Layers,
    area: Points,
    // The least rectangle round the area.
    frame: Rect,
    clients: ClientSet,
}

impl Model for Live {
    ghost use Rattle.std.specs.Prelude.{ℕ};
    ghost use Rattle.seg_geometry.specs.Rectangles.{IsLeastGrown};
    ghost use Rattle.boundaries.specs.Boundaries.{Boundary, IsFitArea};

    ghost Value = { ℕ × Boundary };

    ghost view = { λ f. (f.number, record { owner = f.owner; layers = f.layers; area = f.area; clients = f.clients }) };

    ghost invariant = { λ f. IsFitArea f.area × IsLeastGrown f.frame f.area 0 };
}

impl Live {
    /// A new boundary.
    pub fn new(number: u32, owner: u8, layers: Layers, area: Points, clients: &[u8]) -> Live
        requires { IsFitArea area }
        ensures { result ≡ (number, boundary_of owner layers area clients.now) }
    {
        let frame = rect_of(area.as_slice(), 0);
        Live {
            number,
            owner,
            layers,
            area,
            frame,
            clients: ClientSet::of(clients),
        }
    }

    /// Its number.
    pub fn number(&self) -> u32
        ensures { result ≡ self.now.0 }
    {
        self.number
    }

    /// The client that drew it.
    pub fn owner(&self) -> u8
        ensures { result ≡ self.now.1.owner }
    {
        self.owner
    }

    /// Entitles one more client.
    pub fn entitle(&mut self, client: u8)
        ensures { self.new ≡ (self.old.0, entitling client self.old.1) }
    {
        self.clients.add(client);
    }

    /// Whether a client is entitled: the owner always is.
    pub fn entitles(&self, client: u8) -> bool
        ensures { IsTrue result ↔ IsEntitled self.now.1 client }
    {
        self.owner == client || self.clients.contains(client)
    }

    /// Whether an item touches the boundary.
    pub fn is_touched<L: Ledger>(
        &self,
        item: ItemView<'_>,
        stacks: &Stacks,
        steps: &mut Steps<L>,
    ) -> bool
        requires item_in { All IsWithinLimits (copper_of_item stacks.now (item_seen item)) }
        requires item_few { length (copper_of_item stacks.now (item_seen item)) < 2 ^ 32 }
        ensures touches { IsTrue result ↔ TouchesBoundary (copper_of_item stacks.now (item_seen item.entry)) self.now.1 }
        ensures cost { steps.new ≤ steps.old + boundary_most (copper_of_item stacks.now (item_seen item.entry)) self.now.1 }
    {
        touches_area(
            item,
            stacks,
            self.layers.as_slice(),
            self.area.as_slice(),
            self.frame,
            steps,
        )
    }

    /// Whether an area on some layers has one in common with the boundary, and isn't apart by 1 nm from its area. The
    /// area's least rectangle, moved out by 1 nm, is `own`.
    pub fn overlaps<L: Ledger>(
        &self,
        layers: &[u8],
        area: &[Pt],
        own: Rect,
        steps: &mut Steps<L>,
    ) -> bool
        requires area_fits { IsFitArea area.now }
        requires own { IsLeastGrown own area.now 1 }
        ensures overlaps { IsTrue result ↔ Overlaps layers.now area.now self.now.1 }
        ensures cost { steps.new ≤ steps.old + overlap_most layers.now area.now self.now.1 }
    {
        share_layer(layers, self.layers.as_slice())
            && area_near(area, own, self.area.as_slice(), self.frame, steps)
    }

    /// Whether the number is greater than `above`, an item touches the boundary, and the client isn't entitled in it. It
    /// takes steps for a number above alone.
    pub fn bars<L: Ledger>(
        &self,
        item: ItemView<'_>,
        stacks: &Stacks,
        client: u8,
        above: u32,
        steps: &mut Steps<L>,
    ) -> bool
        requires item_in { All IsWithinLimits (copper_of_item stacks.now (item_seen item)) }
        requires item_few { length (copper_of_item stacks.now (item_seen item)) < 2 ^ 32 }
        ensures past { IsTrue result → above < self.now.0 }
        ensures foreign { IsTrue result → IsEntitled self.now.1 client → ⊥ }
        ensures touched { IsTrue result → TouchesBoundary (copper_of_item stacks.now (item_seen item.entry)) self.now.1 }
        ensures all { above < self.now.0 → (IsEntitled self.now.1 client → ⊥) → TouchesBoundary (copper_of_item stacks.now (item_seen item.entry)) self.now.1 → IsTrue result }
        ensures cost { steps.new ≤ steps.old + above_most (boundary_most (copper_of_item stacks.now (item_seen item.entry))) above self.now }
    {
        if self.number <= above {
            return false;
        }
        if self.entitles(client) {
            return false;
        }
        self.is_touched(item, stacks, steps)
    }

    /// Whether an area on some layers overlaps the boundary, and the client isn't entitled in it. The area's least
    /// rectangle, moved out by 1 nm, is `own`.
    pub fn is_overlapped<L: Ledger>(
        &self,
        layers: &[u8],
        area: &[Pt],
        own: Rect,
        client: u8,
        steps: &mut Steps<L>,
    ) -> bool
        requires area_fits { IsFitArea area.now }
        requires own { IsLeastGrown own area.now 1 }
        ensures overlapped { IsTrue result ↔ ((IsEntitled self.now.1 client → ⊥) × Overlaps layers.now area.now self.now.1) }
        ensures cost { steps.new ≤ steps.old + overlap_most layers.now area.now self.now.1 }
    {
        if self.entitles(client) {
            return false;
        }
        self.overlaps(layers, area, own, steps)
    }
}
