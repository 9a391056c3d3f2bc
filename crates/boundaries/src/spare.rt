//! Room for one boundary.
ghost use Rattle.std.specs.Prelude.{◌≡◌, ◌≤◌, ◌↔◌, IsTrue, IfOk, length, Some};
ghost use Rattle.boundaries.specs.Boundaries.{Space, Fits};

use board_items::Layers;
use row_lists::Row;
use seg_geometry::{Points, Pt};
use std::alloc::{AllocError, Global};
use std::marker::Model;

/// Room for the layers and the points of one boundary, seen by contracts as how many it takes.
#[derive(Drop)]
pub struct Spare {
    layers: Vec<u8>,
    area: Vec<Pt>,
}

impl Model for Spare {
    ghost use Rattle.std.specs.Prelude.{◌≡◌, []};
    ghost use Rattle.std.specs.Vec.{vec_len, vec_capacity};
    ghost use Rattle.boundaries.specs.Boundaries.{Space};

    ghost Value = { Space };

    ghost view = { λ s. record { layers = vec_capacity s.layers; points = vec_capacity s.area } };

    ghost invariant = { λ s. (vec_len s.layers ≡ 0) × (vec_len s.area ≡ 0) × (s.layers.items ≡ []) × (s.area.items ≡ []) };
}

impl Spare {
    /// Room for so many layers and points.
    pub fn new(alloc: Global, layers: usize, points: usize) -> Result<Spare, AllocError>
        ensures layers { IfOk result (λ s. layers ≤ s.layers) }
        ensures points { IfOk result (λ s. points ≤ s.points) }
    {
        Ok(Spare {
            layers: Vec::with_capacity(alloc, layers)?,
            area: Vec::with_capacity(alloc, points)?,
        })
    }

    /// Whether it is room for so many layers and points.
    pub fn fits(&self, layers: usize, points: usize) -> bool
        ensures { IsTrue result ↔ ((layers ≤ self.now.layers) × (points ≤ self.now.points)) }
    {
        layers <= self.layers.capacity() && points <= self.area.capacity()
    }

    /// The room, filled with layers and points.
    pub fn filled(self, layers: &[u8], area: &[Pt]) -> (Layers, Points)
        requires { Fits (Some self) layers.now area.now }
        ensures layers { result.0 ≡ layers.now }
        ensures area { result.1 ≡ area.now }
    {
        let mut own_layers = self.layers;
        let mut own_area = self.area;
        own_layers.extend_from_slice(layers).unwrap();
        own_area.extend_from_slice(area).unwrap();
        (Row::from_vec(own_layers), Row::from_vec(own_area))
    }
}
