//! Lists of rectangles that are asked which of them meet another one.
ghost use Rattle.std.specs.Prelude.{◌≡◌, ◌++◌, [], ◌∷◌, List, IfOk, is_ok, if◌then◌else◌};
ghost use Rattle.seg_geometry.specs.Near.{without, AreNear};
ghost use Rattle.seg_geometry.specs.declared.near.Filed.{Filed};

use crate::points::Ids;
use crate::rectangles::Rect;
use std::alloc::AllocError;

/// A rectangle on a layer, under the id of what it belongs to. Its sides are in nm; it may hold no point.
#[derive(Clone, Copy, Debug, PartialEq, Eq)]
pub struct Filed {
    pub id: u32,
    pub layer: u8,
    pub rect: Rect,
}

/// A list of rectangles with their ids and layers, in the order in which they came.
pub trait Near {
    ghost filed: { Self → List Filed };

    /// Puts a rectangle at the end. An `Err` is want of memory and leaves the list as it was.
    fn insert(&mut self, id: u32, layer: u8, rect: Rect) -> Result<(), AllocError>
        ensures { filed self.new
            ≡ (if is_ok result
            then filed self.old ++ record { id = id; layer = layer; rect = rect } ∷ []
            else filed self.old) };

    /// Takes away all rectangles of an id. It takes no memory.
    fn remove(&mut self, id: u32)
        ensures { filed self.new ≡ without id (filed self.old) };

    /// The ids that have a rectangle on the layer that meets the asked one, sides included, rising, each once. An
    /// `Err` is want of memory.
    fn query(&self, layer: u8, rect: Rect) -> Result<Ids, AllocError>
        ensures { IfOk result (AreNear layer rect (filed self.now)) };
}
