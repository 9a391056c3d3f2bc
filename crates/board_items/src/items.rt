//! The copper that lies on a board.

use area_geometry::Shapes;
use layout_io::Name;
use row_lists::Row;
use seg_geometry::{Points, Pt};

/// The number of an item, from 1. It is never used again.
#[derive(Clone, Copy, Debug, PartialEq, Eq)]
pub struct ItemId(pub u32);

/// What a keepout bars.
#[derive(Clone, Copy, Debug, PartialEq, Eq)]
pub enum KeepKind {
    /// Wires and vias.
    All,
    /// Vias alone.
    Vias,
    /// Wires alone.
    Wires,
}

/// An item of a board. Nets, layers and padstacks are numbered from 0 in the design's order, widths and places
/// are in nm.
#[derive(Debug, Drop)]
pub enum Item {
    /// A path with round ends through its points. A fixed one can't be deleted.
    Wire {
        net: u32,
        layer: u8,
        width: u32,
        points: Points,
        fix: bool,
    },
    /// The shapes of a padstack, moved to a place. A fixed one can't be deleted.
    Via {
        net: u32,
        padstack: u32,
        at: Pt,
        fix: bool,
    },
    /// A pin of a component, at its place on the board. It is fixed.
    Pad {
        net: Option<u32>,
        shapes: Shapes,
    },
    /// Room that copper of some kinds has to keep out of. It is fixed.
    Keep {
        kind: KeepKind,
        shapes: Shapes,
    },
}

/// Items in the order of their numbers.
pub type Items = Row<Item>;

/// The shapes of a via or a pin under their name, around the place 0 0.
#[derive(Debug, Drop)]
pub struct Padstack {
    pub name: Name,
    pub shapes: Shapes,
}

/// Padstacks in the design's order.
pub type Stacks = Row<Padstack>;
