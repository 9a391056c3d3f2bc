//! What the sections of a design state of its items that the design itself doesn't keep.
ghost use Rattle.std.specs.Prelude.{IfOk};
ghost use Rattle.sexp_text.specs.Trees.{tree_forest};
ghost use Rattle.board_numbers.specs.Numbers.{HasOrigins};

use dsn_library::Library;
use dsn_lists::ReadWhy;
use dsn_placement::Placement;
use dsn_reader::{read_library, read_placement, read_structure};
use sexp_text::Tree;
use std::alloc::Global;

/// Where the loaded items of a design come from.
#[derive(Debug, Drop)]
pub struct Origins {
    /// How many keepouts the structure has; they are the first items.
    pub keeps: usize,
    /// The padstacks, and the images with the ids of their pins.
    pub library: Library,
    /// The components, and their pads and keepouts, which are the items behind the structure's.
    pub placement: Placement,
}

/// The origins of a design's items, or the first fault of one of the sections that state them.
pub fn origins_of(alloc: Global, tree: &Tree) -> Result<Origins, ReadWhy>
    ensures { IfOk result (HasOrigins (tree_forest tree.now)) }
{
    let structure = read_structure(alloc, tree)?;
    let library = read_library(alloc, tree, &structure)?;
    let placement = read_placement(alloc, tree, &structure, &library)?;
    Ok(Origins {
        keeps: structure.keeps.len(),
        library,
        placement,
    })
}
