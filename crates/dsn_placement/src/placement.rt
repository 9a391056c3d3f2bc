//! The section that says where the components are.
ghost use Rattle.std.specs.Prelude.{◌≡◌, length, Ok, Err, IfOk, IfErr};
ghost use Rattle.sexp_text.specs.Trees.{tree_forest};
ghost use Rattle.dsn_lists.specs.declared.faults.DesignFault.{DesignFault};
ghost use Rattle.dsn_lists.specs.Results.{Gives};
ghost use Rattle.dsn_structure.specs.Limits.{IsFitStructure};
ghost use Rattle.dsn_placement.specs.Components.{placement_of};
ghost use Rattle.dsn_library.specs.Limits.{IsFitLibrary};
ghost use Rattle.dsn_placement.specs.PlaceLimits.{IsFitPlacement};
ghost use Rattle.dsn_placement.specs.PlacementMeaning.{HasPlacement, PlacementFault, WhyNot};

use crate::place_lists::placement_at;
use area_geometry::Shapes;
use board_items::KeepKind;
use dsn_library::Library;
use dsn_lists::{NameSet, ReadWhy, Section, section_of, title_of};
use dsn_shapes::Quota;
use dsn_structure::Structure;
use dsn_turns::Wide;
use row_lists::Row;
use sexp_text::Tree;
use std::alloc::Global;

/// A pad or a keepout of a placed component, at its place on the board, in nm.
#[derive(Debug, Drop)]
pub enum PlacedPart {
    /// A pad of the pin of this number among those of the component's image. The pin lies at `at`, which may be out of
    /// range where its shapes are not.
    Pad {
        component: usize,
        pin: usize,
        at: Wide,
        shapes: Shapes,
    },
    Keep {
        kind: KeepKind,
        shapes: Shapes,
    },
}

/// The components of a design.
#[derive(Debug, Drop)]
pub struct Placement {
    /// The names of the components, placed or unplaced, numbered from 0 in the order of the text.
    pub components: NameSet,
    /// The number of each component's image.
    pub images: Row<usize>,
    /// The pads and keepouts of the placed components, place by place in the order of the text.
    pub parts: Row<PlacedPart>,
    /// How many items and points may come behind these.
    pub quota: Quota,
}

#[tactic(auto, unfolding(crate::specs::Components::placement_of))]
fn section(
    alloc: Global,
    tree: &Tree,
    structure: &Structure,
    library: &Library,
) -> Result<Placement, ReadWhy>
    requires { IsFitStructure structure.now }
    ensures { Gives (λ x. x) result (placement_of (tree_forest tree.now) structure.now library.now) }
{
    let title = title_of(alloc, tree)?;
    let place = section_of(tree, Section::Placement);
    placement_at(alloc, title.unit, structure, library, place)
}

/// The components of a design, or the first fault of the design itself or of the section. The structure and the library
/// are the design's.
pub fn read_placement(
    alloc: Global,
    tree: &Tree,
    structure: &Structure,
    library: &Library,
) -> Result<Placement, ReadWhy>
    requires structure { IsFitStructure structure.now }
    requires library { IsFitLibrary (length structure.now.layers) library.now }
    ensures read { Gives (λ x. x) result (placement_of (tree_forest tree.now) structure.now library.now) }
    // What is read is the placement of the design, and a design that has one is read.
    ensures found { IfOk result (HasPlacement (tree_forest tree.now) structure.now library.now) }
    ensures only { (p : Placement) → HasPlacement (tree_forest tree.now) structure.now library.now p → Gives (λ x. x) result (Ok p) }
    // What is told is the first fault, and the first fault is told.
    ensures fault { IfErr result (WhyNot (tree_forest tree.now) structure.now library.now) }
    ensures first { (e : DesignFault) → PlacementFault (tree_forest tree.now) structure.now library.now e → Gives (λ x. x) result (Err e) }
    // What is read is within the limits.
    ensures fit { IfOk result (IsFitPlacement (length structure.now.layers) structure.now.quota) }
{
    section(alloc, tree, structure, library)
}
