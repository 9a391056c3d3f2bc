//! The section that says what padstacks and images there are.
ghost use Rattle.std.specs.Prelude.{◌≡◌, ◌≤◌, false, length, IfOk, IfErr, OnOk, Ok, Err};
ghost use Rattle.row_lists.specs.Limits.{layer_limit};
ghost use Rattle.dsn_structure.specs.Limits.{IsFitStructure};
ghost use Rattle.sexp_text.specs.Shows.{forest};
ghost use Rattle.sexp_text.specs.Trees.{tree_forest};
ghost use Rattle.dsn_lists.specs.Results.{Gives, each};
ghost use Rattle.dsn_lists.specs.Names.{is_among};
ghost use Rattle.dsn_lists.specs.Pcbs.{spotted};
ghost use Rattle.dsn_library.specs.LibraryMeaning.{HasLibrary, LibraryFault, WhyNot};
ghost use Rattle.dsn_library.specs.Limits.{IsFitLibrary};
ghost use Rattle.dsn_library.specs.Libraries.{library_word, with_stack, with_image, all_stacks, library_item, no_library, library_at, library_of};

use crate::image_lists::image_at;
use crate::images::{Image, Images};
use crate::stacks::stack_at;
use board_items::{Padstack, Stacks};
use dsn_lists::{
    DesignFault, DesignKind, NameSet, Place, ReadWhy, Section, is_word, next_list, opening,
    refused, section_of, title_of, unit_at, unit_for,
};
use dsn_shapes::names_ahead;
use dsn_structure::Structure;
use row_lists::Row;
use sexp_text::{Cursor, Tree, Unit};
use std::alloc::{AllocError, Global};

/// The library of a design.
#[derive(Debug, Drop)]
pub struct Library {
    /// The names of the padstacks, numbered from 0 in the order of the text.
    pub names: NameSet,
    /// The padstacks, at most 65,535, in the same order.
    pub stacks: Stacks,
    /// The names of the images, numbered from 0 in the order of the text.
    pub image_names: NameSet,
    /// The images in the same order.
    pub images: Images,
}

// What a list of the section is.
#[derive(Clone, Copy, Debug)]
enum LibraryWord {
    Stack,
    Image,
    Unit,
    Resolution,
    Other,
}

#[tactic(auto, unfolding(crate::specs::Libraries::library_word))]
fn library_word(text: &[u8]) -> LibraryWord
    ensures { result ≡ library_word text.now }
{
    if is_word(text, b"padstack") {
        return LibraryWord::Stack;
    }
    if is_word(text, b"image") {
        return LibraryWord::Image;
    }
    if is_word(text, b"unit") {
        return LibraryWord::Unit;
    }
    if is_word(text, b"resolution") {
        return LibraryWord::Resolution;
    }
    LibraryWord::Other
}

fn put_stack(library: &mut Library, stack: Padstack) -> Result<(), AllocError>
    requires { is_among stack.name library.old.names ≡ false }
    ensures { OnOk result (library.new ≡ with_stack library.old stack) }
{
    library.names.add(stack.name.as_slice())?;
    library.stacks.push(stack)
}

fn put_image(library: &mut Library, name: &[u8], image: Image) -> Result<(), AllocError>
    requires { is_among name.now library.old.image_names ≡ false }
    ensures { OnOk result (library.new ≡ with_image library.old name.now image) }
{
    library.image_names.add(name)?;
    library.images.push(image)
}

#[tactic(auto, unfolding(crate::specs::Libraries::library_item))]
fn read_list(
    alloc: Global,
    unit: Unit,
    layers: &NameSet,
    stacks: &NameSet,
    library: &mut Library,
    at: u32,
    inside: Cursor<'_>,
) -> Result<(), ReadWhy>
    ensures { Gives (λ _. library.new) result (library_item unit layers.now stacks.now library.old at (forest inside.entry)) }
{
    let head = opening(inside);
    match library_word(head.text) {
        LibraryWord::Stack => {
            let stack = stack_at(alloc, unit, layers, &library.names, at, head.args)?;
            Ok(put_stack(library, stack)?)
        }
        LibraryWord::Image => {
            let names = &library.image_names;
            let (name, image) = image_at(alloc, unit, layers, stacks, names, at, head.args)?;
            Ok(put_image(library, name, image)?)
        }
        LibraryWord::Unit => {
            unit_at(at, head.args)?;
            Ok(())
        }
        LibraryWord::Resolution => Err(refused(DesignKind::Unit, head.at)),
        LibraryWord::Other => Ok(()),
    }
}

#[tactic(auto, unfolding(dsn_lists::specs::Results::each))]
fn read_lists(
    alloc: Global,
    unit: Unit,
    layers: &NameSet,
    stacks: &NameSet,
    library: &mut Library,
    list: Cursor<'_>,
) -> Result<(), ReadWhy>
    ensures { Gives (λ _. library.new) result (each (library_item unit layers.now stacks.now) library.old (forest list.entry)) }
{
    let mut rest = list;
    'lists: while let Some((at, inside, after)) = next_list(rest)? {
        read_list(alloc, unit, layers, stacks, library, at, inside)?;
        rest = after;
    }
    Ok(())
}

fn empty_library(alloc: Global) -> Library
    ensures { result ≡ no_library }
{
    Library {
        names: NameSet::new(alloc),
        stacks: Row::new(alloc),
        image_names: NameSet::new(alloc),
        images: Row::new(alloc),
    }
}

#[tactic(auto, unfolding(crate::specs::Libraries::library_at))]
fn library_at(
    alloc: Global,
    unit: Unit,
    layers: &NameSet,
    place: Place<'_>,
) -> Result<Library, ReadWhy>
    ensures { Gives (λ x. x) result (library_at unit layers.now (spotted place.entry)) }
{
    let unit = unit_for(unit, place.args);
    let stacks = names_ahead(alloc, b"padstack", place.args)?;
    let mut library = empty_library(alloc);
    read_lists(alloc, unit, layers, &stacks, &mut library, place.args)?;
    Ok(library)
}

/// The library of a design, or the first fault of the design itself or of the section. The structure is the design's.
#[tactic(auto, using(crate::proofs::LibraryFits::library_if_given))]
pub fn read_library(alloc: Global, tree: &Tree, structure: &Structure) -> Result<Library, ReadWhy>
    requires { IsFitStructure structure.now }
    ensures read { Gives (λ x. x) result (library_of (tree_forest tree.now) structure.now.layers) }
    // What is read is the library of the design, and a design that has one is read.
    ensures found { IfOk result (HasLibrary (tree_forest tree.now) structure.now.layers) }
    ensures only { (l : Library) → HasLibrary (tree_forest tree.now) structure.now.layers l → Gives (λ x. x) result (Ok l) }
    // What is told is the first fault, and the first fault is told.
    ensures fault { IfErr result (WhyNot (tree_forest tree.now) structure.now.layers) }
    ensures first { (e : DesignFault) → LibraryFault (tree_forest tree.now) structure.now.layers e → Gives (λ x. x) result (Err e) }
    // What is read is within the limits.
    ensures fit { IfOk result (IsFitLibrary (length structure.now.layers)) }
{
    section(alloc, tree, structure)
}

#[tactic(auto, unfolding(crate::specs::Libraries::library_of))]
fn section(alloc: Global, tree: &Tree, structure: &Structure) -> Result<Library, ReadWhy>
    requires { length structure.now.layers ≤ layer_limit }
    ensures { Gives (λ x. x) result (library_of (tree_forest tree.now) structure.now.layers) }
{
    let title = title_of(alloc, tree)?;
    library_at(
        alloc,
        title.unit,
        &structure.layers,
        section_of(tree, Section::Library),
    )
}
