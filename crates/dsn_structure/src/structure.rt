//! The section that says of what layers and with what rule a board is made.
ghost use Rattle.std.specs.Prelude.{◌≡◌, ◌≤◌, ◌*◌, length, Ok, Err, IfOk, IfErr};
ghost use Rattle.sexp_text.specs.Shows.{forest};
ghost use Rattle.sexp_text.specs.Trees.{tree_forest};
ghost use Rattle.dsn_lists.specs.Results.{Gives, each};
ghost use Rattle.dsn_lists.specs.Pcbs.{spotted};
ghost use Rattle.dsn_structure.specs.Structures.{with_vias, with_rule, with_outlines, put_keep, with_keep, keep_word, area_word, structure_word, all_layers, structure_item, no_structure, with_layer, structure_at, structure_of};
ghost use Rattle.sexp_text.specs.Nodes.{size};
ghost use Rattle.dsn_lists.specs.declared.faults.DesignFault.{DesignFault};
ghost use Rattle.dsn_shapes.specs.Quotas.{quota_behind};
ghost use Rattle.dsn_structure.specs.Meaning.{HasStructure, StructureFault, WhyNot};
ghost use Rattle.dsn_structure.specs.Limits.{IsFitStructure};

use crate::flips::{FlipStyle, flip_at};
use crate::layers::add_layer;
use area_geometry::Shapes;
use board_items::{Item, Items, KeepKind};
use board_rules::Areas;
use dsn_lists::{
    DesignKind, Marks, NameSet, Place, ReadWhy, Rule, Section, all_names, is_word, next_list,
    opening, read_rule, refused, section_of, title_of, unit_at, unit_for,
};
use dsn_shapes::{Quota, add_outlines, keep_at, keep_kind, names_ahead, quota_behind, whole_quota};
use row_lists::Row;
use sexp_text::{Cursor, Tree, Unit};
use std::alloc::Global;

/// The structure of a board.
#[derive(Debug, Drop)]
pub struct Structure {
    /// The layers, 1 to 32, numbered from 0 in the order of the text.
    pub layers: NameSet,
    /// The lists of padstacks for vias, of which the last one holds.
    pub vias: Row<Marks>,
    /// What all rules state.
    pub rule: Rule,
    /// The flip style that is stated last.
    pub flip: Option<FlipStyle>,
    /// The areas in which copper has to lie, in the order of the text.
    pub outline: Areas,
    /// The keepouts, in the order of the text.
    pub keeps: Items,
    /// How many items and points may come behind the keepouts.
    pub quota: Quota,
}

// What a list of the section is.
#[derive(Clone, Copy, Debug)]
enum StructureWord {
    Layer,
    Via,
    Rule,
    PlaceControl,
    Unit,
    Resolution,
    Boundary,
    Keep(KeepKind),
    Other,
}

fn keep_word(kind: Option<KeepKind>) -> StructureWord
    ensures { result ≡ keep_word kind }
{
    match kind {
        None => StructureWord::Other,
        Some(kind) => StructureWord::Keep(kind),
    }
}

#[tactic(auto, unfolding(crate::specs::Structures::area_word))]
fn area_word(text: &[u8]) -> StructureWord
    ensures { result ≡ area_word text.now }
{
    if is_word(text, b"boundary") {
        return StructureWord::Boundary;
    }
    keep_word(keep_kind(text))
}

#[tactic(auto, unfolding(crate::specs::Structures::structure_word))]
fn structure_word(text: &[u8]) -> StructureWord
    ensures { result ≡ structure_word text.now }
{
    if is_word(text, b"layer") {
        return StructureWord::Layer;
    }
    if is_word(text, b"via") {
        return StructureWord::Via;
    }
    if is_word(text, b"rule") {
        return StructureWord::Rule;
    }
    if is_word(text, b"place_control") {
        return StructureWord::PlaceControl;
    }
    if is_word(text, b"unit") {
        return StructureWord::Unit;
    }
    if is_word(text, b"resolution") {
        return StructureWord::Resolution;
    }
    area_word(text)
}

fn add_vias(alloc: Global, s: Structure, at: u32, args: Cursor<'_>) -> Result<Structure, ReadWhy>
    ensures { Gives (λ x. x) result (with_vias s at (forest args.entry)) }
{
    let mut s = s;
    s.vias.push(all_names(alloc, at, args)?)?;
    Ok(s)
}

fn add_rule(unit: Unit, s: Structure, args: Cursor<'_>) -> Result<Structure, ReadWhy>
    ensures { Gives (λ x. x) result (with_rule unit s (forest args.entry)) }
{
    let Structure {
        layers,
        vias,
        rule,
        flip,
        outline,
        keeps,
        quota,
    } = s;
    let rule = read_rule(unit, rule, args)?;
    Ok(Structure {
        layers,
        vias,
        rule,
        flip,
        outline,
        keeps,
        quota,
    })
}

fn add_boundary(
    alloc: Global,
    unit: Unit,
    s: Structure,
    at: u32,
    args: Cursor<'_>,
) -> Result<Structure, ReadWhy>
    ensures { Gives (λ x. x) result (with_outlines unit s at (forest args.entry)) }
{
    let mut s = s;
    add_outlines(alloc, unit, &mut s.outline, at, args)?;
    Ok(s)
}

// Puts a keepout behind the others, where there is room for it. Else the fault `Large` at the byte.
fn put_keep(
    at: u32,
    s: Structure,
    kind: KeepKind,
    shapes: Shapes,
    quota: Option<Quota>,
) -> Result<Structure, ReadWhy>
    ensures { Gives (λ x. x) result (put_keep at s kind shapes quota) }
{
    let Some(quota) = quota else {
        return Err(refused(DesignKind::Large, at));
    };
    let mut s = s;
    s.keeps.push(Item::Keep { kind, shapes })?;
    s.quota = quota;
    Ok(s)
}

fn add_keep(
    alloc: Global,
    unit: Unit,
    layers: &NameSet,
    s: Structure,
    kind: KeepKind,
    at: u32,
    args: Cursor<'_>,
) -> Result<Structure, ReadWhy>
    ensures { Gives (λ x. x) result (with_keep unit layers.now s kind at (forest args.entry)) }
{
    let shapes = keep_at(alloc, unit, layers, at, args)?;
    let quota = quota_behind(s.quota, shapes.as_slice());
    put_keep(at, s, kind, shapes, quota)
}

#[tactic(auto, unfolding(crate::specs::Structures::structure_item))]
fn read_list(
    alloc: Global,
    unit: Unit,
    layers: &NameSet,
    s: Structure,
    at: u32,
    inside: Cursor<'_>,
) -> Result<Structure, ReadWhy>
    ensures { Gives (λ x. x) result (structure_item unit layers.now s at (forest inside.entry)) }
{
    let head = opening(inside);
    let mut s = s;
    match structure_word(head.text) {
        StructureWord::Layer => add_layer(&mut s.layers, at, head.args)?,
        StructureWord::Via => return add_vias(alloc, s, at, head.args),
        StructureWord::Rule => return add_rule(unit, s, head.args),
        StructureWord::PlaceControl => s.flip = Some(flip_at(at, head.args)?),
        StructureWord::Unit => {
            unit_at(at, head.args)?;
        }
        StructureWord::Resolution => return Err(refused(DesignKind::Unit, head.at)),
        StructureWord::Boundary => return add_boundary(alloc, unit, s, at, head.args),
        StructureWord::Keep(kind) => return add_keep(alloc, unit, layers, s, kind, at, head.args),
        StructureWord::Other => (),
    }
    Ok(s)
}

#[tactic(auto, unfolding(dsn_lists::specs::Results::each))]
fn read_lists(
    alloc: Global,
    unit: Unit,
    layers: &NameSet,
    s: Structure,
    list: Cursor<'_>,
) -> Result<Structure, ReadWhy>
    ensures { Gives (λ x. x) result (each (structure_item unit layers.now) s (forest list.entry)) }
{
    let mut s = s;
    let mut rest = list;
    'lists: while let Some((at, inside, after)) = next_list(rest)? {
        s = read_list(alloc, unit, layers, s, at, inside)?;
        rest = after;
    }
    Ok(s)
}

// A section with a layer.
#[tactic(auto, unfolding(crate::specs::Structures::with_layer))]
fn with_layer(at: u32, s: Structure) -> Result<Structure, ReadWhy>
    ensures { Gives (λ x. x) result (with_layer at s) }
{
    if s.layers.is_empty() {
        return Err(refused(DesignKind::Missing, at));
    }
    Ok(s)
}

#[tactic(auto, unfolding(crate::specs::Structures::structure_at))]
fn structure_at(alloc: Global, unit: Unit, place: Place<'_>) -> Result<Structure, ReadWhy>
    ensures { Gives (λ x. x) result (structure_at unit (spotted place.entry)) }
{
    let unit = unit_for(unit, place.args);
    let layers = names_ahead(alloc, b"layer", place.args)?;
    let s = empty_structure(alloc);
    let s = read_lists(alloc, unit, &layers, s, place.args)?;
    with_layer(place.at, s)
}

fn empty_structure(alloc: Global) -> Structure
    ensures { result ≡ no_structure }
{
    Structure {
        layers: NameSet::new(alloc),
        vias: Row::new(alloc),
        rule: Rule {
            width: None,
            stated: Row::new(alloc),
        },
        flip: None,
        outline: Row::new(alloc),
        keeps: Row::new(alloc),
        quota: whole_quota(),
    }
}

/// The structure of a design, or the first fault of the design itself or of the section.
#[tactic(auto, using(crate::proofs::Fits::fit_if_given, crate::proofs::Fits::few_if_given))]
pub fn read_structure(alloc: Global, tree: &Tree) -> Result<Structure, ReadWhy>
    ensures read { Gives (λ x. x) result (structure_of (tree_forest tree.now)) }
    // What is read is the structure of the design, and a design that has one is read.
    ensures found { IfOk result (HasStructure (tree_forest tree.now)) }
    ensures only { (s : Structure) → HasStructure (tree_forest tree.now) s → Gives (λ x. x) result (Ok s) }
    // What is told is the first fault, and the first fault is told.
    ensures fault { IfErr result (WhyNot (tree_forest tree.now)) }
    ensures first { (e : DesignFault) → StructureFault (tree_forest tree.now) e → Gives (λ x. x) result (Err e) }
    // What is read is within the limits.
    ensures fit { IfOk result IsFitStructure }
    // There are at most 32 outline areas for each word and list of the text.
    ensures few { IfOk result (λ s. length s.outline ≤ 32 * size (tree_forest tree.now)) }
{
    section(alloc, tree)
}

#[tactic(auto, unfolding(crate::specs::Structures::structure_of))]
fn section(alloc: Global, tree: &Tree) -> Result<Structure, ReadWhy>
    ensures { Gives (λ x. x) result (structure_of (tree_forest tree.now)) }
{
    let title = title_of(alloc, tree)?;
    structure_at(alloc, title.unit, section_of(tree, Section::Structure))
}
