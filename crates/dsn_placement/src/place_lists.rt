//! The lists of the placement section.
ghost use Rattle.std.specs.Prelude.{◌≡◌, ◌≤◌, length, false, slice_get, OnOk};
ghost use Rattle.row_lists.specs.Limits.{layer_limit};
ghost use Rattle.sexp_text.specs.Shows.{forest};
ghost use Rattle.dsn_lists.specs.Results.{Tells, Gives, each};
ghost use Rattle.dsn_lists.specs.Names.{is_among, place_of};
ghost use Rattle.dsn_lists.specs.Pcbs.{spotted};
ghost use Rattle.dsn_placement.specs.Placements.{ground_of, parts_of, with_component, with_place};
ghost use Rattle.dsn_placement.specs.Components.{sited, image_number, component_item, component_of, style_behind, governing_style, flip_by, placement_word, placement_item, no_placement, ground, placement_at};

use crate::place_parts::{Setting, put_component};
use crate::placement::Placement;
use crate::poses::place_at;
use dsn_library::{Image, ImagePart, Library};
use dsn_lists::{
    DesignFault, DesignKind, Found, NameSet, Place, ReadWhy, fault, is_word, next_list, opening,
    refused, unit_at, unit_for, word_at,
};
use dsn_shapes::Quota;
use dsn_structure::{FlipStyle, Structure, flip_at};
use dsn_turns::Flip;
use row_lists::Row;
use sexp_text::{Cursor, Part, Unit, front};
use std::alloc::{AllocError, Global};

// What a list of the section is.
#[derive(Clone, Copy, Debug)]
enum PlacementWord {
    Component,
    PlaceControl,
    Unit,
    Resolution,
    Other,
}

fn image_parts(images: &[Image], image: usize) -> &[ImagePart]
    ensures { result.now ≡ parts_of (slice_get images.now image) }
{
    match images.get(image) {
        None => &[],
        Some(image) => image.parts.as_slice(),
    }
}

// Puts a component behind the others. Its one error is want of memory.
fn put_name(placement: &mut Placement, name: &[u8], image: usize) -> Result<(), AllocError>
    requires { is_among name.now placement.old.components ≡ false }
    ensures { OnOk result (placement.new ≡ with_component placement.old name.now image) }
{
    placement.components.add(name)?;
    placement.images.push(image)
}

#[tactic(auto, unfolding(crate::specs::Placements::with_place))]
fn add_place(
    alloc: Global,
    unit: Unit,
    setting: Setting<'_>,
    images: &[Image],
    image: usize,
    placement: &mut Placement,
    at: u32,
    args: Cursor<'_>,
) -> Result<(), ReadWhy>
    ensures { Gives (λ _. placement.new) result (with_place unit (ground_of setting.entry) images.now image placement.old at (forest args.entry)) }
{
    let (name, pose) = place_at(unit, &placement.components, at, args)?;
    let component = placement.components.len();
    put_name(placement, name, image)?;
    let parts = image_parts(images, image);
    put_component(alloc, setting, pose, at, component, placement, parts)
}

// Whether the list is a place, or one before it was.
#[tactic(auto, unfolding(crate::specs::Components::component_item))]
fn read_place(
    alloc: Global,
    unit: Unit,
    setting: Setting<'_>,
    library: &Library,
    image: usize,
    placement: &mut Placement,
    found: bool,
    at: u32,
    inside: Cursor<'_>,
) -> Result<bool, ReadWhy>
    ensures { Gives (λ x. sited placement.new x) result (component_item unit (ground_of setting.entry) library.now image (sited placement.old found) at (forest inside.entry)) }
{
    let head = opening(inside);
    if !is_word(head.text, b"place") {
        return Ok(found);
    }
    let images = library.images.as_slice();
    add_place(
        alloc, unit, setting, images, image, placement, at, head.args,
    )?;
    Ok(true)
}

#[tactic(auto, unfolding(dsn_lists::specs::Results::each))]
fn read_places(
    alloc: Global,
    unit: Unit,
    setting: Setting<'_>,
    library: &Library,
    image: usize,
    placement: &mut Placement,
    list: Cursor<'_>,
) -> Result<bool, ReadWhy>
    ensures { Gives (λ x. sited placement.new x) result (each (component_item unit (ground_of setting.entry) library.now image) (sited placement.old false) (forest list.entry)) }
{
    let mut found = false;
    let mut rest = list;
    'lists: while let Some((at, inside, after)) = next_list(rest)? {
        found = read_place(
            alloc, unit, setting, library, image, placement, found, at, inside,
        )?;
        rest = after;
    }
    Ok(found)
}

fn image_at(images: &NameSet, word: Found<'_>) -> Result<usize, DesignFault>
    ensures { Tells (λ x. x) result (image_number word.entry.at (place_of images.now word.entry.text.now)) }
{
    match images.place(word.text) {
        Some(image) => Ok(image),
        None => Err(fault(DesignKind::Name, word.at)),
    }
}

#[tactic(auto, unfolding(crate::specs::Components::component_of))]
fn add_component(
    alloc: Global,
    unit: Unit,
    setting: Setting<'_>,
    library: &Library,
    placement: &mut Placement,
    at: u32,
    args: Cursor<'_>,
) -> Result<(), ReadWhy>
    ensures { Gives (λ _. placement.new) result (component_of unit (ground_of setting.entry) library.now placement.old at (forest args.entry)) }
{
    let (word, rest) = word_at(at, args)?;
    let image = image_at(&library.image_names, word)?;
    if !read_places(alloc, unit, setting, library, image, placement, rest)? {
        return Err(refused(DesignKind::Form, at));
    }
    Ok(())
}

// The flip style that holds behind a list.
#[tactic(auto, unfolding(crate::specs::Components::style_behind))]
fn style_after(style: Option<FlipStyle>, at: u32, inside: Cursor<'_>) -> Option<FlipStyle>
    ensures { result ≡ style_behind style at (forest inside.entry) }
{
    let head = opening(inside);
    if !is_word(head.text, b"place_control") {
        return style;
    }
    match flip_at(at, head.args) {
        Ok(stated) => Some(stated),
        Err(_) => style,
    }
}

// The flip style that governs: that of the last `place_control` without fault among the lists, else the one given.
#[tactic(auto, unfolding(crate::specs::Components::governing_style))]
fn style_for(style: Option<FlipStyle>, list: Cursor<'_>) -> Option<FlipStyle>
    ensures { result ≡ governing_style style (forest list.entry) }
{
    let mut style = style;
    let mut rest = list;
    'lists: loop {
        match front(rest) {
            Part::End => return style,
            Part::Word { rest: after, .. } => rest = after,
            Part::List {
                at,
                inside,
                rest: after,
            } => {
                style = style_after(style, at, inside);
                rest = after;
            }
        }
    }
}

fn flip_by(style: Option<FlipStyle>) -> Flip
    ensures { result ≡ flip_by style }
{
    match style {
        Some(FlipStyle::RotateFirst) => Flip::After,
        _ => Flip::Before,
    }
}

#[tactic(auto, unfolding(crate::specs::Components::placement_word))]
fn placement_word(text: &[u8]) -> PlacementWord
    ensures { result ≡ placement_word text.now }
{
    if is_word(text, b"component") {
        return PlacementWord::Component;
    }
    if is_word(text, b"place_control") {
        return PlacementWord::PlaceControl;
    }
    if is_word(text, b"unit") {
        return PlacementWord::Unit;
    }
    if is_word(text, b"resolution") {
        return PlacementWord::Resolution;
    }
    PlacementWord::Other
}

#[tactic(auto, unfolding(crate::specs::Components::placement_item))]
fn read_list(
    alloc: Global,
    unit: Unit,
    setting: Setting<'_>,
    library: &Library,
    placement: &mut Placement,
    at: u32,
    inside: Cursor<'_>,
) -> Result<(), ReadWhy>
    ensures { Gives (λ _. placement.new) result (placement_item unit (ground_of setting.entry) library.now placement.old at (forest inside.entry)) }
{
    let head = opening(inside);
    match placement_word(head.text) {
        PlacementWord::Component => {
            add_component(alloc, unit, setting, library, placement, at, head.args)
        }
        PlacementWord::PlaceControl => {
            flip_at(at, head.args)?;
            Ok(())
        }
        PlacementWord::Unit => {
            unit_at(at, head.args)?;
            Ok(())
        }
        PlacementWord::Resolution => Err(refused(DesignKind::Unit, head.at)),
        PlacementWord::Other => Ok(()),
    }
}

#[tactic(auto, unfolding(dsn_lists::specs::Results::each))]
fn read_lists(
    alloc: Global,
    unit: Unit,
    setting: Setting<'_>,
    library: &Library,
    placement: &mut Placement,
    list: Cursor<'_>,
) -> Result<(), ReadWhy>
    ensures { Gives (λ _. placement.new) result (each (placement_item unit (ground_of setting.entry) library.now) placement.old (forest list.entry)) }
{
    let mut rest = list;
    'lists: while let Some((at, inside, after)) = next_list(rest)? {
        read_list(alloc, unit, setting, library, placement, at, inside)?;
        rest = after;
    }
    Ok(())
}

fn empty_placement(alloc: Global, quota: Quota) -> Placement
    ensures { result ≡ no_placement quota }
{
    Placement {
        components: NameSet::new(alloc),
        images: Row::new(alloc),
        parts: Row::new(alloc),
        quota,
    }
}

/// The placement of the section at its place, where this unit governs the design.
#[tactic(auto, unfolding(crate::specs::Components::placement_at))]
pub fn placement_at(
    alloc: Global,
    unit: Unit,
    structure: &Structure,
    library: &Library,
    place: Place<'_>,
) -> Result<Placement, ReadWhy>
    requires { length structure.now.layers ≤ layer_limit }
    ensures { Gives (λ x. x) result (placement_at unit structure.now library.now (spotted place.entry)) }
{
    let unit = unit_for(unit, place.args);
    let setting = Setting {
        flip: flip_by(style_for(structure.flip, place.args)),
        layers: structure.layers.len() as u8,
        stacks: library.stacks.as_slice(),
    };
    let mut placement = empty_placement(alloc, structure.quota);
    read_lists(alloc, unit, setting, library, &mut placement, place.args)?;
    Ok(placement)
}
