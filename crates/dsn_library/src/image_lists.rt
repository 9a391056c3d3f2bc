//! The images of a library.
ghost use Rattle.std.specs.Prelude.{◌≡◌, ◌≤◌, ◌<◌, false, length, IfOk, OnOk, None};
ghost use Rattle.sexp_text.specs.Shows.{forest};
ghost use Rattle.dsn_lists.specs.Results.{Tells, Gives, each};
ghost use Rattle.dsn_lists.specs.Names.{is_among, place_of};
ghost use Rattle.dsn_lists.specs.Words.{marked};
ghost use Rattle.dsn_library.specs.Images.{angle_word, rotate_of, rotate_item, rotation, pin_trail_item, stack_number, pin_words, pin_of, with_name, number_with, with_pin_of, with_keep, image_keep_word, image_word, image_item, no_image, image_of};

use crate::images::{Image, ImagePart};
use area_geometry::Shapes;
use board_items::KeepKind;
use dsn_lists::{
    DesignFault, DesignKind, Found, NameSet, ReadWhy, check_fresh, fault, is_word, next_list,
    opening, point_at, read_over, unit_at, unit_for, word_at,
};
use dsn_shapes::{keep_at, keep_kind};
use row_lists::Row;
use seg_geometry::Pt;
use sexp_text::{AngleFault, Cursor, Part, Unit, angle_of, front};
use std::alloc::{AllocError, Global};

// What a pin states: the number of its padstack, its turn, its id, and its place in nm.
#[derive(Clone, Copy, Debug)]
struct PinText<'a> {
    stack: usize,
    eighths: u8,
    id: &'a [u8],
    at: Pt,
}

// What a list of an image is.
#[derive(Clone, Copy, Debug)]
enum ImageWord {
    Pin,
    Keep(KeepKind),
    Unit,
    Other,
}

/// The eighths of a turn that a word states, 0 to 7. Else the fault `Number` or `Angle` at the word.
pub fn angle_at(word: Found<'_>) -> Result<u8, DesignFault>
    ensures told { Tells (λ x. x) result (angle_word (marked word.entry)) }
    ensures bound { IfOk result (λ e. e < 8) }
{
    match angle_of(word.text) {
        Ok(eighths) => Ok(eighths),
        Err(AngleFault::NotNumber) => Err(fault(DesignKind::Number, word.at)),
        Err(AngleFault::NotAngle) => Err(fault(DesignKind::Angle, word.at)),
    }
}

#[tactic(auto, unfolding(crate::specs::Images::rotate_of))]
fn rotate_at(at: u32, args: Cursor<'_>) -> Result<u8, DesignFault>
    ensures { Tells (λ x. x) result (rotate_of at (forest args.entry)) }
{
    let (word, rest) = word_at(at, args)?;
    let eighths = angle_at(word)?;
    read_over(rest)?;
    Ok(eighths)
}

#[tactic(auto, unfolding(crate::specs::Images::rotate_item))]
fn read_rotate(found: Option<u8>, at: u32, inside: Cursor<'_>) -> Result<Option<u8>, DesignFault>
    ensures { Tells (λ x. x) result (rotate_item found at (forest inside.entry)) }
{
    let head = opening(inside);
    if !is_word(head.text, b"rotate") {
        return Ok(found);
    }
    if found.is_some() {
        return Err(fault(DesignKind::Form, at));
    }
    let eighths = rotate_at(at, head.args)?;
    Ok(Some(eighths))
}

// The lists behind a pin's padstack up to a word or the end, and what follows.
#[tactic(auto, unfolding(crate::specs::Images::rotation))]
fn rotation_at(list: Cursor<'_>) -> Result<(Option<u8>, Cursor<'_>), DesignFault>
    ensures { Tells (λ x. (x.0, forest x.1)) result (rotation None (forest list.entry)) }
{
    let mut found = None;
    let mut rest = list;
    'lists: loop {
        match front(rest) {
            Part::List {
                at,
                inside,
                rest: after,
            } => {
                found = read_rotate(found, at, inside)?;
                rest = after;
            }
            _ => return Ok((found, rest)),
        }
    }
}

#[tactic(auto, unfolding(crate::specs::Images::pin_trail_item))]
fn read_pin_list(at: u32, inside: Cursor<'_>) -> Result<(), DesignFault>
    ensures { Tells (λ x. x) result (pin_trail_item tt at (forest inside.entry)) }
{
    let head = opening(inside);
    if is_word(head.text, b"rotate") {
        return Err(fault(DesignKind::Form, at));
    }
    Ok(())
}

// Reads the lists behind a pin's words.
#[tactic(auto, unfolding(dsn_lists::specs::Results::each))]
fn read_pin_lists(list: Cursor<'_>) -> Result<(), DesignFault>
    ensures { Tells (λ x. x) result (each pin_trail_item tt (forest list.entry)) }
{
    let mut rest = list;
    'lists: while let Some((at, inside, after)) = next_list(rest)? {
        read_pin_list(at, inside)?;
        rest = after;
    }
    Ok(())
}

fn stack_at(stacks: &NameSet, word: Found<'_>) -> Result<usize, DesignFault>
    ensures { Tells (λ x. x) result (stack_number word.entry.at (place_of stacks.now word.entry.text.now)) }
{
    match stacks.place(word.text) {
        Some(stack) => Ok(stack),
        None => Err(fault(DesignKind::Name, word.at)),
    }
}

#[tactic(auto, unfolding(crate::specs::Images::pin_of))]
fn pin_at<'a>(
    unit: Unit,
    stacks: &NameSet,
    at: u32,
    args: Cursor<'a>,
) -> Result<PinText<'a>, DesignFault>
    ensures { Tells pin_words result (pin_of unit stacks.now at (forest args.entry)) }
{
    let (word, rest) = word_at(at, args)?;
    let stack = stack_at(stacks, word)?;
    let (rotation, rest) = rotation_at(rest)?;
    let (id, rest) = word_at(at, rest)?;
    let (x, rest) = word_at(at, rest)?;
    let (place, rest) = point_at(unit, at, x, rest)?;
    read_pin_lists(rest)?;
    Ok(PinText {
        stack,
        eighths: rotation.unwrap_or(0),
        id: id.text,
        at: place,
    })
}

// The number of a name, which is put behind the others where it isn't there. Its one error is want of memory.
fn number_in(names: &mut NameSet, name: &[u8]) -> Result<usize, AllocError>
    ensures number { IfOk result (λ n. n ≡ number_with names.old name.now) }
    ensures names { OnOk result (names.new ≡ with_name names.old name.now) }
{
    match names.place(name) {
        Some(number) => Ok(number),
        None => {
            let number = names.len();
            names.add(name)?;
            Ok(number)
        }
    }
}

fn add_pin(
    unit: Unit,
    stacks: &NameSet,
    image: &mut Image,
    at: u32,
    args: Cursor<'_>,
) -> Result<(), ReadWhy>
    ensures { Gives (λ _. image.new) result (with_pin_of unit stacks.now image.old at (forest args.entry)) }
{
    let pin = pin_at(unit, stacks, at, args)?;
    let id = number_in(&mut image.ids, pin.id)?;
    image.parts.push(ImagePart::Pin {
        stack: pin.stack,
        id,
        eighths: pin.eighths,
        at: pin.at,
    })?;
    Ok(())
}

fn keep_word(kind: Option<KeepKind>) -> ImageWord
    ensures { result ≡ image_keep_word kind }
{
    match kind {
        None => ImageWord::Other,
        Some(kind) => ImageWord::Keep(kind),
    }
}

#[tactic(auto, unfolding(crate::specs::Images::image_word))]
fn image_word(text: &[u8]) -> ImageWord
    ensures { result ≡ image_word text.now }
{
    if is_word(text, b"pin") {
        return ImageWord::Pin;
    }
    if is_word(text, b"unit") {
        return ImageWord::Unit;
    }
    keep_word(keep_kind(text))
}

#[tactic(auto, unfolding(crate::specs::Images::image_item))]
fn read_list(
    alloc: Global,
    unit: Unit,
    layers: &NameSet,
    stacks: &NameSet,
    image: &mut Image,
    at: u32,
    inside: Cursor<'_>,
) -> Result<(), ReadWhy>
    ensures { Gives (λ _. image.new) result (image_item unit layers.now stacks.now image.old at (forest inside.entry)) }
{
    let head = opening(inside);
    match image_word(head.text) {
        ImageWord::Pin => add_pin(unit, stacks, image, at, head.args),
        ImageWord::Keep(kind) => {
            let shapes = keep_at(alloc, unit, layers, at, head.args)?;
            image.parts.push(ImagePart::Keep { kind, shapes })?;
            Ok(())
        }
        ImageWord::Unit => {
            unit_at(at, head.args)?;
            Ok(())
        }
        ImageWord::Other => Ok(()),
    }
}

#[tactic(auto, unfolding(dsn_lists::specs::Results::each))]
fn read_lists(
    alloc: Global,
    unit: Unit,
    layers: &NameSet,
    stacks: &NameSet,
    image: &mut Image,
    list: Cursor<'_>,
) -> Result<(), ReadWhy>
    ensures { Gives (λ _. image.new) result (each (image_item unit layers.now stacks.now) image.old (forest list.entry)) }
{
    let mut rest = list;
    'lists: while let Some((at, inside, after)) = next_list(rest)? {
        read_list(alloc, unit, layers, stacks, image, at, inside)?;
        rest = after;
    }
    Ok(())
}

/// The name and the parts of an image whose list begins at this byte, behind images of these names. Its pins have
/// padstacks of `stacks`, and its keepouts lie on `layers`.
#[tactic(auto, unfolding(crate::specs::Images::image_of))]
pub fn image_at<'a>(
    alloc: Global,
    unit: Unit,
    layers: &NameSet,
    stacks: &NameSet,
    images: &NameSet,
    at: u32,
    args: Cursor<'a>,
) -> Result<(&'a [u8], Image), ReadWhy>
    ensures image { Gives (λ x. (x.0.now, x.1)) result (image_of unit layers.now stacks.now images.now at (forest args.entry)) }
    ensures fresh { IfOk result (λ x. is_among x.0.now images.now ≡ false) }
{
    let (word, rest) = word_at(at, args)?;
    check_fresh(images, word)?;
    let mut image = Image {
        ids: NameSet::new(alloc),
        parts: Row::new(alloc),
    };
    read_lists(
        alloc,
        unit_for(unit, rest),
        layers,
        stacks,
        &mut image,
        rest,
    )?;
    Ok((word.text, image))
}
