//! What lists at the place of a shape draw.
ghost use Rattle.std.specs.Prelude.{◌≡◌, ◌++◌, List, [], length, min, OnOk, IfOk, IfErr, Ok, Err};
ghost use Rattle.row_lists.specs.Limits.{layer_limit};
ghost use Rattle.sexp_text.specs.Shows.{forest};
ghost use Rattle.dsn_lists.specs.Results.{Gives, each};
ghost use Rattle.area_geometry.specs.declared.shapes.Shape.{Shape};
ghost use Rattle.dsn_lists.specs.declared.faults.DesignFault.{DesignFault};
ghost use Rattle.dsn_shapes.specs.DrawnLists.{IsShapeList, ShapeListFault};
ghost use Rattle.dsn_shapes.specs.Whys.{IsWhy, Adds};
ghost use Rattle.dsn_shapes.specs.Drawn.{on_each, on_layers, shape_word, circles, paths, rects, polygons, behind, shape_item, shapes_of};

use crate::rings::{rect_at, ring_at};
use area_geometry::{Core, Shape, Shapes};
use dsn_lists::{
    DesignKind, NameSet, ReadWhy, circle_at, is_word, layers_at, next_list, path_at, refused,
    word_at,
};
use row_lists::{Copied, LAYER_LIMIT, Row};
use sexp_text::{Cursor, Part, Unit, front};
use std::alloc::{AllocError, Global};

// What stands at the place of a shape.
#[derive(Clone, Copy, Debug)]
pub enum ShapeWord {
    Circle,
    Path,
    Rect,
    Polygon,
    Arc,
    Polyline,
    Window,
    Other,
}

// Puts the shape behind the others, on each of so many layers, but of the first 32 alone.
#[tactic(auto, unfolding(crate::specs::Drawn::on_each))]
fn put_on_each(shapes: &mut Shapes, count: usize, core: &Core, width: u32) -> Result<(), AllocError>
    ensures { OnOk result (shapes.new ≡ shapes.old ++ on_each (min count layer_limit) core.now width) }
{
    for layer in 0..count.min(LAYER_LIMIT) {
        shapes.push(Shape {
            layer: layer as u8,
            core: core.copied()?,
            width,
        })?;
    }
    Ok(())
}

// Puts the shape behind the others, on the layer that is named or on each of so many, but of the first 32 alone.
fn put_on_layers(
    shapes: &mut Shapes,
    count: usize,
    layer: Option<usize>,
    core: Core,
    width: u32,
) -> Result<(), AllocError>
    ensures { OnOk result (shapes.new ≡ shapes.old ++ on_layers count layer core width) }
{
    let Some(layer) = layer else {
        return put_on_each(shapes, count, &core, width);
    };
    if layer >= LAYER_LIMIT {
        return Ok(());
    }
    shapes.push(Shape {
        layer: layer as u8,
        core,
        width,
    })
}

/// What a list at the place of a shape is by its keyword.
#[tactic(auto, unfolding(crate::specs::Drawn::shape_word))]
pub fn shape_word(text: &[u8]) -> ShapeWord
    ensures { result ≡ shape_word text.now }
{
    if is_word(text, b"circle") {
        return ShapeWord::Circle;
    }
    if is_word(text, b"path") {
        return ShapeWord::Path;
    }
    if is_word(text, b"rect") {
        return ShapeWord::Rect;
    }
    if is_word(text, b"polygon") {
        return ShapeWord::Polygon;
    }
    if is_word(text, b"qarc") {
        return ShapeWord::Arc;
    }
    if is_word(text, b"polyline_path") {
        return ShapeWord::Polyline;
    }
    if is_word(text, b"window") {
        return ShapeWord::Window;
    }
    ShapeWord::Other
}

#[tactic(auto, unfolding(crate::specs::Drawn::circles))]
fn add_circle(
    alloc: Global,
    unit: Unit,
    layers: &NameSet,
    shapes: &mut Shapes,
    at: u32,
    args: Cursor<'_>,
) -> Result<(), ReadWhy>
    ensures { Gives (λ _. shapes.new) result (behind shapes.old (circles unit layers.now at (forest args.entry))) }
{
    let (word, rest) = word_at(at, args)?;
    let layer = layers_at(layers, word)?;
    let circle = circle_at(unit, at, rest)?;
    let mut points = Row::new(alloc);
    points.push(circle.centre)?;
    put_on_layers(
        shapes,
        layers.len(),
        layer,
        Core::Chain(points),
        circle.width,
    )?;
    Ok(())
}

#[tactic(auto, unfolding(crate::specs::Drawn::paths))]
fn add_path(
    alloc: Global,
    unit: Unit,
    layers: &NameSet,
    shapes: &mut Shapes,
    at: u32,
    args: Cursor<'_>,
) -> Result<(), ReadWhy>
    ensures { Gives (λ _. shapes.new) result (behind shapes.old (paths unit layers.now at (forest args.entry))) }
{
    let (word, rest) = word_at(at, args)?;
    let layer = layers_at(layers, word)?;
    let path = path_at(alloc, unit, at, rest)?;
    put_on_layers(
        shapes,
        layers.len(),
        layer,
        Core::Chain(path.points),
        path.width,
    )?;
    Ok(())
}

#[tactic(auto, unfolding(crate::specs::Drawn::rects))]
fn add_rect(
    alloc: Global,
    unit: Unit,
    layers: &NameSet,
    shapes: &mut Shapes,
    at: u32,
    args: Cursor<'_>,
) -> Result<(), ReadWhy>
    ensures { Gives (λ _. shapes.new) result (behind shapes.old (rects unit layers.now at (forest args.entry))) }
{
    let (word, rest) = word_at(at, args)?;
    let layer = layers_at(layers, word)?;
    let points = rect_at(alloc, unit, at, rest)?;
    put_on_layers(shapes, layers.len(), layer, Core::Area(points), 0)?;
    Ok(())
}

#[tactic(auto, unfolding(crate::specs::Drawn::polygons))]
fn add_polygon(
    alloc: Global,
    unit: Unit,
    layers: &NameSet,
    shapes: &mut Shapes,
    at: u32,
    args: Cursor<'_>,
) -> Result<(), ReadWhy>
    ensures { Gives (λ _. shapes.new) result (behind shapes.old (polygons unit layers.now at (forest args.entry))) }
{
    let (word, rest) = word_at(at, args)?;
    let layer = layers_at(layers, word)?;
    let ring = ring_at(alloc, unit, at, rest)?;
    put_on_layers(
        shapes,
        layers.len(),
        layer,
        Core::Area(ring.points),
        ring.width,
    )?;
    Ok(())
}

// Puts the shapes of a list at the place of a shape behind those that are there.
#[tactic(auto, unfolding(crate::specs::Drawn::shape_item))]
fn add_shape(
    alloc: Global,
    unit: Unit,
    layers: &NameSet,
    shapes: &mut Shapes,
    at: u32,
    inside: Cursor<'_>,
) -> Result<(), ReadWhy>
    ensures { Gives (λ _. shapes.new) result (shape_item unit layers.now shapes.old at (forest inside.entry)) }
{
    let (word, args) = word_at(at, inside)?;
    match shape_word(word.text) {
        ShapeWord::Circle => add_circle(alloc, unit, layers, shapes, at, args),
        ShapeWord::Path => add_path(alloc, unit, layers, shapes, at, args),
        ShapeWord::Rect => add_rect(alloc, unit, layers, shapes, at, args),
        ShapeWord::Polygon => add_polygon(alloc, unit, layers, shapes, at, args),
        ShapeWord::Arc => Err(refused(DesignKind::Arc, word.at)),
        ShapeWord::Polyline => Err(refused(DesignKind::Polyline, word.at)),
        ShapeWord::Window => Err(refused(DesignKind::Window, word.at)),
        ShapeWord::Other => Err(refused(DesignKind::Shape, word.at)),
    }
}

#[tactic(auto, unfolding(dsn_lists::specs::Results::each))]
fn add_each(
    alloc: Global,
    unit: Unit,
    layers: &NameSet,
    shapes: &mut Shapes,
    list: Cursor<'_>,
) -> Result<(), ReadWhy>
    ensures { Gives (λ _. shapes.new) result (each (shape_item unit layers.now) shapes.old (forest list.entry)) }
{
    let mut rest = list;
    'lists: while let Some((at, inside, after)) = next_list(rest)? {
        add_shape(alloc, unit, layers, shapes, at, inside)?;
        rest = after;
    }
    Ok(())
}

/// Puts the shapes of a list that begins at this byte, behind its keyword, behind those that are there. Widths and
/// points are in nm; a shape on every layer is put on each of the first 32, and none on a layer beyond them.
pub fn add_shapes(
    alloc: Global,
    unit: Unit,
    layers: &NameSet,
    shapes: &mut Shapes,
    at: u32,
    args: Cursor<'_>,
) -> Result<(), ReadWhy>
    ensures read { Gives (λ _. shapes.new) result (shapes_of unit layers.now shapes.old at (forest args.entry)) }
    // What is put there are the shapes of the list, and those of a list of shapes are put there.
    ensures found { IfOk result (λ _. Adds (IsShapeList unit layers.now (forest args.entry)) shapes.old shapes.new) }
    ensures only { (ss : List Shape) → IsShapeList unit layers.now (forest args.entry) ss → Gives (λ _. shapes.new) result (Ok (shapes.old ++ ss)) }
    // What is told is the first fault, and the first fault is told.
    ensures fault { IfErr result (IsWhy (ShapeListFault unit layers.now at (forest args.entry))) }
    ensures first { (e : DesignFault) → ShapeListFault unit layers.now at (forest args.entry) e → Gives (λ _. shapes.new) result (Err e) }
{
    shape_list(alloc, unit, layers, shapes, at, args)
}

#[tactic(auto, unfolding(crate::specs::Drawn::shapes_of))]
fn shape_list(
    alloc: Global,
    unit: Unit,
    layers: &NameSet,
    shapes: &mut Shapes,
    at: u32,
    args: Cursor<'_>,
) -> Result<(), ReadWhy>
    ensures { Gives (λ _. shapes.new) result (shapes_of unit layers.now shapes.old at (forest args.entry)) }
{
    match front(args) {
        Part::End => Err(refused(DesignKind::Form, at)),
        Part::Word { at, .. } => Err(refused(DesignKind::Form, at)),
        Part::List { .. } => add_each(alloc, unit, layers, shapes, args),
    }
}

/// The shapes of the one list at the place of a shape that begins at this byte, in nm.
pub fn shapes_at(
    alloc: Global,
    unit: Unit,
    layers: &NameSet,
    at: u32,
    inside: Cursor<'_>,
) -> Result<Shapes, ReadWhy>
    ensures read { Gives (λ ss. ss) result (shape_item unit layers.now [] at (forest inside.entry)) }
{
    let mut shapes = Row::new(alloc);
    add_shape(alloc, unit, layers, &mut shapes, at, inside)?;
    Ok(shapes)
}
