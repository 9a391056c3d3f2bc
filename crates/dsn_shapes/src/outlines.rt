//! The areas of a board's outline.
ghost use Rattle.std.specs.Prelude.{◌≡◌, ◌++◌, List, Ok, Err, IfOk, IfErr};
ghost use Rattle.sexp_text.specs.Shows.{forest};
ghost use Rattle.dsn_lists.specs.Results.{Tells, Gives, each};
ghost use Rattle.dsn_lists.specs.Words.{marked};
ghost use Rattle.seg_geometry.specs.declared.points.Pt.{Pt};
ghost use Rattle.dsn_shapes.specs.OutlineLists.{IsBoundary, BoundaryFault};
ghost use Rattle.dsn_shapes.specs.Whys.{IsWhy, Adds};
ghost use Rattle.dsn_shapes.specs.Outlines.{outline_layer, rect_outline, ring_outline, outline_of, outline_item, outlines_of};

use crate::drawn::{ShapeWord, shape_word};
use crate::rings::{open_ring, rect_at, ring_at};
use board_rules::Areas;
use dsn_lists::{
    DesignFault, DesignKind, Found, ReadWhy, fault, next_list, refused, stands_for_all, word_at,
};
use seg_geometry::Points;
use sexp_text::{Cursor, Part, Unit, front};
use std::alloc::Global;

#[tactic(auto, unfolding(crate::specs::Outlines::outline_layer))]
fn check_layer(word: Found<'_>) -> Result<(), DesignFault>
    ensures { Tells (λ x. x) result (outline_layer (marked word.entry)) }
{
    if !stands_for_all(word.text) {
        return Err(fault(DesignKind::Layer, word.at));
    }
    Ok(())
}

#[tactic(auto, unfolding(crate::specs::Outlines::rect_outline))]
fn rect_outline(alloc: Global, unit: Unit, at: u32, args: Cursor<'_>) -> Result<Points, ReadWhy>
    ensures { Gives (λ x. x) result (rect_outline unit at (forest args.entry)) }
{
    let (word, rest) = word_at(at, args)?;
    check_layer(word)?;
    let points = rect_at(alloc, unit, at, rest)?;
    Ok(open_ring(alloc, points)?)
}

#[tactic(auto, unfolding(crate::specs::Outlines::ring_outline))]
fn ring_outline(alloc: Global, unit: Unit, at: u32, args: Cursor<'_>) -> Result<Points, ReadWhy>
    ensures { Gives (λ x. x) result (ring_outline unit at (forest args.entry)) }
{
    let (word, rest) = word_at(at, args)?;
    check_layer(word)?;
    let ring = ring_at(alloc, unit, at, rest)?;
    Ok(ring.points)
}

#[tactic(auto, unfolding(crate::specs::Outlines::outline_of))]
fn outline_at(alloc: Global, unit: Unit, at: u32, inside: Cursor<'_>) -> Result<Points, ReadWhy>
    ensures { Gives (λ x. x) result (outline_of unit at (forest inside.entry)) }
{
    let (word, args) = word_at(at, inside)?;
    match shape_word(word.text) {
        ShapeWord::Circle => Err(refused(DesignKind::Shape, word.at)),
        ShapeWord::Path => ring_outline(alloc, unit, at, args),
        ShapeWord::Rect => rect_outline(alloc, unit, at, args),
        ShapeWord::Polygon => ring_outline(alloc, unit, at, args),
        ShapeWord::Arc => Err(refused(DesignKind::Arc, word.at)),
        ShapeWord::Polyline => Err(refused(DesignKind::Polyline, word.at)),
        ShapeWord::Window => Err(refused(DesignKind::Shape, word.at)),
        ShapeWord::Other => Err(refused(DesignKind::Shape, word.at)),
    }
}

#[tactic(auto, unfolding(crate::specs::Outlines::outline_item))]
fn add_outline(
    alloc: Global,
    unit: Unit,
    outline: &mut Areas,
    at: u32,
    inside: Cursor<'_>,
) -> Result<(), ReadWhy>
    ensures { Gives (λ _. outline.new) result (outline_item unit outline.old at (forest inside.entry)) }
{
    let points = outline_at(alloc, unit, at, inside)?;
    outline.push(points)?;
    Ok(())
}

#[tactic(auto, unfolding(dsn_lists::specs::Results::each))]
fn add_each(alloc: Global, unit: Unit, outline: &mut Areas, list: Cursor<'_>) -> Result<(), ReadWhy>
    ensures { Gives (λ _. outline.new) result (each (outline_item unit) outline.old (forest list.entry)) }
{
    let mut rest = list;
    'lists: while let Some((at, inside, after)) = next_list(rest)? {
        add_outline(alloc, unit, outline, at, inside)?;
        rest = after;
    }
    Ok(())
}

/// Puts the areas of a boundary that begins at this byte, behind its keyword, behind those that are there. Points are
/// in nm.
pub fn add_outlines(
    alloc: Global,
    unit: Unit,
    outline: &mut Areas,
    at: u32,
    args: Cursor<'_>,
) -> Result<(), ReadWhy>
    ensures read { Gives (λ _. outline.new) result (outlines_of unit outline.old at (forest args.entry)) }
    // What is put there are the areas of the boundary, and those of a boundary are put there.
    ensures found { IfOk result (λ _. Adds (IsBoundary unit (forest args.entry)) outline.old outline.new) }
    ensures only { (areas : List (List Pt)) → IsBoundary unit (forest args.entry) areas → Gives (λ _. outline.new) result (Ok (outline.old ++ areas)) }
    // What is told is the fault, and a fault is told.
    ensures fault { IfErr result (IsWhy (BoundaryFault unit at (forest args.entry))) }
    ensures first { (e : DesignFault) → BoundaryFault unit at (forest args.entry) e → Gives (λ _. outline.new) result (Err e) }
{
    boundary(alloc, unit, outline, at, args)
}

#[tactic(auto, unfolding(crate::specs::Outlines::outlines_of))]
fn boundary(
    alloc: Global,
    unit: Unit,
    outline: &mut Areas,
    at: u32,
    args: Cursor<'_>,
) -> Result<(), ReadWhy>
    ensures { Gives (λ _. outline.new) result (outlines_of unit outline.old at (forest args.entry)) }
{
    match front(args) {
        Part::End => Err(refused(DesignKind::Form, at)),
        Part::Word { at, .. } => Err(refused(DesignKind::Form, at)),
        Part::List { .. } => add_each(alloc, unit, outline, args),
    }
}
