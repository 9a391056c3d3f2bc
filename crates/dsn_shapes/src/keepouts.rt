//! Keepouts.
ghost use Rattle.std.specs.Prelude.{◌≡◌, List, Ok, Err, IfOk, IfErr};
ghost use Rattle.sexp_text.specs.Shows.{forest};
ghost use Rattle.dsn_lists.specs.Results.{Tells, Gives, each};
ghost use Rattle.area_geometry.specs.declared.shapes.Shape.{Shape};
ghost use Rattle.dsn_shapes.specs.Keepouts.{keep_kind, after_item, kept_of, behind_id, keep_shapes};
ghost use Rattle.dsn_shapes.specs.KeepLists.{IsKeepout, KeepoutFault};
ghost use Rattle.dsn_shapes.specs.Whys.{IsWhy};

use crate::drawn::{ShapeWord, shape_word, shapes_at};
use area_geometry::Shapes;
use board_items::KeepKind;
use dsn_lists::{
    DesignFault, DesignKind, NameSet, ReadWhy, fault, is_word, next_list, opening, refused,
};
use sexp_text::{Cursor, Part, Unit, front};
use std::alloc::Global;

/// What a keepout of this keyword bars; none for a word that begins no keepout.
#[tactic(auto, unfolding(crate::specs::Keepouts::keep_kind))]
pub fn keep_kind(text: &[u8]) -> Option<KeepKind>
    ensures read { result ≡ keep_kind text.now }
{
    if is_word(text, b"keepout") {
        return Some(KeepKind::All);
    }
    if is_word(text, b"via_keepout") {
        return Some(KeepKind::Vias);
    }
    if is_word(text, b"wire_keepout") {
        return Some(KeepKind::Wires);
    }
    None
}

// A list behind the shape of a keepout isn't a second shape.
#[tactic(auto, unfolding(crate::specs::Keepouts::after_item))]
fn read_after(at: u32, inside: Cursor<'_>) -> Result<(), DesignFault>
    ensures { Tells (λ x. x) result (after_item tt at (forest inside.entry)) }
{
    let head = opening(inside);
    match shape_word(head.text) {
        ShapeWord::Circle => Err(fault(DesignKind::Form, at)),
        ShapeWord::Path => Err(fault(DesignKind::Form, at)),
        ShapeWord::Rect => Err(fault(DesignKind::Form, at)),
        ShapeWord::Polygon => Err(fault(DesignKind::Form, at)),
        ShapeWord::Arc => Err(fault(DesignKind::Arc, head.at)),
        ShapeWord::Polyline => Err(fault(DesignKind::Polyline, head.at)),
        ShapeWord::Window => Err(fault(DesignKind::Window, head.at)),
        ShapeWord::Other => Ok(()),
    }
}

#[tactic(auto, unfolding(dsn_lists::specs::Results::each))]
fn read_behind(list: Cursor<'_>) -> Result<(), DesignFault>
    ensures { Tells (λ x. x) result (each after_item tt (forest list.entry)) }
{
    let mut rest = list;
    'lists: while let Some((at, inside, after)) = next_list(rest)? {
        read_after(at, inside)?;
        rest = after;
    }
    Ok(())
}

#[tactic(auto, unfolding(crate::specs::Keepouts::kept_of))]
fn kept_at(
    alloc: Global,
    unit: Unit,
    layers: &NameSet,
    at: u32,
    list: Cursor<'_>,
) -> Result<Shapes, ReadWhy>
    ensures { Gives (λ ss. ss) result (kept_of unit layers.now at (forest list.entry)) }
{
    match front(list) {
        Part::End => Err(refused(DesignKind::Form, at)),
        Part::Word { at, .. } => Err(refused(DesignKind::Form, at)),
        Part::List { at, inside, rest } => {
            let shapes = shapes_at(alloc, unit, layers, at, inside)?;
            read_behind(rest)?;
            Ok(shapes)
        }
    }
}

#[tactic(auto, unfolding(crate::specs::Keepouts::behind_id))]
fn behind_id(args: Cursor<'_>) -> Cursor<'_>
    ensures { forest result ≡ behind_id (forest args.entry) }
{
    match front(args) {
        Part::Word { rest, .. } => rest,
        _ => args,
    }
}

/// The shapes of a keepout that begins at this byte, behind its keyword, in nm. A word that stands first is its id.
pub fn keep_at(
    alloc: Global,
    unit: Unit,
    layers: &NameSet,
    at: u32,
    args: Cursor<'_>,
) -> Result<Shapes, ReadWhy>
    ensures read { Gives (λ ss. ss) result (keep_shapes unit layers.now at (forest args.entry)) }
    // What is read are the shapes of the keepout, and a keepout is read.
    ensures found { IfOk result (λ ss. IsKeepout unit layers.now (forest args.entry) ss) }
    ensures only { (ss : List Shape) → IsKeepout unit layers.now (forest args.entry) ss → Gives (λ ss. ss) result (Ok ss) }
    // What is told is the fault, and a fault is told.
    ensures fault { IfErr result (IsWhy (KeepoutFault unit layers.now at (forest args.entry))) }
    ensures first { (e : DesignFault) → KeepoutFault unit layers.now at (forest args.entry) e → Gives (λ ss. ss) result (Err e) }
{
    keepout(alloc, unit, layers, at, args)
}

#[tactic(auto, unfolding(crate::specs::Keepouts::keep_shapes))]
fn keepout(
    alloc: Global,
    unit: Unit,
    layers: &NameSet,
    at: u32,
    args: Cursor<'_>,
) -> Result<Shapes, ReadWhy>
    ensures { Gives (λ ss. ss) result (keep_shapes unit layers.now at (forest args.entry)) }
{
    kept_at(alloc, unit, layers, at, behind_id(args))
}
