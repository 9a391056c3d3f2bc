//! Circles and paths behind the word of their layer.
ghost use Rattle.std.specs.Prelude.{◌≡◌, ◌≤◌, IfOk};
ghost use Rattle.sexp_text.specs.Shows.{forest};
ghost use Rattle.dsn_lists.specs.Results.{Tells, Gives, each};
ghost use Rattle.dsn_lists.specs.Words.{marked};
ghost use Rattle.dsn_lists.specs.Shapes.{trail_word, aperture, trail_item, trail, as_path, path_of, point_of, centre_of, circle_of};

use crate::faults::{DesignFault, DesignKind, ReadWhy, fault};
use crate::lengths::{length_at, width_at};
use crate::places::{Coordinates, coordinates_at};
use crate::words::{Found, is_word, next_list, opening, read_over, word_at};
use seg_geometry::{Points, Pt};
use sexp_text::{Cursor, Part, Unit, front};
use std::alloc::Global;

/// The aperture and the points of a path, in nm.
#[derive(Debug, Drop)]
pub struct Path {
    pub width: u32,
    pub points: Points,
}

/// The diameter and the centre of a circle, in nm.
#[derive(Clone, Copy, Debug)]
pub struct Circle {
    pub width: u32,
    pub centre: Pt,
}

// What a list behind the words of a shape is.
#[derive(Clone, Copy, Debug)]
enum TrailWord {
    Window,
    ApertureType,
    Other,
}

#[tactic(auto, unfolding(crate::specs::Shapes::trail_word))]
fn trail_word(text: &[u8]) -> TrailWord
    ensures { result ≡ trail_word text.now }
{
    if is_word(text, b"window") {
        return TrailWord::Window;
    }
    if is_word(text, b"aperture_type") {
        return TrailWord::ApertureType;
    }
    TrailWord::Other
}

#[tactic(auto, unfolding(crate::specs::Shapes::aperture))]
fn read_aperture(at: u32, args: Cursor<'_>) -> Result<(), DesignFault>
    ensures { Tells (λ x. x) result (aperture at (forest args.entry)) }
{
    let (word, rest) = word_at(at, args)?;
    if is_word(word.text, b"square") {
        return Err(fault(DesignKind::Square, word.at));
    }
    read_over(rest)
}

#[tactic(auto, unfolding(crate::specs::Shapes::trail_item))]
fn read_trail_list(at: u32, inside: Cursor<'_>) -> Result<(), DesignFault>
    ensures { Tells (λ x. x) result (trail_item tt at (forest inside.entry)) }
{
    let head = opening(inside);
    match trail_word(head.text) {
        TrailWord::Window => Err(fault(DesignKind::Window, head.at)),
        TrailWord::ApertureType => read_aperture(at, head.args),
        TrailWord::Other => Ok(()),
    }
}

/// Reads the lists behind the words of a shape.
#[tactic(auto, unfolding(crate::specs::Results::each))]
pub fn read_trail(list: Cursor<'_>) -> Result<(), DesignFault>
    ensures { Tells (λ x. x) result (trail (forest list.entry)) }
{
    let mut rest = list;
    'lists: while let Some((at, inside, after)) = next_list(rest)? {
        read_trail_list(at, inside)?;
        rest = after;
    }
    Ok(())
}

#[tactic(auto, unfolding(crate::specs::Shapes::as_path))]
fn whole_path(at: u32, width: u32, c: Coordinates) -> Result<Path, DesignFault>
    ensures { Tells (λ x. x) result (as_path at width c) }
{
    if c.half.is_some() || c.points.len() < 2 {
        return Err(fault(DesignKind::Points, at));
    }
    Ok(Path {
        width,
        points: c.points,
    })
}

/// The aperture and the points of a path whose list begins at this byte, behind the word of its layer.
#[tactic(auto, unfolding(crate::specs::Shapes::path_of))]
pub fn path_at(alloc: Global, unit: Unit, at: u32, list: Cursor<'_>) -> Result<Path, ReadWhy>
    ensures { Gives (λ x. x) result (path_of unit at (forest list.entry)) }
{
    let (word, rest) = word_at(at, list)?;
    let width = width_at(unit, word)?;
    let (c, after) = coordinates_at(alloc, unit, rest)?;
    read_trail(after)?;
    Ok(whole_path(at, width, c)?)
}

/// The point behind the word of its x, in a list that begins at this byte, and what follows.
#[tactic(auto, unfolding(crate::specs::Shapes::point_of))]
pub fn point_at<'a>(
    unit: Unit,
    at: u32,
    word: Found<'a>,
    list: Cursor<'a>,
) -> Result<(Pt, Cursor<'a>), DesignFault>
    ensures { Tells (λ x. (x.0, forest x.1)) result (point_of unit at (marked word.entry) (forest list.entry)) }
{
    let x = length_at(unit, word)?;
    let (second, rest) = word_at(at, list)?;
    let y = length_at(unit, second)?;
    Ok((Pt { x, y }, rest))
}

#[tactic(auto, unfolding(crate::specs::Shapes::centre_of))]
fn centre_at<'a>(unit: Unit, at: u32, list: Cursor<'a>) -> Result<(Pt, Cursor<'a>), DesignFault>
    ensures { Tells (λ x. (x.0, forest x.1)) result (centre_of unit at (forest list.entry)) }
{
    match front(list) {
        Part::Word {
            at: byte,
            text,
            rest,
        } => point_at(unit, at, Found { at: byte, text }, rest),
        _ => Ok((Pt { x: 0, y: 0 }, list)),
    }
}

/// The diameter and the centre of a circle whose list begins at this byte, behind the word of its layer.
#[tactic(auto, unfolding(crate::specs::Shapes::circle_of))]
pub fn circle_at(unit: Unit, at: u32, list: Cursor<'_>) -> Result<Circle, DesignFault>
    ensures { Tells (λ x. x) result (circle_of unit at (forest list.entry)) }
{
    let (word, rest) = word_at(at, list)?;
    let width = width_at(unit, word)?;
    let (centre, after) = centre_at(unit, at, rest)?;
    read_trail(after)?;
    Ok(Circle { width, centre })
}
