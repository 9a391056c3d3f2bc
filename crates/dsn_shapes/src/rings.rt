//! Rectangles, and rings of points, behind the word of their layer.
ghost use Rattle.std.specs.Prelude.{◌≡◌, ◌<◌, length, IsTrue, IfOk};
ghost use Rattle.sexp_text.specs.Shows.{forest};
ghost use Rattle.dsn_lists.specs.Results.{Tells, Gives};
ghost use Rattle.dsn_shapes.specs.Rings.{is_same_point, is_closed, opened, as_ring, ring_of, corner_of, corners, rect_of};

use dsn_lists::{
    Coordinates, DesignFault, DesignKind, ReadWhy, coordinates_at, length_at, read_trail, refused,
    width_at, word_at,
};
use row_lists::Row;
use seg_geometry::{Points, Pt};
use sexp_text::{Cursor, Unit};
use std::alloc::{AllocError, Global};

/// The aperture and the points of a ring, in nm. The first point doesn't come again behind the last.
#[derive(Debug, Drop)]
pub struct Ring {
    pub width: u32,
    pub points: Points,
}

fn is_same_point(p: &Pt, q: &Pt) -> bool
    ensures { result ≡ is_same_point p.now q.now }
{
    p.x == q.x && p.y == q.y
}

#[tactic(auto, unfolding(crate::specs::Rings::is_closed))]
fn is_closed(points: &[Pt]) -> bool
    ensures closed { result ≡ is_closed points.now }
    ensures some { IsTrue result → 1 < length points.now }
{
    if points.len() < 2 {
        return false;
    }
    is_same_point(&points[0], &points[points.len() - 1])
}

/// The points without a last one that is the first again.
#[tactic(auto, unfolding(crate::specs::Rings::opened))]
pub fn open_ring(alloc: Global, points: Points) -> Result<Points, AllocError>
    ensures { IfOk result (λ ps. ps ≡ opened points) }
{
    if !is_closed(points.as_slice()) {
        return Ok(points);
    }
    Row::from_slice(alloc, &points.as_slice()[..points.len() - 1])
}

#[tactic(auto, unfolding(crate::specs::Rings::as_ring))]
fn whole_ring(alloc: Global, at: u32, width: u32, c: Coordinates) -> Result<Ring, ReadWhy>
    ensures { Gives (λ x. x) result (as_ring at width c) }
{
    let Coordinates { points, half } = c;
    let points = open_ring(alloc, points)?;
    if half.is_some() || points.len() < 3 {
        return Err(refused(DesignKind::Points, at));
    }
    Ok(Ring { width, points })
}

/// The aperture and the points of a ring whose list begins at this byte, behind the word of its layer.
#[tactic(auto, unfolding(crate::specs::Rings::ring_of))]
pub fn ring_at(alloc: Global, unit: Unit, at: u32, list: Cursor<'_>) -> Result<Ring, ReadWhy>
    ensures { Gives (λ x. x) result (ring_of unit at (forest list.entry)) }
{
    let (word, rest) = word_at(at, list)?;
    let width = width_at(unit, word)?;
    let (c, after) = coordinates_at(alloc, unit, rest)?;
    read_trail(after)?;
    whole_ring(alloc, at, width, c)
}

#[tactic(auto, unfolding(crate::specs::Rings::corner_of, dsn_lists::specs::Shapes::point_of))]
fn corner_at(unit: Unit, at: u32, list: Cursor<'_>) -> Result<(Pt, Cursor<'_>), DesignFault>
    ensures { Tells (λ x. (x.0, forest x.1)) result (corner_of unit at (forest list.entry)) }
{
    let (first, behind) = word_at(at, list)?;
    let x = length_at(unit, first)?;
    let (second, rest) = word_at(at, behind)?;
    let y = length_at(unit, second)?;
    Ok((Pt { x, y }, rest))
}

// The corners of a rectangle, of which these are two that face each other, from the first one round.
fn corners(alloc: Global, p: Pt, q: Pt) -> Result<Points, AllocError>
    ensures { IfOk result (λ ps. ps ≡ corners p q) }
{
    let round = [p, Pt { x: q.x, y: p.y }, q, Pt { x: p.x, y: q.y }];
    Row::from_slice(alloc, &round)
}

/// The corners of a rectangle whose list begins at this byte, in nm, behind the word of its layer.
#[tactic(auto, unfolding(crate::specs::Rings::rect_of))]
pub fn rect_at(alloc: Global, unit: Unit, at: u32, list: Cursor<'_>) -> Result<Points, ReadWhy>
    ensures { Gives (λ x. x) result (rect_of unit at (forest list.entry)) }
{
    let (p, rest) = corner_at(unit, at, list)?;
    let (q, after) = corner_at(unit, at, rest)?;
    read_trail(after)?;
    Ok(corners(alloc, p, q)?)
}
