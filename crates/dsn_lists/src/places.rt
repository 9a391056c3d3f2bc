//! Pairs of coordinates.
ghost use Rattle.std.specs.Prelude.{◌≡◌, ◌≤◌, IfOk, OnOk, IfSome, unsigned_abs};
ghost use Rattle.std.specs.List.{AllByRecursion};
ghost use Rattle.sexp_text.specs.Shows.{forest};
ghost use Rattle.seg_geometry.specs.Points.{IsInRange};
ghost use Rattle.dsn_lists.specs.Results.{Gives};
ghost use Rattle.dsn_lists.specs.Places.{with_one, no_coordinates, coordinates};

use crate::faults::ReadWhy;
use crate::lengths::length_at;
use crate::words::Found;
use row_lists::Row;
use seg_geometry::{Points, Pt};
use sexp_text::{Cursor, Part, Unit, front};
use std::alloc::{AllocError, Global};

/// Coordinates in nm: points, and the x of a point whose y is missing.
#[derive(Debug, Drop)]
pub struct Coordinates {
    pub points: Points,
    pub half: Option<i64>,
}

fn put_one(c: &mut Coordinates, length: i64) -> Result<(), AllocError>
    ensures { OnOk result (c.new ≡ with_one c.old length) }
{
    match c.half {
        None => {
            c.half = Some(length);
            Ok(())
        }
        Some(x) => {
            c.points.push(Pt { x, y: length })?;
            c.half = None;
            Ok(())
        }
    }
}

/// Puts the coordinates up to a list or the end behind those that are there, and gives what follows.
#[tactic(auto, unfolding(crate::specs::Places::coordinates))]
pub fn add_coordinates<'a>(
    unit: Unit,
    c: &mut Coordinates,
    list: Cursor<'a>,
) -> Result<Cursor<'a>, ReadWhy>
    ensures { Gives (λ rest. (c.new, forest rest)) result (coordinates unit c.old (forest list.entry)) }
{
    let mut rest = list;
    'words: loop {
        match front(rest) {
            Part::Word {
                at,
                text,
                rest: after,
            } => {
                let length = length_at(unit, Found { at, text })?;
                put_one(c, length)?;
                rest = after;
            }
            _ => return Ok(rest),
        }
    }
}

/// The coordinates up to a list or the end, and what follows.
pub fn coordinates_at(
    alloc: Global,
    unit: Unit,
    list: Cursor<'_>,
) -> Result<(Coordinates, Cursor<'_>), ReadWhy>
    ensures { Gives (λ x. (x.0, forest x.1)) result (coordinates unit no_coordinates (forest list.entry)) }
{
    let mut c = Coordinates {
        points: Row::new(alloc),
        half: None,
    };
    let rest = add_coordinates(unit, &mut c, list)?;
    Ok((c, rest))
}
