//! Points, segments and lists of them, with coordinates in nanometres.
ghost use Rattle.std.specs.Prelude.{◌≡◌, ◌↔◌, IsTrue};
ghost use Rattle.seg_geometry.specs.Points.{IsInRange};

use row_lists::{COORDINATE_LIMIT_NM, Copied, Row};
use std::alloc::AllocError;

/// A point with whole coordinates, in nanometres.
#[derive(Clone, Copy, Debug, PartialEq, Eq)]
pub struct Pt {
    pub x: i64,
    pub y: i64,
}

/// The segment from `a` to `b`, with both ends. They may be one point.
#[derive(Clone, Copy, Debug, PartialEq, Eq)]
pub struct Seg {
    pub a: Pt,
    pub b: Pt,
}

impl Copied for Pt {
    fn copied(&self) -> Result<Pt, AllocError> {
        Ok(*self)
    }
}

/// A list of points.
pub type Points = Row<Pt>;

/// A list of numbers of items or boundaries.
pub type Ids = Row<u32>;

/// Whether both coordinates are at most 1,000,000,000 nm from 0.
pub fn in_range(p: Pt) -> bool
    ensures { IsTrue result ↔ IsInRange p }
{
    p.x.unsigned_abs() <= COORDINATE_LIMIT_NM && p.y.unsigned_abs() <= COORDINATE_LIMIT_NM
}
