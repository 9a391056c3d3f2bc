//! Ways between points in range, and their products, which fit 64 bits.
ghost use Rattle.std.specs.Prelude.{◌≡◌, ◌≤◌, ◌↔◌, pos, negsuc, ◌+ℤ◌, ◌-ℤ◌, ◌*ℤ◌, ◌<ℤ◌, ◌≤ℤ◌, unsigned_abs};
ghost use Rattle.seg_geometry.specs.Points.{IsInRange, turn_of};

use crate::points::Pt;

/// The way from one point in range to another, in nanometres.
#[derive(Clone, Copy)]
pub struct Vector {
    pub x: i64,
    pub y: i64,
    ghost short_x: { unsigned_abs x ≤ 2000000000 },
    ghost short_y: { unsigned_abs y ≤ 2000000000 },
}

/// The way from `from` to `to`.
pub fn way(from: Pt, to: Pt) -> Vector
    requires from_in { IsInRange from }
    requires to_in { IsInRange to }
    ensures x { result.x ≡ to.x -ℤ from.x }
    ensures y { result.y ≡ to.y -ℤ from.y }
{
    Vector {
        x: to.x - from.x,
        y: to.y - from.y,
    }
}

/// The cross product, in square nanometres.
pub fn cross(u: Vector, v: Vector) -> i64
    ensures value { result ≡ u.x *ℤ v.y -ℤ u.y *ℤ v.x }
    ensures bound { unsigned_abs result ≤ 8000000000000000000 }
{
    u.x * v.y - u.y * v.x
}

/// The dot product, in square nanometres.
pub fn dot(u: Vector, v: Vector) -> i64
    ensures value { result ≡ u.x *ℤ v.x +ℤ u.y *ℤ v.y }
    ensures bound { unsigned_abs result ≤ 8000000000000000000 }
{
    u.x * v.x + u.y * v.y
}
