//! Which way a path turns, for all points: the products need more than 127 bits.
ghost use Rattle.std.specs.Prelude.{◌≡◌, ◌<◌, ◌^◌, ◌↔◌, pos, negsuc, ◌-ℤ◌, ◌*ℤ◌, ◌<ℤ◌, unsigned_abs, IsTrue};
ghost use Rattle.seg_geometry.specs.Points.{turn_of};
ghost use Rattle.seg_geometry.specs.Products.{signed};

use crate::points::Pt;

// A product by its sign and its size.
#[derive(Clone, Copy)]
struct Product {
    negative: bool,
    size: u128,
    ghost sign: { IsTrue negative → 0 < size },
}

// The product of two numbers of 64 bits and a sign.
fn multiply(u: i128, v: i128) -> Product
    requires first { unsigned_abs u < 2 ^ 64 }
    requires second { unsigned_abs v < 2 ^ 64 }
    ensures { signed result.negative result.size ≡ u *ℤ v }
{
    Product {
        negative: u < 0 && 0 < v || 0 < u && v < 0,
        size: u.unsigned_abs() * v.unsigned_abs(),
    }
}

// How far one coordinate is from another.
fn apart(from: i64, to: i64) -> i128
    ensures way { result ≡ to -ℤ from }
    ensures size { unsigned_abs result < 2 ^ 64 }
{
    i128::from(to) - i128::from(from)
}

// 1 where the first is the greater, -1 where the second is, and 0 where they are equal.
fn order(p: Product, q: Product) -> i8
    ensures more { (result ≡ pos 1) ↔ (signed q.negative q.size <ℤ signed p.negative p.size) }
    ensures less { (result ≡ negsuc 0) ↔ (signed p.negative p.size <ℤ signed q.negative q.size) }
    ensures same { (result ≡ pos 0) ↔ (signed p.negative p.size ≡ signed q.negative q.size) }
{
    if p.negative && !q.negative {
        -1
    } else if !p.negative && q.negative {
        1
    } else if p.size == q.size {
        0
    } else if (p.size < q.size) == p.negative {
        1
    } else {
        -1
    }
}

/// Which way the path a, b, c turns at b: 1 to the left, -1 to the right, 0 neither.
pub fn cross_sign(a: Pt, b: Pt, c: Pt) -> i8
    ensures left { (result ≡ pos 1) ↔ (pos 0 <ℤ turn_of a b c) }
    ensures right { (result ≡ negsuc 0) ↔ (turn_of a b c <ℤ pos 0) }
    ensures straight { (result ≡ pos 0) ↔ (turn_of a b c ≡ pos 0) }
{
    let first = multiply(apart(a.x, b.x), apart(a.y, c.y));
    let second = multiply(apart(a.y, b.y), apart(a.x, c.x));
    order(first, second)
}
