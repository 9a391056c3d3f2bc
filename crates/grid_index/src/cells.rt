//! The cells of a plane: in which one a rectangle stands, and in which ones it is sought.
ghost use Rattle.std.specs.Prelude.{◌≡◌, ◌↔◌, IsTrue, ℕ, ◌+◌, ◌-◌, ◌*◌, ◌<◌, ◌≤◌, ◌/◌, ◌^◌};
ghost use Rattle.grid_index.specs.Cells.{place_of, column_of, key_of, level_count, shift_of, IsFitting};

use seg_geometry::{Pt, Rect};

/// How many sizes of cells there are.
pub const LEVELS: usize = 25;

/// The level from which on a rectangle is tried: cells with sides of 2,097,152 nm. Finer ones are for crowded cells.
pub const USUAL_LEVEL: usize = 3;

// How far a coordinate is from the least one that there is.
fn place_of(x: i64) -> u64
    ensures { result ≡ place_of x }
{
    x.abs_diff(i64::MIN)
}

// The column or row of a coordinate, of cells with sides of 2^shift.
#[tactic(auto, unfolding(crate::specs::Cells::column_of))]
fn column_of(shift: u32, x: i64) -> u64
    requires above { 0 < shift }
    requires below { shift < 64 }
    ensures value { result ≡ column_of shift x }
    ensures small { result < 2 ^ 63 }
{
    place_of(x) >> shift
}

/// The binary logarithm of the sides of cells.
pub fn shift_of(level: usize) -> u32
    requires { level < level_count }
    ensures { result ≡ shift_of level }
{
    15 + 2 * level as u32
}

/// Under which key a cell is found. Cells may share a key.
#[tactic(auto, unfolding(crate::specs::Cells::key_of))]
pub fn key_of(layer: u8, column: u64, row: u64) -> u64
    ensures { result ≡ key_of layer column row }
{
    column
        .wrapping_mul(0xd6e8_feb8_6659_fd93)
        .wrapping_add(row.wrapping_mul(0xc2b2_ae3d_27d4_eb4f))
        .wrapping_add(u64::from(layer))
}

/// The column and row of a point.
pub fn cell_of(shift: u32, p: Pt) -> (u64, u64)
    requires above { 0 < shift }
    requires below { shift < 64 }
    ensures column { result.0 ≡ column_of shift p.x }
    ensures row { result.1 ≡ column_of shift p.y }
{
    (column_of(shift, p.x), column_of(shift, p.y))
}

/// Whether a rectangle reaches no farther than the next column and the next row.
pub fn is_fitting(shift: u32, rect: Rect) -> bool
    requires above { 0 < shift }
    requires below { shift < 64 }
    ensures { IsTrue result ↔ IsFitting shift rect }
{
    column_of(shift, rect.hi.x) <= column_of(shift, rect.lo.x) + 1
        && column_of(shift, rect.hi.y) <= column_of(shift, rect.lo.y) + 1
}

/// The first level, from the usual one on, at which a rectangle reaches no farther than the next column and row.
pub fn level_of(rect: Rect) -> usize
    ensures there { result < level_count }
    ensures fitting { IsFitting (shift_of result) rect }
{
    for level in USUAL_LEVEL..LEVELS - 1 {
        if is_fitting(shift_of(level), rect) {
            return level;
        }
    }
    LEVELS - 1
}

/// The columns or rows in which something that meets the range may stand: from the first to before the second.
pub fn span_of(shift: u32, low: i64, high: i64) -> (u64, u64)
    requires above { 0 < shift }
    requires below { shift < 64 }
    ensures from { result.0 ≡ column_of shift low - 1 }
    ensures to { result.1 ≡ column_of shift high + 1 }
{
    (
        column_of(shift, low).saturating_sub(1),
        column_of(shift, high) + 1,
    )
}
