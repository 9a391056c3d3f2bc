//! Rectangles that look as if they were thrown, the same ones at each run.

use seg_geometry::{Pt, Rect};

/// A number that looks as if it were thrown, and the next state.
pub fn thrown(state: &mut u64) -> u64 {
    *state = state
        .wrapping_mul(6_364_136_223_846_793_005)
        .wrapping_add(1_442_695_040_888_963_407);
    let mixed = *state ^ (*state >> 29);
    mixed.wrapping_mul(0xbf58_476d_1ce4_e5b9) ^ (mixed >> 32)
}

// A coordinate with the 64 bits of a number but `less`, in nm.
fn coordinate(state: &mut u64, less: u32) -> i64 {
    thrown(state).cast_signed() >> (less % 64)
}

// The end of a range from `low` whose length has at most the 64 bits of a number but `less`, in nm. Any length down to
// 0 comes.
fn end_of(state: &mut u64, low: i64, less: u32) -> i64 {
    let bits = 64u64.saturating_sub(u64::from(less));
    let dropped = u64::from(less).saturating_add(thrown(state) % bits.saturating_add(1));
    let length = thrown(state).checked_shr(dropped as u32).unwrap_or(0);
    low.saturating_add_unsigned(length)
}

/// A rectangle whose coordinates have `place` bits less than 64, and whose sides have up to `size` bits less. One of
/// sixteen lies inside out and holds no point.
pub fn thrown_rect(state: &mut u64, place: u32, size: u32) -> Rect {
    let lo = Pt {
        x: coordinate(state, place),
        y: coordinate(state, place),
    };
    let hi = Pt {
        x: end_of(state, lo.x, size),
        y: end_of(state, lo.y, size),
    };
    if thrown(state) % 16 == 0 {
        return Rect { lo: hi, hi: lo };
    }
    Rect { lo, hi }
}
