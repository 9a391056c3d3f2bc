//! The worked case, and answers beside those of a scan.

use crate::scan::Scan;
use crate::thrown::{thrown, thrown_rect};
use grid_index::Grid;
use seg_geometry::{Near, Pt, Rect};
use std::process::Abort;
use std::test::Fail;

fn square(from: i64, to: i64) -> Rect {
    Rect {
        lo: Pt { x: from, y: from },
        hi: Pt { x: to, y: to },
    }
}

// By hand: the squares share one corner.
fn tells_what_touches<N: Near>(rt: &impl Abort, near: &mut N, name: &str) -> Result<(), Fail> {
    let asked = square(10, 20);
    near.insert(7, 0, square(0, 10))?;
    for (layer, want) in [(0, [7].as_slice()), (1, [].as_slice())] {
        let ids = near.query(layer, asked)?;
        assert_eq!(rt; ids.as_slice(), want, "{name}, layer {layer}");
    }
    near.remove(7);
    for layer in [0, 1] {
        let ids = near.query(layer, asked)?;
        assert_eq!(rt;
            ids.as_slice(),
            [].as_slice(),
            "{name}, layer {layer}, removed"
        );
    }
    Ok(())
}

#[test]
fn squares_that_touch_at_a_corner_are_near(rt: HostRuntime) -> Result<(), Fail> {
    tells_what_touches(&rt, &mut Grid::new(rt.alloc())?, "grid")?;
    tells_what_touches(&rt, &mut Scan::new(rt.alloc()), "scan")
}

// How many rectangles are put in, and how many of the 64 bits of a number their places and sides lack.
struct Kind {
    count: u32,
    place: u32,
    size: u32,
}

// Puts one rectangle into both, and now and then takes an id out of both.
fn change_both<N: Near, M: Near>(
    one: &mut N,
    other: &mut M,
    state: &mut u64,
    kind: &Kind,
) -> Result<(), Fail> {
    let id = (thrown(state) % 700) as u32;
    let layer = (thrown(state) % 3) as u8;
    let rect = thrown_rect(state, kind.place, kind.size);
    one.insert(id, layer, rect)?;
    other.insert(id, layer, rect)?;
    if thrown(state) % 16 == 0 {
        let gone = (thrown(state) % 700) as u32;
        one.remove(gone);
        other.remove(gone);
    }
    Ok(())
}

// Goes on with both, and compares an answer at each twentieth step. How many ids were told.
fn agree_over<N: Near, M: Near>(
    rt: &impl Abort,
    one: &mut N,
    other: &mut M,
    kind: &Kind,
) -> Result<usize, Fail> {
    let mut state = 5;
    let mut told = 0usize;
    for step in 0..kind.count {
        change_both(one, other, &mut state, kind)?;
        if step % 20 == 0 {
            let layer = (thrown(&mut state) % 3) as u8;
            let asked = thrown_rect(&mut state, kind.place, kind.size);
            let found = one.query(layer, asked)?;
            let want = other.query(layer, asked)?;
            assert_eq!(rt;
                found.as_slice(),
                want.as_slice(),
                "step {step}, layer {layer}, {asked:?}"
            );
            told = told.saturating_add(found.len());
        }
    }
    Ok(told)
}

// 10,000 rectangles: in 8 mm with sides up to 16 mm, in 1 mm with sides up to 1 mm, and two kinds with sides up to
// the whole range.
const KINDS: [Kind; 4] = [
    Kind {
        count: 4_000,
        place: 41,
        size: 40,
    },
    Kind {
        count: 2_000,
        place: 44,
        size: 44,
    },
    Kind {
        count: 2_000,
        place: 34,
        size: 0,
    },
    Kind {
        count: 2_000,
        place: 0,
        size: 0,
    },
];

#[test]
fn a_grid_answers_as_a_scan(rt: HostRuntime) -> Result<(), Fail> {
    let mut grid = Grid::new(rt.alloc())?;
    let mut scan = Scan::new(rt.alloc());
    for kind in &KINDS {
        let told = agree_over(&rt, &mut grid, &mut scan, kind)?;
        assert!(rt; told > 20, "{told}");
    }
    Ok(())
}
