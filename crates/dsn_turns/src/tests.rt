//! Turns and moves that were worked by hand.

use crate::{Flip, Motion, moved_shapes, turn};
use area_geometry::{Core, Shape, Shapes};
use seg_geometry::{Points, Pt};
use std::alloc::{AllocError, Global};
use std::test::Fail;

fn pt(x: i64, y: i64) -> Pt {
    Pt { x, y }
}

// An odd turn of (1000, 400) has root(600) = 424 and root(1400) = 989, since 2 * 424 * 424 <= 600 * 600 < 2 * 425 * 425.
#[test]
fn a_point_is_turned_by_eighths(rt: HostRuntime) {
    let plain = [
        (1000, 400),
        (424, 989),
        (-400, 1000),
        (-989, 424),
        (-1000, -400),
        (-424, -989),
        (400, -1000),
        (989, -424),
    ];
    let before = [
        (-1000, 400),
        (-989, -424),
        (-400, -1000),
        (424, -989),
        (1000, -400),
        (989, 424),
        (400, 1000),
        (-424, 989),
    ];
    for (flip, rows) in [(Flip::Plain, plain), (Flip::Before, before)] {
        for (i, (x, y)) in rows.iter().enumerate() {
            let told = turn(pt(1000, 400), i as u8, flip);
            assert_eq!(rt; told, Some(pt(*x, *y)), "{flip:?} by {i}");
        }
    }
    for (eighths, x, y) in [
        (0, -1000, 400),
        (1, -424, 989),
        (2, 400, 1000),
        (3, 989, 424),
        (4, 1000, -400),
        (5, 424, -989),
        (6, -400, -1000),
        (7, -989, -424),
        (8, -1000, 400),
        (255, -989, -424),
    ] {
        let told = turn(pt(1000, 400), eighths, Flip::After);
        assert_eq!(rt; told, Some(pt(x, y)), "after by {eighths}");
    }
}

#[test]
fn a_turn_is_rounded_towards_zero_and_keeps_in_range(rt: HostRuntime) {
    let most = 1_000_000_000;
    let rows = [
        (pt(1_000_000, 0), 1, Some(pt(707_106, 707_106))),
        (pt(1_000_000, 0), 3, Some(pt(-707_106, 707_106))),
        (pt(1, 0), 1, Some(pt(0, 0))),
        (pt(2, 0), 1, Some(pt(1, 1))),
        (pt(-2, 0), 1, Some(pt(-1, -1))),
        (pt(3, 0), 1, Some(pt(2, 2))),
        (pt(-1, -1), 1, Some(pt(0, -1))),
        (pt(most, -most), 2, Some(pt(most, most))),
        (pt(most, most), 1, None),
        (pt(most + 1, 0), 0, None),
        (pt(0, -most - 1), 4, None),
        (pt(most + 1, 0), 1, Some(pt(707_106_781, 707_106_781))),
        (pt(i64::MIN, i64::MIN), 1, None),
        (pt(i64::MIN, i64::MAX), 3, None),
    ];
    for (p, eighths, want) in rows {
        let told = turn(p, eighths, Flip::Plain);
        assert_eq!(rt; told, want, "{p:?} by {eighths}");
    }
    let far = turn(pt(i64::MIN, i64::MIN), 1, Flip::Before);
    assert_eq!(rt; far, None, "the farthest point");
}

// A square on layer 1 and a wire on layer 3.
fn square_and_wire(alloc: Global) -> Result<Shapes, AllocError> {
    let mut shapes = Shapes::new(alloc);
    let corners = [pt(0, 0), pt(100, 0), pt(100, 100), pt(0, 100)];
    shapes.push(Shape {
        layer: 1,
        core: Core::Area(Points::from_slice(alloc, &corners)?),
        width: 0,
    })?;
    let ends = [pt(0, 0), pt(7, 0)];
    shapes.push(Shape {
        layer: 3,
        core: Core::Chain(Points::from_slice(alloc, &ends)?),
        width: 9,
    })?;
    Ok(shapes)
}

fn area_of(shape: &Shape) -> Option<&[Pt]> {
    match &shape.core {
        Core::Area(points) => Some(points.as_slice()),
        Core::Chain(_) => None,
    }
}

fn chain_of(shape: &Shape) -> Option<&[Pt]> {
    match &shape.core {
        Core::Chain(points) => Some(points.as_slice()),
        Core::Area(_) => None,
    }
}

#[test]
fn shapes_are_led_through_two_steps(rt: HostRuntime) -> Result<(), Fail> {
    let shapes = square_and_wire(rt.alloc())?;
    let steps = [
        Motion {
            eighths: 2,
            flip: Flip::Plain,
            by: pt(10, 20),
        },
        Motion {
            eighths: 0,
            flip: Flip::After,
            by: pt(0, 5),
        },
    ];
    let corners = [pt(-10, 25), pt(-10, 125), pt(90, 125), pt(90, 25)];
    let ends = [pt(-10, 25), pt(-10, 32)];
    for (over, first, second) in [(None, 1, 3), (Some(4), 2, 0)] {
        let moved = moved_shapes(rt.alloc(), &steps, over, shapes.as_slice())?;
        let moved = moved.expect(&rt, "the shapes are in range");
        assert_eq!(rt; moved.len(), 2, "as many shapes");
        let square = moved.get(0);
        let wire = moved.get(1);
        assert_eq!(rt; (square.layer, square.width), (first, 0), "the square");
        assert_eq!(rt; area_of(square), Some(corners.as_slice()), "its corners");
        assert_eq!(rt; (wire.layer, wire.width), (second, 9), "the wire");
        assert_eq!(rt; chain_of(wire), Some(ends.as_slice()), "its ends");
    }
    Ok(())
}

fn is_led(alloc: Global, steps: &[Motion], p: Pt) -> Result<bool, AllocError> {
    let mut shapes = Shapes::new(alloc);
    shapes.push(Shape {
        layer: 0,
        core: Core::Chain(Points::from_slice(alloc, &[p])?),
        width: 9,
    })?;
    Ok(moved_shapes(alloc, steps, None, shapes.as_slice())?.is_some())
}

#[test]
fn a_point_out_of_range_on_the_way_is_refused(rt: HostRuntime) -> Result<(), Fail> {
    let most = 1_000_000_000;
    let step = |eighths: u8, x: i64, y: i64| Motion {
        eighths,
        flip: Flip::Plain,
        by: Pt { x, y },
    };
    let steps = [step(0, 1, 0), step(0, -1, 0), step(1, 0, -most)];
    assert_eq!(rt;
        is_led(rt.alloc(), &steps[..2], pt(most - 1, 0))?,
        true,
        "in range"
    );
    assert_eq!(rt;
        is_led(rt.alloc(), &steps[..2], pt(most, 0))?,
        false,
        "after a move"
    );
    assert_eq!(rt;
        is_led(rt.alloc(), &steps[2..], pt(0, most))?,
        true,
        "in range"
    );
    assert_eq!(rt;
        is_led(rt.alloc(), &steps[2..], pt(most, most))?,
        false,
        "after a turn"
    );
    assert_eq!(rt;
        is_led(rt.alloc(), &steps[..0], pt(most + 1, 0))?,
        true,
        "no step"
    );
    Ok(())
}
