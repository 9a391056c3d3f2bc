ghost use Rattle.std.specs.Prelude.{◌≡◌, ◌<◌};

use crate::{
    Core, Shape, ShapeView, Shapes, box_of, inside, is_within_limits, lies_within, points_of,
    shape_keeps, touches,
};
use seg_geometry::{Points, Pt, Rect, Steps, in_range};
use std::marker::Brand;
use std::sync::ledger::{Blank, Ledger};
use std::test::Fail;

fn pt(x: i64, y: i64) -> Pt
    ensures x { result.x ≡ x }
    ensures y { result.y ≡ y }
{
    Pt { x, y }
}

fn chain(points: &[Pt], width: u32) -> ShapeView<'_> {
    ShapeView {
        layer: 0,
        area: false,
        points,
        width,
        at: pt(0, 0),
    }
}

fn area(points: &[Pt], width: u32) -> ShapeView<'_> {
    ShapeView {
        area: true,
        ..chain(points, width)
    }
}

fn moved_to(s: ShapeView<'_>, x: i64, y: i64) -> ShapeView<'_> {
    ShapeView { at: pt(x, y), ..s }
}

/// What `shape_keeps` answers, or None where its condition isn't met.
fn keeps<L: Ledger>(s: ShapeView<'_>, t: ShapeView<'_>, c: u32, blank: Blank) -> Option<bool>
    requires name { blank.name ≡ L.name }
    requires parts { blank.parts ≡ L.parts }
    requires some { 0 < blank.parts }
{
    let mut steps = Steps::<L>::new(blank);
    if is_within_limits(s) && is_within_limits(t) && c <= 100_000_000 {
        return Some(shape_keeps(s, t, c, &mut steps));
    }
    None
}

/// What `touches` answers, or None where its condition isn't met.
fn reaches<L: Ledger>(s: ShapeView<'_>, ring: &[Pt], blank: Blank) -> Option<bool>
    requires name { blank.name ≡ L.name }
    requires parts { blank.parts ≡ L.parts }
    requires some { 0 < blank.parts }
{
    let mut steps = Steps::<L>::new(blank);
    if is_within_limits(s) && ring.iter().all(|p| in_range(*p)) {
        return Some(touches(s, ring, &mut steps));
    }
    None
}

/// What `lies_within` answers, or None where its condition isn't met.
fn keeps_within<L: Ledger>(s: ShapeView<'_>, ring: &[Pt], blank: Blank) -> Option<bool>
    requires name { blank.name ≡ L.name }
    requires parts { blank.parts ≡ L.parts }
    requires some { 0 < blank.parts }
{
    let mut steps = Steps::<L>::new(blank);
    if is_within_limits(s) && ring.iter().all(|p| in_range(*p)) {
        return Some(lies_within(s, ring, &mut steps));
    }
    None
}

/// What `inside` answers, or None where its condition isn't met.
fn lies_inside(p: Pt, ring: &[Pt]) -> Option<bool> {
    if in_range(p) && ring.iter().all(|q| in_range(*q)) {
        return Some(inside(p, ring));
    }
    None
}

// By hand: how many edges the ray from the point towards greater x crosses.
#[test]
fn a_corner_counts_once(rt: HostRuntime) {
    let square = [pt(0, 0), pt(10, 0), pt(10, 10), pt(0, 10)];
    for (v, want) in [
        (pt(5, 5), true),
        (pt(0, 0), true),
        (pt(10, 0), false),
        (pt(10, 10), false),
        (pt(0, 10), false),
        (pt(5, 0), true),
        (pt(5, 10), false),
        (pt(0, 5), true),
        (pt(10, 5), false),
        (pt(-1, 5), false),
        (pt(-1, 0), false),
        (pt(5, -1), false),
    ] {
        assert_eq!(rt; lies_inside(v, &square), Some(want), "{v:?} in the square");
    }
    let arrow = [pt(0, 0), pt(4, 4), pt(0, 8)];
    for (v, want) in [
        (pt(2, 4), true),
        (pt(-1, 4), false),
        (pt(4, 4), false),
        (pt(5, 4), false),
        (pt(3, 3), false),
        (pt(2, 3), true),
    ] {
        assert_eq!(rt; lies_inside(v, &arrow), Some(want), "{v:?} in the arrow");
    }
    let half = [
        pt(-1_000_000_000, -1_000_000_000),
        pt(1_000_000_000, -1_000_000_000),
        pt(1_000_000_000, 1_000_000_000),
    ];
    for (v, want) in [(pt(-1, 0), false), (pt(0, 0), true), (pt(1, 0), true)] {
        assert_eq!(rt; lies_inside(v, &half), Some(want), "{v:?} in the half");
    }
}

// By hand.
#[test]
fn each_shape_keeps_its_clearance_and_no_more(rt: HostRuntime) {
    let track = [pt(0, 0), pt(1_000_000, 0)];
    let above = [pt(0, 450_000), pt(500_000, 450_000), pt(1_000_000, 450_000)];
    let pour = [
        pt(0, 0),
        pt(10_000_000, 0),
        pt(10_000_000, 10_000_000),
        pt(0, 10_000_000),
    ];
    let island = [
        pt(4_000_000, 4_000_000),
        pt(6_000_000, 4_000_000),
        pt(5_000_000, 6_000_000),
    ];
    let fence = [
        pt(0, 0),
        pt(10_000_000, 0),
        pt(10_000_000, 10_000_000),
        pt(0, 10_000_000),
        pt(0, 0),
    ];
    let hole = [pt(5_000_000, 5_000_000)];
    let one = chain(&track, 250_000);
    let other = chain(&above, 250_000);
    let filled = area(&pour, 0);
    let beside = moved_to(filled, 10_000_100, 0);
    let wide = moved_to(area(&pour, 50), 10_000_100, 0);
    let other_layer = ShapeView {
        layer: 1,
        ..chain(&hole, 100)
    };
    for (s, t, c, want) in [
        (one, other, 200_000, true),
        (one, other, 200_001, false),
        (one, moved_to(one, 0, 450_000), 200_000, true),
        (one, moved_to(one, 0, 449_999), 200_000, false),
        (filled, chain(&hole, 100), 0, false),
        (filled, other_layer, 0, true),
        (filled, moved_to(chain(&hole, 100), 10_000_000, 0), 0, true),
        (filled, area(&island, 0), 0, false),
        (chain(&fence, 0), area(&island, 0), 1_000_000, true),
        (filled, moved_to(filled, 10_000_000, 0), 0, true),
        (filled, moved_to(filled, 10_000_000, 0), 1, false),
        (filled, beside, 100, true),
        (filled, beside, 101, false),
        (filled, wide, 75, true),
        (filled, wide, 76, false),
    ] {
        assert_eq!(rt;
            keeps::<Brand>(s, t, c, Blank::new(1)),
            Some(want),
            "{s:?} {t:?} at {c}"
        );
        assert_eq!(rt;
            keeps::<Brand>(t, s, c, Blank::new(1)),
            Some(want),
            "{t:?} {s:?} at {c}"
        );
    }
}

// By hand.
#[test]
fn shapes_touch_what_they_reach(rt: HostRuntime) -> Result<(), Fail> {
    let pour = [pt(0, 0), pt(10, 0), pt(10, 10), pt(0, 10)];
    let spot = [pt(0, 0)];
    for (x, width, want) in [
        (5, 0, true),
        (10, 0, true),
        (11, 0, false),
        (11, 1, true),
        (12, 1, false),
    ] {
        let shape = moved_to(chain(&spot, width), x, 5);
        assert_eq!(rt;
            reaches::<Brand>(shape, &pour, Blank::new(1)),
            Some(want),
            "at {x} with width {width}"
        );
    }
    let mut shapes = Shapes::new(rt.alloc());
    shapes.push(Shape {
        layer: 3,
        core: Core::Chain(Points::from_slice(rt.alloc(), &spot)?),
        width: 7,
    })?;
    let copied = shapes.copy()?;
    assert_eq!(rt; copied.len(), 1, "the length of a copied list");
    let core = &copied.get(0).core;
    assert_eq!(rt; points_of(core).len(), 1, "the points of a copied shape");
    for (x, want) in [(14, true), (15, false)] {
        let shape = copied.get(0).view(pt(x, 5));
        assert_eq!(rt; shape.layer, 3, "the layer of a copied shape");
        assert_eq!(rt;
            reaches::<Brand>(shape, &pour, Blank::new(1)),
            Some(want),
            "a copied shape at {x}"
        );
    }
    Ok(())
}

// By hand: a wire of width w lies within where its core is inside and 2 d >= w + 2 for its distance d from each edge.
#[test]
fn shapes_lie_within_what_they_keep_from(rt: HostRuntime) {
    let outline = [pt(0, 0), pt(1000, 0), pt(1000, 1000), pt(0, 1000)];
    let line = [pt(0, 0), pt(800, 0)];
    for (x, y, width, want) in [
        (100, 51, 100, true),
        (100, 50, 100, false),
        (149, 500, 100, true),
        (150, 500, 100, false),
        (100, 949, 100, true),
        (100, 950, 100, false),
        (51, 500, 100, true),
        (50, 500, 100, false),
        (100, 1, 0, true),
        (100, 0, 0, false),
        (500, 500, 100, false),
        (2000, 500, 100, false),
    ] {
        let wire = moved_to(chain(&line, width), x, y);
        assert_eq!(rt;
            keeps_within::<Brand>(wire, &outline, Blank::new(1)),
            Some(want),
            "at {x} {y} with width {width}"
        );
    }
    let pour = [pt(0, 0), pt(800, 0), pt(800, 998), pt(0, 998)];
    for (x, y, want) in [(1, 1, true), (0, 1, false), (1, 2, false)] {
        let shape = moved_to(area(&pour, 0), x, y);
        assert_eq!(rt;
            keeps_within::<Brand>(shape, &outline, Blank::new(1)),
            Some(want),
            "an area at {x} {y}"
        );
    }
}

/// What `box_of` answers, or None where its condition isn't met.
fn framed(s: ShapeView<'_>, by: u32) -> Option<Rect> {
    if is_within_limits(s) && !s.points.is_empty() && by <= 100_000_000 {
        return Some(box_of(s, by));
    }
    None
}

// By hand: half of 251 nm is 126 nm, rounded up.
#[test]
fn a_box_holds_a_shape_with_half_its_width(rt: HostRuntime) {
    let line = [pt(0, 0), pt(1_000, -2_000), pt(400, -900)];
    let wide = Some(Rect {
        lo: pt(-127, -2_127),
        hi: pt(1_127, 127),
    });
    let placed = Some(Rect {
        lo: pt(9_874, 17_874),
        hi: pt(11_126, 20_126),
    });
    let thin = Some(Rect {
        lo: pt(0, -2_000),
        hi: pt(1_000, 0),
    });
    for (s, by, want, name) in [
        (chain(&line, 251), 1, wide, "a chain, 1 nm more"),
        (
            moved_to(chain(&line, 251), 10_000, 20_000),
            0,
            placed,
            "moved",
        ),
        (area(&line, 0), 0, thin, "an area of no width"),
        (chain(&[], 10), 0, None, "no point"),
    ] {
        assert_eq!(rt; framed(s, by), want, "{name}");
    }
}
