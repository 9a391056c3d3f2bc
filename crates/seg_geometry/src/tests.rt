ghost use Rattle.std.specs.Prelude.{◌≡◌, ◌<◌};

use crate::{Points, Pt, Rect, Seg, Steps, cross_sign, in_range, rect_meets, rect_of, seg_keeps};
use std::marker::Brand;
use std::sync::ledger::{Blank, Ledger};
use std::test::Fail;

fn pt(x: i64, y: i64) -> Pt
    ensures x { result.x ≡ x }
    ensures y { result.y ≡ y }
{
    Pt { x, y }
}

fn seg(ax: i64, ay: i64, bx: i64, by: i64) -> Seg {
    Seg {
        a: pt(ax, ay),
        b: pt(bx, by),
    }
}

/// What `seg_keeps` answers, or None where its condition isn't met.
fn keeps<L: Ledger>(s: Seg, t: Seg, k: u64, blank: Blank) -> Option<bool>
    requires name { blank.name ≡ L.name }
    requires parts { blank.parts ≡ L.parts }
    requires some { 0 < blank.parts }
{
    let mut steps = Steps::<L>::new(blank);
    if in_range(s.a) && in_range(s.b) && in_range(t.a) && in_range(t.b) && k <= 400_000_000 {
        return Some(seg_keeps(s, t, k, &mut steps));
    }
    None
}

// The greatest k that each pair keeps. The first rows are by hand: tracks that cross keep no distance above 0; a track
// 450,000 nm from another or from a point keeps k = 900,000; the point (1730000, 1859999) is 449,999.2 nm from the line
// through (0, 0) and (4000000, 3000000), and (1730000, 1860000) is 450,000 nm from it. The others are by exact fractions
// in another program.
#[test]
fn a_pair_keeps_its_distance_and_no_more(rt: HostRuntime) -> Result<(), Fail> {
    let rows = [
        (
            seg(0, 0, 10_000_000, 10_000_000),
            seg(0, 10_000_000, 10_000_000, 0),
            0,
        ),
        (
            seg(0, 0, 1_000_000, 0),
            seg(0, 450_000, 1_000_000, 450_000),
            900_000,
        ),
        (
            seg(0, 0, 1_000_000, 0),
            seg(0, 449_999, 1_000_000, 449_999),
            899_998,
        ),
        (
            seg(0, 0, 4_000_000, 3_000_000),
            seg(1_730_000, 1_859_999, 1_730_000, 1_859_999),
            899_998,
        ),
        (
            seg(0, 0, 4_000_000, 3_000_000),
            seg(1_730_000, 1_860_000, 1_730_000, 1_860_000),
            900_000,
        ),
        (seg(0, 0, 10, 0), seg(5, -5, 5, 5), 0),
        (seg(0, 0, 10, 0), seg(10, 0, 20, 5), 0),
        (seg(0, 0, 10, 0), seg(3, 0, 7, 0), 0),
        (seg(0, 0, 10, 0), seg(12, 0, 17, 0), 4),
        (seg(3, 3, 3, 3), seg(3, 3, 3, 3), 0),
        (seg(3, 3, 3, 3), seg(6, 7, 6, 7), 10),
        (seg(0, 0, 0, 0), seg(-5, 2, 5, 2), 4),
        (
            seg(-1_000_000_000, -1_000_000_000, 1_000_000_000, 1_000_000_000),
            seg(-1_000_000_000, 999_999_999, 999_900_000, 1_000_000_000),
            141_421,
        ),
        (
            seg(-1_000_000_000, -1_000_000_000, 1_000_000_000, 1_000_000_000),
            seg(-1_000_000_000, -999_999_997, 999_999_997, 1_000_000_000),
            4,
        ),
        (
            seg(-1_000_000_000, 0, 1_000_000_000, 1),
            seg(-1_000_000_000, 7, 1_000_000_000, 9),
            13,
        ),
        (
            seg(1_000_000_000, 1_000_000_000, 800_000_000, 1_000_000_000),
            seg(1_000_000_000, 899_999_999, 999_999_995, 800_000_001),
            200_000_002,
        ),
        (seg(-31, 0, 33, -44), seg(-41, 18, -38, -4), 14),
        (
            seg(-84_431_033, 36_213_743, -42_367_396, -89_934_835),
            seg(-76_928_715, 16_405_877, 12_252_233, -81_248_328),
            1_702_791,
        ),
        (seg(-10, 5, 1, -11), seg(6, -9, -5, 8), 10),
        (
            seg(-83_394_033, 54_914_892, 57_180_079, 6_483_105),
            seg(-86_688_471, -40_653_799, -87_495_557, 49_428_595),
            13_699_920,
        ),
        (seg(-3, 1, -8, 5), seg(-9, 6, -3, 5), 1),
        (seg(-9, 6, 6, 8), seg(-6, -1, -9, 5), 2),
        (seg(6, -11, 7, -6), seg(3, 9, 5, 1), 14),
        (seg(9, 24, 8, -4), seg(-12, -19, -27, 39), 46),
        (seg(-10, 6, -3, 4), seg(3, -2, 11, 2), 16),
        (seg(27, -41, -35, 15), seg(3, -29, 46, -7), 0),
        (seg(3, 1, -11, 9), seg(-10, 12, 5, 6), 6),
        (seg(-7, 38, -6, 26), seg(13, 24, 8, -42), 38),
        (seg(-4, 3, 10, 9), seg(-10, -11, 11, 10), 0),
    ];
    for (s, t, k) in rows {
        let above = u64::saturating_add(k, 1);
        assert_eq!(rt;
            keeps::<Brand>(s, t, k, Blank::new(1)),
            Some(true),
            "{s:?} {t:?} at {k}"
        );
        assert_eq!(rt;
            keeps::<Brand>(t, s, k, Blank::new(1)),
            Some(true),
            "{t:?} {s:?} at {k}"
        );
        assert_eq!(rt;
            keeps::<Brand>(s, t, above, Blank::new(1)),
            Some(false),
            "{s:?} {t:?} at {above}"
        );
        assert_eq!(rt;
            keeps::<Brand>(t, s, above, Blank::new(1)),
            Some(false),
            "{t:?} {s:?} at {above}"
        );
    }
    Ok(())
}

// By hand.
#[test]
fn a_rectangle_meets_what_touches_it(rt: HostRuntime) -> Result<(), Fail> {
    let square = Rect {
        lo: pt(0, 0),
        hi: pt(10, 10),
    };
    assert_eq!(rt;
        rect_of(&[pt(3, 7), pt(-2, 5)], 100),
        Rect {
            lo: pt(-102, -95),
            hi: pt(103, 107)
        },
        "round two points"
    );
    for (lo, hi, want) in [
        (pt(10, 10), pt(20, 20), true),
        (pt(11, 10), pt(20, 20), false),
        (pt(2, 3), pt(4, 5), true),
        (pt(4, 5), pt(2, 3), false),
        (pt(0, -9), pt(10, -1), false),
    ] {
        assert_eq!(rt;
            rect_meets(square, Rect { lo, hi }),
            want,
            "{lo:?} to {hi:?}"
        );
    }
    assert_eq!(rt; cross_sign(pt(0, 0), pt(4, 0), pt(4, 1)), 1, "to the left");
    assert_eq!(rt;
        cross_sign(pt(0, 0), pt(4, 0), pt(4, -1)),
        -1,
        "to the right"
    );
    assert_eq!(rt;
        cross_sign(pt(0, 0), pt(4, 0), pt(-9, 0)),
        0,
        "straight back"
    );
    let (low, high) = (i64::MIN, i64::MAX);
    assert_eq!(rt;
        cross_sign(pt(low, low), pt(high, high - 1), pt(high - 1, high - 2)),
        -1,
        "to the right between the farthest points"
    );
    let mut points = Points::new(rt.alloc());
    points.push(pt(1, 2))?;
    assert_eq!(rt;
        points.as_slice(),
        [pt(1, 2)].as_slice(),
        "a list of points"
    );
    Ok(())
}
