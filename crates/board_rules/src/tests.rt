ghost use Rattle.std.specs.Prelude.{◌≡◌, ◌<◌, length};
ghost use Rattle.board_rules.specs.Rules.{IsFitChange};

use crate::fits::fits_item;
use crate::samples::{full_design, paired_design, pt, sound_parts, spots};
use crate::{Design, RulesView};
use area_geometry::Shapes;
use board_items::{ItemView, KeepKind};
use seg_geometry::{Points, Pt, Steps};
use std::alloc::{AllocError, Global};
use std::marker::Brand;
use std::sync::ledger::{Blank, Ledger};
use std::test::Fail;

fn wire(net: u32, points: &[Pt], fix: bool) -> ItemView<'_> {
    ItemView::Wire {
        net,
        layer: 0,
        width: 250_000,
        points,
        fix,
    }
}

fn via<'a>(net: u32, at: Pt) -> ItemView<'a> {
    ItemView::Via {
        net,
        padstack: 0,
        at,
        fix: false,
    }
}

/// An item of a table.
#[derive(Clone, Copy, Debug)]
enum Sort {
    Wire(u32),
    Fixed(u32),
    Via(u32),
    /// A pad on one layer.
    Smd(Option<u32>),
    /// A pad on two layers.
    Pin(u32),
    Keep(KeepKind),
}

/// Shapes on one layer and on two, and a way.
#[derive(Debug, Drop)]
struct Pieces {
    one: Shapes,
    two: Shapes,
    way: Points,
}

fn seen(sort: Sort, pieces: &Pieces) -> ItemView<'_> {
    match sort {
        Sort::Wire(net) => wire(net, pieces.way.as_slice(), false),
        Sort::Fixed(net) => wire(net, pieces.way.as_slice(), true),
        Sort::Via(net) => via(net, pt(0, 0)),
        Sort::Smd(net) => ItemView::Pad {
            net,
            shapes: &pieces.one,
        },
        Sort::Pin(net) => ItemView::Pad {
            net: Some(net),
            shapes: &pieces.two,
        },
        Sort::Keep(kind) => ItemView::Keep {
            kind,
            shapes: &pieces.one,
        },
    }
}

// By hand: the pair's own statement, then that for one pad on one layer, then the untyped one, of the class and then
// of the structure; of two classes the larger; at least 1 nm.
fn needs() -> [(Sort, Sort, Option<u32>); 28] {
    [
        (Sort::Wire(0), Sort::Wire(1), Some(200_000)),
        (Sort::Wire(0), Sort::Via(1), Some(90_000)),
        (Sort::Wire(0), Sort::Smd(Some(1)), Some(150_000)),
        (Sort::Wire(0), Sort::Pin(1), Some(200_000)),
        (Sort::Wire(0), Sort::Smd(None), Some(150_000)),
        (Sort::Via(0), Sort::Smd(Some(1)), Some(150_000)),
        (Sort::Wire(2), Sort::Wire(3), Some(100_000)),
        (Sort::Wire(2), Sort::Via(3), Some(100_000)),
        (Sort::Wire(2), Sort::Smd(Some(3)), Some(60_000)),
        (Sort::Wire(4), Sort::Via(5), Some(90_000)),
        (Sort::Wire(6), Sort::Smd(Some(7)), Some(70_000)),
        (Sort::Wire(6), Sort::Wire(7), Some(200_000)),
        (Sort::Wire(2), Sort::Wire(0), Some(200_000)),
        (Sort::Wire(8), Sort::Wire(9), Some(1)),
        (Sort::Wire(0), Sort::Via(0), None),
        (Sort::Wire(0), Sort::Pin(0), None),
        (Sort::Fixed(0), Sort::Fixed(1), None),
        (Sort::Fixed(0), Sort::Wire(1), Some(200_000)),
        (Sort::Fixed(0), Sort::Pin(1), None),
        (Sort::Smd(Some(2)), Sort::Pin(5), None),
        (Sort::Wire(0), Sort::Keep(KeepKind::All), Some(1)),
        (Sort::Via(0), Sort::Keep(KeepKind::All), Some(1)),
        (Sort::Pin(0), Sort::Keep(KeepKind::All), None),
        (Sort::Wire(0), Sort::Keep(KeepKind::Vias), None),
        (Sort::Via(0), Sort::Keep(KeepKind::Vias), Some(1)),
        (Sort::Wire(0), Sort::Keep(KeepKind::Wires), Some(1)),
        (Sort::Via(0), Sort::Keep(KeepKind::Wires), None),
        (Sort::Fixed(0), Sort::Keep(KeepKind::All), None),
    ]
}

// By hand, with the pairs of the names of class 1 with 1, 3 and 4; class 5 has the name of class 1. Net 10 is of class 5.
fn paired_needs() -> [(Sort, Sort, Option<u32>); 14] {
    [
        (Sort::Wire(2), Sort::Wire(3), Some(300_000)),
        (Sort::Wire(2), Sort::Wire(10), Some(300_000)),
        (Sort::Wire(2), Sort::Via(10), Some(700_000)),
        (Sort::Via(10), Sort::Wire(3), Some(700_000)),
        (Sort::Wire(2), Sort::Smd(Some(10)), Some(300_000)),
        (Sort::Wire(2), Sort::Smd(Some(6)), Some(20_000)),
        (Sort::Via(6), Sort::Smd(Some(2)), Some(30_000)),
        (Sort::Wire(2), Sort::Wire(6), Some(200_000)),
        (Sort::Wire(2), Sort::Wire(8), Some(1)),
        (Sort::Wire(2), Sort::Wire(0), Some(200_000)),
        (Sort::Wire(2), Sort::Smd(None), Some(150_000)),
        (Sort::Wire(2), Sort::Keep(KeepKind::All), Some(1)),
        (Sort::Fixed(2), Sort::Pin(10), None),
        (Sort::Wire(2), Sort::Via(2), None),
    ]
}

// By hand, where class 0 is changed to 450,000: nothing closer is stated for wires of class 2, and class 1 states its own.
fn changed_needs() -> [(Sort, Sort, Option<u32>); 5] {
    [
        (Sort::Wire(0), Sort::Wire(1), Some(450_000)),
        (Sort::Wire(4), Sort::Wire(5), Some(450_000)),
        (Sort::Wire(2), Sort::Wire(3), Some(100_000)),
        (Sort::Wire(0), Sort::Via(1), Some(90_000)),
        (Sort::Wire(0), Sort::Smd(Some(1)), Some(150_000)),
    ]
}

// Whether `need` answers as a table says, in both orders.
fn needs_hold(
    design: &Design,
    change: Option<(u32, u32)>,
    pieces: &Pieces,
    needs: &[(Sort, Sort, Option<u32>)],
) -> bool {
    let rules = RulesView {
        rules: design.start_rules(),
        change,
    };
    for (a, b, want) in needs {
        let first = seen(*a, pieces);
        let second = seen(*b, pieces);
        if design.need(rules, first, second) != *want
            || design.need(rules, second, first) != *want
        {
            return false;
        }
    }
    true
}

fn has_largest(design: &Design, change: Option<(u32, u32)>, most: u32) -> bool
    requires { IsFitChange design.now.parts change }
{
    let rules = RulesView {
        rules: design.start_rules(),
        change,
    };
    design.largest_clearance(rules) == most
}

fn make_pieces(alloc: Global) -> Result<Pieces, AllocError> {
    let one = spots(alloc, &[1, 1])?;
    let two = spots(alloc, &[0, 1])?;
    let way = Points::from_slice(alloc, &[pt(0, 0), pt(1_000_000, 0)])?;
    Ok(Pieces { one, two, way })
}

#[test]
fn the_closest_statement_is_the_clearance(rt: HostRuntime) -> Result<(), Fail> {
    let design = full_design(rt.alloc())?;
    let pieces = make_pieces(rt.alloc())?;
    let changed = Some((0, 450_000));
    assert!(rt;
        needs_hold(&design, None, &pieces, &needs()),
        "a row of the table"
    );
    assert!(rt;
        needs_hold(&design, changed, &pieces, &changed_needs()),
        "a row under a change"
    );
    assert!(rt; has_largest(&design, None, 200_000), "the largest one");
    assert!(rt;
        has_largest(&design, changed, 450_000),
        "the largest one under a change"
    );
    Ok(())
}

#[test]
fn what_a_pair_states_is_the_clearance(rt: HostRuntime) -> Result<(), Fail> {
    let design = paired_design(rt.alloc())?;
    let pieces = make_pieces(rt.alloc())?;
    assert!(rt;
        needs_hold(&design, None, &pieces, &paired_needs()),
        "a row of the table"
    );
    assert!(rt; has_largest(&design, None, 700_000), "the largest one");
    Ok(())
}

/// What `pair_keeps` answers, or None where its condition isn't met.
fn keeps<L: Ledger>(design: &Design, a: ItemView<'_>, b: ItemView<'_>, blank: Blank) -> Option<bool>
    requires name { blank.name ≡ L.name }
    requires parts { blank.parts ≡ L.parts }
    requires some { 0 < blank.parts }
{
    let mut steps = Steps::<L>::new(blank);
    let rules = RulesView {
        rules: design.start_rules(),
        change: None,
    };
    if fits_item(&design.parts, a) && fits_item(&design.parts, b) {
        return Some(design.pair_keeps(rules, a, b, &mut steps));
    }
    None
}

fn above(is_via: bool, net: u32, y: i64, points: &[Pt]) -> ItemView<'_> {
    if is_via {
        via(net, pt(500_000, y))
    } else {
        wire(net, points, false)
    }
}

// By hand: half of 250,000 and of 600,000 nm, and the 25,000 nm that are stated for a wire and a via; nothing is
// stated for two wires. Whether the other item is a via, its net and its place, and whether it keeps its clearance.
fn pairs() -> [(bool, u32, i64, bool); 5] {
    [
        (true, 1, 450_000, true),
        (true, 1, 449_999, false),
        (true, 0, 449_999, true),
        (false, 1, 250_001, true),
        (false, 1, 250_000, false),
    ]
}

#[test]
fn a_pair_keeps_its_clearance_and_no_more(rt: HostRuntime) -> Result<(), Fail> {
    let design = Design::of_parts(sound_parts(rt.alloc())?)?;
    let way = [pt(0, 0), pt(1_000_000, 0)];
    for (is_via, net, y, want) in pairs() {
        let points = [pt(0, y), pt(1_000_000, y)];
        let a = wire(0, way.as_slice(), false);
        let b = above(is_via, net, y, points.as_slice());
        let kept = keeps::<Brand>(&design, a, b, Blank::new(1));
        assert_eq!(rt; kept, Some(want), "{b:?}");
        let turned = keeps::<Brand>(&design, b, a, Blank::new(1));
        assert_eq!(rt; turned, Some(want), "{b:?} first");
    }
    Ok(())
}

fn reads(design: &Design) -> bool
    requires layers { length design.now.parts.layers ≡ 2 }
    requires nets { length design.now.parts.nets ≡ 2 }
{
    design.name().as_slice() == b"s.dsn".as_slice()
        && design.layer_count() == 2
        && design.layer_name(1).as_slice() == b"B.Cu".as_slice()
        && design.net_count() == 2
        && design.class_count() == 1
        && design.net_name(0).as_slice() == b"net".as_slice()
        && design.stacks().len() == 1
        && design.items().is_empty()
        && design.outline_count() == 1
}

fn readers_hold(alloc: Global) -> Result<bool, AllocError> {
    let design = Design::of_parts(sound_parts(alloc)?)?;
    Ok(reads(&design))
}

fn written(design: &Design, alloc: Global) -> Result<String, AllocError> {
    format!(in alloc; "{design:?}")
}

// Whether a copy says the same of all that a design is made of.
fn copies_alike(alloc: Global) -> Result<bool, AllocError> {
    let design = full_design(alloc)?;
    let copied = design.copy()?;
    let text = written(&design, alloc)?;
    Ok(written(&copied, alloc)? == text)
}

#[test]
fn a_copy_is_equal(rt: HostRuntime) -> Result<(), Fail> {
    assert!(rt; copies_alike(rt.alloc())?, "a copy");
    assert!(rt; readers_hold(rt.alloc())?, "what each reader says");
    Ok(())
}
