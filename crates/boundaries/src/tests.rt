//! Tables of boundaries, by hand.
ghost use Rattle.std.specs.Prelude.{◌≡◌, ◌<◌};

use crate::{Fences, touches_area};
use board_items::{Clients, ItemView, Layers, Stacks};
use row_lists::WIDTH_LIMIT_NM;
use seg_geometry::{Ids, Points, Pt, Steps, in_range, rect_of};
use std::alloc::{AllocError, Global};
use std::marker::Brand;
use std::sync::ledger::{Blank, Ledger};
use std::test::Fail;

// The square of 10 nm whose least corner lies at this x, on the line y = 0.
fn square(alloc: Global, x: i32) -> Result<Points, AllocError> {
    let x = i64::from(x);
    Points::from_slice(
        alloc,
        &[
            Pt { x, y: 0 },
            Pt { x: x + 10, y: 0 },
            Pt { x: x + 10, y: 10 },
            Pt { x, y: 10 },
        ],
    )
}

// Draws a boundary; None where its condition isn't met.
fn draw(
    fences: &mut Fences,
    owner: u8,
    layers: &Layers,
    area: &Points,
    clients: &Clients,
) -> Result<Option<u32>, AllocError> {
    if fences.last() == u32::MAX {
        return Ok(None);
    }
    if !area.as_slice().iter().all(|p| in_range(*p)) {
        return Ok(None);
    }
    fences.make_room(area, layers)?;
    Ok(Some(fences.fence(owner, layers, area, clients)))
}

// Two boundaries: client 1's on layer 0, and client 2's on the layers 0 and 1, in which client 3 is entitled.
fn two(alloc: Global) -> Result<Fences, AllocError> {
    let mut fences = Fences::new(alloc);
    let none = Clients::new(alloc);
    let some = Clients::from_slice(alloc, &[3, 3])?;
    let one = Layers::from_slice(alloc, &[0])?;
    let both = Layers::from_slice(alloc, &[1, 0])?;
    draw(&mut fences, 1, &one, &square(alloc, 0)?, &none)?;
    draw(&mut fences, 2, &both, &square(alloc, 20)?, &some)?;
    Ok(fences)
}

// Whether clients 1 to 5 are entitled in a boundary.
fn entitled(fences: &Fences, fence: u32) -> [bool; 5] {
    [
        fences.entitled(fence, 1),
        fences.entitled(fence, 2),
        fences.entitled(fence, 3),
        fences.entitled(fence, 4),
        fences.entitled(fence, 255),
    ]
}

#[test]
fn a_boundary_keeps_its_number_and_its_clients(rt: HostRuntime) -> Result<(), Fail> {
    let alloc = rt.alloc();
    let mut fences = two(alloc)?;
    assert_eq!(rt; (fences.count(), fences.last()), (2, 2), "two boundaries");
    assert_eq!(rt; fences.owner(2), Some(2), "who drew the second");
    assert_eq!(rt;
        entitled(&fences, 2),
        [false, true, true, false, false],
        "the owner, and client 3 who is named twice"
    );
    fences.entitle(2, 255);
    fences.entitle(9, 1);
    assert_eq!(rt;
        entitled(&fences, 2),
        [false, true, true, false, true],
        "one client more"
    );
    assert_eq!(rt;
        entitled(&fences, 1),
        [true, false, false, false, false],
        "the other boundary"
    );
    fences.unfence(1);
    fences.unfence(7);
    assert_eq!(rt;
        (fences.count(), fences.last()),
        (1, 2),
        "one was taken away"
    );
    assert_eq!(rt;
        (fences.owner(1), fences.owner(2)),
        (None, Some(2)),
        "the one that stays"
    );
    let layers = Layers::from_slice(alloc, &[0])?;
    let area = square(alloc, 0)?;
    let short = Points::from_slice(alloc, &[Pt { x: 0, y: 0 }, Pt { x: 1, y: 0 }])?;
    let none = Clients::new(alloc);
    assert!(rt; !fences.has_room(&area, &layers), "room that was used");
    assert_eq!(rt;
        draw(&mut fences, 1, &layers, &short, &none)?,
        Some(3),
        "two points take a number"
    );
    assert_eq!(rt;
        draw(&mut fences, 1, &layers, &area, &none)?,
        Some(4),
        "the next number"
    );
    assert_eq!(rt;
        (fences.number_at(0), fences.number_at(1)),
        (Some(2), Some(4)),
        "the live ones"
    );
    assert_eq!(rt; fences.number_at(2), None, "past the last one");
    Ok(())
}

// A wire on a layer from one x to another, at y = 5.
#[derive(Clone, Copy)]
struct Wire {
    layer: u8,
    from: i32,
    to: i32,
    width: u32,
}

// The least boundary that stands in a client's way, those that the wire touches, and whether it touches the square at
// 0 on layer 0; None where a condition isn't met.
fn find<L: Ledger>(
    fences: &Fences,
    wire: Wire,
    client: u8,
    above: u32,
    blank: Blank,
    alloc: Global,
) -> Result<Option<(Option<u32>, Ids, bool)>, AllocError>
    requires name { blank.name ≡ L.name }
    requires parts { blank.parts ≡ L.parts }
    requires some { 0 < blank.parts }
{
    let mut steps = Steps::<L>::new(blank);
    let stacks = Stacks::new(alloc);
    let layers = Layers::from_slice(alloc, &[0])?;
    let area = square(alloc, 0)?;
    let points = [
        Pt {
            x: i64::from(wire.from),
            y: 5,
        },
        Pt {
            x: i64::from(wire.to),
            y: 5,
        },
    ];
    if wire.width > WIDTH_LIMIT_NM || !points.iter().all(|p| in_range(*p)) {
        return Ok(None);
    }
    if area.is_empty() || !area.as_slice().iter().all(|p| in_range(*p)) {
        return Ok(None);
    }
    let item = ItemView::Wire {
        net: 0,
        layer: wire.layer,
        width: wire.width,
        points: points.as_slice(),
        fix: false,
    };
    let least = fences.least_foreign(item, &stacks, client, above, &mut steps);
    let touched = fences.touched_by(item, &stacks, &mut steps)?;
    let near = touches_area(
        item,
        &stacks,
        layers.as_slice(),
        area.as_slice(),
        rect_of(area.as_slice(), 0),
        &mut steps,
    );
    Ok(Some((least, touched, near)))
}

// The least boundary that the square at an x overlaps, on layer 1 and perhaps on layer 0 too; None where a condition
// isn't met.
fn overlapped<L: Ledger>(
    fences: &Fences,
    is_both: bool,
    x: i32,
    client: u8,
    blank: Blank,
    alloc: Global,
) -> Result<Option<Option<u32>>, AllocError>
    requires name { blank.name ≡ L.name }
    requires parts { blank.parts ≡ L.parts }
    requires some { 0 < blank.parts }
{
    let mut steps = Steps::<L>::new(blank);
    let mut layers = Layers::from_slice(alloc, &[1, 7])?;
    if is_both {
        layers.push(0)?;
    }
    let area = square(alloc, x)?;
    if area.len() < 3 || !area.as_slice().iter().all(|p| in_range(*p)) {
        return Ok(None);
    }
    Ok(Some(fences.overlap(&layers, &area, client, &mut steps)))
}

// Whether a wire is told as wanted: the least boundary in the client's way, whether it touches the first and the second,
// and the square.
fn is_told(
    fences: &Fences,
    wire: Wire,
    client: u8,
    above: u32,
    want: (Option<u32>, bool, bool, bool),
    alloc: Global,
) -> Result<bool, AllocError> {
    match find::<Brand>(fences, wire, client, above, Blank::new(1), alloc)? {
        None => Ok(false),
        Some(found) => {
            let touched = found.1.as_slice();
            let told = (found.0, touched.contains(&1), touched.contains(&2), found.2);
            Ok(told == want && touched.len() < 3)
        }
    }
}

// By hand: an item at a distance of 1 nm doesn't touch, and one at half of it does.
#[test]
fn a_boundary_is_touched_where_less_than_a_nanometre_is_left(rt: HostRuntime) -> Result<(), Fail> {
    let alloc = rt.alloc();
    let fences = two(alloc)?;
    for (layer, from, to, width, client, above, least, first, second, near) in [
        (0, 10, 12, 0, 4, 0, Some(1), true, false, true),
        (0, 11, 12, 0, 4, 0, None, false, false, false),
        (0, 11, 12, 1, 4, 0, Some(1), true, false, true),
        (1, 10, 12, 0, 4, 0, None, false, false, false),
        (0, 5, 25, 0, 4, 0, Some(1), true, true, true),
        (0, 5, 25, 0, 4, 1, Some(2), true, true, true),
        (0, 5, 25, 0, 4, 2, None, true, true, true),
        (0, 5, 25, 0, 1, 0, Some(2), true, true, true),
        (0, 5, 25, 0, 3, 1, None, true, true, true),
    ] {
        let wire = Wire {
            layer,
            from,
            to,
            width,
        };
        let want = (least, first, second, near);
        let told = is_told(&fences, wire, client, above, want, alloc)?;
        assert!(rt;
            told,
            "layer {layer} from {from} to {to}, width {width}, client {client} above {above}"
        );
    }
    Ok(())
}

// By hand: an area at a distance of 1 nm doesn't overlap.
#[test]
fn an_area_overlaps_a_boundary_on_a_common_layer(rt: HostRuntime) -> Result<(), Fail> {
    let alloc = rt.alloc();
    let fences = two(alloc)?;
    for (x, is_both, client, want) in [
        (-10, true, 4, Some(1)),
        (-11, true, 4, None),
        (10, true, 4, Some(1)),
        (10, false, 4, Some(2)),
        (10, true, 1, Some(2)),
        (10, false, 3, None),
    ] {
        let found = overlapped::<Brand>(&fences, is_both, x, client, Blank::new(1), alloc)?;
        assert!(rt; found == Some(want), "an area at {x} of client {client}");
    }
    Ok(())
}
