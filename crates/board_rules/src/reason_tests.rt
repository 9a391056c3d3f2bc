ghost use Rattle.std.specs.Prelude.{◌≡◌, ◌≤◌, ◌<◌};

use crate::Design;
use crate::samples::{pt, sound_parts};
use board_items::Why;
use seg_geometry::{Pt, Steps, in_range};
use std::alloc::{AllocError, Global};
use std::marker::Brand;
use std::sync::ledger::{Blank, Ledger};
use std::test::Fail;

// By hand: there are the nets 0 and 1 and one padstack. The outline ends at 5,000,000 nm, the via's copper lies up to
// 300,005 nm right of its place and has to end 1 nm before the outline, and one of its points is 5 nm right of its place.
fn vias() -> [(u32, u32, Pt, Option<Why>); 7] {
    [
        (0, 0, pt(0, 0), None),
        (2, 1, pt(0, 0), Some(Why::Net { add: 1 })),
        (0, 1, pt(0, 0), Some(Why::Padstack { add: 1 })),
        (0, 0, pt(4_699_994, 0), None),
        (0, 0, pt(4_699_995, 0), Some(Why::Outside { add: 1 })),
        (0, 0, pt(999_999_995, 0), Some(Why::Outside { add: 1 })),
        (0, 0, pt(999_999_996, 0), Some(Why::Range { add: 1 })),
    ]
}

/// The reason against a via, or None where its place is out of range.
fn via_reason<L: Ledger>(
    design: &Design,
    net: u32,
    padstack: u32,
    at: Pt,
    blank: Blank,
) -> Option<Why>
    requires name { blank.name ≡ L.name }
    requires parts { blank.parts ≡ L.parts }
    requires some { 0 < blank.parts }
{
    let mut steps = Steps::<L>::new(blank);
    if in_range(at) {
        return design.via_why(1, net, padstack, at, &mut steps);
    }
    None
}

#[test]
fn the_first_reason_against_a_via_is_told(rt: HostRuntime) -> Result<(), Fail> {
    let design = Design::of_parts(sound_parts(rt.alloc())?)?;
    for (net, padstack, at, want) in vias() {
        let why = via_reason::<Brand>(&design, net, padstack, at, Blank::new(1));
        assert_eq!(rt; why, want, "net {net}, padstack {padstack}, at {at:?}");
    }
    Ok(())
}

// By hand: a boundary has three points or more, the layers are 0 and 1, and the clients 1 and 2.
fn fences() -> [(usize, u8, u8, Option<Why>); 6] {
    [
        (3, 1, 2, None),
        (2, 2, 0, Some(Why::Area)),
        (3, 2, 0, Some(Why::FenceLayer { layer: 2 })),
        (3, 1, 0, Some(Why::Client { client: 0 })),
        (3, 1, 3, Some(Why::Client { client: 3 })),
        (3, 0, 1, None),
    ]
}

fn fence_reason(design: &Design, count: usize, layer: u8, client: u8) -> Option<Why> {
    let corners = [pt(0, 0), pt(9, 0), pt(0, 9)];
    if count < 3 {
        return design.fence_why(&[layer], &corners[..2], &[client], 2);
    }
    design.fence_why(&[layer], &corners, &[client], 2)
}

fn fences_hold(alloc: Global) -> Result<bool, AllocError> {
    let design = Design::of_parts(sound_parts(alloc)?)?;
    for (count, layer, client, want) in fences() {
        if fence_reason(&design, count, layer, client) != want {
            return Ok(false);
        }
    }
    Ok(true)
}

#[test]
fn the_first_reason_against_a_boundary_is_told(rt: HostRuntime) -> Result<(), Fail> {
    assert!(rt; fences_hold(rt.alloc())?, "a row of the table");
    Ok(())
}

// By hand: class 0 is the only one.
fn rules_hold(alloc: Global) -> Result<bool, AllocError> {
    let design = Design::of_parts(sound_parts(alloc)?)?;
    let beyond = Some(Why::NoClass { class: 1 });
    Ok(design.rule_why(0).is_none() && design.rule_why(1) == beyond)
}

#[test]
fn a_rule_of_a_class_that_isnt_there_is_refused(rt: HostRuntime) -> Result<(), Fail> {
    assert!(rt; rules_hold(rt.alloc())?, "class 0 and class 1");
    Ok(())
}
