//! Whole designs, on texts that were worked by hand.

use crate::trees::is_told;
use dsn_lists::{DesignKind, ReadWhy};
use dsn_reader::read_design;
use std::alloc::Global;
use std::test::Fail;

// How many layers, nets, classes and items the design of a text has.
fn counts_of(alloc: Global, text: &str) -> Result<(u32, u32, u32, usize), ReadWhy> {
    let design = read_design(alloc, text.as_bytes())?;
    let layers = design.layer_count();
    Ok((
        layers,
        design.net_count(),
        design.class_count(),
        design.items().len(),
    ))
}

#[test]
fn a_design_is_read_whole(rt: HostRuntime) -> Result<(), Fail> {
    // A keepout, a pad and a wire; class 0 is the structure's rule.
    let text = "(pcb b (unit um)
        (structure (layer T (type signal)) (rule (clearance 200)) (keepout (circle T 600 9000 9000)))
        (placement (component I (place U 0 0 front 0)))
        (library (image I (pin P a -500 0)) (padstack P (shape (circle T 600))))
        (network (net N (pins U-a)) (class C N (rule (clearance 300))))
        (wiring (wire (path T 100 0 5000 9000 5000) (net N))))";
    let counts = counts_of(rt.alloc(), text)?;
    assert!(rt; counts == (1, 1, 2, 3), "the counts");
    Ok(())
}

#[test]
fn the_first_fault_of_a_design_is_told(rt: HostRuntime) {
    let rows = [
        ("(pcb b", DesignKind::Unclosed, 0),
        ("(pcb b (structure))", DesignKind::Missing, 0),
        ("(pcb b (unit yd))", DesignKind::Unit, 13),
    ];
    for (text, kind, at) in rows {
        let told = read_design(rt.alloc(), text.as_bytes());
        assert!(rt; is_told(told, kind, at), "{text}");
    }
}
