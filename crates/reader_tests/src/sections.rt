//! The sections of a design that stand on its structure, on a text that was worked by hand.

use crate::trees::{is_told, tree_of};
use dsn_library::{Library, read_library};
use dsn_lists::{DesignKind, ReadWhy};
use dsn_network::{Network, read_network};
use dsn_placement::{Placement, read_placement};
use dsn_reader::{Wiring, read_wiring};
use dsn_structure::{Structure, read_structure};
use sexp_text::Tree;
use std::alloc::Global;
use std::test::Fail;

// Two parts of one image with two pads of one circle, a net of two of their pins in a class, and a wire of a net that only
// the wiring names.
const BOARD: &str =
    "(pcb b (unit um) (structure (layer T (type signal)) (layer B (type signal)) (via V))
    (placement (component I (place U 0 0 front 0) (place W 9000 0 back 90)))
    (library (image I (pin P a -500 0) (pin P b 500 0)) (padstack P (shape (circle T 600)))
        (padstack V (shape (circle T 600)) (shape (circle B 600))))
    (network (net N (pins U-a W-b)) (class C N (rule (width 300))))
    (wiring (wire (path T 100 0 5000 9000 5000) (net M)) (via V 0 9000 (net N))))";

fn library_in(alloc: Global, tree: &Tree) -> Result<Library, ReadWhy> {
    let structure = read_structure(alloc, tree)?;
    read_library(alloc, tree, &structure)
}

fn placement_in(alloc: Global, tree: &Tree) -> Result<Placement, ReadWhy> {
    let structure = read_structure(alloc, tree)?;
    let library = read_library(alloc, tree, &structure)?;
    read_placement(alloc, tree, &structure, &library)
}

fn network_in(alloc: Global, tree: &Tree) -> Result<Network, ReadWhy> {
    let structure = read_structure(alloc, tree)?;
    let library = read_library(alloc, tree, &structure)?;
    let placement = read_placement(alloc, tree, &structure, &library)?;
    read_network(alloc, tree, &placement, &library)
}

// How many items the wiring has, and how many nets there are with those that it names.
fn wiring_in(alloc: Global, tree: &Tree) -> Result<(usize, usize), ReadWhy> {
    let structure = read_structure(alloc, tree)?;
    let library = read_library(alloc, tree, &structure)?;
    let placement = read_placement(alloc, tree, &structure, &library)?;
    let mut network = read_network(alloc, tree, &placement, &library)?;
    let wiring = read_wiring(alloc, tree, &structure, &library, &mut network)?;
    Ok((wiring.items.len(), network.nets.len()))
}

#[test]
fn a_library_is_read(rt: HostRuntime) -> Result<(), Fail> {
    let tree = tree_of(rt.alloc(), BOARD)?;
    let library = library_in(rt.alloc(), &tree)?;
    assert!(rt; library.stacks.len() == 2, "the padstacks");
    assert!(rt; library.images.len() == 1, "the images");
    Ok(())
}

#[test]
fn a_placement_is_read(rt: HostRuntime) -> Result<(), Fail> {
    let tree = tree_of(rt.alloc(), BOARD)?;
    let placement = placement_in(rt.alloc(), &tree)?;
    assert!(rt; placement.components.len() == 2, "the components");
    assert!(rt; placement.parts.len() == 4, "the pads");
    Ok(())
}

#[test]
fn a_network_is_read(rt: HostRuntime) -> Result<(), Fail> {
    let tree = tree_of(rt.alloc(), BOARD)?;
    let network = network_in(rt.alloc(), &tree)?;
    assert!(rt; network.nets.len() == 1, "the nets");
    assert!(rt; network.pairs.len() == 0, "the pairs of classes");
    Ok(())
}

#[test]
fn a_wiring_names_a_further_net(rt: HostRuntime) -> Result<(), Fail> {
    let tree = tree_of(rt.alloc(), BOARD)?;
    let counts = wiring_in(rt.alloc(), &tree)?;
    assert!(rt; counts == (2, 2), "the items and the nets");
    Ok(())
}

#[test]
fn the_first_fault_of_a_section_is_told(rt: HostRuntime) -> Result<(), Fail> {
    let text =
        "(pcb b (unit um) (structure (layer T (type signal))) (library (image I (pin P a 0 0))))";
    let tree = tree_of(rt.alloc(), text)?;
    assert!(rt;
        is_told(library_in(rt.alloc(), &tree), DesignKind::Name, 76),
        "{text}"
    );
    let text =
        "(pcb b (unit um) (structure (layer T (type signal))) (placement (component I (place U 0 0 front 0))))";
    let tree = tree_of(rt.alloc(), text)?;
    assert!(rt;
        is_told(placement_in(rt.alloc(), &tree), DesignKind::Name, 75),
        "{text}"
    );
    let text = "(pcb b (unit um) (structure (layer T (type signal))) (network (net N (pins U-a))))";
    let tree = tree_of(rt.alloc(), text)?;
    assert!(rt;
        is_told(network_in(rt.alloc(), &tree), DesignKind::Name, 75),
        "{text}"
    );
    let text =
        "(pcb b (unit um) (structure (layer T (type signal))) (wiring (wire (path T 1 0 0 1 1))))";
    let tree = tree_of(rt.alloc(), text)?;
    assert!(rt;
        is_told(wiring_in(rt.alloc(), &tree), DesignKind::Missing, 61),
        "{text}"
    );
    Ok(())
}
