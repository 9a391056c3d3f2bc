//! Shapes, keepouts, outlines and the room that is left for them, with values worked by hand.

use crate::lists::layers;
use crate::trees::{first, is_told, tree_of};
use board_items::KeepKind;
use dsn_lists::{DesignKind, ReadWhy};
use dsn_shapes::{
    Quota, add_outlines, add_shapes, keep_at, keep_kind, names_ahead, quota_behind, quota_for,
    shapes_at, whole_quota,
};
use row_lists::Row;
use sexp_text::{Tree, Unit};
use std::alloc::Global;
use std::test::Fail;

// How many shapes `(shape ..)` adds, and whether a design that has room for 8 points has it for theirs.
fn drawn(alloc: Global, tree: &Tree) -> Result<(usize, bool), ReadWhy> {
    let layers = layers(alloc)?;
    let mut shapes = Row::new(alloc);
    add_shapes(alloc, Unit::Um, &layers, &mut shapes, 0, first(tree))?;
    let (items, points) = (1, 8);
    let left = quota_behind(Quota { items, points }, shapes.as_slice());
    Ok((shapes.len(), left.is_some()))
}

// A shape on every layer is repeated for each of the two.
#[test]
fn shapes_are_read(rt: HostRuntime) -> Result<(), Fail> {
    let rows = [
        ("(shape (circle top 6 1 2) (path low 2 0 0 5 5))", (2, true)),
        ("(shape (rect pcb 0 0 9 5))", (2, true)),
        ("(shape (rect pcb 0 0 9 5) (circle top 1))", (3, false)),
    ];
    for (text, want) in rows {
        let tree = tree_of(rt.alloc(), text)?;
        assert!(rt; drawn(rt.alloc(), &tree).ok() == Some(want), "{text}");
    }
    Ok(())
}

#[test]
fn keepouts_and_outlines_are_read(rt: HostRuntime) -> Result<(), Fail> {
    let layers = layers(rt.alloc())?;
    let tree = tree_of(rt.alloc(), "(keepout (rect pcb 0 0 9 5))")?;
    let shapes = keep_at(rt.alloc(), Unit::Um, &layers, 0, first(&tree))?;
    assert!(rt; shapes.len() == 2, "a keepout on two layers");
    let mut areas = Row::new(rt.alloc());
    add_outlines(rt.alloc(), Unit::Um, &mut areas, 0, first(&tree))?;
    assert!(rt; areas.len() == 1, "an area");
    let tree = tree_of(rt.alloc(), "(rect low 0 0 9 5)")?;
    let told = shapes_at(rt.alloc(), Unit::Um, &layers, 0, first(&tree));
    assert!(rt; is_told(told, DesignKind::Shape, 6), "no shape");
    Ok(())
}

// A design has room for 200,000 items and 4,000,000 points.
#[test]
fn names_and_room_are_counted(rt: HostRuntime) -> Result<(), Fail> {
    let tree = tree_of(rt.alloc(), "(x (padstack A) (Padstack B) (padstack A))")?;
    let names = names_ahead(rt.alloc(), b"padstack", first(&tree))?;
    assert!(rt; names.len() == 2, "two names");
    assert!(rt; keep_kind(b"Via_Keepout") == Some(KeepKind::Vias), "a kind");
    assert!(rt; quota_for(whole_quota(), 4_000_000).is_some(), "all points");
    assert!(rt; quota_for(whole_quota(), 4_000_001).is_none());
    Ok(())
}
