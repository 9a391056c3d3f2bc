//! The structure of a design, on texts that were counted by hand.

use crate::trees::{first, is_told, tree_of};
use dsn_lists::DesignKind;
use dsn_structure::{FlipStyle, flip_at, read_structure};
use std::test::Fail;

#[test]
fn a_structure_is_read(rt: HostRuntime) -> Result<(), Fail> {
    let text = "(pcb b (unit um) (structure (layer T (type signal)) (layer B (type jumper))
        (boundary (rect pcb 0 0 9 5)) (via V) (rule (width 250)) (keepout (circle B 6))))";
    let tree = tree_of(rt.alloc(), text)?;
    let structure = read_structure(rt.alloc(), &tree)?;
    assert!(rt; structure.layers.len() == 2, "the layers");
    assert!(rt; structure.rule.width == Some(250_000), "the width");
    assert!(rt; structure.outline.len() == 1, "the outline");
    assert!(rt; structure.keeps.len() == 1, "the keepouts");
    assert!(rt; structure.quota.points == 3_999_999, "the room");
    Ok(())
}

#[test]
fn the_first_fault_of_a_structure_is_told(rt: HostRuntime) -> Result<(), Fail> {
    let rows = [
        ("(pcb b (unit um) (structure))", DesignKind::Missing, 17),
        (
            "(pcb b (unit um) (structure (layer)))",
            DesignKind::Form,
            28,
        ),
        ("(pcb b (unit um))", DesignKind::Missing, 0),
    ];
    for (text, kind, at) in rows {
        let tree = tree_of(rt.alloc(), text)?;
        let told = read_structure(rt.alloc(), &tree);
        assert!(rt; is_told(told, kind, at), "{text}");
    }
    Ok(())
}

#[test]
fn a_flip_style_is_read(rt: HostRuntime) -> Result<(), Fail> {
    let tree = tree_of(rt.alloc(), "(x (flip_style rotate_first))")?;
    let style = flip_at(0, first(&tree))?;
    assert!(rt; style == FlipStyle::RotateFirst, "the style");
    Ok(())
}
