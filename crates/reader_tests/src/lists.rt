//! Words, names, and lists that sections share, with values worked by hand.

use crate::numbers::word;
use crate::trees::{first, is_told, tree_of};
use dsn_lists::{
    DesignKind, NameSet, ReadWhy, Rule, Section, add_names, all_names, check_fresh, check_new,
    circle_at, coordinates_at, fault, is_word, layer_at, layers_at, next_list, only_word, opening,
    path_at, point_at, read_over, read_rule, read_trail, refused, section_of, stands_for_all,
    title_of, unit_at, unit_for, word_at,
};
use row_lists::Row;
use sexp_text::Unit;
use std::alloc::{AllocError, Global};
use std::test::Fail;

/// The layers `top` and `low`.
pub(crate) fn layers(alloc: Global) -> Result<NameSet, AllocError> {
    let mut layers = NameSet::new(alloc);
    layers.add(b"top")?;
    if !layers.contains(b"low") {
        layers.add(b"low")?;
    }
    Ok(layers)
}

#[test]
fn names_are_numbered(rt: HostRuntime) -> Result<(), Fail> {
    let layers = layers(rt.alloc())?;
    assert!(rt; !layers.is_empty() && layers.len() == 2, "two names");
    assert!(rt; layers.name(1) == b"low".as_slice(), "the second");
    assert!(rt; layers.place(b"low") == Some(1), "its number");
    assert!(rt; layers.place(b"Low").is_none(), "another name");
    let twice = Err(fault(DesignKind::Twice, 7));
    assert!(rt; check_fresh(&layers, word(b"low")) == twice);
    let large = Err(fault(DesignKind::Large, 7));
    assert!(rt; check_new(&layers, 2, word(b"new")) == large);
    assert!(rt; check_new(&layers, 3, word(b"new")) == Ok(()));
    Ok(())
}

#[test]
fn a_word_names_a_layer_or_all(rt: HostRuntime) -> Result<(), Fail> {
    let layers = layers(rt.alloc())?;
    let (low, all) = (word(b"low"), word(b"Signal"));
    assert!(rt; stands_for_all(b"PCB"), "a word for every layer");
    assert!(rt; layers_at(&layers, all) == Ok(None), "every layer");
    assert!(rt; layer_at(&layers, low) == Ok(1), "a layer");
    let unknown = Err(fault(DesignKind::Layer, 7));
    assert!(rt; layer_at(&layers, all) == unknown, "no layer");
    Ok(())
}

#[test]
fn a_design_has_a_title_and_sections(rt: HostRuntime) -> Result<(), Fail> {
    let tree = tree_of(rt.alloc(), "(pcb p (unit mil) (structure))")?;
    let title = title_of(rt.alloc(), &tree)?;
    assert!(rt; title.unit == Unit::Mil, "the unit");
    let place = section_of(&tree, Section::Structure);
    assert!(rt; place.at == 18, "the structure");
    assert!(rt; is_word(b"Unit", b"unit"), "either case of letters");
    let why: Result<(), ReadWhy> = Err(refused(DesignKind::Form, 7));
    assert!(rt; is_told(why, DesignKind::Form, 7), "a fault");
    Ok(())
}

#[test]
fn a_list_is_read_word_by_word(rt: HostRuntime) -> Result<(), Fail> {
    let tree = tree_of(rt.alloc(), "(x A B (unit mil))")?;
    let (word, rest) = word_at(0, first(&tree))?;
    assert!(rt; word.at == 3, "the first word");
    assert!(rt; only_word(0, rest)?.at == 5, "the one word behind it");
    let mut marks = Row::new(rt.alloc());
    let rest = add_names(rt.alloc(), &mut marks, rest)?;
    assert!(rt; marks.len() == 1, "one more name");
    read_over(rest)?;
    assert!(rt; unit_for(Unit::Um, rest) == Unit::Mil, "the unit");
    let (at, inside, _) = next_list(rest)?.expect(&rt, "a list");
    assert!(rt; at == 7, "the list");
    let args = opening(inside).args;
    assert!(rt; unit_at(7, args) == Ok(Unit::Mil), "its unit");
    let names = all_names(rt.alloc(), 7, args)?;
    assert!(rt; names.len() == 1, "its names");
    Ok(())
}

#[test]
fn points_circles_and_paths_are_read(rt: HostRuntime) -> Result<(), Fail> {
    let tree = tree_of(rt.alloc(), "(circle 6 1 -2 (aperture_type round))")?;
    let (word, rest) = word_at(0, first(&tree))?;
    let (p, rest) = point_at(Unit::Um, 0, word, rest)?;
    assert!(rt; (p.x, p.y) == (6000, 1000), "a point");
    let (c, rest) = coordinates_at(rt.alloc(), Unit::Um, rest)?;
    assert!(rt; c.half == Some(-2000), "half a point");
    read_trail(rest)?;
    let circle = circle_at(Unit::Um, 0, first(&tree))?;
    assert!(rt; (circle.width, circle.centre.y) == (6000, -2000));
    let tree = tree_of(rt.alloc(), "(path 2 0 0 5 5)")?;
    let path = path_at(rt.alloc(), Unit::Um, 0, first(&tree))?;
    assert!(rt; (path.width, path.points.len()) == (2000, 2));
    Ok(())
}

#[test]
fn rules_are_read(rt: HostRuntime) -> Result<(), Fail> {
    let tree = tree_of(rt.alloc(), "(rule (width 3) (clearance 4))")?;
    let (width, stated) = (None, Row::new(rt.alloc()));
    let rule = read_rule(Unit::Um, Rule { width, stated }, first(&tree))?;
    assert!(rt; rule.width == Some(3000), "the width");
    assert!(rt; rule.stated.len() == 1, "the clearances");
    Ok(())
}
