//! Classes of nets.
ghost use Rattle.std.specs.Prelude.{◌≡◌, ◌<◌};
ghost use Rattle.sexp_text.specs.Shows.{forest};
ghost use Rattle.dsn_lists.specs.Results.{Gives, each};
ghost use Rattle.dsn_network.specs.Networks.{use_item, circuit_of, class_word, with_circuit, with_rule, class_item, class_of};

use dsn_lists::{
    DesignKind, Marks, ReadWhy, Rule, add_names, all_names, is_word, next_list, opening, read_rule,
    refused, word_at,
};
use layout_io::Name;
use row_lists::Row;
use sexp_text::{Cursor, Unit};
use std::alloc::Global;

/// Lists of padstacks for vias.
pub type ViaLists = Row<Marks>;

/// A class of nets.
#[derive(Debug, Drop)]
pub struct Class {
    pub name: Name,
    /// The names of its nets, of which some may be no net of the design.
    pub nets: Marks,
    /// The lists of padstacks for its vias, of which the last one holds.
    pub vias: ViaLists,
    pub rule: Rule,
}

// What a list of a class is.
#[derive(Clone, Copy, Debug)]
enum ClassWord {
    Circuit,
    Rules,
    Other,
}

#[tactic(auto, unfolding(crate::specs::Networks::use_item))]
fn read_use(alloc: Global, vias: &mut ViaLists, at: u32, inside: Cursor<'_>) -> Result<(), ReadWhy>
    ensures { Gives (λ _. vias.new) result (use_item vias.old at (forest inside.entry)) }
{
    let head = opening(inside);
    if !is_word(head.text, b"use_via") {
        return Ok(());
    }
    vias.push(all_names(alloc, at, head.args)?)?;
    Ok(())
}

#[tactic(auto, unfolding(dsn_lists::specs::Results::each))]
fn read_uses(alloc: Global, vias: &mut ViaLists, list: Cursor<'_>) -> Result<(), ReadWhy>
    ensures { Gives (λ _. vias.new) result (each use_item vias.old (forest list.entry)) }
{
    let mut rest = list;
    'lists: while let Some((at, inside, after)) = next_list(rest)? {
        read_use(alloc, vias, at, inside)?;
        rest = after;
    }
    Ok(())
}

// Puts the lists of vias of a circuit, which begins at this byte, behind those that are there.
#[tactic(auto, unfolding(crate::specs::Networks::circuit_of, crate::specs::Networks::more_vias))]
fn read_circuit(
    alloc: Global,
    vias: &mut ViaLists,
    at: u32,
    args: Cursor<'_>,
) -> Result<(), ReadWhy>
    ensures { Gives (λ _. vias.new) result (circuit_of vias.old at (forest args.entry)) }
{
    let before = vias.len();
    read_uses(alloc, vias, args)?;
    if vias.len() <= before {
        return Err(refused(DesignKind::Form, at));
    }
    Ok(())
}

#[tactic(auto, unfolding(crate::specs::Networks::class_word))]
fn class_word(text: &[u8]) -> ClassWord
    ensures { result ≡ class_word text.now }
{
    if is_word(text, b"circuit") {
        return ClassWord::Circuit;
    }
    if is_word(text, b"rule") {
        return ClassWord::Rules;
    }
    ClassWord::Other
}

fn add_circuit(alloc: Global, class: Class, at: u32, args: Cursor<'_>) -> Result<Class, ReadWhy>
    ensures { Gives (λ x. x) result (with_circuit class at (forest args.entry)) }
{
    let mut class = class;
    read_circuit(alloc, &mut class.vias, at, args)?;
    Ok(class)
}

fn add_rule(unit: Unit, class: Class, args: Cursor<'_>) -> Result<Class, ReadWhy>
    ensures { Gives (λ x. x) result (with_rule unit class (forest args.entry)) }
{
    let rule = read_rule(unit, class.rule, args)?;
    Ok(Class {
        name: class.name,
        nets: class.nets,
        vias: class.vias,
        rule,
    })
}

#[tactic(auto, unfolding(crate::specs::Networks::class_item))]
fn read_list(
    alloc: Global,
    unit: Unit,
    class: Class,
    at: u32,
    inside: Cursor<'_>,
) -> Result<Class, ReadWhy>
    ensures { Gives (λ x. x) result (class_item unit class at (forest inside.entry)) }
{
    let head = opening(inside);
    match class_word(head.text) {
        ClassWord::Circuit => add_circuit(alloc, class, at, head.args),
        ClassWord::Rules => add_rule(unit, class, head.args),
        ClassWord::Other => Ok(class),
    }
}

#[tactic(auto, unfolding(dsn_lists::specs::Results::each))]
fn read_lists(alloc: Global, unit: Unit, class: Class, list: Cursor<'_>) -> Result<Class, ReadWhy>
    ensures { Gives (λ x. x) result (each (class_item unit) class (forest list.entry)) }
{
    let mut class = class;
    let mut rest = list;
    'lists: while let Some((at, inside, after)) = next_list(rest)? {
        class = read_list(alloc, unit, class, at, inside)?;
        rest = after;
    }
    Ok(class)
}

/// The class of a list that begins at this byte.
#[tactic(auto, unfolding(crate::specs::Networks::class_of))]
pub fn class_at(alloc: Global, unit: Unit, at: u32, args: Cursor<'_>) -> Result<Class, ReadWhy>
    ensures { Gives (λ x. x) result (class_of unit at (forest args.entry)) }
{
    let (word, rest) = word_at(at, args)?;
    let mut nets = Row::new(alloc);
    let lists = add_names(alloc, &mut nets, rest)?;
    let class = Class {
        name: Row::from_slice(alloc, word.text)?,
        nets,
        vias: Row::new(alloc),
        rule: Rule {
            width: None,
            stated: Row::new(alloc),
        },
    };
    read_lists(alloc, unit, class, lists)
}
