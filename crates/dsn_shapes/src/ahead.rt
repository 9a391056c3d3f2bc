//! The names that the lists of a section state, collected before the section is read.
ghost use Rattle.std.specs.Prelude.{◌≡◌, [], IfOk, OnOk};
ghost use Rattle.sexp_text.specs.Shows.{forest};
ghost use Rattle.dsn_lists.specs.Lists.{collect};
ghost use Rattle.dsn_shapes.specs.NameLists.{each_once, first_of};
ghost use Rattle.dsn_shapes.specs.Ahead.{with_first, names_behind, names_ahead};

use dsn_lists::{NameSet, is_word, opening};
use sexp_text::{Cursor, Part, front};
use std::alloc::{AllocError, Global};

#[tactic(auto, unfolding(crate::specs::Ahead::with_first))]
fn add_first(names: &mut NameSet, args: Cursor<'_>) -> Result<(), AllocError>
    ensures { OnOk result (names.new ≡ with_first names.old (forest args.entry)) }
{
    match front(args) {
        Part::Word { text, .. } => {
            if names.contains(text) {
                return Ok(());
            }
            names.add(text)
        }
        _ => Ok(()),
    }
}

#[tactic(auto, unfolding(crate::specs::Ahead::names_behind))]
fn add_name(names: &mut NameSet, keyword: &[u8], inside: Cursor<'_>) -> Result<(), AllocError>
    ensures { OnOk result (names.new ≡ names_behind keyword.now names.old (forest inside.entry)) }
{
    let head = opening(inside);
    if !is_word(head.text, keyword) {
        return Ok(());
    }
    add_first(names, head.args)
}

/// The names that the lists of this keyword state by the word behind it, each once. Its one error is want of memory.
pub fn names_ahead(alloc: Global, keyword: &[u8], list: Cursor<'_>) -> Result<NameSet, AllocError>
    ensures read { IfOk result (λ names. names ≡ names_ahead keyword.now [] (forest list.entry)) }
    ensures each { IfOk result (λ names. names ≡ each_once (collect (first_of keyword.now) (forest list.entry))) }
{
    collected(alloc, keyword, list)
}

#[tactic(auto, unfolding(crate::specs::Ahead::names_ahead))]
fn collected(alloc: Global, keyword: &[u8], list: Cursor<'_>) -> Result<NameSet, AllocError>
    ensures { IfOk result (λ names. names ≡ names_ahead keyword.now [] (forest list.entry)) }
{
    let mut names = NameSet::new(alloc);
    let mut rest = list;
    'lists: loop {
        match front(rest) {
            Part::End => return Ok(names),
            Part::Word { rest: after, .. } => rest = after,
            Part::List {
                inside,
                rest: after,
                ..
            } => {
                add_name(&mut names, keyword, inside)?;
                rest = after;
            }
        }
    }
}
