//! Units of length, and which of them governs.
ghost use Rattle.std.specs.Prelude.{◌≡◌};
ghost use Rattle.sexp_text.specs.Shows.{forest};
ghost use Rattle.dsn_lists.specs.Results.{Tells};
ghost use Rattle.dsn_lists.specs.Words.{marked};
ghost use Rattle.dsn_lists.specs.Units.{unit_of, unit_word, unit_list, unit_behind, governing};

use crate::faults::{DesignFault, DesignKind, fault};
use crate::words::{Found, is_word, opening, read_over, word_at};
use sexp_text::{Cursor, Part, Unit, front};

// The unit that a word names.
#[tactic(auto, unfolding(crate::specs::Units::unit_of))]
fn unit_named(text: &[u8]) -> Option<Unit>
    ensures { result ≡ unit_of text.now }
{
    if is_word(text, b"inch") {
        return Some(Unit::Inch);
    }
    if is_word(text, b"mil") {
        return Some(Unit::Mil);
    }
    if is_word(text, b"cm") {
        return Some(Unit::Cm);
    }
    if is_word(text, b"mm") {
        return Some(Unit::Mm);
    }
    if is_word(text, b"um") {
        return Some(Unit::Um);
    }
    None
}

/// The unit that a word names, or the fault `Unit` at it.
pub fn unit_in(word: Found<'_>) -> Result<Unit, DesignFault>
    ensures { Tells (λ x. x) result (unit_word (marked word.entry)) }
{
    match unit_named(word.text) {
        None => Err(fault(DesignKind::Unit, word.at)),
        Some(unit) => Ok(unit),
    }
}

/// What `(unit <unit>)` states, of the list that begins at this byte.
#[tactic(auto, unfolding(crate::specs::Units::unit_list))]
pub fn unit_at(at: u32, args: Cursor<'_>) -> Result<Unit, DesignFault>
    ensures { Tells (λ x. x) result (unit_list at (forest args.entry)) }
{
    let (word, rest) = word_at(at, args)?;
    let unit = unit_in(word)?;
    read_over(rest)?;
    Ok(unit)
}

// The unit that holds behind a list.
#[tactic(auto, unfolding(crate::specs::Units::unit_behind))]
fn unit_after(unit: Unit, at: u32, inside: Cursor<'_>) -> Unit
    ensures { result ≡ unit_behind unit at (forest inside.entry) }
{
    let head = opening(inside);
    if !is_word(head.text, b"unit") {
        return unit;
    }
    match unit_at(at, head.args) {
        Ok(stated) => stated,
        Err(_) => unit,
    }
}

/// The unit that governs the lists: that of the last `unit` list without fault among them, else the one given.
#[tactic(auto, unfolding(crate::specs::Units::governing))]
pub fn unit_for(unit: Unit, list: Cursor<'_>) -> Unit
    ensures { result ≡ governing unit (forest list.entry) }
{
    let mut unit = unit;
    let mut rest = list;
    'lists: loop {
        match front(rest) {
            Part::End => return unit,
            Part::Word { rest: after, .. } => rest = after,
            Part::List {
                at,
                inside,
                rest: after,
            } => {
                unit = unit_after(unit, at, inside);
                rest = after;
            }
        }
    }
}
