//! What is stated between classes.
ghost use Rattle.std.specs.Prelude.{◌≡◌};
ghost use Rattle.sexp_text.specs.Shows.{forest};
ghost use Rattle.dsn_lists.specs.Results.{Gives, each};
ghost use Rattle.dsn_network.specs.ClassPairings.{two_names, names_once, with_clearances, pair_word, pair_item, pairs_of};

use board_rules::StatedRows;
use dsn_lists::{
    DesignKind, Marks, ReadWhy, all_names, is_word, next_list, opening, read_clearances, refused,
    word_at,
};
use row_lists::Row;
use sexp_text::{Cursor, Unit};
use std::alloc::Global;

/// Names of classes, and the clearances that are stated for each two of them.
#[derive(Debug, Drop)]
pub struct ClassPairs {
    /// Two names or more, of which some may be no class of the design, and one may stand several times.
    pub names: Marks,
    /// The clearances in the order of the text. Of two statements of the same thing the last one holds.
    pub stated: StatedRows,
}

// What a list of `class_class` is.
#[derive(Clone, Copy, Debug)]
enum PairWord {
    Names,
    Rules,
    Other,
}

// The names of a list that has two or more and begins at this byte.
#[tactic(auto, unfolding(crate::specs::ClassPairings::two_names))]
fn two_names(alloc: Global, at: u32, args: Cursor<'_>) -> Result<Marks, ReadWhy>
    ensures { Gives (λ x. x) result (two_names at (forest args.entry)) }
{
    let (_, rest) = word_at(at, args)?;
    word_at(at, rest)?;
    all_names(alloc, at, args)
}

// The names, which stand once.
#[tactic(auto, unfolding(crate::specs::ClassPairings::names_once))]
fn add_names(
    alloc: Global,
    pairs: ClassPairs,
    at: u32,
    args: Cursor<'_>,
) -> Result<ClassPairs, ReadWhy>
    ensures { Gives (λ x. x) result (names_once pairs at (forest args.entry)) }
{
    if !pairs.names.is_empty() {
        return Err(refused(DesignKind::Form, at));
    }
    let names = two_names(alloc, at, args)?;
    Ok(ClassPairs {
        names,
        stated: pairs.stated,
    })
}

fn add_clearances(unit: Unit, pairs: ClassPairs, args: Cursor<'_>) -> Result<ClassPairs, ReadWhy>
    ensures { Gives (λ x. x) result (with_clearances unit pairs (forest args.entry)) }
{
    let stated = read_clearances(unit, pairs.stated, args)?;
    Ok(ClassPairs {
        names: pairs.names,
        stated,
    })
}

#[tactic(auto, unfolding(crate::specs::ClassPairings::pair_word))]
fn pair_word(text: &[u8]) -> PairWord
    ensures { result ≡ pair_word text.now }
{
    if is_word(text, b"classes") {
        return PairWord::Names;
    }
    if is_word(text, b"rule") {
        return PairWord::Rules;
    }
    PairWord::Other
}

#[tactic(auto, unfolding(crate::specs::ClassPairings::pair_item))]
fn read_list(
    alloc: Global,
    unit: Unit,
    pairs: ClassPairs,
    at: u32,
    inside: Cursor<'_>,
) -> Result<ClassPairs, ReadWhy>
    ensures { Gives (λ x. x) result (pair_item unit pairs at (forest inside.entry)) }
{
    let head = opening(inside);
    match pair_word(head.text) {
        PairWord::Names => add_names(alloc, pairs, at, head.args),
        PairWord::Rules => add_clearances(unit, pairs, head.args),
        PairWord::Other => Ok(pairs),
    }
}

#[tactic(auto, unfolding(dsn_lists::specs::Results::each))]
fn read_lists(
    alloc: Global,
    unit: Unit,
    pairs: ClassPairs,
    list: Cursor<'_>,
) -> Result<ClassPairs, ReadWhy>
    ensures { Gives (λ x. x) result (each (pair_item unit) pairs (forest list.entry)) }
{
    let mut pairs = pairs;
    let mut rest = list;
    'lists: while let Some((at, inside, after)) = next_list(rest)? {
        pairs = read_list(alloc, unit, pairs, at, inside)?;
        rest = after;
    }
    Ok(pairs)
}

/// What a list states between classes that begins at this byte.
#[tactic(auto, unfolding(crate::specs::ClassPairings::pairs_of))]
pub fn pairs_at(alloc: Global, unit: Unit, at: u32, args: Cursor<'_>) -> Result<ClassPairs, ReadWhy>
    ensures { Gives (λ x. x) result (pairs_of unit at (forest args.entry)) }
{
    let none = ClassPairs {
        names: Row::new(alloc),
        stated: Row::new(alloc),
    };
    let pairs = read_lists(alloc, unit, none, args)?;
    if pairs.names.is_empty() {
        return Err(refused(DesignKind::Missing, at));
    }
    Ok(pairs)
}
