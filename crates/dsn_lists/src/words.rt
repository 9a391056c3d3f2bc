//! The words of a list, and what a list is by its first word.
ghost use Rattle.std.specs.Prelude.{◌≡◌, ◌++◌, ◌∷◌, [], length, OnOk, IfOk};
ghost use Rattle.sexp_text.specs.Shows.{forest};
ghost use Rattle.dsn_lists.specs.Results.{Tells, Gives, each};
ghost use Rattle.dsn_lists.specs.NextLists.{IsNextList, IsShorter};
ghost use Rattle.dsn_lists.specs.Words.{same, mark, marked, heading, head_of, word_of, spare_list, spare, one_word, names, name_list};

use crate::faults::{DesignFault, DesignKind, ReadWhy, fault};
use crate::marks::{Mark, Marks};
use row_lists::Row;
use sexp_text::{Cursor, Part, front};
use std::alloc::{AllocError, Global};

/// A word of the text, and its byte from 0.
#[derive(Clone, Copy, Debug)]
pub struct Found<'a> {
    pub at: u32,
    pub text: &'a [u8],
}

/// The keyword of a list with its byte, and what stands behind it.
#[derive(Clone, Copy, Debug)]
pub struct Head<'a> {
    pub at: u32,
    /// Empty where the list doesn't begin with a word.
    pub text: &'a [u8],
    pub args: Cursor<'a>,
}

/// Whether two words are the same but for the case of ASCII letters.
pub fn is_word(text: &[u8], word: &[u8]) -> bool
    ensures { result ≡ same text.now word.now }
{
    text.eq_ignore_ascii_case(word)
}

/// The keyword of a list, and what stands behind it.
#[tactic(auto, unfolding(crate::specs::Words::head_of))]
pub fn opening(list: Cursor<'_>) -> Head<'_>
    ensures { heading result ≡ head_of (forest list.entry) }
{
    match front(list) {
        Part::Word { at, text, rest } => Head {
            at,
            text,
            args: rest,
        },
        _ => Head {
            at: 0,
            text: b"",
            args: list,
        },
    }
}

/// The next word of the list that begins at this byte, and what follows. Else the fault `Form`: at the list's byte
/// where it ends, at the `(` where a list stands in the word's place.
#[tactic(auto, unfolding(crate::specs::Words::word_of))]
pub fn word_at(at: u32, list: Cursor<'_>) -> Result<(Found<'_>, Cursor<'_>), DesignFault>
    ensures { Tells (λ x. (marked x.0, forest x.1)) result (word_of at (forest list.entry)) }
{
    match front(list) {
        Part::End => Err(fault(DesignKind::Form, at)),
        Part::Word { at, text, rest } => Ok((Found { at, text }, rest)),
        Part::List { at, .. } => Err(fault(DesignKind::Form, at)),
    }
}

/// The list at the front with its byte, and what follows it; none at the end. A word there is the fault `Form`.
pub fn next_list(list: Cursor<'_>) -> Result<Option<(u32, Cursor<'_>, Cursor<'_>)>, DesignFault>
    ensures is { IsNextList (forest list.entry) result }
    ensures less { IsShorter (length list.entry.entries.now) result }
{
    match front(list) {
        Part::End => Ok(None),
        Part::Word { at, .. } => Err(fault(DesignKind::Form, at)),
        Part::List { at, inside, rest } => Ok(Some((at, inside, rest))),
    }
}

/// Reads lists over; a word is the fault `Form`.
#[tactic(auto, unfolding(crate::specs::Results::each))]
pub fn read_over(list: Cursor<'_>) -> Result<(), DesignFault>
    ensures { Tells (λ x. x) result (spare (forest list.entry)) }
{
    let mut rest = list;
    'lists: while let Some((_, _, after)) = next_list(rest)? {
        rest = after;
    }
    Ok(())
}

/// The word of a list that holds one and begins at this byte.
#[tactic(auto, unfolding(crate::specs::Words::one_word))]
pub fn only_word(at: u32, list: Cursor<'_>) -> Result<Found<'_>, DesignFault>
    ensures { Tells (λ x. marked x) result (one_word at (forest list.entry)) }
{
    let (word, rest) = word_at(at, list)?;
    read_over(rest)?;
    Ok(word)
}

/// Puts a copy of a word behind the names that are there. Its one error is want of memory.
pub fn add_mark(alloc: Global, marks: &mut Marks, word: Found<'_>) -> Result<(), AllocError>
    ensures { OnOk result (marks.new ≡ marks.old ++ marked word.entry ∷ []) }
{
    let name = Row::from_slice(alloc, word.text)?;
    marks.push(Mark { at: word.at, name })
}

/// Puts copies of the words up to a list or the end behind the names that are there, and gives what follows. Its one
/// error is want of memory.
#[tactic(auto, unfolding(crate::specs::Words::names))]
pub fn add_names<'a>(
    alloc: Global,
    marks: &mut Marks,
    list: Cursor<'a>,
) -> Result<Cursor<'a>, AllocError>
    ensures { IfOk result (λ rest. names marks.old (forest list.entry) ≡ (marks.new, forest rest)) }
{
    let mut rest = list;
    'words: loop {
        match front(rest) {
            Part::Word {
                at,
                text,
                rest: after,
            } => {
                add_mark(alloc, marks, Found { at, text })?;
                rest = after;
            }
            _ => return Ok(rest),
        }
    }
}

/// The words of a list that has one or more and begins at this byte.
#[tactic(auto, unfolding(crate::specs::Words::name_list))]
pub fn all_names(alloc: Global, at: u32, list: Cursor<'_>) -> Result<Marks, ReadWhy>
    ensures { Gives (λ x. x) result (name_list at (forest list.entry)) }
{
    let (word, rest) = word_at(at, list)?;
    let mut marks = Row::new(alloc);
    add_mark(alloc, &mut marks, word)?;
    let after = add_names(alloc, &mut marks, rest)?;
    read_over(after)?;
    Ok(marks)
}
