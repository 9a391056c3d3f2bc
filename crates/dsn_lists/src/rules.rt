//! The widths and clearances that rules state.
ghost use Rattle.std.specs.Prelude.{◌≡◌, ◌<◌, ◌≤◌, ◌==◌, IfOk, OnOk, IfSome, Some, length};
ghost use Rattle.std.specs.List.{position, AllByRecursion};
ghost use Rattle.sexp_text.specs.Shows.{forest};
ghost use Rattle.board_rules.specs.declared.design.Stated.{Stated};
ghost use Rattle.dsn_lists.specs.Results.{Tells, Gives, each};
ghost use Rattle.dsn_lists.specs.Words.{marked};
ghost use Rattle.dsn_lists.specs.Rules.{kind_of, what_of, kinds_at, stating, stated_for, type_list, clearance_item, untyped_unless, clearance_list, width_list, rule_word, rule_item, rule_of, clearances_item, clearances_of};

use crate::faults::{DesignFault, ReadWhy};
use crate::lengths::width_at;
use crate::words::{is_word, next_list, opening, read_over, word_at};
use board_rules::{Kind, Stated, StatedRows, What};
use sexp_text::{Cursor, Part, Unit, front};
use std::alloc::AllocError;

/// The width in nm that rules state last, and the clearances that they state, in the order of the text. Of two
/// statements of the same thing the last one holds.
#[derive(Debug, Drop)]
pub struct Rule {
    pub width: Option<u32>,
    pub stated: StatedRows,
}

// Whether a clearance has a type, and what was stated up to it.
#[derive(Drop)]
struct Typed {
    typed: bool,
    stated: StatedRows,
}

// What a list of a rule is.
#[derive(Clone, Copy, Debug)]
enum RuleWord {
    Width,
    Clearance,
    Other,
}

#[tactic(auto, unfolding(crate::specs::Rules::kind_of))]
fn kind_named(text: &[u8]) -> Option<Kind>
    ensures { result ≡ kind_of text.now }
{
    if is_word(text, b"wire") {
        return Some(Kind::Wire);
    }
    if is_word(text, b"via") {
        return Some(Kind::Via);
    }
    if is_word(text, b"pin") {
        return Some(Kind::Pin);
    }
    if is_word(text, b"smd") {
        return Some(Kind::Smd);
    }
    None
}

// The two kinds that a word names before and behind its first `_`.
fn kinds_named(text: &[u8], place: usize) -> Option<What>
    requires { place < length text.now }
    ensures { result ≡ kinds_at text.now (Some place) }
{
    let (before, _) = text.split_at(place);
    let (_, behind) = text.split_at(place + 1);
    match kind_named(before) {
        None => None,
        Some(a) => match kind_named(behind) {
            None => None,
            Some(b) => Some(What::Pair { a, b }),
        },
    }
}

fn underscore(text: &[u8]) -> Option<usize>
    ensures place { result ≡ position (λ c. c == 95) text.now }
    ensures bound { IfSome result (λ n. n < length text.now) }
{
    text.iter().position(|c| *c == b'_')
}

#[tactic(auto, unfolding(crate::specs::Rules::what_of))]
fn what_named(text: &[u8]) -> Option<What>
    ensures { result ≡ what_of text.now }
{
    if is_word(text, b"default_smd") {
        return Some(What::DefaultSmd);
    }
    match underscore(text) {
        None => None,
        Some(place) => kinds_named(text, place),
    }
}

// States the value for what a word names.
fn state(stated: &mut StatedRows, value: u32, text: &[u8]) -> Result<(), AllocError>
    ensures { OnOk result (stated.new ≡ stating stated.old value (what_of text.now)) }
{
    match what_named(text) {
        None => Ok(()),
        Some(what) => stated.push(Stated { what, value }),
    }
}

#[tactic(auto, unfolding(crate::specs::Rules::stated_for))]
fn state_all<'a>(
    stated: &mut StatedRows,
    value: u32,
    list: Cursor<'a>,
) -> Result<Cursor<'a>, AllocError>
    ensures { IfOk result (λ rest. stated_for stated.old value (forest list.entry) ≡ (stated.new, forest rest)) }
{
    let mut rest = list;
    'words: loop {
        match front(rest) {
            Part::Word {
                text,
                rest: after,
                ..
            } => {
                state(stated, value, text)?;
                rest = after;
            }
            _ => return Ok(rest),
        }
    }
}

#[tactic(auto, unfolding(crate::specs::Rules::type_list))]
fn read_type(stated: &mut StatedRows, value: u32, at: u32, args: Cursor<'_>) -> Result<(), ReadWhy>
    ensures { Gives (λ _. stated.new) result (type_list stated.old value at (forest args.entry)) }
{
    let (word, rest) = word_at(at, args)?;
    state(stated, value, word.text)?;
    let after = state_all(stated, value, rest)?;
    Ok(read_over(after)?)
}

#[tactic(auto, unfolding(crate::specs::Rules::clearance_item))]
fn read_clearance_list(
    typed: &mut Typed,
    value: u32,
    at: u32,
    inside: Cursor<'_>,
) -> Result<(), ReadWhy>
    ensures { Gives (λ _. typed.new) result (clearance_item value typed.old at (forest inside.entry)) }
{
    let head = opening(inside);
    if !is_word(head.text, b"type") {
        return Ok(());
    }
    read_type(&mut typed.stated, value, at, head.args)?;
    typed.typed = true;
    Ok(())
}

#[tactic(auto, unfolding(crate::specs::Results::each))]
fn read_clearance_lists(typed: &mut Typed, value: u32, list: Cursor<'_>) -> Result<(), ReadWhy>
    ensures { Gives (λ _. typed.new) result (each (clearance_item value) typed.old (forest list.entry)) }
{
    let mut rest = list;
    'lists: while let Some((at, inside, after)) = next_list(rest)? {
        read_clearance_list(typed, value, at, inside)?;
        rest = after;
    }
    Ok(())
}

// A clearance without a type is stated for all that has none.
fn untyped_too(typed: Typed, value: u32) -> Result<StatedRows, AllocError>
    ensures { IfOk result (λ x. x ≡ untyped_unless typed.typed typed.stated value) }
{
    let mut stated = typed.stated;
    if !typed.typed {
        stated.push(Stated {
            what: What::Untyped,
            value,
        })?;
    }
    Ok(stated)
}

#[tactic(auto, unfolding(crate::specs::Rules::clearance_list))]
fn read_clearance(
    unit: Unit,
    stated: StatedRows,
    at: u32,
    args: Cursor<'_>,
) -> Result<StatedRows, ReadWhy>
    ensures { Gives (λ x. x) result (clearance_list unit stated at (forest args.entry)) }
{
    let (word, rest) = word_at(at, args)?;
    let value = width_at(unit, word)?;
    let mut typed = Typed {
        typed: false,
        stated,
    };
    read_clearance_lists(&mut typed, value, rest)?;
    Ok(untyped_too(typed, value)?)
}

#[tactic(auto, unfolding(crate::specs::Rules::width_list))]
fn read_width(unit: Unit, at: u32, args: Cursor<'_>) -> Result<u32, DesignFault>
    ensures { Tells (λ x. x) result (width_list unit at (forest args.entry)) }
{
    let (word, rest) = word_at(at, args)?;
    let width = width_at(unit, word)?;
    read_over(rest)?;
    Ok(width)
}

#[tactic(auto, unfolding(crate::specs::Rules::rule_word))]
fn rule_word(text: &[u8]) -> RuleWord
    ensures { result ≡ rule_word text.now }
{
    if is_word(text, b"width") {
        return RuleWord::Width;
    }
    if is_word(text, b"clearance") {
        return RuleWord::Clearance;
    }
    RuleWord::Other
}

#[tactic(auto, unfolding(crate::specs::Rules::rule_item))]
fn read_rule_list(unit: Unit, rule: Rule, at: u32, inside: Cursor<'_>) -> Result<Rule, ReadWhy>
    ensures { Gives (λ x. x) result (rule_item unit rule at (forest inside.entry)) }
{
    let head = opening(inside);
    match rule_word(head.text) {
        RuleWord::Width => {
            let width = read_width(unit, at, head.args)?;
            Ok(Rule {
                width: Some(width),
                stated: rule.stated,
            })
        }
        RuleWord::Clearance => {
            let stated = read_clearance(unit, rule.stated, at, head.args)?;
            Ok(Rule {
                width: rule.width,
                stated,
            })
        }
        RuleWord::Other => Ok(rule),
    }
}

/// Reads the lists of a `rule`, behind what earlier rules stated.
#[tactic(auto, unfolding(crate::specs::Results::each))]
pub fn read_rule(unit: Unit, rule: Rule, list: Cursor<'_>) -> Result<Rule, ReadWhy>
    ensures { Gives (λ x. x) result (rule_of unit rule (forest list.entry)) }
{
    let mut rule = rule;
    let mut rest = list;
    'lists: while let Some((at, inside, after)) = next_list(rest)? {
        rule = read_rule_list(unit, rule, at, inside)?;
        rest = after;
    }
    Ok(rule)
}

#[tactic(auto, unfolding(crate::specs::Rules::clearances_item))]
fn read_clearances_list(
    unit: Unit,
    stated: StatedRows,
    at: u32,
    inside: Cursor<'_>,
) -> Result<StatedRows, ReadWhy>
    ensures { Gives (λ x. x) result (clearances_item unit stated at (forest inside.entry)) }
{
    let head = opening(inside);
    if !is_word(head.text, b"clearance") {
        return Ok(stated);
    }
    read_clearance(unit, stated, at, head.args)
}

/// Reads the clearances of a `rule` whose other lists, `width` too, are read over; behind what earlier rules stated.
#[tactic(auto, unfolding(crate::specs::Results::each))]
pub fn read_clearances(
    unit: Unit,
    stated: StatedRows,
    list: Cursor<'_>,
) -> Result<StatedRows, ReadWhy>
    ensures { Gives (λ x. x) result (clearances_of unit stated (forest list.entry)) }
{
    let mut stated = stated;
    let mut rest = list;
    'lists: while let Some((at, inside, after)) = next_list(rest)? {
        stated = read_clearances_list(unit, stated, at, inside)?;
        rest = after;
    }
    Ok(stated)
}
