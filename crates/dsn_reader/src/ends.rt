//! The net and the type of wiring.
ghost use Rattle.std.specs.Prelude.{◌≡◌, ◌≤◌, ◌<◌, length, IfOk, OnOk};
ghost use Rattle.row_lists.specs.Limits.{net_limit};
ghost use Rattle.sexp_text.specs.Shows.{forest};
ghost use Rattle.dsn_lists.specs.Results.{Tells, Gives, each};
ghost use Rattle.dsn_lists.specs.Words.{marked};
ghost use Rattle.dsn_reader.specs.Fronts.{IsFront};
ghost use Rattle.dsn_reader.specs.Wirings.{netted, net_number, type_named, type_list, net_list, type_once, end_word, end_item, no_ends, is_fixed};

use dsn_lists::{
    DesignFault, DesignKind, Found, NameSet, ReadWhy, fault, is_word, next_list, only_word,
    opening, read_over, refused, word_at,
};
use row_lists::NET_LIMIT;
use sexp_text::Cursor;

/// The number of the net of wiring, and whether its type is `fix`, where they are stated.
#[derive(Clone, Copy, Debug)]
pub struct Ends {
    pub net: Option<u32>,
    pub fix: Option<bool>,
}

// What a list of wiring is that states its net or type.
#[derive(Clone, Copy, Debug)]
enum EndWord {
    Net,
    Kind,
    Other,
}

// The number of a net, which is put behind the others where it isn't there.
#[tactic(auto, unfolding(crate::specs::Wirings::net_number), using(crate::proofs::Fronts::front_same, crate::proofs::Fronts::front_one))]
fn number_of(nets: &mut NameSet, word: Found<'_>) -> Result<u32, ReadWhy>
    requires { length nets.old ≤ net_limit }
    ensures number { Gives (λ n. netted nets.new n) result (net_number nets.old (marked word.entry)) }
    ensures few { length nets.new ≤ net_limit }
    ensures kept { IsFront nets.old nets.new }
{
    if let Some(number) = nets.place(word.text) {
        return Ok(number as u32);
    }
    let number = nets.len();
    if number >= NET_LIMIT {
        return Err(refused(DesignKind::Large, word.at));
    }
    nets.add(word.text)?;
    Ok(number as u32)
}

#[tactic(auto, unfolding(crate::specs::Wirings::type_named))]
fn is_fix(text: &[u8]) -> Option<bool>
    ensures { result ≡ type_named text.now }
{
    if is_word(text, b"fix") {
        return Some(true);
    }
    if is_word(text, b"route") {
        return Some(false);
    }
    if is_word(text, b"normal") {
        return Some(false);
    }
    if is_word(text, b"protect") {
        return Some(false);
    }
    None
}

#[tactic(auto, unfolding(crate::specs::Wirings::type_list))]
fn type_at(at: u32, args: Cursor<'_>) -> Result<bool, DesignFault>
    ensures { Tells (λ x. x) result (type_list at (forest args.entry)) }
{
    let (word, rest) = word_at(at, args)?;
    match is_fix(word.text) {
        None => Err(fault(DesignKind::Style, word.at)),
        Some(fix) => {
            read_over(rest)?;
            Ok(fix)
        }
    }
}

#[tactic(auto, unfolding(crate::specs::Wirings::net_list), using(crate::proofs::Fronts::front_same))]
fn read_net(nets: &mut NameSet, ends: Ends, at: u32, args: Cursor<'_>) -> Result<Ends, ReadWhy>
    requires { length nets.old ≤ net_limit }
    ensures ends { Gives (λ e. netted nets.new e) result (net_list nets.old ends at (forest args.entry)) }
    ensures few { length nets.new ≤ net_limit }
    ensures kept { IsFront nets.old nets.new }
{
    if ends.net.is_some() {
        return Err(refused(DesignKind::Form, at));
    }
    let word = only_word(at, args)?;
    let number = number_of(nets, word)?;
    Ok(Ends {
        net: Some(number),
        fix: ends.fix,
    })
}

#[tactic(auto, unfolding(crate::specs::Wirings::type_once))]
fn read_type(ends: Ends, at: u32, args: Cursor<'_>) -> Result<Ends, DesignFault>
    ensures { Tells (λ x. x) result (type_once ends at (forest args.entry)) }
{
    if ends.fix.is_some() {
        return Err(fault(DesignKind::Form, at));
    }
    let fix = type_at(at, args)?;
    Ok(Ends {
        net: ends.net,
        fix: Some(fix),
    })
}

#[tactic(auto, unfolding(crate::specs::Wirings::end_word))]
fn end_word(text: &[u8]) -> EndWord
    ensures { result ≡ end_word text.now }
{
    if is_word(text, b"net") {
        return EndWord::Net;
    }
    if is_word(text, b"type") {
        return EndWord::Kind;
    }
    EndWord::Other
}

/// Reads a list of wiring that states its net or its type, or reads it over.
#[tactic(auto, unfolding(crate::specs::Wirings::end_item), using(crate::proofs::Fronts::front_same))]
pub fn read_end(
    nets: &mut NameSet,
    ends: Ends,
    at: u32,
    inside: Cursor<'_>,
) -> Result<Ends, ReadWhy>
    requires { length nets.old ≤ net_limit }
    ensures ends { Gives (λ e. netted nets.new e) result (end_item (netted nets.old ends) at (forest inside.entry)) }
    ensures few { length nets.new ≤ net_limit }
    ensures kept { IsFront nets.old nets.new }
{
    let head = opening(inside);
    match end_word(head.text) {
        EndWord::Net => read_net(nets, ends, at, head.args),
        EndWord::Kind => Ok(read_type(ends, at, head.args)?),
        EndWord::Other => Ok(ends),
    }
}

/// Reads the lists behind the words of a via.
#[tactic(auto, unfolding(dsn_lists::specs::Results::each), using(crate::proofs::Fronts::front_same, crate::proofs::Fronts::front_then))]
pub fn read_ends(nets: &mut NameSet, list: Cursor<'_>) -> Result<Ends, ReadWhy>
    requires { length nets.old ≤ net_limit }
    ensures ends { Gives (λ e. netted nets.new e) result (each end_item (netted nets.old no_ends) (forest list.entry)) }
    ensures few { length nets.new ≤ net_limit }
    ensures kept { IsFront nets.old nets.new }
{
    let mut ends = Ends {
        net: None,
        fix: None,
    };
    let mut rest = list;
    'lists: while let Some((at, inside, after)) = next_list(rest)? {
        ends = read_end(nets, ends, at, inside)?;
        rest = after;
    }
    Ok(ends)
}

impl Ends {
    /// Whether the type is `fix`.
    pub fn is_fixed(self) -> bool
        ensures { result ≡ is_fixed self.fix }
    {
        self.fix.unwrap_or(false)
    }
}
