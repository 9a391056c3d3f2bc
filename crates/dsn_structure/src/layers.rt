//! The layers of a design.
ghost use Rattle.std.specs.Prelude.{◌≡◌, false, IfOk};
ghost use Rattle.sexp_text.specs.Shows.{forest};
ghost use Rattle.dsn_lists.specs.Results.{Tells, Gives, each};
ghost use Rattle.dsn_lists.specs.Names.{is_among};
ghost use Rattle.dsn_structure.specs.Structures.{type_item, layer_of, layers_with};

use dsn_lists::{
    DesignFault, DesignKind, NameSet, ReadWhy, check_new, fault, is_word, next_list, only_word,
    opening, word_at,
};
use row_lists::LAYER_LIMIT;
use sexp_text::Cursor;

#[tactic(auto, unfolding(crate::specs::Structures::type_item))]
fn read_list(typed: bool, at: u32, inside: Cursor<'_>) -> Result<bool, DesignFault>
    ensures { Tells (λ x. x) result (type_item typed at (forest inside.entry)) }
{
    let head = opening(inside);
    if !is_word(head.text, b"type") {
        return Ok(typed);
    }
    only_word(at, head.args)?;
    Ok(true)
}

// Whether the lists of a layer state its type.
#[tactic(auto, unfolding(dsn_lists::specs::Results::each))]
fn read_lists(list: Cursor<'_>) -> Result<bool, DesignFault>
    ensures { Tells (λ x. x) result (each type_item false (forest list.entry)) }
{
    let mut typed = false;
    let mut rest = list;
    'lists: while let Some((at, inside, after)) = next_list(rest)? {
        typed = read_list(typed, at, inside)?;
        rest = after;
    }
    Ok(typed)
}

// The name of a layer that none of these has.
#[tactic(auto, unfolding(crate::specs::Structures::layer_of))]
fn layer_name<'a>(names: &NameSet, at: u32, args: Cursor<'a>) -> Result<&'a [u8], DesignFault>
    ensures told { Tells (λ x. x.now) result (layer_of names.now at (forest args.entry)) }
    ensures fresh { IfOk result (λ x. is_among x.now names.now ≡ false) }
{
    let (word, rest) = word_at(at, args)?;
    check_new(names, LAYER_LIMIT, word)?;
    if !read_lists(rest)? {
        return Err(fault(DesignKind::Form, at));
    }
    Ok(word.text)
}

/// Puts the name of a layer, whose list begins at this byte, behind the names that are there.
pub fn add_layer(names: &mut NameSet, at: u32, args: Cursor<'_>) -> Result<(), ReadWhy>
    ensures { Gives (λ _. names.new) result (layers_with names.old at (forest args.entry)) }
{
    let name = layer_name(names, at, args)?;
    names.add(name)?;
    Ok(())
}
