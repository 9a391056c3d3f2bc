//! The padstacks of a library.
ghost use Rattle.std.specs.Prelude.{◌≡◌, false, IfOk};
ghost use Rattle.sexp_text.specs.Shows.{forest};
ghost use Rattle.dsn_lists.specs.Results.{Tells, Gives, each};
ghost use Rattle.dsn_lists.specs.Names.{is_among};
ghost use Rattle.dsn_library.specs.Libraries.{not_first, stack_word, nothing_drawn, stack_item, as_stack, stack_of};

use area_geometry::Shapes;
use board_items::Padstack;
use dsn_lists::{
    DesignFault, DesignKind, NameSet, ReadWhy, check_new, fault, is_word, next_list, opening,
    refused, word_at,
};
use dsn_shapes::add_shapes;
use row_lists::{PADSTACK_LIMIT, Row};
use sexp_text::{Cursor, Part, Unit, front};
use std::alloc::Global;

// The shapes of a padstack, and whether a list stated shapes.
#[derive(Drop)]
struct Drawn {
    shapes: Shapes,
    drawn: bool,
}

// What a list of a padstack is.
#[derive(Clone, Copy, Debug)]
enum StackWord {
    Shapes,
    Window,
    Rotate,
    Absolute,
    Other,
}

// The list doesn't begin with the word.
#[tactic(auto, unfolding(crate::specs::Libraries::not_first))]
fn refuse_first(word: &[u8], args: Cursor<'_>) -> Result<(), DesignFault>
    ensures { Tells (λ x. x) result (not_first word.now (forest args.entry)) }
{
    match front(args) {
        Part::Word { at, text, .. } => {
            if is_word(text, word) {
                return Err(fault(DesignKind::Form, at));
            }
            Ok(())
        }
        _ => Ok(()),
    }
}

#[tactic(auto, unfolding(crate::specs::Libraries::stack_word))]
fn stack_word(text: &[u8]) -> StackWord
    ensures { result ≡ stack_word text.now }
{
    if is_word(text, b"shape") {
        return StackWord::Shapes;
    }
    if is_word(text, b"window") {
        return StackWord::Window;
    }
    if is_word(text, b"rotate") {
        return StackWord::Rotate;
    }
    if is_word(text, b"absolute") {
        return StackWord::Absolute;
    }
    StackWord::Other
}

#[tactic(auto, unfolding(crate::specs::Libraries::stack_item))]
fn read_list(
    alloc: Global,
    unit: Unit,
    layers: &NameSet,
    drawn: &mut Drawn,
    at: u32,
    inside: Cursor<'_>,
) -> Result<(), ReadWhy>
    ensures { Gives (λ _. drawn.new) result (stack_item unit layers.now drawn.old at (forest inside.entry)) }
{
    let head = opening(inside);
    match stack_word(head.text) {
        StackWord::Shapes => {
            add_shapes(alloc, unit, layers, &mut drawn.shapes, at, head.args)?;
            drawn.drawn = true;
            Ok(())
        }
        StackWord::Window => Err(refused(DesignKind::Window, head.at)),
        StackWord::Rotate => Ok(refuse_first(b"off", head.args)?),
        StackWord::Absolute => Ok(refuse_first(b"on", head.args)?),
        StackWord::Other => Ok(()),
    }
}

#[tactic(auto, unfolding(dsn_lists::specs::Results::each))]
fn read_lists(
    alloc: Global,
    unit: Unit,
    layers: &NameSet,
    list: Cursor<'_>,
) -> Result<Drawn, ReadWhy>
    ensures { Gives (λ x. x) result (each (stack_item unit layers.now) nothing_drawn (forest list.entry)) }
{
    let mut drawn = Drawn {
        shapes: Row::new(alloc),
        drawn: false,
    };
    let mut rest = list;
    'lists: while let Some((at, inside, after)) = next_list(rest)? {
        read_list(alloc, unit, layers, &mut drawn, at, inside)?;
        rest = after;
    }
    Ok(drawn)
}

#[tactic(auto, unfolding(crate::specs::Libraries::as_stack))]
fn whole_stack(alloc: Global, at: u32, name: &[u8], drawn: Drawn) -> Result<Padstack, ReadWhy>
    ensures stack { Gives (λ x. x) result (as_stack at name.now drawn) }
    ensures name { IfOk result (λ p. p.name ≡ name.now) }
{
    if !drawn.drawn {
        return Err(refused(DesignKind::Form, at));
    }
    Ok(Padstack {
        name: Row::from_slice(alloc, name)?,
        shapes: drawn.shapes,
    })
}

/// The padstack of a list that begins at this byte, behind padstacks of these names.
#[tactic(auto, unfolding(crate::specs::Libraries::stack_of))]
pub fn stack_at(
    alloc: Global,
    unit: Unit,
    layers: &NameSet,
    names: &NameSet,
    at: u32,
    args: Cursor<'_>,
) -> Result<Padstack, ReadWhy>
    ensures stack { Gives (λ x. x) result (stack_of unit layers.now names.now at (forest args.entry)) }
    ensures fresh { IfOk result (λ p. is_among p.name names.now ≡ false) }
{
    let (word, rest) = word_at(at, args)?;
    check_new(names, PADSTACK_LIMIT, word)?;
    let drawn = read_lists(alloc, unit, layers, rest)?;
    whole_stack(alloc, at, word.text, drawn)
}
