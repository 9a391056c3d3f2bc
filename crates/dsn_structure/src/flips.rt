//! How parts on the back are turned over.
ghost use Rattle.std.specs.Prelude.{◌≡◌, None};
ghost use Rattle.sexp_text.specs.Shows.{forest};
ghost use Rattle.dsn_lists.specs.Results.{Tells, each};
ghost use Rattle.dsn_structure.specs.Structures.{flip_named, flip_list, flip_item, flip_of};

use dsn_lists::{DesignFault, DesignKind, fault, is_word, next_list, opening, read_over, word_at};
use sexp_text::Cursor;

/// Whether a part on the back is mirrored before or after it is turned.
#[derive(Clone, Copy, Debug, PartialEq, Eq)]
pub enum FlipStyle {
    MirrorFirst,
    RotateFirst,
}

#[tactic(auto, unfolding(crate::specs::Structures::flip_named))]
fn style_named(text: &[u8]) -> Option<FlipStyle>
    ensures { result ≡ flip_named text.now }
{
    if is_word(text, b"mirror_first") {
        return Some(FlipStyle::MirrorFirst);
    }
    if is_word(text, b"rotate_first") {
        return Some(FlipStyle::RotateFirst);
    }
    None
}

#[tactic(auto, unfolding(crate::specs::Structures::flip_list))]
fn style_at(at: u32, args: Cursor<'_>) -> Result<FlipStyle, DesignFault>
    ensures { Tells (λ x. x) result (flip_list at (forest args.entry)) }
{
    let (word, rest) = word_at(at, args)?;
    match style_named(word.text) {
        None => Err(fault(DesignKind::Style, word.at)),
        Some(style) => {
            read_over(rest)?;
            Ok(style)
        }
    }
}

#[tactic(auto, unfolding(crate::specs::Structures::flip_item))]
fn read_list(
    found: Option<FlipStyle>,
    at: u32,
    inside: Cursor<'_>,
) -> Result<Option<FlipStyle>, DesignFault>
    ensures { Tells (λ x. x) result (flip_item found at (forest inside.entry)) }
{
    let head = opening(inside);
    if !is_word(head.text, b"flip_style") {
        return Ok(found);
    }
    if found.is_some() {
        return Err(fault(DesignKind::Form, at));
    }
    let style = style_at(at, head.args)?;
    Ok(Some(style))
}

#[tactic(auto, unfolding(dsn_lists::specs::Results::each))]
fn read_lists(list: Cursor<'_>) -> Result<Option<FlipStyle>, DesignFault>
    ensures { Tells (λ x. x) result (each flip_item None (forest list.entry)) }
{
    let mut found = None;
    let mut rest = list;
    'lists: while let Some((at, inside, after)) = next_list(rest)? {
        found = read_list(found, at, inside)?;
        rest = after;
    }
    Ok(found)
}

/// The flip style that a `place_control` list states, which begins at this byte.
#[tactic(auto, unfolding(crate::specs::Structures::flip_of))]
pub fn flip_at(at: u32, args: Cursor<'_>) -> Result<FlipStyle, DesignFault>
    ensures { Tells (λ x. x) result (flip_of at (forest args.entry)) }
{
    match read_lists(args)? {
        None => Err(fault(DesignKind::Form, at)),
        Some(style) => Ok(style),
    }
}
