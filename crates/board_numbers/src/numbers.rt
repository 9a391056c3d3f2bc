//! The numbers of the design that a text states.
ghost use Rattle.std.specs.Prelude.{◌≡◌, ◌≤◌, IfOk, IfErr, length};
ghost use Rattle.row_lists.specs.Limits.{text_limit_bytes};
ghost use Rattle.sexp_text.specs.Forest.{Forest};
ghost use Rattle.sexp_text.specs.Tree.{IsTree};
ghost use Rattle.dsn_reader.specs.Design.{WhyNoDesign};
ghost use Rattle.board_numbers.specs.Numbers.{numbers_text, HasOrigins, IsNumbered};

use crate::items::put_items;
use crate::lists::{put_classes, put_layers, put_nets, put_stacks};
use crate::origins::{Origins, origins_of};
use board_rules::Parts;
use dsn_reader::{ReadWhy, read_design};
use layout_io::Bytes;
use sexp_text::read_tree;
use std::alloc::{AllocError, Global};

// The lines of all that a design has.
#[tactic(auto, unfolding(crate::specs::Numbers::numbers_text))]
fn numbers_text(alloc: Global, parts: &Parts, origins: &Origins) -> Result<Bytes, AllocError>
    ensures { IfOk result (λ text. text ≡ numbers_text parts.now origins.now) }
{
    let mut out = Bytes::new(alloc);
    put_layers(&mut out, parts.layers.as_slice())?;
    put_stacks(&mut out, parts.stacks.as_slice())?;
    put_classes(&mut out, parts.classes.as_slice())?;
    put_nets(&mut out, parts.nets.as_slice())?;
    put_items(&mut out, origins, parts.items.as_slice())?;
    Ok(out)
}

// Where the items of a text's design come from.
fn origins_in(alloc: Global, bytes: &[u8]) -> Result<Origins, ReadWhy>
    requires { length bytes.now ≤ text_limit_bytes }
    ensures { IfOk result (λ origins. (f : Forest) × IsTree bytes.now f × HasOrigins f origins) }
{
    match read_tree(alloc, bytes) {
        Ok(tree) => origins_of(alloc, &tree),
        Err(_) => Err(ReadWhy::Memory),
    }
}

/// The numbers of the design that a text states, or the text's first fault.
pub fn numbers_of(alloc: Global, bytes: &[u8]) -> Result<Bytes, ReadWhy>
    // What is given is the text of the numbers.
    ensures found { IfOk result (IsNumbered bytes.now) }
    // What is told is the text's first fault.
    ensures fault { IfErr result (WhyNoDesign bytes.now) }
{
    let design = read_design(alloc, bytes)?;
    // The sections were read once already, so nothing but memory can be wanting now.
    let Ok(origins) = origins_in(alloc, bytes) else {
        return Err(ReadWhy::Memory);
    };
    let Ok(text) = numbers_text(alloc, design.parts(), &origins) else {
        return Err(ReadWhy::Memory);
    };
    Ok(text)
}
