//! The lists and words of a text as a tree.
ghost use Rattle.std.specs.Prelude.{◌<◌, ◌^◌, length};
ghost use Rattle.sexp_text.specs.Nodes.{IsLaid};

use crate::cursor::TreeEntry;
use layout_io::Row;
use std::alloc::Global;

/// The lists and words of a text, numbered from 0 in the order in which they begin.
#[derive(Drop)]
pub struct Tree {
    pub(crate) alloc: Global,
    pub(crate) pool: Row<u8>,
    pub(crate) entries: Row<TreeEntry>,
    ghost laid: { ∥ IsLaid pool entries ∥₁ },
    ghost small: { length entries < 2 ^ 32 },
}
