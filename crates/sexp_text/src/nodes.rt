//! The lists and words of a tree by their numbers.
ghost use Rattle.std.specs.Prelude.{◌≡◌, ◌<◌, ◌^◌, IfOk};
ghost use Rattle.sexp_text.specs.Nodes.{size, Fits, next_of, IsWordFirst, text_first};
ghost use Rattle.sexp_text.specs.Shows.{forest};
ghost use Rattle.sexp_text.specs.Trees.{tree_forest, node_at, IsNode};

use crate::cursor::{Cursor, TreeEntry, piece};
use crate::tree::Tree;
use layout_io::{Name, Row};
use std::alloc::AllocError;

/// A list or a word of a tree.
#[derive(Clone, Copy, Debug, PartialEq, Eq)]
pub enum Node {
    /// A list: the byte of its `(`, and the number of the first list or word within it.
    List { at: u32, first: Option<u32> },
    /// A word: its first byte, and where its text stands among the texts that the tree keeps.
    Word { at: u32, start: u32, end: u32 },
}

impl Tree {
    /// How many lists and words there are.
    pub fn count(&self) -> u32
        ensures { result ≡ size (tree_forest self.now) }
    {
        self.entries.len() as u32
    }

    // The entry of this number, which fits what begins there.
    fn entry(&self, n: u32) -> TreeEntry
        requires { n < size (tree_forest self.now) }
        ensures fits { Fits self.now.pool result n (size (tree_forest self.now)) (node_at self.now n) }
        ensures small { size (tree_forest self.now) < 2 ^ 32 }
    {
        *self.entries.get(n as usize)
    }

    /// The list or word of this number.
    pub fn node(&self, n: u32) -> Node
        requires { n < size (tree_forest self.now) }
        ensures { IsNode self.now.pool n (node_at self.now n) result }
    {
        match self.entry(n) {
            TreeEntry::Word { at, start, end, .. } => Node::Word { at, start, end },
            TreeEntry::List { at, inside, .. } => {
                let first = if inside == 0 { None } else { Some(n + 1) };
                Node::List { at, first }
            }
        }
    }

    /// The number of the next list or word in the same list, or at the top level.
    pub fn next(&self, n: u32) -> Option<u32>
        requires { n < size (tree_forest self.now) }
        ensures { result ≡ next_of n (node_at self.now n) }
    {
        match self.entry(n) {
            TreeEntry::Word { last, .. } => { if last { None } else { Some(n + 1) } }
            TreeEntry::List { last, inside, .. } => {
                if last { None } else { Some(n + 1 + inside) }
            }
        }
    }

    /// The text of a word, its parts joined and without their quotes.
    pub fn word(&self, n: u32) -> Result<Name, AllocError>
        requires within { n < size (tree_forest self.now) }
        requires word { IsWordFirst (node_at self.now n) }
        ensures { IfOk result (λ text. text ≡ text_first (node_at self.now n)) }
    {
        match self.entry(n) {
            TreeEntry::Word { start, end, .. } => {
                Row::from_slice(self.alloc, piece(self.pool.as_slice(), start, end))
            }
            TreeEntry::List { .. } => unreachable!(),
        }
    }

    /// All that stands at the top level.
    pub fn all(&self) -> Cursor<'_>
        ensures { forest result ≡ tree_forest self.now }
    {
        Cursor {
            text: self.pool.as_slice(),
            entries: self.entries.as_slice(),
        }
    }
}
