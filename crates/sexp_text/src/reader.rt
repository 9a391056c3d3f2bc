//! Reads a text's tree.
ghost use Rattle.std.specs.Prelude.{◌≡◌, ◌<◌, ◌≤◌, ◌^◌, Ok, Err, [], IfOk, IfErr, List, ℕ, length};
ghost use Rattle.row_lists.specs.Limits.{text_limit_bytes};
ghost use Rattle.sexp_text.specs.Forest.{Forest};
ghost use Rattle.sexp_text.specs.declared.fault.TextFault.{TextFault};
ghost use Rattle.sexp_text.specs.Scan.{Gives};
ghost use Rattle.sexp_text.specs.Tree.{IsTree, IsFirstFault, WhyNoTree};
ghost use Rattle.sexp_text.specs.Build.{levels, bulk, forest_of, tree_built};
ghost use Rattle.sexp_text.specs.Trees.{tree_forest};

use crate::builder::{Builder, built};
use crate::fault::TextFault;
use crate::levels::levels;
use crate::lexer::steps;
use crate::token::Token;
use crate::tree::Tree;
use layout_io::Row;
use std::alloc::Global;

// The tree of tokens whose brackets are none too many.
fn grown(alloc: Global, bytes: &[u8], tokens: &[Token]) -> Result<Tree, TextFault>
    requires levels { (level : ℕ) × (levels 0 tokens.now ≡ Ok level) }
    requires few { bulk tokens.now < 2 ^ 32 }
    ensures { Gives tree_forest result (tree_built bytes.now tokens.now) }
{
    let Builder { pool, entries, .. } = built(alloc, bytes, tokens)?;
    Ok(Tree {
        alloc,
        pool,
        entries: entries.into_row(),
    })
}

fn tree_of(alloc: Global, bytes: &[u8]) -> Result<Tree, TextFault>
    requires { length bytes.now ≤ text_limit_bytes }
    ensures { Gives tree_forest result (forest_of bytes.now) }
{
    let mut tokens = Row::new(alloc);
    let quote = steps(&mut tokens, bytes)?;
    levels(tokens.as_slice())?;
    match quote {
        None => grown(alloc, bytes, tokens.as_slice()),
        Some(at) => Err(TextFault::Quote { at }),
    }
}

/// The tree of a text of at most 67,108,864 bytes, or its first text fault.
pub fn read_tree(alloc: Global, bytes: &[u8]) -> Result<Tree, TextFault>
    requires { length bytes.now ≤ text_limit_bytes }
    // What is given is the text's tree, of 64 levels at most.
    ensures found { IfOk result (λ tree. IsTree bytes.now (tree_forest tree)) }
    // The text of a tree is read, unless memory runs out.
    ensures only { (f : Forest) → IsTree bytes.now f → Gives tree_forest result (Ok f) }
    // What is told is the first text fault.
    ensures fault { IfErr result (WhyNoTree bytes.now) }
    // The first text fault is told, unless memory runs out.
    ensures first { (e : TextFault) → IsFirstFault bytes.now e → Gives tree_forest result (Err e) }
{
    tree_of(alloc, bytes)
}
