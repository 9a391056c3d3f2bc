//! How many lists and words a text has.
ghost use Rattle.std.specs.Prelude.{◌≡◌, ◌≤◌, Ok, Err, IfOk, IfErr, ℕ, length};
ghost use Rattle.row_lists.specs.Limits.{text_limit_bytes};
ghost use Rattle.sexp_text.specs.Forest.{Forest};
ghost use Rattle.sexp_text.specs.declared.fault.TextFault.{TextFault};
ghost use Rattle.sexp_text.specs.Scan.{Gives};
ghost use Rattle.sexp_text.specs.Tree.{IsTree, IsFirstFault, WhyNoTree};
ghost use Rattle.sexp_text.specs.Nodes.{size};

use sexp_text::{TextFault, read_tree};
use std::alloc::Global;

/// How many lists and words a text of at most 67,108,864 bytes has, or its first text fault.
pub fn count_of(alloc: Global, bytes: &[u8]) -> Result<u32, TextFault>
    requires { length bytes.now ≤ text_limit_bytes }
    // What is given is the size of the text's tree.
    ensures found { IfOk result (λ count. (f : Forest) × IsTree bytes.now f × (count ≡ size f)) }
    // The text of a tree is counted, unless memory runs out.
    ensures only { (f : Forest) → IsTree bytes.now f → Gives (λ n. n) result (Ok (size f)) }
    // What is told is the first text fault.
    ensures fault { IfErr result (WhyNoTree bytes.now) }
    // The first text fault is told, unless memory runs out.
    ensures first { (e : TextFault) → IsFirstFault bytes.now e → Gives (λ n. n) result (Err e) }
{
    match read_tree(alloc, bytes) {
        Ok(tree) => Ok(tree.count()),
        Err(fault) => Err(fault),
    }
}
