//! Trees of texts. The places of bytes are counted by hand.

use dsn_lists::{DesignKind, ReadWhy, fault, opening};
use row_lists::TEXT_LIMIT_BYTES;
use sexp_text::{Cursor, Node, Part, TextFault, Tree, front, lex, read_tree};
use std::alloc::Global;
use std::test::Fail;

/// The tree of a text.
pub(crate) fn tree_of(alloc: Global, text: &str) -> Result<Tree, TextFault> {
    let bytes = text.as_bytes();
    if bytes.len() > TEXT_LIMIT_BYTES {
        return Err(TextFault::Memory);
    }
    read_tree(alloc, bytes)
}

/// What stands behind the keyword of the first list.
pub(crate) fn first(tree: &Tree) -> Cursor<'_> {
    match front(tree.all()) {
        Part::List { inside, .. } => opening(inside).args,
        _ => tree.all(),
    }
}

/// Whether a fault of this kind at this byte was told.
pub(crate) fn is_told<T: Drop>(read: Result<T, ReadWhy>, kind: DesignKind, at: u32) -> bool {
    match read {
        Err(ReadWhy::Fault(found)) => found == fault(kind, at),
        _ => false,
    }
}

fn count_of(alloc: Global, text: &str) -> Result<u32, TextFault> {
    Ok(tree_of(alloc, text)?.count())
}

#[test]
fn a_text_has_a_tree_or_its_first_fault(rt: HostRuntime) {
    let rows = [
        ("(pcb p (unit um))", Ok(6)),
        ("(pcb p (unit um", Err(TextFault::Unclosed { at: 7 })),
        ("(pcb p (unit um)))", Err(TextFault::Unopened { at: 17 })),
        ("\"U 1\"-\"A 1\"", Ok(1)),
        ("(\"a\" \"b)", Err(TextFault::Quote { at: 5 })),
        ("(string_quote \")", Ok(3)),
        ("(string_quote x)", Err(TextFault::Quote { at: 14 })),
    ];
    for (text, want) in rows {
        assert!(rt; count_of(rt.alloc(), text) == want, "{text}");
    }
}

// A bracket too many is a token too.
#[test]
fn brackets_are_tokens_and_stand_in_64_levels(rt: HostRuntime) -> Result<(), Fail> {
    let tokens = lex(rt.alloc(), b"(pcb p (unit um)))".as_slice())?;
    assert!(rt; tokens.len() == 9, "the tokens");
    let deep = read_tree(rt.alloc(), [b'('; 65].as_slice());
    assert!(rt; matches!(deep, Err(TextFault::Deep { at: 64 })));
    Ok(())
}

// The sixth list or word is quoted in two parts.
#[test]
fn a_tree_is_walked(rt: HostRuntime) -> Result<(), Fail> {
    let tree = tree_of(rt.alloc(), "(a (b c) \"U 1\"-\"A 1\") d")?;
    assert!(rt; tree.count() == 7, "all lists and words");
    assert!(rt; tree.next(2) == Some(5), "behind a list");
    match tree.node(5) {
        Node::Word { .. } => {
            let word = tree.word(5)?;
            assert!(rt; word.as_slice() == b"U 1-A 1".as_slice());
        }
        Node::List { .. } => assert!(rt; false, "no list"),
    }
    Ok(())
}
