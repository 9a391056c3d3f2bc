//! The entries of a tree, put in from the right.
ghost use Rattle.std.specs.Prelude.{◌≡◌, ◌+◌, ◌-◌, ◌^◌, ◌<◌, ◌++◌, ◌∷◌, [], Ok, Bool, length, IfOk, OnOk, is_ok, if◌then◌else◌};
ghost use Rattle.sexp_text.specs.declared.builder.Builder.{Builder};
ghost use Rattle.sexp_text.specs.Scan.{Gives};
ghost use Rattle.sexp_text.specs.Words.{unquoted};
ghost use Rattle.sexp_text.specs.Tree.{word_text, text_of};
ghost use Rattle.sexp_text.specs.Build.{base, at_last, put_left, put_word, put, build, bulk, amount, nothing_read};

use crate::cursor::{TreeEntry, piece};
use crate::fault::TextFault;
use crate::pile::Pile;
use crate::token::{Token, TokenKind};
use layout_io::Row;
use std::alloc::{AllocError, Global};

/// What was read of a text from the right: the texts of words, the entries, and for each list that is open how many
/// entries stand behind it.
#[derive(Drop)]
pub struct Builder {
    pub pool: Row<u8>,
    pub entries: Pile<TreeEntry>,
    pub marks: Pile<u32>,
}

fn put_unquoted(pool: &mut Row<u8>, bytes: &[u8]) -> Result<(), AllocError>
    ensures { OnOk result (pool.new ≡ pool.old ++ unquoted bytes.now) }
{
    for byte in bytes {
        if *byte != b'"' {
            pool.push(*byte)?;
        }
    }
    Ok(())
}

fn put_text(pool: &mut Row<u8>, bytes: &[u8]) -> Result<(), AllocError>
    ensures { OnOk result (pool.new ≡ pool.old ++ word_text bytes.now) }
{
    if bytes == b"\"".as_slice() {
        pool.append(bytes)
    } else {
        put_unquoted(pool, bytes)
    }
}

fn base(marks: &Pile<u32>) -> u32
    ensures { result ≡ base marks.now }
{
    match marks.top() {
        None => 0,
        Some(mark) => mark,
    }
}

fn put_word(b: &mut Builder, at: u32, bytes: &[u8]) -> Result<(), AllocError>
    requires { length b.old.pool + length bytes.now < 2 ^ 32 }
    ensures { OnOk result (b.new ≡ put_word b.old at (word_text bytes.now)) }
{
    let start = b.pool.len() as u32;
    let last = b.entries.len() == base(&b.marks) as usize;
    put_text(&mut b.pool, bytes)?;
    let end = b.pool.len() as u32;
    b.entries.push(TreeEntry::Word {
        last,
        at,
        start,
        end,
    })
}

fn put_left(b: &mut Builder, at: u32) -> Result<(), TextFault>
    requires { length b.old.entries < 2 ^ 32 }
    ensures { Gives (λ _. b.new) result (put_left b.old at b.old.marks) }
{
    let mark = match b.marks.pop() {
        None => return Err(TextFault::Unclosed { at }),
        Some(mark) => mark,
    };
    let last = mark == base(&b.marks);
    let inside = b.entries.len().saturating_sub(mark as usize) as u32;
    b.entries.push(TreeEntry::List { last, at, inside })?;
    Ok(())
}

fn put_right(b: &mut Builder) -> Result<(), AllocError>
    requires { length b.old.entries < 2 ^ 32 }
    ensures { OnOk result (b.new ≡ record b.old { marks = length b.old.entries ∷ b.old.marks }) }
{
    let mark = b.entries.len() as u32;
    b.marks.push(mark)
}

// Puts in a token before those that were.
fn put(b: &mut Builder, text: &[u8], token: Token) -> Result<(), TextFault>
    requires { amount b.old + (token.end - token.start) + 1 < 2 ^ 32 }
    ensures { Gives (λ _. b.new) result (put token.kind token.start (text_of text.now token) b.old) }
{
    match token.kind {
        TokenKind::Word => {
            put_word(b, token.start, piece(text, token.start, token.end))?;
            Ok(())
        }
        TokenKind::Right => {
            put_right(b)?;
            Ok(())
        }
        TokenKind::Left => put_left(b, token.start),
    }
}

#[tactic(auto, using(crate::proofs::Planted::build_snoc), unfolding(crate::specs::Build::build))]
fn put_all(b: &mut Builder, text: &[u8], tokens: &[Token]) -> Result<(), TextFault>
    requires { amount b.old + bulk tokens.now < 2 ^ 32 }
    ensures built { Gives (λ _. b.new) result (build text.now tokens.now b.old) }
    ensures few { OnOk result (amount b.new < 2 ^ 32) }
{
    let mut rest = tokens;
    'tokens: while let Some((token, front)) = rest.split_last() {
        put(b, text, *token)?;
        rest = front;
    }
    Ok(())
}

/// What tokens build, or the innermost list that is open.
pub fn built(alloc: Global, text: &[u8], tokens: &[Token]) -> Result<Builder, TextFault>
    requires { bulk tokens.now < 2 ^ 32 }
    ensures built { Gives (λ x. x) result (build text.now tokens.now nothing_read) }
    ensures few { IfOk result (λ b. amount b < 2 ^ 32) }
{
    let mut b = Builder {
        pool: Row::new(alloc),
        entries: Pile::new(alloc),
        marks: Pile::new(alloc),
    };
    put_all(&mut b, text, tokens)?;
    Ok(b)
}
