//! A text as brackets and words.
ghost use Rattle.std.specs.Prelude.{◌≡◌, ◌<◌, ◌≤◌, ◌^◌, ◌++◌, ◌∷◌, [], OnOk, IfOk, IfErr, length, List, ℕ};
ghost use Rattle.row_lists.specs.Limits.{text_limit_bytes};
ghost use Rattle.sexp_text.specs.declared.token.Token.{Token};
ghost use Rattle.sexp_text.specs.Words.{class};
ghost use Rattle.sexp_text.specs.Text.{HasTokens, HasQuoteFault, WhyNoTokens};
ghost use Rattle.sexp_text.specs.Scan.{Gives, spell, begun, ended, quote_step, plain_step, gap_step, word_step, quoted_step, step_of, finish, scan, tokens_of};

use crate::fault::TextFault;
use crate::modes::{Before, Class, Mode};
use crate::token::{Token, TokenKind};
use layout_io::Row;
use std::alloc::{AllocError, Global};

// The keyword behind which a quote stands bare.
const KEYWORD: &[u8; 12] = b"string_quote";

#[tactic(auto, unfolding(crate::specs::Words::class))]
fn class_of(byte: u8) -> Class
    ensures { result ≡ class byte }
{
    if byte == b' ' {
        return Class::Blank;
    }
    if byte == b'\t' {
        return Class::Blank;
    }
    if byte == b'\r' {
        return Class::Blank;
    }
    if byte == b'\n' {
        return Class::Break;
    }
    if byte == b'(' {
        return Class::Left;
    }
    if byte == b')' {
        return Class::Right;
    }
    if byte == b'"' {
        return Class::Quote;
    }
    Class::Plain
}

// How much of the keyword a word spells with one more byte, where it is a front of the keyword.
fn spell(spelt: Option<u8>, byte: u8) -> Option<u8>
    ensures { result ≡ spell spelt byte }
{
    let count = match spelt {
        None => return None,
        Some(count) => count,
    };
    if count < 12 && byte.to_ascii_lowercase() == KEYWORD[count as usize] {
        Some(count + 1)
    } else {
        None
    }
}

fn begun(before: Before) -> Option<u8>
    ensures { result ≡ begun before }
{
    match before {
        Before::Bracket => Some(0),
        _ => None,
    }
}

fn ended(spelt: Option<u8>) -> Before
    ensures { result ≡ ended spelt }
{
    match spelt {
        None => Before::Other,
        Some(count) => {
            if count == 12 {
                Before::Keyword
            } else {
                Before::Other
            }
        }
    }
}

fn put(tokens: &mut Row<Token>, kind: TokenKind, start: u32, end: u32) -> Result<(), AllocError>
    ensures { OnOk result (tokens.new ≡ tokens.old ++ record { kind = kind; start = start; end = end } ∷ []) }
{
    tokens.push(Token { kind, start, end })
}

fn after_quote(tokens: &mut Row<Token>, before: Before, at: u32) -> Result<Mode, AllocError>
    requires { at < 2 ^ 31 }
    ensures { IfOk result (λ m. quote_step tokens.old before at ≡ (tokens.new, m)) }
{
    match before {
        Before::Keyword => {
            put(tokens, TokenKind::Word, at, at + 1)?;
            Ok(Mode::Gap {
                before: Before::Other,
            })
        }
        _ => Ok(Mode::Quoted {
            start: at,
            quote: at,
            spelt: begun(before),
        }),
    }
}

fn after_plain(before: Before, at: u32, byte: u8) -> Mode
    ensures { result ≡ plain_step before at byte }
{
    match before {
        Before::Keyword => Mode::Broken { at },
        _ => Mode::Word {
            start: at,
            spelt: spell(begun(before), byte),
        },
    }
}

fn after_gap(
    tokens: &mut Row<Token>,
    before: Before,
    at: u32,
    byte: u8,
    class: Class,
) -> Result<Mode, AllocError>
    requires { at < 2 ^ 31 }
    ensures { IfOk result (λ m. gap_step tokens.old before at byte class ≡ (tokens.new, m)) }
{
    match class {
        Class::Blank => Ok(Mode::Gap { before }),
        Class::Break => Ok(Mode::Gap { before }),
        Class::Left => {
            put(tokens, TokenKind::Left, at, at + 1)?;
            Ok(Mode::Gap {
                before: Before::Bracket,
            })
        }
        Class::Right => {
            put(tokens, TokenKind::Right, at, at + 1)?;
            Ok(Mode::Gap {
                before: Before::Other,
            })
        }
        Class::Quote => after_quote(tokens, before, at),
        Class::Plain => Ok(after_plain(before, at, byte)),
    }
}

fn after_word(
    tokens: &mut Row<Token>,
    start: u32,
    spelt: Option<u8>,
    at: u32,
    byte: u8,
    class: Class,
) -> Result<Mode, AllocError>
    requires { at < 2 ^ 31 }
    ensures { IfOk result (λ m. word_step tokens.old start spelt at byte class ≡ (tokens.new, m)) }
{
    match class {
        Class::Quote => Ok(Mode::Quoted {
            start,
            quote: at,
            spelt,
        }),
        Class::Plain => Ok(Mode::Word {
            start,
            spelt: spell(spelt, byte),
        }),
        _ => {
            put(tokens, TokenKind::Word, start, at)?;
            after_gap(tokens, ended(spelt), at, byte, class)
        }
    }
}

fn after_quoted(start: u32, quote: u32, spelt: Option<u8>, byte: u8, class: Class) -> Mode
    ensures { result ≡ quoted_step start quote spelt byte class }
{
    match class {
        Class::Quote => Mode::Word { start, spelt },
        Class::Break => Mode::Broken { at: quote },
        _ => Mode::Quoted {
            start,
            quote,
            spelt: spell(spelt, byte),
        },
    }
}

fn step(tokens: &mut Row<Token>, mode: Mode, at: u32, byte: u8) -> Result<Mode, AllocError>
    requires { at < 2 ^ 31 }
    ensures { IfOk result (λ m. step_of tokens.old mode at byte ≡ (tokens.new, m)) }
{
    match mode {
        Mode::Gap { before } => after_gap(tokens, before, at, byte, class_of(byte)),
        Mode::Word { start, spelt } => after_word(tokens, start, spelt, at, byte, class_of(byte)),
        Mode::Quoted {
            start,
            quote,
            spelt,
        } => Ok(after_quoted(start, quote, spelt, byte, class_of(byte))),
        Mode::Broken { at } => Ok(Mode::Broken { at }),
    }
}

fn last(tokens: &mut Row<Token>, mode: Mode, at: u32) -> Result<Option<u32>, AllocError>
    ensures { IfOk result (λ o. finish tokens.old mode at ≡ (tokens.new, o)) }
{
    match mode {
        Mode::Gap { .. } => Ok(None),
        Mode::Word { start, .. } => {
            put(tokens, TokenKind::Word, start, at)?;
            Ok(None)
        }
        Mode::Quoted { quote, .. } => Ok(Some(quote)),
        Mode::Broken { at } => Ok(Some(at)),
    }
}

/// Puts in the tokens before the first quote that is at fault, and gives that quote.
#[tactic(auto, unfolding(crate::specs::Scan::scan))]
pub fn steps(tokens: &mut Row<Token>, bytes: &[u8]) -> Result<Option<u32>, AllocError>
    requires { length bytes.now ≤ text_limit_bytes }
    ensures { IfOk result (λ o. scan tokens.old (Mode.Gap Before.Other) 0 bytes.now ≡ (tokens.new, o)) }
{
    let mut mode = Mode::Gap {
        before: Before::Other,
    };
    for (at, byte) in bytes.iter().enumerate() {
        mode = step(tokens, mode, at as u32, *byte)?;
    }
    last(tokens, mode, bytes.len() as u32)
}

fn all(alloc: Global, bytes: &[u8]) -> Result<Row<Token>, TextFault>
    requires { length bytes.now ≤ text_limit_bytes }
    ensures { Gives (λ x. x) result (tokens_of bytes.now) }
{
    let mut tokens = Row::new(alloc);
    match steps(&mut tokens, bytes)? {
        None => Ok(tokens),
        Some(at) => Err(TextFault::Quote { at }),
    }
}

/// The brackets and words of a text of at most 67,108,864 bytes. The fault is a quote, or want of memory.
pub fn lex(alloc: Global, bytes: &[u8]) -> Result<Row<Token>, TextFault>
    requires { length bytes.now ≤ text_limit_bytes }
    // What is given are the text's tokens.
    ensures found { IfOk result (HasTokens bytes.now) }
    // A text of tokens is read, unless memory runs out.
    ensures only { (ts : List Token) → HasTokens bytes.now ts → Gives (λ x. x) result (Ok ts) }
    // What is told is the first quote that is at fault.
    ensures fault { IfErr result (WhyNoTokens bytes.now) }
    // A quote that is at fault is told, unless memory runs out.
    ensures first { (at : ℕ) → HasQuoteFault bytes.now at → Gives (λ x. x) result (Err (TextFault.Quote at)) }
{
    all(alloc, bytes)
}
