//! The levels of a text's lists.
ghost use Rattle.std.specs.Prelude.{◌≡◌};
ghost use Rattle.sexp_text.specs.Build.{level_step, levels};

use crate::fault::TextFault;
use crate::token::{Token, TokenKind};
use row_lists::NESTING_LIMIT_LEVELS;

fn step(level: u32, kind: TokenKind, at: u32) -> Result<u32, TextFault>
    ensures { result ≡ level_step level kind at }
{
    match kind {
        TokenKind::Word => Ok(level),
        TokenKind::Left => {
            if level < NESTING_LIMIT_LEVELS {
                Ok(level + 1)
            } else {
                Err(TextFault::Deep { at })
            }
        }
        TokenKind::Right => {
            if level == 0 {
                Err(TextFault::Unopened { at })
            } else {
                Ok(level - 1)
            }
        }
    }
}

/// How many lists are open at the end, or the first bracket that is too many.
#[tactic(auto, unfolding(crate::specs::Build::levels))]
pub fn levels(tokens: &[Token]) -> Result<u32, TextFault>
    ensures { result ≡ levels 0 tokens.now }
{
    let mut level = 0;
    for token in tokens {
        level = step(level, token.kind, token.start)?;
    }
    Ok(level)
}
