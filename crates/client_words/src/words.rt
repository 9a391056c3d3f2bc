//! The three words.
ghost use Rattle.std.specs.Prelude.{◌≡◌, ◌≢◌, ◌∷◌, [], IfOk, IfErr, Some, option_map, codes, length, List, ℕ};
ghost use Rattle.clap.specs.Words.{first_value, found_of};
ghost use Rattle.whole_files.specs.Words.{texts};
ghost use Rattle.client_words.specs.Commands.{HasWords};
ghost use Rattle.client_words.specs.declared.why.ClientWhy.TheVariants.{Usage};

use crate::command::behind_dashes;
use crate::parse::parse;
use crate::why::ClientWhy;
use clap::ArgMatches;
use row_lists::Text;
use std::alloc::{AllocError, Global};

/// What a client's words name: the server's address, the design and the file of lines.
#[derive(Debug, Drop)]
pub struct ClientWords {
    pub address: Text,
    pub design: Text,
    pub lines: Text,
}

// A copy of the word under a name.
fn copy_of(alloc: Global, matches: &ArgMatches<'_>, name: &str) -> Result<Text, AllocError>
    ensures { IfOk result (λ text. (word : List ℕ) → first_value (found_of matches.now) name.now ≡ Some word → text ≡ word) }
{
    match matches.get_str(name) {
        Some(word) => Text::of(alloc, word),
        None => Text::of(alloc, ""),
    }
}

// Copies of the three words.
fn copies(alloc: Global, matches: &ArgMatches<'_>) -> Result<ClientWords, AllocError>
    ensures { IfOk result (λ w. (words : List (List ℕ)) → HasWords words matches.now → words ≡ w.address ∷ w.design ∷ w.lines ∷ []) }
{
    let address = copy_of(alloc, matches, "address")?;
    let design = copy_of(alloc, matches, "design")?;
    let lines = copy_of(alloc, matches, "lines")?;
    Ok(ClientWords {
        address,
        design,
        lines,
    })
}

/// The words of a client. It is `Usage` exactly where there aren't three, want of memory aside.
pub fn read_client_words(alloc: Global, words: &[String]) -> Result<ClientWords, ClientWhy>
    ensures ok { IfOk result (λ w. texts words.now ≡ w.address ∷ w.design ∷ w.lines ∷ []) }
    ensures usage { IfErr result (λ why. why ≡ Usage → length (texts words.now) ≢ 3) }
{
    let all = behind_dashes(alloc, words)?;
    let matches = parse(alloc, all.as_slice())?;
    Ok(copies(alloc, &matches)?)
}
