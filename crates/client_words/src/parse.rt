//! What `clap` makes of the words.
ghost use Rattle.std.specs.Prelude.{◌≡◌, ◌≢◌, IfOk, IfErr, List, ℕ, map, length};
ghost use Rattle.client_words.specs.Commands.{behind_dashes, HasWords};
ghost use Rattle.client_words.specs.declared.why.ClientWhy.TheVariants.{Usage};

use crate::command::three_words;
use crate::why::ClientWhy;
use clap::ArgMatches;
use clap::error::ErrorKind;
use std::alloc::Global;

/// Parses all words. Each refusal but want of memory is one of the form.
pub(crate) fn parse<'a>(alloc: Global, all: &'a [&'a str]) -> Result<ArgMatches<'a>, ClientWhy>
    ensures ok { IfOk result (λ m. (words : List (List ℕ)) → map (λ s. s.now) all.now ≡ behind_dashes words → HasWords words m) }
    ensures usage { IfErr result (λ why. why ≡ Usage → (words : List (List ℕ)) → map (λ s. s.now) all.now ≡ behind_dashes words → length words ≢ 3) }
{
    let command = three_words(alloc)?;
    match command.try_get_matches_from(all) {
        Ok(matches) => Ok(matches),
        Err(error) => match error.kind() {
            ErrorKind::OutOfMemory => Err(ClientWhy::Memory),
            _ => Err(ClientWhy::Usage),
        },
    }
}
