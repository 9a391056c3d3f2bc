//! The command of three words, and all that it is parsed from.
ghost use Rattle.std.specs.Prelude.{◌≡◌, ◌∷◌, IfOk, map};
ghost use Rattle.whole_files.specs.Words.{texts};
ghost use Rattle.clap.specs.Words.{app_of};
ghost use Rattle.client_words.specs.Commands.{three_words, behind_dashes};

use clap::{Arg, Command};
use std::alloc::{AllocError, Global};

/// A command of three required words.
pub(crate) fn three_words<'a>(alloc: Global) -> Result<Command<'a>, AllocError>
    ensures { IfOk result (λ c. app_of c ≡ three_words) }
{
    let address = Arg::new(alloc, "address").required(true);
    let design = Arg::new(alloc, "design").required(true);
    let lines = Arg::new(alloc, "lines").required(true);
    let named = Command::new(alloc, "layout_client");
    let first = named.arg(address)?;
    let second = first.arg(design)?;
    second.arg(lines)
}

/// The words, behind the program's name and a `--`, so that none of them is an option.
pub(crate) fn behind_dashes<'a>(
    alloc: Global,
    words: &'a [String],
) -> Result<Vec<&'a str>, AllocError>
    ensures { IfOk result (λ all. map (λ s. s.now) all.items ≡ behind_dashes (texts words.now)) }
{
    let mut all = Vec::new(alloc);
    all.push("layout_client")?;
    all.push("--")?;
    for word in words {
        all.push(word.as_str())?;
    }
    Ok(all)
}
