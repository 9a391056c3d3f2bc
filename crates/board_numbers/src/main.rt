//! The numbers of what a board has: `numbers <dsn>`.
#![tactic(auto)]

mod items;
mod laws;
mod lists;
mod load;
mod numbers;
mod origins;
mod pins;
mod run;
#[cfg(test)]
mod tests;
mod words;

use layout_io::{HostFiles, HostSink};
use run::run;
use std::io;
use std::process::ExitCode;
use std::rt::HostRuntime;
use whole_files::{Stop, tell_stop, words_of};

fn main(rt: HostRuntime) -> ExitCode {
    let mut out = HostSink::new(&rt);
    let words = match words_of(&rt) {
        Ok(words) => words,
        Err(fault) if fault.kind() == io::ErrorKind::OutOfMemory => {
            return ExitCode::from(tell_stop(Stop::Memory, &mut out));
        }
        // Words that aren't UTF-8 are of no form.
        Err(_) => Vec::new(rt.alloc()),
    };
    let mut files = HostFiles::new(&rt);
    ExitCode::from(run(rt.alloc(), &words, &mut files, &mut out))
}
