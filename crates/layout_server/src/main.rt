//! The layout server's program: `replay <dsn> <script> <ses>`, `check <dsn>` and `serve <address> <clients> <dsn> <ses>`.
#![tactic(auto)]

mod check;
mod load;
mod replay;
mod run;
mod store;
#[cfg(test)]
mod tests;

use layout_io::{HostFiles, HostSink, OpenGate, TcpDoor};
use run::run;
use session_server::serve;
use std::io;
use std::process::ExitCode;
use std::rt::HostRuntime;
use whole_files::{Stop, tell_stop, words_of};

fn main(rt: HostRuntime) -> ExitCode {
    let mut out = HostSink::new(&rt);
    let words = match words_of(&rt) {
        Ok(words) => words,
        Err(fault) if fault.kind() == io::ErrorKind::OutOfMemory => {
            return ExitCode::from(tell_stop(Stop::Memory, &mut out));
        }
        // Words that aren't UTF-8 are of no form.
        Err(_) => Vec::new(rt.alloc()),
    };
    let mut files = HostFiles::new(&rt);
    let alloc = rt.alloc();
    if !words.is_empty() && words[0].as_str() == "serve" {
        let mut door = TcpDoor::new(&rt);
        let served = serve(
            &rt, alloc, &words, &mut files, &mut door, &OpenGate, &mut out,
        );
        return ExitCode::from(served.end.status());
    }
    ExitCode::from(run(alloc, &words, &mut files, &mut out))
}
