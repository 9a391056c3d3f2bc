//! The client's program: `layout_client <address> <design> <lines>`.
#![tactic(auto)]

use board_client::client;
use layout_io::{HostFiles, HostSink, TcpDial};
use std::io;
use std::process::ExitCode;
use std::rt::HostRuntime;
use whole_files::words_of;

fn main(rt: HostRuntime) -> ExitCode {
    let words = match words_of(&rt) {
        Ok(words) => words,
        Err(fault) if fault.kind() == io::ErrorKind::OutOfMemory => return ExitCode::from(7),
        // Words that aren't UTF-8 are of no form.
        Err(_) => Vec::new(rt.alloc()),
    };
    let mut files = HostFiles::new(&rt);
    let mut dial = TcpDial::new(&rt);
    let mut out = HostSink::new(&rt);
    let talked = client(&rt, rt.alloc(), &words, &mut files, &mut dial, &mut out);
    ExitCode::from(talked.status)
}
