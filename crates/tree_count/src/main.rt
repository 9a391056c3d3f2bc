//! Counts the lists and words of texts: `tree_count <file>..`. The bench measures reading by it.
#![tactic(auto)]

mod count;
#[cfg(test)]
mod tests;

use count::count_of;
use row_lists::TEXT_LIMIT_BYTES;
use std::rt::HostRuntime;
use std::{env, fs, io, process};

// A file's line: how many lists and words it has, its text fault, or that it is too long.
fn print_count(rt: &HostRuntime, name: &str) -> io::Result<()> {
    let bytes = fs::read(rt, name)?;
    if bytes.len() > TEXT_LIMIT_BYTES {
        return println!(rt; "long");
    }
    match count_of(rt.alloc(), &bytes) {
        Ok(count) => println!(rt; "{count}"),
        Err(fault) => println!(rt; "{fault}"),
    }
}

fn main(rt: HostRuntime) -> io::Result<process::ExitCode> {
    for name in env::args(&rt)?.skip(1) {
        print_count(&rt, name.as_str())?;
    }
    Ok(process::ExitCode::SUCCESS)
}
