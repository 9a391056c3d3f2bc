//! The words that a program was given.
use std::rt::HostRuntime;
use std::{env, io};

/// The words, without the program's own. An `Err` of the kind `OutOfMemory` is want of memory; any other comes of words
/// that aren't UTF-8.
pub fn words_of(rt: &HostRuntime) -> io::Result<Vec<String>> {
    let mut words = Vec::new(rt.alloc());
    for word in env::args(rt)?.skip(1) {
        words.push(word)?;
    }
    Ok(words)
}
