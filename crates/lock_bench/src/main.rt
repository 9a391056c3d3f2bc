//! Takes turns of one lock in several threads: `lock_bench <threads> <turns> <microseconds>`. The bench measures turns by it.
#![tactic(auto)]

#[cfg(test)]
mod tests;
mod turns;

use std::rt::HostRuntime;
use std::{env, io, process};
use turns::{THREAD_LIMIT, Work, count_of};

// The words behind the program's name as numbers, as far as they are such.
fn read_numbers(rt: &HostRuntime) -> io::Result<Vec<u32>> {
    let mut numbers = Vec::new(rt.alloc());
    for word in env::args(rt)?.skip(1) {
        let Ok(number) = word.as_str().parse::<u32>() else {
            return Ok(numbers);
        };
        numbers.push(number)?;
    }
    Ok(numbers)
}

fn main(rt: HostRuntime) -> io::Result<process::ExitCode> {
    let numbers = read_numbers(&rt)?;
    let &[threads, turns, pause] = numbers.as_slice() else {
        println!(rt; "usage")?;
        return Ok(process::ExitCode::from(1));
    };
    if threads == 0 || threads > THREAD_LIMIT {
        println!(rt; "usage")?;
        return Ok(process::ExitCode::from(1));
    }
    match count_of(&rt, rt.alloc(), threads as u8, Work { turns, pause }) {
        Ok(count) => println!(rt; "{count}")?,
        Err(_) => println!(rt; "memory")?,
    }
    Ok(process::ExitCode::SUCCESS)
}
