//! Puts wires on a board, and then deletes some: `apply_bench <live> <kind> <edits>`. The bench measures `apply` by it.
#![tactic(auto)]

mod edits;
mod parts;

use board_core::Board;
use edits::{change, fill};
use parts::empty_design;
use std::alloc::{AllocError, Global};
use std::rt::HostRuntime;
use std::{env, io};

// A word of the program as a number; 0 where it is none.
fn number_of(word: Option<String>) -> u32 {
    match word {
        Some(word) => word.as_str().parse::<u32>().unwrap_or(0),
        None => 0,
    }
}

// The board after wires were put, and then changed by edits.
fn board_after(alloc: Global, live: u32, adds: bool, edits: u32) -> Result<Board, AllocError> {
    let design = empty_design(alloc)?;
    let mut board = Board::new(alloc, &design)?;
    fill(alloc, &mut board, live)?;
    change(alloc, &mut board, adds, edits)?;
    Ok(board)
}

fn main(rt: HostRuntime) -> io::Result<()> {
    let mut words = env::args(&rt)?.skip(1);
    let live = number_of(words.next());
    let adds = match words.next() {
        Some(kind) => kind.as_str() == "replace",
        None => false,
    };
    let edits = number_of(words.next());
    let board = board_after(rt.alloc(), live, adds, edits)?;
    println!(rt;
        "live {} next {} entries {}",
        board.live(),
        board.next_id(),
        board.count()
    )
}
