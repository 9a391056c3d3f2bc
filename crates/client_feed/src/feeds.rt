//! How feeds are written and read.
ghost use Rattle.std.specs.Prelude.{◌≡◌, ◌≤◌, ◌+◌, ◌++◌, List, ℕ, Ok, Err, length, IfOk, IfErr, OnOk};
ghost use Rattle.board_items.specs.declared.history.Entry.{Entry};
ghost use Rattle.session_wire.specs.EntryLines.{IsEntry};
ghost use Rattle.session_wire.specs.Lines.{entry_text};
ghost use Rattle.session_wire.specs.Readings.{Reads};
ghost use Rattle.client_feed.specs.Feeds.{feed, IsFeed, IsFirstBad, WhyNoFeed, WhyNoEntry, Gives};
ghost use Rattle.client_feed.specs.declared.fault.FeedFault.TheVariants.{Line, Memory};

use crate::FeedFault;
use crate::lines::split_line;
use board_items::{Entries, Entry};
use layout_io::{Bytes, Row};
use session_wire::{LineFault, decode_entry, write_entry};
use std::alloc::{AllocError, Global};

/// Appends the lines of the entries after the first `from`, up to the entry `to`. After an `Err`, for
/// want of memory, a front of them may have been appended.
pub fn feed_since(journal: &[Entry], from: u32, to: u32, out: &mut Bytes) -> Result<(), AllocError>
    requires order { from ≤ to }
    requires within { to ≤ length journal.now }
    ensures { OnOk result (out.new ≡ out.old ++ feed journal.now from to) }
{
    let (_, behind) = journal.split_at(from as usize);
    let (entries, _) = behind.split_at((to - from) as usize);
    for entry in entries {
        write_entry(entry, out)?;
    }
    Ok(())
}

// The entry of a line, which has this number.
fn entry_of(alloc: Global, line: &[u8], number: u64) -> Result<Entry, FeedFault>
    ensures entry { IfOk result (Reads IsEntry entry_text line.now) }
    ensures fault { IfErr result (WhyNoEntry line.now number) }
{
    match decode_entry(alloc, line) {
        Ok(entry) => Ok(entry),
        Err(LineFault::Bad { .. }) => Err(FeedFault::Line { line: number }),
        Err(LineFault::Memory) => Err(FeedFault::Memory),
    }
}

// The number of the line after those of these entries.
fn next_number(entries: &Entries) -> Result<u64, AllocError>
    ensures { IfOk result (λ number. number ≡ length entries.now + 1) }
{
    match (entries.len() as u64).checked_add(1) {
        Some(number) => Ok(number),
        None => Err(AllocError),
    }
}

// The entries of the lines, or the first line that isn't one.
fn read_lines(alloc: Global, bytes: &[u8]) -> Result<Entries, FeedFault>
    ensures found { IfOk result (IsFeed bytes.now) }
    ensures fault { IfErr result (WhyNoFeed bytes.now) }
{
    let mut entries = Row::new(alloc);
    let mut rest = bytes;
    'lines: while !rest.is_empty() {
        let number = next_number(&entries)?;
        let Some((line, after)) = split_line(rest) else {
            return Err(FeedFault::Line { line: number });
        };
        entries.push(entry_of(alloc, line, number)?)?;
        rest = after;
    }
    Ok(entries)
}

/// The entries of a feed, one for each line, or the number of the first line that isn't an entry, from
/// 1. A last line without its line end isn't one.
pub fn read_feed(alloc: Global, bytes: &[u8]) -> Result<Entries, FeedFault>
    ensures found { IfOk result (IsFeed bytes.now) }
    ensures only { (entries : List Entry) → IsFeed bytes.now entries → Gives result (Ok entries) }
    ensures fault { IfErr result (WhyNoFeed bytes.now) }
    ensures first { (line : ℕ) → IsFirstBad bytes.now line → Gives result (Err (Line line)) }
{
    read_lines(alloc, bytes)
}
