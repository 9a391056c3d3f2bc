//! How the lines of entries are read.
ghost use Rattle.std.specs.Prelude.{◌≡◌, ◌++◌, codes, IfOk, IfErr, ℕ, List, Result, Ok, Err};
ghost use Rattle.board_items.specs.declared.history.Entry.{Entry};
ghost use Rattle.board_items.specs.Formed.{IsFormedAct};
ghost use Rattle.session_wire.specs.declared.faults.LineFault.TheVariants.{Bad};
ghost use Rattle.session_wire.specs.Words.{EndsWord};
ghost use Rattle.session_wire.specs.Lines.{entry_text};
ghost use Rattle.session_wire.specs.Parts.{Then, Begins, WhyHalts};
ghost use Rattle.session_wire.specs.Places.{IsBadAt};
ghost use Rattle.session_wire.specs.Readings.{Reads, WhyStopped, WhyUnread, Gives};
ghost use Rattle.session_wire.specs.EntryLines.{next_act_text, IsEntry, HasEntry};
ghost use Rattle.session_wire.specs.Steps.{IsLine};

use crate::clients::client_at;
use crate::faults::{Halt, LineFault};
use crate::numbers::number_at;
use crate::requests::request_behind;
use crate::words::{end_at, is_word, split_word, word_at};
use board_items::{Act, Entry};
use std::alloc::Global;

// The next act, and what follows it.
fn act_at(alloc: Global, line: &[u8]) -> Result<(Act, &[u8]), Halt>
    requires { EndsWord line.now }
    ensures ok { IfOk result (λ x. Then IsFormedAct next_act_text line.now x.0 x.1.now) }
    ensures err { IfErr result (WhyHalts (Begins IsFormedAct next_act_text) line.now) }
{
    let Some((word, rest)) = word_at(line) else {
        return Err(Halt::Left { left: 0 });
    };
    if is_word(word, b"leave") {
        return Ok((Act::Leave, rest));
    }
    let (request, following) = request_behind(alloc, word, rest)?;
    Ok((Act::Ask { request }, following))
}

// The entry behind its word, which ends the line.
fn entry_at(alloc: Global, line: &[u8]) -> Result<Entry, Halt>
    requires { EndsWord line.now }
    ensures ok { IfOk result (Reads IsEntry entry_text (codes "entry" ++ line.now)) }
    ensures err { IfErr result (WhyHalts (λ t. HasEntry (codes "entry" ++ t)) line.now) }
{
    let (number, from_client) = number_at(line, 1, u32::MAX)?;
    let (client, from_act) = client_at(from_client)?;
    let (act, rest) = act_at(alloc, from_act)?;
    end_at(rest)?;
    Ok(Entry {
        number,
        client,
        act,
    })
}

// The entry that the line spells.
fn entry_of(alloc: Global, line: &[u8]) -> Result<Entry, Halt>
    ensures ok { IfOk result (Reads IsEntry entry_text line.now) }
    ensures err { IfErr result (WhyStopped HasEntry line.now) }
{
    let (word, rest) = split_word(line);
    if is_word(word, b"entry") {
        return entry_at(alloc, rest);
    }
    Err(Halt::Left { left: line.len() })
}

// The entry that the line spells, or the byte at which it is bad.
fn entry_or_place(alloc: Global, line: &[u8]) -> Result<Entry, LineFault>
    ensures ok { IfOk result (Reads IsEntry entry_text line.now) }
    ensures err { IfErr result (WhyUnread HasEntry line.now) }
{
    match entry_of(alloc, line) {
        Ok(entry) => Ok(entry),
        Err(Halt::Left { left }) => Err(LineFault::Bad {
            at: (line.len() - left) as u32,
        }),
        Err(Halt::Memory) => Err(LineFault::Memory),
    }
}

/// The entry that a line spells, without its line feed. It is bad exactly where the line spells none.
pub fn decode_entry(alloc: Global, line: &[u8]) -> Result<Entry, LineFault>
    ensures found { IfOk result (Reads IsEntry entry_text line.now) }
    ensures only { (entry : Entry) → Reads IsEntry entry_text line.now entry → Gives result (Ok entry) }
    ensures fault { IfErr result (WhyUnread HasEntry line.now) }
    ensures first { (at : ℕ) → IsBadAt HasEntry line.now at → Gives result (Err (Bad at)) }
{
    entry_or_place(alloc, line)
}

/// An entry's text has no line feed.
pub fn entry_is_one_line()
    ensures { (entry : Entry) → IsEntry entry → IsLine (entry_text entry) }
{}

/// A text spells one entry at most.
pub fn one_entry()
    ensures { (one : Entry) (other : Entry) → IsEntry one → IsEntry other → entry_text one ≡ entry_text other → one ≡ other }
{}
