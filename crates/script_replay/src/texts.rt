//! The texts of a run.
ghost use Rattle.std.specs.Prelude.{◌≡◌, ◌++◌, OnOk, IfOk, length};
ghost use Rattle.std.specs.List.{flat_map};
ghost use Rattle.session_wire.specs.Lines.{entry_line};
ghost use Rattle.script_replay.specs.Replays.{answer_line, count_line, output_of};

use crate::master::Answered;
use board_items::Entry;
use itoa::Buffer;
use layout_io::Bytes;
use ses_writer::SesPieces;
use session_wire::{write_entry, write_reply};
use std::alloc::{AllocError, Global};

/// What a run writes: the output, and the session text in pieces.
#[derive(Debug, Drop)]
pub struct Texts {
    pub output: Bytes,
    pub session: SesPieces,
}

fn put_answer(out: &mut Bytes, answered: &Answered) -> Result<(), AllocError>
    ensures { OnOk result (out.new ≡ out.old ++ answer_line answered.now) }
{
    let mut buffer = Buffer::new();
    out.append(buffer.format(answered.client).as_bytes())?;
    out.append(b" ".as_slice())?;
    write_reply(&answered.reply, out)
}

fn put_answers(out: &mut Bytes, answers: &[Answered]) -> Result<(), AllocError>
    ensures { OnOk result (out.new ≡ out.old ++ flat_map answer_line answers.now) }
{
    for answered in answers {
        put_answer(out, answered)?;
    }
    Ok(())
}

fn put_count(out: &mut Bytes, count: usize) -> Result<(), AllocError>
    ensures { OnOk result (out.new ≡ out.old ++ count_line count) }
{
    let mut buffer = Buffer::new();
    out.append(b"journal ".as_slice())?;
    out.append(buffer.format(count).as_bytes())?;
    out.append(b"\n".as_slice())
}

fn put_entries(out: &mut Bytes, journal: &[Entry]) -> Result<(), AllocError>
    ensures { OnOk result (out.new ≡ out.old ++ flat_map entry_line journal.now) }
{
    for entry in journal {
        write_entry(entry, out)?;
    }
    Ok(())
}

/// The replies, the count of entries, and the entries.
pub fn output_text(
    alloc: Global,
    answers: &[Answered],
    journal: &[Entry],
) -> Result<Bytes, AllocError>
    ensures { IfOk result (λ text. text ≡ output_of answers.now journal.now) }
{
    let mut out = Bytes::new(alloc);
    put_answers(&mut out, answers)?;
    put_count(&mut out, journal.len())?;
    put_entries(&mut out, journal)?;
    Ok(out)
}
