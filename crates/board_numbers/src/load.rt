//! The numbers of a design's file are made and written.
ghost use Rattle.std.specs.Prelude.{◌∷◌, [], IfOk, OnOk, IfErr, IfSome};
ghost use Rattle.whole_files.specs.Outside.{OnlyRead};
ghost use Rattle.board_numbers.specs.Numbers.{IsNumbered};
ghost use Rattle.board_numbers.specs.Headline.{HasNumbers, TextCause, LoadStop, Numbers, NumbersStop};

use crate::numbers::numbers_of;
use dsn_reader::ReadWhy;
use layout_io::{Bytes, Files, Sink};
use row_lists::TEXT_LIMIT_BYTES;
use std::alloc::Global;
use whole_files::{Stop, put_out, read_file};

// The numbers of the design that bytes state.
fn text_of(alloc: Global, bytes: &Bytes) -> Result<Bytes, Stop>
    ensures ok { IfOk result (IsNumbered bytes.now) }
    ensures cause { IfErr result (TextCause bytes.now) }
{
    match numbers_of(alloc, bytes.as_slice()) {
        Ok(text) => Ok(text),
        Err(ReadWhy::Fault(fault)) => Err(Stop::Design(fault)),
        Err(ReadWhy::Memory) => Err(Stop::Memory),
    }
}

// The numbers of the design in the file under the name.
#[tactic(auto, using(crate::proofs::Loads::found_numbers, crate::proofs::Loads::text_stop, crate::proofs::Loads::unread))]
fn load<F: Files>(alloc: Global, files: &mut F, name: &str) -> Result<Bytes, Stop>
    ensures ok { IfOk result (λ text. IfSome (F.told files.old).disk (HasNumbers name.now text)) }
    ensures only { OnOk result (OnlyRead (name.now ∷ []) (F.told files.old) (F.told files.new)) }
    ensures err { IfErr result (LoadStop name.now (F.told files.old) (F.told files.new)) }
{
    let bytes = read_file(alloc, files, name, TEXT_LIMIT_BYTES)?;
    text_of(alloc, &bytes)
}

/// Reads the design in the file under the name, and writes its numbers.
#[tactic(auto, using(crate::proofs::Loads::load_stops, crate::proofs::Loads::put_stops))]
pub fn numbers<F: Files, O: Sink>(
    alloc: Global,
    files: &mut F,
    out: &mut O,
    name: &str,
) -> Result<(), Stop>
    ensures ok { OnOk result (Numbers name.now (F.told files.old) (F.told files.new) (O.told out.old) (O.told out.new)) }
    ensures err { IfErr result (NumbersStop name.now (F.told files.old) (F.told files.new) (O.told out.old) (O.told out.new)) }
{
    let text = load(alloc, files, name)?;
    put_out(out, text.as_slice())
}
