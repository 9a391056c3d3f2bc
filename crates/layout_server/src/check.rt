//! A design is loaded and tested, and the count of its items told.
ghost use Rattle.std.specs.Prelude.{◌≡◌, IfOk, OnOk, IfErr};
ghost use Rattle.layout_server.specs.Checks.{Checks, CheckStop, clean_line};

use board_files::load_clean;
use itoa::Buffer;
use layout_io::{Bytes, Files, Sink};
use std::alloc::{AllocError, Global};
use whole_files::{Stop, put_out};

// The line of so many loaded items.
fn clean_text(alloc: Global, count: usize) -> Result<Bytes, AllocError>
    ensures { IfOk result (λ text. text ≡ clean_line count) }
{
    let mut buffer = Buffer::new();
    let mut line = Bytes::new(alloc);
    line.append(b"clean ".as_slice())?;
    line.append(buffer.format(count).as_bytes())?;
    line.append(b"\n".as_slice())?;
    Ok(line)
}

/// Reads a design, and tells how many loaded items it has where no two of them are too near.
#[tactic(auto, using(crate::proofs::Checked::load_stops))]
pub fn check<F: Files, O: Sink>(
    alloc: Global,
    files: &mut F,
    out: &mut O,
    name: &str,
) -> Result<(), Stop>
    ensures ok { OnOk result (Checks name.now (F.told files.old) (F.told files.new) (O.told out.old) (O.told out.new)) }
    ensures err { IfErr result (CheckStop name.now (F.told files.old) (F.told files.new) (O.told out.old) (O.told out.new)) }
{
    let design = load_clean(alloc, files, name)?;
    let Ok(line) = clean_text(alloc, design.items().len()) else {
        return Err(Stop::Memory);
    };
    put_out(out, line.as_slice())
}
