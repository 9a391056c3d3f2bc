//! A script is replayed for a design.
ghost use Rattle.std.specs.Prelude.{OnOk, IfErr};
ghost use Rattle.layout_server.specs.Words.{named};
ghost use Rattle.layout_server.specs.Headline.{Replays, ReplayStop};

use crate::load::load;
use crate::store::put_texts;
use board_files::make_file;
use layout_io::{Files, Sink};
use script_replay::replay_steps;
use std::alloc::Global;
use whole_files::Stop;

/// Replays a script for a design, and writes the session file.
pub fn replay<F: Files, O: Sink>(
    alloc: Global,
    files: &mut F,
    out: &mut O,
    design: &str,
    script: &str,
    session: &str,
) -> Result<(), Stop>
    ensures ok { OnOk result (Replays (named design.now script.now session.now) (F.told files.old) (F.told files.new) (O.told out.old) (O.told out.new)) }
    ensures err { IfErr result (ReplayStop (named design.now script.now session.now) (F.told files.old) (F.told files.new) (O.told out.old) (O.told out.new)) }
{
    let loaded = load(alloc, files, design, script)?;
    let file = make_file(files, session)?;
    let Ok(mut texts) = replay_steps(alloc, &loaded.design, &loaded.steps) else {
        return Err(Stop::Memory);
    };
    put_texts(files, out, file, &mut texts)
}
