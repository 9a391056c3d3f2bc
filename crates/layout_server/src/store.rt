//! A run's texts are stored.
ghost use Rattle.std.specs.Prelude.{◌≡◌, OnOk, IfErr};
ghost use Rattle.layout_io.specs.Told.{Told};
ghost use Rattle.whole_files.specs.Outside.{WroteFile, OnlyWrites};
ghost use Rattle.whole_files.specs.Puts.{IsPut};
ghost use Rattle.layout_server.specs.Stores.{TextsStop};

use board_files::put_session;
use layout_io::{Files, Sink};
use script_replay::Texts;
use whole_files::{Stop, put_out};

/// Writes the output, and then the session file.
#[tactic(auto, using(crate::proofs::Stores::output_stops, crate::proofs::Stores::session_stops))]
pub fn put_texts<F: Files, O: Sink>(
    files: &mut F,
    out: &mut O,
    file: u32,
    texts: &mut Texts,
) -> Result<(), Stop>
    requires { F.writes files.old file }
    ensures out { OnOk result (IsPut texts.old.output (O.told out.old) (O.told out.new)) }
    ensures session { OnOk result (Told (F.told files.old).disk (F.told files.new).disk (WroteFile file texts.old.session)) }
    ensures ok_count { OnOk result ((F.told files.new).write_faults ≡ (F.told files.old).write_faults) }
    ensures only { OnlyWrites (F.told files.old) (F.told files.new) }
    ensures err { IfErr result (TextsStop texts.old.output texts.old.session file (F.told files.old) (F.told files.new) (O.told out.old) (O.told out.new)) }
{
    put_out(out, texts.output.as_slice())?;
    put_session(files, file, &mut texts.session)
}
