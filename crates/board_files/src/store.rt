//! The session file is made, and its text is written.
ghost use Rattle.std.specs.Prelude.{◌≡◌, ◌∷◌, [], IfOk, OnOk, IfErr};
ghost use Rattle.layout_io.specs.Told.{Told, IsCreated};
ghost use Rattle.whole_files.specs.Words.{Asked};
ghost use Rattle.whole_files.specs.Outside.{WroteFile, WriteStop, OnlyWrites};
ghost use Rattle.board_files.specs.Stores.{MakeStop};

use layout_io::{Files, IoFault};
use ses_writer::SesPieces;
use whole_files::{Stop, put_file};

/// Makes the session file, which is then empty.
pub fn make_file<F: Files>(files: &mut F, session: &str) -> Result<u32, Stop>
    ensures made { IfOk result (λ file. Told (F.told files.old).disk (F.told files.new).disk (IsCreated session.now file)) }
    ensures writes { IfOk result (F.writes files.new) }
    ensures ok_count { OnOk result ((F.told files.new).write_faults ≡ (F.told files.old).write_faults) }
    ensures asked { Asked (session.now ∷ []) (F.told files.old).asked (F.told files.new).asked }
    ensures reads { (F.told files.new).read_faults ≡ (F.told files.old).read_faults }
    ensures err { IfErr result (MakeStop (F.told files.old) (F.told files.new)) }
{
    match files.create(session) {
        Ok(file) => Ok(file),
        Err(IoFault::Failed) => Err(Stop::Write),
        Err(IoFault::Memory) => Err(Stop::Memory),
    }
}

/// Writes the session text to the file, one piece after another. At an error a front of the text is written.
pub fn put_session<F: Files>(files: &mut F, file: u32, session: &mut SesPieces) -> Result<(), Stop>
    requires { F.writes files.old file }
    ensures ok { OnOk result (Told (F.told files.old).disk (F.told files.new).disk (WroteFile file session.old)) }
    ensures ok_count { OnOk result ((F.told files.new).write_faults ≡ (F.told files.old).write_faults) }
    ensures only { OnlyWrites (F.told files.old) (F.told files.new) }
    ensures err { IfErr result (WriteStop file session.old (F.told files.old) (F.told files.new)) }
{
    let mut room = [0u8; 4096];
    'pieces: loop {
        let count = session.next(&mut room);
        if count == 0 {
            return Ok(());
        }
        put_file(files, file, &room[..count])?;
    }
}
