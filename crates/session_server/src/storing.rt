//! What comes behind the session: the text of its last board is stored.
ghost use Rattle.std.specs.Prelude.{◌≡◌, IfOk};
ghost use Rattle.board_core.specs.Boards.{last_board};
ghost use Rattle.board_core.specs.Histories.{journal_of};
ghost use Rattle.ses_writer.specs.Session.{session_of};
ghost use Rattle.session_server.specs.Stages.{StoreEnd};

use crate::End;
use crate::ends::end_of;
use board_files::put_session;
use layout_io::Files;
use serial_master::SerialMaster;
use ses_writer::SesPieces;
use std::alloc::{AllocError, Global};

// The session text of the master's board.
fn text_of(alloc: Global, master: &SerialMaster) -> Result<SesPieces, AllocError>
    ensures { IfOk result (λ text. text ≡ session_of master.now.parts (last_board master.now.parts (journal_of master.now.history)).live) }
{
    SesPieces::new(alloc, master.design(), master.board())
}

// Writes a session text to the file.
fn put<F: Files>(files: &mut F, file: u32, session: &mut SesPieces) -> End
    requires { F.writes files.old file }
    ensures { StoreEnd file session.old (F.told files.old) (F.told files.new) result }
{
    match put_session(files, file, session) {
        Ok(()) => End::Done,
        Err(stop) => end_of(stop),
    }
}

/// Writes the session text of the master's board to the file.
pub(crate) fn store<F: Files>(alloc: Global, files: &mut F, file: u32, master: &SerialMaster) -> End
    requires { F.writes files.old file }
    ensures { StoreEnd file (session_of master.now.parts (last_board master.now.parts (journal_of master.now.history)).live) (F.told files.old) (F.told files.new) result }
{
    match text_of(alloc, master) {
        Ok(mut session) => put(files, file, &mut session),
        Err(_) => End::Memory,
    }
}
