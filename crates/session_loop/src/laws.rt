//! A law of sessions.
ghost use Rattle.std.specs.Prelude.{◌≡◌, List, ℕ};
ghost use Rattle.board_items.specs.declared.history.Entry.{Entry};
ghost use Rattle.layout_io.specs.Links.{LinkTold};
ghost use Rattle.desk_core.specs.declared.desk.Answer.{Answer};
ghost use Rattle.session_loop.specs.declared.end.SessionEnd.{SessionEnd};
ghost use Rattle.session_loop.specs.Sessions.{HasSession, IsClean};

/// Over one input and with the same answers, a session that met no fault has one end: the line `bye`
/// came, or else the input ended, or else a line was too long, or else the last reply was `full`.
pub fn one_end()
    ensures { (client clients : ℕ) (input : List ℕ) (one other : LinkTold) (end other_end : SessionEnd) (answers : List Answer) (journal longer : List Entry) → IsClean end → IsClean other_end → HasSession client clients input one end answers journal → HasSession client clients input other other_end answers longer → end ≡ other_end }
{}
