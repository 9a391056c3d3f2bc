//! What holds of each board of a legal history.
ghost use Rattle.std.specs.Prelude.{ℕ, List};
ghost use Rattle.board_items.specs.declared.history.Call.{Call};
ghost use Rattle.board_rules.specs.declared.design.Parts.{Parts};
ghost use Rattle.board_core.specs.Boards.{first_board, board_at};
ghost use Rattle.board_core.specs.Clean.{IsCleanBoard};
ghost use Rattle.board_core.specs.Histories.{IsLegal, journal_of};
ghost use Rattle.board_core.specs.Shields.{IsShielded};

/// Where no two loaded items are too near under the rules that the design starts with, no two live ones are under the
/// board's rules after any number of entries of a legal history.
pub fn every_board_is_clean()
    ensures { (p : Parts) (clients limit : ℕ) (calls : List Call) (k : ℕ) → IsCleanBoard p (first_board p).rules (first_board p).live
        → IsLegal p clients limit calls → IsCleanBoard p (board_at p (journal_of calls) k).rules (board_at p (journal_of calls) k).live }
{}

/// Each entry of a legal history leaves what lies in each live boundary in which its client isn't entitled: the items that
/// touch the boundary, with their numbers, who holds them, and the boundary itself.
pub fn every_journal_is_shielded()
    ensures { (p : Parts) (clients limit : ℕ) (calls : List Call) → IsLegal p clients limit calls
        → IsShielded p (journal_of calls) }
{}
