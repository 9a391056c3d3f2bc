//! What a replica that has taken entries has.
ghost use Rattle.std.specs.Prelude.{◌≡◌, ℕ, List, length, take};
ghost use Rattle.board_items.specs.declared.history.Entry.{Entry};
ghost use Rattle.board_rules.specs.declared.design.Parts.{Parts};
ghost use Rattle.board_core.specs.Boards.{board_at};
ghost use Rattle.client_replica.specs.Replicas.{Following, first_of, FollowsAll};

/// A replica that has taken the first k entries of a journal has the journal's k-th board.
pub fn a_replica_has_the_journals_board()
    ensures { (p : Parts) (journal : List Entry) (k : ℕ) (r : Following) → FollowsAll (first_of p) (take k journal) r
        → r.board ≡ board_at p journal k }
{}

/// A replica counts the entries that it has taken.
pub fn a_replica_counts_its_entries()
    ensures { (p : Parts) (entries : List Entry) (r : Following) → FollowsAll (first_of p) entries r
        → r.board.count ≡ length entries }
{}
