//! A board that takes the entries of a journal one after another.
ghost use Rattle.std.specs.Prelude.{◌≡◌, ◌+◌, ◌<◌, ◌≤◌, ◌^◌, IfOk, OnErr};
ghost use Rattle.row_lists.specs.Limits.{weight_limit};
ghost use Rattle.board_items.specs.Formed.{IsFormedAct};
ghost use Rattle.client_replica.specs.Replicas.{first_of, Weighs, Follows};

use crate::why::ReplicaWhy;
use board_core::Board;
use board_items::{Entry, weight};
use board_rules::Design;
use row_lists::WEIGHT_LIMIT;
use std::alloc::{AllocError, Global};
use std::marker::Model;

/// A design, its board after the entries that were taken, and what these weigh.
#[derive(Drop)]
pub struct Replica {
    design: Design,
    board: Board,
    weight: u64,
}

impl Model for Replica {
    ghost use Rattle.client_replica.specs.Replicas.{Following, IsSteady};

    ghost Value = { Following };

    ghost view = { λ r. record { parts = r.design.parts; board = r.board; weight = r.weight } };

    ghost invariant = { λ r. IsSteady r.board r.weight };
}

// What the entries weigh with one more, where it may be taken.
fn weigh(board: &Board, so_far: u64, entry: &Entry) -> Result<u64, ReplicaWhy>
    requires formed { IsFormedAct entry.now.act }
    requires light { so_far ≤ weight_limit }
    requires few { board.now.count + 1 < 2 ^ 32 }
    ensures { Weighs board.now so_far entry.now result }
{
    let want = board.count() + 1;
    if entry.number != want {
        let got = entry.number;
        return Err(ReplicaWhy::Gap { want, got });
    }
    let weight = so_far + u64::from(weight(&entry.act));
    if weight > u64::from(WEIGHT_LIMIT) {
        return Err(ReplicaWhy::Heavy { weight });
    }
    Ok(weight)
}

impl Replica {
    /// A design's replica before the first entry. Its one error is want of memory.
    pub fn new(alloc: Global, design: Design) -> Result<Replica, AllocError>
        ensures { IfOk result (λ r. r ≡ first_of design.parts) }
    {
        let board = Board::new(alloc, &design)?;
        Ok(Replica {
            design,
            board,
            weight: 0,
        })
    }

    /// Takes the next entry. It is `Gap` exactly where its number isn't the next one, and else `Heavy` exactly where
    /// the weight of all entries would exceed 16,777,216. After an `Err` the replica is as before.
    #[tactic(auto, using(crate::proofs::Steady::takes_few))]
    pub fn apply(&mut self, entry: &Entry) -> Result<(), ReplicaWhy>
        requires { IsFormedAct entry.now.act }
        ensures follows { Follows self.old entry.now self.new result }
        ensures err { OnErr result (self.new ≡ self.old) }
    {
        let weight = weigh(&self.board, self.weight, entry)?;
        self.board.apply(entry)?;
        self.weight = weight;
        Ok(())
    }

    /// The design that the board is of, as it was given.
    pub fn design(&self) -> &Design
        ensures { result.now.parts ≡ self.now.parts }
    {
        &self.design
    }

    /// The board after the entries that were taken.
    pub fn board(&self) -> &Board
        ensures { result.now ≡ self.now.board }
    {
        &self.board
    }

    /// How many entries were taken.
    pub fn count(&self) -> u32
        ensures { result ≡ self.now.board.count }
    {
        self.board.count()
    }
}
