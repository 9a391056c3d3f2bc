//! A client's own board with an index of its boxes, which makes verdicts.
ghost use Rattle.std.specs.Prelude.{◌≡◌, ◌≤◌, ◌<◌, ◌+◌, ◌^◌, [], ℕ, length, IfOk, OnOk, OnErr};
ghost use Rattle.board_items.specs.Formed.{IsFormed, IsFormedAct};
ghost use Rattle.board_rules.specs.Reasons.{IsStaticReason};
ghost use Rattle.board_core.specs.Boards.{first_board, taken_by, after, IsSameBoard, HasFitAct};
ghost use Rattle.board_core.specs.Verdicts.{AreLists, IsVerdict};
ghost use Rattle.check_core.specs.CheckCosts.{check_most};
ghost use Rattle.check_core.specs.Checking.{IsChecking, AreFitEntries, HasTaken, taken_in};

use crate::clashes::rules_of;
use crate::entering::enter_loaded;
use crate::findings::{Found, edit_found, nothing_found, rule_found};
use crate::following::{adds_of, deletes_of, leave, put, take_out};
use board_core::{Board, Verdict};
use board_items::{Entry, Request};
use board_rules::Design;
use seg_geometry::{Near, Steps};
use std::alloc::{AllocError, Global};
use std::marker::Model;
use std::sync::ledger::Ledger;

/// A board, and an index of the boxes of its live items.
#[derive(Drop)]
pub struct Checker<N: Near> {
    board: Board,
    near: N,
}

impl<N: Near> Model for Checker<N> {
    ghost use Rattle.check_core.specs.Checking.{Checking};

    ghost Value = { Checking };

    ghost view = { λ c. record { board = c.board; filed = N.filed c.near } };
}

impl<N: Near + Drop> Checker<N> {
    /// The board before the first entry, with an index that is empty. Its one error is want of memory.
    pub fn new(alloc: Global, design: &Design, near: N) -> Result<Checker<N>, AllocError>
        requires { N.filed near ≡ [] }
        ensures first { IfOk result (λ c. IsSameBoard c.board (first_board design.now.parts)) }
        ensures checking { IfOk result (IsChecking design.now.parts) }
    {
        let mut near = near;
        enter_loaded(&mut near, design)?;
        let board = Board::new(alloc, design)?;
        Ok(Checker { board, near })
    }
}

impl<N: Near> Checker<N> {
    /// How many entries it has taken.
    pub fn count(&self) -> u32
        ensures { result ≡ self.now.board.count }
    {
        self.board.count()
    }

    /// The board after the entries that it has taken.
    pub fn board(&self) -> &Board
        ensures { result.now ≡ self.now.board }
    {
        &self.board
    }

    // Takes one more entry. After an `Err`, for want of memory, all is as before.
    fn take(&mut self, design: &Design, entry: &Entry) -> Result<(), AllocError>
        requires checking { IsChecking design.now.parts self.old }
        requires next { self.old.board.next_id + taken_by entry.now.act < 2 ^ 32 }
        requires count { self.old.board.count + 1 < 2 ^ 32 }
        requires formed { IsFormedAct entry.now.act }
        requires fit { HasFitAct design.now.parts entry.now.act }
        ensures checking { IsChecking design.now.parts self.new }
        ensures ok { OnOk result (IsSameBoard self.new.board (after self.old.board entry.now.client entry.now.act)) }
        ensures err { OnErr result (IsSameBoard self.new.board self.old.board) }
    {
        let next = self.board.next_id();
        match put(&mut self.board, &mut self.near, design, next, entry) {
            Ok(()) => {
                leave(&mut self.near, deletes_of(entry), next);
                Ok(())
            }
            Err(error) => {
                take_out(&mut self.near, next, adds_of(entry).len());
                Err(error)
            }
        }
    }

    /// Takes the next entries of a journal. After an `Err`, for want of memory, a first part of them is taken, which
    /// `count` tells, and a later call with the rest goes on.
    pub fn advance(&mut self, design: &Design, entries: &[Entry]) -> Result<(), AllocError>
        requires checking { IsChecking design.now.parts self.old }
        requires next { self.old.board.next_id + taken_in entries.now < 2 ^ 32 }
        requires count { self.old.board.count + length entries.now < 2 ^ 32 }
        requires fit { AreFitEntries design.now.parts entries.now }
        ensures checking { IsChecking design.now.parts self.new }
        ensures taken { HasTaken design.now.parts entries.now self.old.board self.new.board }
        ensures all { OnOk result (self.new.board.count ≡ self.old.board.count + length entries.now) }
    {
        for entry in entries {
            self.take(design, entry)?;
        }
        Ok(())
    }

    // What is found of a request on the board.
    fn found<L: Ledger>(
        &self,
        design: &Design,
        clients: u8,
        request: &Request,
        steps: &mut Steps<L>,
    ) -> Result<Found, AllocError>
        requires checking { IsChecking design.now.parts self.now }
        requires formed { IsFormed request.now }
        ensures plain { IfOk result (λ f. IsStaticReason design.now.parts self.now.board.rules clients request.now f.plain) }
        ensures lists { IfOk result (λ f. AreLists design.now.parts self.now.board request.now f.clashes f.touched f.late) }
        ensures cost { steps.new ≤ steps.old + check_most design.now.parts self.now.board request.now }
    {
        if let Request::Edit { deletes, adds } = request {
            let (deletes, adds) = (deletes.as_slice(), adds.as_slice());
            return edit_found(design, &self.board, &self.near, deletes, adds, steps);
        }
        let plain = design.static_why(rules_of(&self.board), request, clients, steps);
        if let Request::Rule { class, clearance } = request {
            return rule_found(
                design,
                &self.board,
                &self.near,
                plain,
                *class,
                *clearance,
                steps,
            );
        }
        Ok(nothing_found(design, plain))
    }

    /// The verdict of a request of a client, for so many clients, on the board that `count` tells. It is lent no master,
    /// and no pair is tested twice. Its one error is want of memory.
    pub fn check<L: Ledger>(
        &self,
        design: &Design,
        client: u8,
        clients: u8,
        request: Request,
        steps: &mut Steps<L>,
    ) -> Result<Verdict, AllocError>
        requires checking { IsChecking design.now.parts self.now }
        requires formed { IsFormed request }
        ensures verdict { IfOk result (IsVerdict design.now.parts clients self.now.board) }
        ensures base { IfOk result (λ v. v.base ≡ self.now.board.count) }
        ensures client { IfOk result (λ v. v.client ≡ client) }
        ensures request { IfOk result (λ v. v.request ≡ request) }
        ensures cost { steps.new ≤ steps.old + check_most design.now.parts self.now.board request }
    {
        let found = self.found(design, clients, &request, steps)?;
        Ok(Verdict {
            client,
            request,
            base: self.board.count(),
            plain: found.plain,
            clashes: found.clashes,
            touched: found.touched,
            late: found.late,
        })
    }
}
