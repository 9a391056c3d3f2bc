//! Who makes verdicts.
ghost use Rattle.std.specs.Prelude.{◌≡◌, ◌<◌, IfOk};
ghost use Rattle.board_items.specs.Formed.{IsFormed};
ghost use Rattle.board_core.specs.Verdicts.{IsVerdict};
ghost use Rattle.check_core.specs.Checking.{IsChecking};

use crate::checker::Checker;
use board_core::Verdict;
use board_items::Request;
use board_rules::Design;
use seg_geometry::{Near, Steps};
use std::alloc::AllocError;
use std::marker::Brand;
use std::sync::ledger::{Blank, Ledger};

/// A way to make verdicts on a checker's board.
pub trait Checks<N: Near> {
    /// The verdict of a request of a client, for so many clients. Its one error is want of memory.
    fn check(
        &self,
        checker: &Checker<N>,
        design: &Design,
        client: u8,
        clients: u8,
        request: Request,
    ) -> Result<Verdict, AllocError>
        requires checking { IsChecking design.now.parts checker.now }
        requires formed { IsFormed request }
        ensures verdict { IfOk result (IsVerdict design.now.parts clients checker.now.board) }
        ensures base { IfOk result (λ v. v.base ≡ checker.now.board.count) }
        ensures client { IfOk result (λ v. v.client ≡ client) }
        ensures request { IfOk result (λ v. v.request ≡ request) };
}

// As `Checker::check`, with a count of its own.
fn counted_check<N: Near, L: Ledger>(
    checker: &Checker<N>,
    design: &Design,
    client: u8,
    clients: u8,
    request: Request,
    blank: Blank,
) -> Result<Verdict, AllocError>
    requires name { blank.name ≡ L.name }
    requires parts { blank.parts ≡ L.parts }
    requires count { 0 < blank.parts }
    requires checking { IsChecking design.now.parts checker.now }
    requires formed { IsFormed request }
    ensures verdict { IfOk result (IsVerdict design.now.parts clients checker.now.board) }
    ensures base { IfOk result (λ v. v.base ≡ checker.now.board.count) }
    ensures client { IfOk result (λ v. v.client ≡ client) }
    ensures request { IfOk result (λ v. v.request ≡ request) }
{
    let mut steps = Steps::<L>::new(blank);
    checker.check(design, client, clients, request, &mut steps)
}

/// Makes each verdict by one call of `Checker::check`.
#[derive(Clone, Copy, Debug)]
pub struct OneCheck;

impl<N: Near> Checks<N> for OneCheck {
    fn check(
        &self,
        checker: &Checker<N>,
        design: &Design,
        client: u8,
        clients: u8,
        request: Request,
    ) -> Result<Verdict, AllocError> {
        counted_check::<N, Brand>(checker, design, client, clients, request, Blank::new(1))
    }
}
