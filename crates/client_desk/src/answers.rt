//! One who answers the requests and leaves of clients, in one order.
ghost use Rattle.std.specs.Prelude.{◌≡◌, ◌≤◌, ◌<◌, ◌+◌, ◌^◌, length, drop, IfOk, OnErr};
ghost use Rattle.std.specs.List.{AllByRecursion};
ghost use Rattle.board_items.specs.Formed.{IsFormed};
ghost use Rattle.desk_core.specs.Desks.{IsFormedEntry};
ghost use Rattle.client_desk.specs.Standings.{Standing, journal, with_leave, IsHere, IsPlaced};

use board_items::{Entries, Request};
use desk_core::Placed;
use std::alloc::AllocError;

/// One who answers requests and leaves, one after another. Clients are numbered from 1.
pub trait Answers {
    /// What the design is made of, how many clients there are, what a history may weigh, and the calls answered so far.
    ghost standing: { Self → Standing };

    /// The journal's entries behind the first `from`. Its one error is want of memory, and all stays as it was.
    fn look(&mut self, from: u32) -> Result<Entries, AllocError>
        requires { from ≤ length (journal (standing self.old)) }
        ensures entries { IfOk result (λ entries. entries ≡ drop from (journal (standing self.old))) }
        ensures formed { IfOk result (AllByRecursion IsFormedEntry) }
        ensures few { length (journal (standing self.old)) < 2 ^ 32 }
        ensures stays { standing self.new ≡ standing self.old };

    /// Answers a request of a client who hasn't left, at the journal as it is then. After an `Err`, for want of memory, all
    /// is as before.
    fn answer(&mut self, client: u8, request: Request) -> Result<Placed, AllocError>
        requires here { IsHere (standing self.old) client }
        requires formed { IsFormed request }
        ensures placed { IfOk result (IsPlaced (standing self.old) client request (standing self.new)) }
        ensures err { OnErr result (standing self.new ≡ standing self.old) };

    /// Ends the presence of a client who hasn't left, and gives the number of the entry that says so. It takes no memory.
    fn leave(&mut self, client: u8) -> u32
        requires { IsHere (standing self.old) client }
        ensures left { standing self.new ≡ with_leave (standing self.old) client }
        ensures number { result ≡ length (journal (standing self.old)) + 1 };
}
