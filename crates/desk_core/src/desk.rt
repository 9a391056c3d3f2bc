//! What a session asks of the journal for its client.
ghost use Rattle.std.specs.Prelude.{◌≡◌, ◌≤◌, true, false, length, IfOk, OnOk, is_err};
ghost use Rattle.std.specs.List.{AllByRecursion};
ghost use Rattle.board_items.specs.Formed.{IsFormed};
ghost use Rattle.desk_core.specs.Desks.{DeskTold, IsFormedEntry, IsShown, handed_after, answers_after};

use board_items::{Entries, Reply, Request};
use std::alloc::AllocError;

/// Where a request was answered, and what. The place is the journal's length just after the call.
#[derive(Clone, Copy, Debug, PartialEq, Eq)]
pub struct Placed {
    pub place: u32,
    pub reply: Reply,
}

/// A request with the place at which it was answered, and its reply.
#[derive(Debug, Drop)]
pub struct Answer {
    pub request: Request,
    pub place: u32,
    pub reply: Reply,
}

/// One client's place at the journal. After a leave there is no call, and after want of memory only
/// a leave.
pub trait Desk {
    /// The entries handed out, which are the first ones of one list that only grows, the answers given,
    /// in order, whether a look answered `Ok` since the last ask, whether a call answered want of
    /// memory, and whether the client has left.
    ghost told: { Self → DeskTold };

    /// Hands out the entries since the last look, at least up to the place of each answer. It may wait.
    fn look(&mut self) -> Result<Entries, AllocError>
        requires here { (told self.old).left ≡ false }
        requires able { (told self.old).ran_out ≡ false }
        ensures handed { (told self.new).handed ≡ handed_after (told self.old).handed result }
        ensures formed { IfOk result (AllByRecursion IsFormedEntry) }
        ensures reaches { OnOk result (AllByRecursion (IsShown (told self.new).handed) (told self.old).answers) }
        ensures answers { (told self.new).answers ≡ (told self.old).answers }
        ensures looked { OnOk result ((told self.new).looked ≡ true) }
        ensures memory { (told self.new).ran_out ≡ is_err result }
        ensures here { (told self.new).left ≡ false };

    /// Has the request answered, at a place that isn't before what was handed out. It may wait.
    fn ask(&mut self, request: Request) -> Result<Placed, AllocError>
        requires here { (told self.old).left ≡ false }
        requires able { (told self.old).ran_out ≡ false }
        requires looked { (told self.old).looked ≡ true }
        requires formed { IsFormed request }
        ensures answers { (told self.new).answers ≡ answers_after (told self.old).answers request result }
        ensures place { IfOk result (λ p. length (told self.old).handed ≤ p.place) }
        ensures handed { (told self.new).handed ≡ (told self.old).handed }
        ensures looked { OnOk result ((told self.new).looked ≡ false) }
        ensures memory { (told self.new).ran_out ≡ is_err result }
        ensures here { (told self.new).left ≡ false };

    /// Leaves, and gives the number of the entry that says so. It takes no memory. It may wait.
    fn leave(&mut self) -> u32
        requires { (told self.old).left ≡ false }
        ensures left { (told self.new).left ≡ true }
        ensures handed { (told self.new).handed ≡ (told self.old).handed }
        ensures answers { (told self.new).answers ≡ (told self.old).answers }
        ensures memory { (told self.new).ran_out ≡ (told self.old).ran_out };
}
