//! How sessions come: a way out, a door, and a gate that a test may hold.
ghost use Rattle.std.specs.Prelude.{◌≡◌, Option, None, IfOk, OnOk, OnErr, true};
ghost use Rattle.layout_io.specs.Causes.{HasCause};
ghost use Rattle.layout_io.specs.Doors.{DialTold, DoorTold, Asks, HasCome, TakesNext};

use crate::{IoFault, Link};

/// A way to the other side, which is taken once.
pub trait Dial {
    /// The link that comes.
    type L: Link;

    /// The address asked for, the bytes to read of the link to come, where the object tells, and how
    /// often a connect answered `Failed`.
    ghost told: { Self → DialTold };

    /// Asks for a link to the address, with nothing written on it. Want of memory asks for nothing.
    fn connect(&mut self, address: &str) -> Result<Self::L, IoFault>
        requires { (told self.old).asked ≡ None }
        ensures link { IfOk result (λ l. HasCome (told self.old).coming (Self.L.told l)) }
        ensures asked { Asks address.now (told self.new).asked result }
        ensures err { OnErr result ((told self.new).coming ≡ (told self.old).coming) }
        ensures cause { HasCause (told self.old).faults (told self.new).faults result };
}

/// A door at which links come one after another.
pub trait Door {
    /// The links that come.
    type L: Link;

    /// The address asked for, whether the door is bound, the bytes to read of each link still to come,
    /// where the object tells, and how often a bind or an accept answered `Failed`.
    ghost told: { Self → DoorTold };

    /// Opens the door at the address. Want of memory asks for nothing, and no `Err` binds.
    fn bind(&mut self, address: &str) -> Result<(), IoFault>
        requires { (told self.old).asked ≡ None }
        ensures bound { OnOk result ((told self.new).bound ≡ true) }
        ensures err { OnErr result ((told self.new).bound ≡ (told self.old).bound) }
        ensures asked { Asks address.now (told self.new).asked result }
        ensures coming { (told self.new).coming ≡ (told self.old).coming }
        ensures cause { HasCause (told self.old).faults (told self.new).faults result };

    /// Hands out the next link, with nothing written on it. An `Err` leaves the links to come.
    fn accept(&mut self) -> Result<Self::L, IoFault>
        requires { (told self.old).bound ≡ true }
        ensures link { IfOk result (λ l. TakesNext (told self.old).coming (told self.new).coming (Self.L.told l)) }
        ensures err { OnErr result ((told self.new).coming ≡ (told self.old).coming) }
        ensures asked { (told self.new).asked ≡ (told self.old).asked }
        ensures bound { (told self.new).bound ≡ true }
        ensures cause { HasCause (told self.old).faults (told self.new).faults result };
}

/// What stands beside each commit. A test may hold a client there until another was answered.
pub trait Gate {
    /// Comes before the client's commit of this number, from 1, with the base of its verdict and the
    /// number of clashes in it. It may wait.
    fn before_commit(&self, client: u8, call: u32, base: u32, clashes: u32);

    /// Comes after that commit, once the turn was given back.
    fn answered(&self, client: u8, call: u32);
}

/// A gate that holds nobody.
#[derive(Clone, Copy, Debug, Drop)]
pub struct OpenGate;

impl Gate for OpenGate {
    fn before_commit(&self, _client: u8, _call: u32, _base: u32, _clashes: u32) {}

    fn answered(&self, _client: u8, _call: u32) {}
}
