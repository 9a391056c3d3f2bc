//! A way out and a door in memory, for tests.
ghost use Rattle.std.specs.Prelude.{◌≡◌, ◌++◌, ◌∷◌, [], Some, None, true, false, map, IfOk, OnOk, OnErr, is_ok, if◌then◌else◌};
ghost use Rattle.std.specs.List.{AllByRecursion};
ghost use Rattle.layout_io.specs.MemoryDoors.{IsUnused, bytes_left};

use crate::calls::is_due;
use crate::{Dial, Door, IoFault, MemLink, Name, Row};
use std::alloc::{AllocError, Global};
use std::marker::Model;

/// A way out in memory, which leads to one link.
#[derive(Drop)]
pub struct MemDial {
    alloc: Global,
    link: Option<MemLink>,
    asked: Option<Name>,
    failing: bool,
    faults: u64,
}

impl Model for MemDial {
    ghost use Rattle.std.specs.Option.{option_map};
    ghost use Rattle.layout_io.specs.MemoryDoors.{DialState, IsReady, bytes_left};

    ghost Value = { DialState };

    ghost view = { λ d. record { asked = d.asked; coming = option_map bytes_left d.link; failing = d.failing; faults = d.faults } };

    ghost invariant = { λ d. IsReady d.asked d.link };
}

impl MemDial {
    /// A way to the link, whose connect doesn't fail. It takes no memory.
    pub fn new(alloc: Global, link: MemLink) -> MemDial
        requires { IsUnused link }
        ensures { result ≡ record { asked = None; coming = Some (bytes_left link); failing = false; faults = 0 } }
    {
        MemDial {
            alloc,
            link: Some(link),
            asked: None,
            failing: false,
            faults: 0,
        }
    }

    /// From now on a connect fails.
    pub fn fail_connect(&mut self)
        ensures { self.new ≡ record self.old { failing = true } }
    {
        self.failing = true;
    }
}

impl Dial for MemDial {
    ghost use Rattle.layout_io.specs.Calls.{CountsOne, FailsUnlessMemory};
    ghost use Rattle.layout_io.specs.Causes.{HasCause};
    ghost use Rattle.layout_io.specs.Doors.{Asks, HasCome};
    ghost use Rattle.layout_io.specs.MemoryDoors.{dial_told};
    ghost use Rattle.layout_io.specs.MemoryLinks.{link_told};

    type L = MemLink;

    ghost told = { λ d. dial_told d };

    /// Hands out the link, but where it is to fail or memory runs out.
    fn connect(&mut self, address: &str) -> Result<MemLink, IoFault>
        requires { self.old.asked ≡ None }
        ensures link { IfOk result (λ l. HasCome self.old.coming (link_told l)) }
        ensures asked { Asks address.now self.new.asked result }
        ensures err { OnErr result (self.new.coming ≡ self.old.coming) }
        ensures cause { HasCause self.old.faults self.new.faults result }
        ensures exact { FailsUnlessMemory (self.old.failing ≡ true) result }
        ensures counted { CountsOne self.old.faults self.new.faults result }
        ensures failing { self.new.failing ≡ self.old.failing }
    {
        let asked = Row::from_slice(self.alloc, address.as_bytes())?;
        self.asked = Some(asked);
        if self.failing {
            self.faults = self.faults.saturating_add(1);
            return Err(IoFault::Failed);
        }
        match self.link.take() {
            Some(link) => Ok(link),
            None => {
                self.faults = self.faults.saturating_add(1);
                Err(IoFault::Failed)
            }
        }
    }
}

/// A door in memory, at which these links come.
#[derive(Drop)]
pub struct MemDoor {
    alloc: Global,
    links: Vec<MemLink>,
    asked: Option<Name>,
    bound: bool,
    failing_bind: bool,
    failing: Vec<u64>,
    accepts: u64,
    faults: u64,
}

impl Model for MemDoor {
    ghost use Rattle.std.specs.Prelude.{map};
    ghost use Rattle.std.specs.List.{AllByRecursion};
    ghost use Rattle.layout_io.specs.MemoryDoors.{DoorState, IsUnused, bytes_left};

    ghost Value = { DoorState };

    ghost view = { λ d. record { asked = d.asked; bound = d.bound; coming = map bytes_left d.links.items; failing_bind = d.failing_bind; failing = d.failing.items; accepts = d.accepts; faults = d.faults } };

    ghost invariant = { λ d. AllByRecursion IsUnused d.links.items };
}

impl MemDoor {
    /// A door at which these links come in order. No call is to fail. It takes no memory.
    pub fn new(alloc: Global, links: Vec<MemLink>) -> MemDoor
        requires { AllByRecursion IsUnused links.items }
        ensures { result ≡ record { asked = None; bound = false; coming = map bytes_left links.items; failing_bind = false; failing = []; accepts = 0; faults = 0 } }
    {
        MemDoor {
            alloc,
            links,
            asked: None,
            bound: false,
            failing_bind: false,
            failing: Vec::new(alloc),
            accepts: 0,
            faults: 0,
        }
    }

    /// From now on a bind fails.
    pub fn fail_bind(&mut self)
        ensures { self.new ≡ record self.old { failing_bind = true } }
    {
        self.failing_bind = true;
    }

    /// Adds an accept to the list of those that are to fail, counted from 1. An `Err`, for want of
    /// memory, leaves the door as it was.
    pub fn fail_accept(&mut self, call: u32) -> Result<(), AllocError>
        ensures { self.new ≡ (if is_ok result then record self.old { failing = self.old.failing ++ call ∷ [] } else self.old) }
    {
        self.failing.push(u64::from(call))?;
        Ok(())
    }
}

impl Door for MemDoor {
    ghost use Rattle.layout_io.specs.Calls.{CountsOne, FailsExactly, FailsUnlessMemory, next_number};
    ghost use Rattle.layout_io.specs.Causes.{HasCause};
    ghost use Rattle.layout_io.specs.Doors.{Asks, TakesNext};
    ghost use Rattle.layout_io.specs.MemoryDoors.{IsAcceptDue, door_told};
    ghost use Rattle.layout_io.specs.MemoryLinks.{link_told};

    type L = MemLink;

    ghost told = { λ d. door_told d };

    /// Binds the door, but where that is to fail or memory runs out.
    fn bind(&mut self, address: &str) -> Result<(), IoFault>
        requires { self.old.asked ≡ None }
        ensures bound { OnOk result (self.new.bound ≡ true) }
        ensures err { OnErr result (self.new.bound ≡ self.old.bound) }
        ensures asked { Asks address.now self.new.asked result }
        ensures coming { (door_told self.new).coming ≡ (door_told self.old).coming }
        ensures cause { HasCause self.old.faults self.new.faults result }
        ensures exact { FailsUnlessMemory (self.old.failing_bind ≡ true) result }
        ensures counted { CountsOne self.old.faults self.new.faults result }
        ensures failing { self.new.failing ≡ self.old.failing }
        ensures number { self.new.accepts ≡ self.old.accepts }
    {
        let asked = Row::from_slice(self.alloc, address.as_bytes())?;
        self.asked = Some(asked);
        if self.failing_bind {
            self.faults = self.faults.saturating_add(1);
            return Err(IoFault::Failed);
        }
        self.bound = true;
        Ok(())
    }

    /// Hands out the next link, but where the accept is listed to fail or no link is left. It takes
    /// no memory.
    fn accept(&mut self) -> Result<MemLink, IoFault>
        requires { self.old.bound ≡ true }
        ensures link { IfOk result (λ l. TakesNext (door_told self.old).coming (door_told self.new).coming (link_told l)) }
        ensures err { OnErr result ((door_told self.new).coming ≡ (door_told self.old).coming) }
        ensures asked { self.new.asked ≡ self.old.asked }
        ensures bound { self.new.bound ≡ true }
        ensures cause { HasCause self.old.faults self.new.faults result }
        ensures exact { FailsExactly (IsAcceptDue self.old) result }
        ensures counted { CountsOne self.old.faults self.new.faults result }
        ensures failing { self.new.failing ≡ self.old.failing }
        ensures number { self.new.accepts ≡ next_number self.old.accepts }
    {
        if is_due(&mut self.accepts, &self.failing) {
            self.faults = self.faults.saturating_add(1);
            return Err(IoFault::Failed);
        }
        if self.links.is_empty() {
            self.faults = self.faults.saturating_add(1);
            return Err(IoFault::Failed);
        }
        Ok(self.links.remove(0))
    }
}
