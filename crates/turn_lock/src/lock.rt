//! The lock.
ghost use Rattle.std.specs.Prelude.{◌≡◌, ◌+◌, ◌<◌, ◌≤◌, [], true, false, IfOk};
ghost use mathlib.Core.List.{IsPrefix};
ghost use Rattle.turn_lock.specs.Lists.{calls_of};
ghost use Rattle.turn_lock.specs.Sittings.{opener, splitting, arriving, holding, resting, joining, Counts, IsNext};
ghost use Rattle.turn_lock.specs.Closed.{seats_of, AllJoined, AreApart, BeginsWithEach, HasCallsOfEach, NamesOnly};

use crate::kept::Kept;
use crate::knowledge::LockTable;
use crate::plays::Members;
use crate::seat::Seat;
use crate::sleepers::Sleepers;
use crate::steps::{FREE, count_last, put_value, take_value};
use atomic_table::Table;
use std::alloc::{AllocError, Global};
use std::marker::{Brand, Model};
use std::snapshot::Snapshot;
use std::sync::Wait;

/// A value under a lock, which gives the turn to one seat at a time.
#[derive(Drop)]
pub struct TurnLock<T: Kept> {
    table: LockTable<T>,
    sleepers: Sleepers,
    seats: u8,
}

impl<T: Kept> Model for TurnLock<T> {
    ghost use Rattle.std.specs.Prelude.{◌≡◌};
    ghost use Rattle.turn_lock.specs.Sittings.{Lock};

    ghost Value = { Lock T };

    ghost view = { λ t. record { lock = t.table.shared.table_id; first = t.table.shared.key.value; seats = t.seats } };

    ghost invariant = { λ t. (t.table.shared.table_id.words ≡ 2) × (t.table.shared.table_id.slots ≡ 1) };
}

impl<T: Kept> TurnLock<T> {
    /// A lock round the value, and its first seat, whose number is 0. There may be so many seats, 1 to 9. Where memory
    /// runs out the value is let go.
    pub fn new(alloc: Global, value: T, seats: u8) -> Result<(TurnLock<T>, Seat<T>), AllocError>
    where
        T: Drop,
        requires seats { (1 ≤ seats) × (seats ≤ 9) }
        requires empty { T.calls value ≡ [] }
        ensures lock { IfOk result (λ r. (r.0.first ≡ value) × (r.0.seats ≡ seats)) }
        ensures seat { IfOk result (λ r. r.1 ≡ opener r.0.lock) }
    {
        let sleepers = Sleepers::new(alloc)?;
        let first = Snapshot::of(&value);
        let mut slots = Vec::new(alloc);
        slots.push(Some(value))?;
        let Ok((table, token)) = Table::new(alloc, &[FREE, 0], slots, &first) else {
            return Err(AllocError);
        };
        let lock = TurnLock {
            table,
            sleepers,
            seats,
        };
        Ok((lock, Seat { token }))
    }

    /// A further seat, which has seen what the first one has. They are numbered from 1 in the order of their making.
    pub fn split(&self, seat: &mut Seat<T>) -> Seat<T>
        requires of { seat.old.lock ≡ self.now.lock }
        requires idle { seat.old.turn ≡ false }
        requires first { seat.old.number ≡ 0 }
        requires room { seat.old.splits + 1 < self.now.seats }
        ensures seat { seat.new ≡ splitting seat.old }
        ensures made { result ≡ arriving seat.old }
    {
        let token = self.table.shared.split_seat::<Members>(&mut seat.token);
        Seat { token }
    }

    /// Waits for the turn, and takes the value. After a short try the thread sleeps.
    pub fn take<R: Wait>(&self, rt: &R, seat: &mut Seat<T>) -> T
        requires of { seat.old.lock ≡ self.now.lock }
        requires idle { seat.old.turn ≡ false }
        ensures fixed { T.fixed result ≡ T.fixed self.now.first }
        ensures begins { IsPrefix seat.old.seen (T.calls result) }
        ensures own { calls_of T.caller seat.old.number (T.calls result) ≡ seat.old.own }
        ensures seat { seat.new ≡ holding seat.old (T.calls result) }
    {
        take_value(rt, &self.table.shared, &self.sleepers, &mut seat.token)
    }

    /// Counts the call that the value has gained. It is the seat's own from then on.
    pub fn append(&self, seat: &mut Seat<T>, value: &T)
        requires of { seat.old.lock ≡ self.now.lock }
        requires turn { seat.old.turn ≡ true }
        requires fixed { T.fixed value.now ≡ T.fixed self.now.first }
        requires call { IsNext T.caller seat.old (T.calls value.now) }
        ensures seat { Counts seat.old (T.calls value.now) seat.new }
    {
        count_last::<T, Brand>(&self.table.shared, &mut seat.token, value);
    }

    /// Gives the value and the turn back, and wakes one thread that sleeps.
    pub fn put_back(&self, seat: &mut Seat<T>, value: T)
        requires of { seat.old.lock ≡ self.now.lock }
        requires turn { seat.old.turn ≡ true }
        requires fixed { T.fixed value ≡ T.fixed self.now.first }
        requires counted { T.calls value ≡ seat.old.seen }
        ensures seat { seat.new ≡ resting seat.old }
    {
        put_value(&self.table.shared, &self.sleepers, &mut seat.token, value);
    }

    /// Takes another seat into the first one, which keeps what it knew.
    pub fn join(&self, seat: &mut Seat<T>, other: Seat<T>)
        requires of { (seat.old.lock ≡ self.now.lock) × (other.lock ≡ self.now.lock) }
        requires idle { (seat.old.turn ≡ false) × (other.turn ≡ false) }
        requires first { seat.old.number ≡ 0 }
        ensures seat { seat.new ≡ joining seat.old other }
    {
        let Seat { token: other } = other;
        self.table
            .shared
            .join_seat::<Members>(&mut seat.token, other);
    }

    /// The value, with the calls of all seats. Each further seat was joined before.
    pub fn close(self, seat: Seat<T>) -> T
        requires of { seat.lock ≡ self.lock }
        requires idle { seat.turn ≡ false }
        requires first { seat.number ≡ 0 }
        requires joined { AllJoined seat }
        ensures fixed { T.fixed result ≡ T.fixed self.first }
        ensures begins { BeginsWithEach (seats_of seat) (T.calls result) }
        ensures apart { AreApart (seats_of seat) }
        ensures own { HasCallsOfEach T.caller (seats_of seat) (T.calls result) }
        ensures no_other { NamesOnly T.caller (seats_of seat) (T.calls result) }
    {
        let TurnLock {
            table,
            sleepers: _,
            seats: _,
        } = self;
        let Seat { token } = seat;
        let mut closed = table.close_with(token);
        let Some(value) = closed.take(0) else {
            unreachable!()
        };
        closed.free();
        value
    }
}
