//! Seats that append numbers to one list.
ghost use Rattle.std.specs.Prelude.{All, ◌≡◌, ◌+◌, ◌^◌, ◌<◌, ◌≤◌, ◌++◌, ◌∷◌, [], true, false, map, take, Contains, length, is_ok, if◌then◌else◌, IfOk};
ghost use Rattle.std.specs.List.{AllByRecursion};
ghost use Rattle.turn_lock.specs.declared.tests.Entry.{Entry};
ghost use Rattle.turn_lock.specs.Lists.{calls_of};
ghost use Rattle.std.specs.Thread.{IsSync};
ghost use Rattle.turn_lock.specs.Sittings.{IsSameSeat};

use super::*;
use std::alloc::{AllocError, Global};
use std::sync::Wait;
use std::test::*;
use std::thread::{Threads, join};

// A number, with the number of the seat that appended it.
#[derive(Clone, Copy, Debug, PartialEq, Eq)]
struct Entry {
    seat: u64,
    number: u32,
}

#[derive(Drop)]
struct Numbers {
    entries: Vec<Entry>,
}

impl Kept for Numbers {
    type Call = Entry;

    ghost Fixed = { Unit {0} };

    ghost fixed = { λ _. tt };

    ghost calls = { λ numbers. numbers.entries.items };

    ghost caller = { λ entry. entry.seat };

    fn kept(&self) -> u64 {
        self.entries.len() as u64
    }
}

fn empty(alloc: Global) -> Numbers
    ensures { result.entries.items ≡ [] }
{
    Numbers {
        entries: Vec::new(alloc),
    }
}

// One turn, in which the seat appends a number.
fn add<R: Wait>(
    rt: &R,
    lock: &TurnLock<Numbers>,
    seat: &mut Seat<Numbers>,
    entry: Entry,
) -> Result<(), AllocError>
    requires of { seat.old.lock ≡ lock.now.lock }
    requires idle { seat.old.turn ≡ false }
    requires by { entry.seat ≡ seat.old.number }
    ensures seat { IsSameSeat seat.old seat.new }
    ensures own { seat.new.own ≡ (if is_ok result then seat.old.own ++ entry ∷ [] else seat.old.own) }
{
    let mut numbers = lock.take(rt, seat);
    if numbers.entries.push(entry).is_err() {
        lock.put_back(seat, numbers);
        return Err(AllocError);
    }
    lock.append(seat, &numbers);
    lock.put_back(seat, numbers);
    Ok(())
}

// Appends the numbers in their order until memory runs out, and says how many.
fn add_all<R: Wait>(
    rt: &R,
    lock: &TurnLock<Numbers>,
    mut seat: Seat<Numbers>,
    by: u64,
    numbers: &[u32],
) -> (Seat<Numbers>, usize)
    requires of { seat.lock ≡ lock.now.lock }
    requires idle { seat.turn ≡ false }
    requires by { seat.number ≡ by }
    ensures seat { IsSameSeat seat result.0 }
    ensures own { map (λ e. e.number) result.0.own ≡ map (λ e. e.number) seat.own ++ take result.1 numbers.now }
{
    for i in 0..numbers.len() {
        let entry = Entry {
            seat: by,
            number: numbers[i],
        };
        if add(rt, lock, &mut seat, entry).is_err() {
            return (seat, i);
        }
    }
    (seat, numbers.len())
}

// Two threads borrow the lock, and each owns a seat, with which it appends its numbers.
fn add_beside<R: Threads + Wait + Sync>(
    rt: &R,
    lock: &TurnLock<Numbers>,
    first: Seat<Numbers>,
    second: Seat<Numbers>,
    mine: &[u32],
    theirs: &[u32],
) -> ((Seat<Numbers>, usize), (Seat<Numbers>, usize))
    requires of { (first.lock ≡ lock.now.lock) × (second.lock ≡ lock.now.lock) }
    requires idle { (first.turn ≡ false) × (second.turn ≡ false) }
    requires by { (first.number ≡ 0) × (second.number ≡ 1) }
    ensures first { IsSameSeat first result.0.0 }
    ensures second { IsSameSeat second result.1.0 }
    ensures mine { map (λ e. e.number) result.0.0.own ≡ map (λ e. e.number) first.own ++ take result.0.1 mine.now }
    ensures theirs { map (λ e. e.number) result.1.0.own ≡ map (λ e. e.number) second.own ++ take result.1.1 theirs.now }
{
    join(
        rt,
        || -> (Seat<Numbers>, usize)
            requires { (first.lock ≡ lock.now.lock) × (first.turn ≡ false) × (first.number ≡ 0) }
            ensures { IsSameSeat first result.0 × (map (λ e. e.number) result.0.own ≡ map (λ e. e.number) first.own ++ take result.1 mine.entry.now) }
        { add_all(rt, lock, first, 0, mine) },
        || -> (Seat<Numbers>, usize)
            requires { (second.lock ≡ lock.now.lock) × (second.turn ≡ false) × (second.number ≡ 1) }
            ensures { IsSameSeat second result.0 × (map (λ e. e.number) result.0.own ≡ map (λ e. e.number) second.own ++ take result.1 theirs.entry.now) }
        { add_all(rt, lock, second, 1, theirs) },
    )
}

// Two threads append their numbers to one list. It has the numbers of each in their order, and no others.
fn add_in_two<R: Threads + Wait + Sync>(
    rt: &R,
    alloc: Global,
    mine: &[u32],
    theirs: &[u32],
) -> Result<(Numbers, usize, usize), AllocError>
    ensures mine { IfOk result (λ r. map (λ e. e.number) (calls_of (λ e. e.seat) 0 r.0.entries.items) ≡ take r.1 mine.now) }
    ensures theirs { IfOk result (λ r. map (λ e. e.number) (calls_of (λ e. e.seat) 1 r.0.entries.items) ≡ take r.2 theirs.now) }
    ensures no_other { IfOk result (λ r. AllByRecursion (λ e. Contains (0 ∷ 1 ∷ []) e.seat) r.0.entries.items) }
{
    let (lock, mut first) = TurnLock::new(alloc, empty(alloc), 2)?;
    let second = lock.split(&mut first);
    let (a, b) = add_beside(rt, &lock, first, second, mine, theirs);
    let (mut first, mine_count) = a;
    let (second, theirs_count) = b;
    lock.join(&mut first, second);
    let numbers = lock.close(first);
    Ok((numbers, mine_count, theirs_count))
}

// So many further threads, each with a seat of its own, and this one append the same numbers.
fn add_in_each<R: Threads + Wait + Sync>(
    rt: &R,
    lock: &TurnLock<Numbers>,
    mut first: Seat<Numbers>,
    made: u64,
    further: u8,
    numbers: &[u32],
) -> Seat<Numbers>
    requires of { first.lock ≡ lock.now.lock }
    requires idle { first.turn ≡ false }
    requires first { first.number ≡ 0 }
    requires made { first.splits ≡ made }
    requires room { (made + further < lock.now.seats) × (made + further < 9) }
    ensures first { (result.lock ≡ first.lock) × (result.turn ≡ false) × (result.number ≡ 0) }
    ensures splits { result.splits ≡ made + further }
    ensures joined { length result.ended ≡ length first.ended + further }
{
    if further == 0 {
        let (first, _count) = add_all(rt, lock, first, 0, numbers);
        return first;
    }
    let second = lock.split(&mut first);
    let number = made + 1;
    let fewer = further - 1;
    let (second, mut first) = join(
        rt,
        || -> (Seat<Numbers>, usize)
            requires { IsSync R.row × (second.lock ≡ lock.now.lock) × (second.turn ≡ false) × (second.number ≡ number) }
            ensures { IsSameSeat second result.0 }
        { add_all(rt, lock, second, number, numbers) },
        || -> Seat<Numbers>
            requires first { IsSync R.row × (first.lock ≡ lock.now.lock) × (first.turn ≡ false) × (first.number ≡ 0) }
            requires room { (first.splits ≡ number) × (number + fewer < lock.now.seats) × (number + fewer < 9) }
            ensures first { (result.lock ≡ first.lock) × (result.turn ≡ false) × (result.number ≡ 0) }
            ensures joined { (result.splits ≡ number + fewer) × (length result.ended ≡ length first.ended + fewer) }
        { add_in_each(rt, lock, first, number, fewer, numbers) },
    );
    lock.join(&mut first, second.0);
    first
}

// The numbers that follow `from`.
fn after(alloc: Global, from: u32, count: u32) -> Result<Vec<u32>, AllocError>
    requires { from + count < 2 ^ 32 }
{
    let mut row = Vec::new(alloc);
    for i in 0..count {
        row.push(from + i + 1)?;
    }
    Ok(row)
}

// The numbers of one seat, in the order of the list.
fn numbers_of(alloc: Global, numbers: &Numbers, seat: u64) -> Result<Vec<u32>, AllocError> {
    let mut row = Vec::new(alloc);
    for entry in numbers.entries.as_slice() {
        if entry.seat == seat {
            row.push(entry.number)?;
        }
    }
    Ok(row)
}

// Splits so many seats from the first one.
fn split_all(
    alloc: Global,
    lock: &TurnLock<Numbers>,
    first: &mut Seat<Numbers>,
    count: u8,
) -> Result<Vec<Seat<Numbers>>, AllocError>
    requires of { first.old.lock ≡ lock.now.lock }
    requires idle { first.old.turn ≡ false }
    requires first { first.old.number ≡ 0 }
    requires room { first.old.splits + count < lock.now.seats }
    ensures seats { IfOk result (λ v. All (λ s. (s.lock ≡ lock.entry.now.lock) × (s.turn ≡ false)) v.items) }
    ensures count { IfOk result (λ v. (length v.items ≡ count) × (first.new.splits ≡ first.old.splits + count)) }
    ensures first { (first.new.lock ≡ first.old.lock) × (first.new.turn ≡ false) × (first.new.number ≡ 0) × (first.new.ended ≡ first.old.ended) }
{
    let mut seats = Vec::new(alloc);
    for _i in 0..count {
        seats.push(lock.split(first))?;
    }
    Ok(seats)
}

// Takes in seats that were split from the first one.
fn join_all(lock: &TurnLock<Numbers>, first: &mut Seat<Numbers>, mut seats: Vec<Seat<Numbers>>)
    requires of { first.old.lock ≡ lock.now.lock }
    requires idle { first.old.turn ≡ false }
    requires first { first.old.number ≡ 0 }
    requires others { All (λ s. (s.lock ≡ lock.now.lock) × (s.turn ≡ false)) seats.items }
    ensures lock { (first.new.lock ≡ first.old.lock) × (first.new.turn ≡ false) × (first.new.number ≡ 0) }
    ensures joined { length first.new.ended ≡ length first.old.ended + length seats.items }
    ensures splits { first.new.splits ≡ first.old.splits }
{
    while let Some(seat) = seats.pop() {
        lock.join(first, seat);
    }
}

#[test]
fn one_seat_appends_5(rt: HostRuntime) -> Result<(), Fail> {
    let alloc = rt.alloc();
    let (lock, mut seat) = TurnLock::new(alloc, empty(alloc), 1)?;
    let mut numbers = lock.take(&rt, &mut seat);
    let entry = Entry { seat: 0, number: 5 };
    numbers.entries.push(entry)?;
    lock.append(&mut seat, &numbers);
    lock.put_back(&mut seat, numbers);
    let closed = lock.close(seat);
    assert_eq!(rt;
        closed.entries.as_slice(),
        [entry].as_slice(),
        "the list of 5"
    );
    Ok(())
}

#[test]
fn two_threads_append_a_thousand_each(rt: HostRuntime) -> Result<(), Fail> {
    let alloc = rt.alloc();
    let mine = after(alloc, 0, 1000)?;
    let theirs = after(alloc, 2000, 1000)?;
    let (numbers, _, _) = add_in_two(&rt, alloc, mine.as_slice(), theirs.as_slice())?;
    assert_eq!(rt; numbers.entries.len(), 2000, "all numbers");
    for (seat, wanted) in [(0, &mine), (1, &theirs)] {
        let row = numbers_of(alloc, &numbers, seat)?;
        assert_eq!(rt;
            row.as_slice(),
            wanted.as_slice(),
            "the numbers of seat {seat}, in order"
        );
    }
    Ok(())
}

#[test]
fn eight_threads_append_ten_thousand(rt: HostRuntime) -> Result<(), Fail> {
    let alloc = rt.alloc();
    let wanted = after(alloc, 0, 1250)?;
    let (lock, first) = TurnLock::new(alloc, empty(alloc), 8)?;
    let first = add_in_each(&rt, &lock, first, 0, 7, wanted.as_slice());
    let numbers = lock.close(first);
    assert_eq!(rt; numbers.entries.len(), 10_000, "all numbers");
    for seat in 0..8 {
        let row = numbers_of(alloc, &numbers, seat)?;
        assert_eq!(rt;
            row.as_slice(),
            wanted.as_slice(),
            "the numbers of seat {seat}, in order"
        );
    }
    Ok(())
}

// Each thread borrows the lock and owns a seat, and the first seat then finds what both have appended.
#[test]
fn two_threads_borrow_the_lock_and_own_a_seat_each(rt: HostRuntime) -> Result<(), Fail> {
    let alloc = rt.alloc();
    let (lock, mut first) = TurnLock::new(alloc, empty(alloc), 2)?;
    let second = lock.split(&mut first);
    let (a, b) = add_beside(&rt, &lock, first, second, &[5], &[7]);
    let (mut first, _) = a;
    let (second, _) = b;
    let numbers = lock.take(&rt, &mut first);
    let found = numbers.entries.len();
    lock.put_back(&mut first, numbers);
    lock.join(&mut first, second);
    let closed = lock.close(first);
    assert_eq!(rt; found, 2, "a number of each");
    assert_eq!(rt; closed.entries.len(), 2, "the same at the end");
    Ok(())
}

#[test]
fn nine_seats_are_made_and_joined(rt: HostRuntime) -> Result<(), Fail> {
    let alloc = rt.alloc();
    let (lock, mut first) = TurnLock::new(alloc, empty(alloc), 9)?;
    let seats = split_all(alloc, &lock, &mut first, 8)?;
    join_all(&lock, &mut first, seats);
    let numbers = lock.close(first);
    assert!(rt; numbers.entries.is_empty(), "nobody appended");
    Ok(())
}
