//! Threads that take turns, and count them in the value under the lock.
ghost use Rattle.std.specs.Prelude.{◌≡◌, ◌+◌, ◌<◌, ◌≤◌, ℕ, [], false, length};
ghost use Rattle.std.specs.Thread.{IsSync};
ghost use Rattle.turn_lock.specs.Sittings.{IsSameSeat};

use std::alloc::{AllocError, Global};
use std::rt::Clock;
use std::sync::Wait;
use std::thread::{Threads, join, sleep};
use std::time::Duration;
use turn_lock::{Kept, Seat, TurnLock};

/// How many threads there may be.
pub const THREAD_LIMIT: u32 = 8;

/// What each thread does.
#[derive(Clone, Copy)]
pub struct Work {
    /// How many turns it takes.
    pub turns: u32,
    /// For how many microseconds it sleeps in each turn. At 0 it doesn't sleep.
    pub pause: u32,
}

// How many turns there were. Its list of calls is empty.
#[derive(Drop)]
struct Count {
    turns: u64,
}

impl Kept for Count {
    type Call = u64;

    ghost Fixed = { Unit {0} };

    ghost fixed = { λ _. tt };

    ghost calls = { λ _. [] };

    ghost caller = { λ number. number };

    fn kept(&self) -> u64 {
        0
    }
}

fn take_turns<R: Wait + Clock>(
    rt: &R,
    lock: &TurnLock<Count>,
    mut seat: Seat<Count>,
    work: Work,
) -> Seat<Count>
    requires of { seat.lock ≡ lock.now.lock }
    requires idle { seat.turn ≡ false }
    ensures { IsSameSeat seat result }
{
    for _i in 0..work.turns {
        let mut count = lock.take(rt, &mut seat);
        count.turns = count.turns.wrapping_add(1);
        if work.pause > 0 {
            sleep(rt, Duration::from_micros(u64::from(work.pause)));
        }
        lock.put_back(&mut seat, count);
    }
    seat
}

// This thread and so many further ones, each with a seat of its own, take their turns.
fn take_in_each<R: Threads + Wait + Clock + Sync>(
    rt: &R,
    lock: &TurnLock<Count>,
    mut first: Seat<Count>,
    further: u8,
    work: Work,
) -> Seat<Count>
    requires of { first.lock ≡ lock.now.lock }
    requires idle { first.turn ≡ false }
    requires first { first.number ≡ 0 }
    requires room { first.splits + further < lock.now.seats }
    ensures first { (result.lock ≡ first.lock) × (result.turn ≡ false) × (result.number ≡ 0) }
    ensures splits { result.splits ≡ first.splits + further }
    ensures joined { length result.ended ≡ length first.ended + further }
{
    if further == 0 {
        return take_turns(rt, lock, first, work);
    }
    let second = lock.split(&mut first);
    let fewer = further - 1;
    let (second, mut first) = join(
        rt,
        || -> Seat<Count>
            requires { IsSync R.row × (second.lock ≡ lock.now.lock) × (second.turn ≡ false) }
            ensures { IsSameSeat second result }
        { take_turns(rt, lock, second, work) },
        || -> Seat<Count>
            requires first { IsSync R.row × (first.lock ≡ lock.now.lock) × (first.turn ≡ false) × (first.number ≡ 0) }
            requires room { first.splits + fewer < lock.now.seats }
            ensures first { (result.lock ≡ first.lock) × (result.turn ≡ false) × (result.number ≡ 0) }
            ensures joined { (result.splits ≡ first.splits + fewer) × (length result.ended ≡ length first.ended + fewer) }
        { take_in_each(rt, lock, first, fewer, work) },
    );
    lock.join(&mut first, second);
    first
}

/// How many turns so many threads took in all.
pub fn count_of<R: Threads + Wait + Clock + Sync>(
    rt: &R,
    alloc: Global,
    threads: u8,
    work: Work,
) -> Result<u64, AllocError>
    requires { (1 ≤ threads) × (threads ≤ 8) }
{
    let (lock, first) = TurnLock::new(alloc, Count { turns: 0 }, threads)?;
    let first = take_in_each(rt, &lock, first, threads - 1, work);
    let count = lock.close(first);
    Ok(count.turns)
}
