//! The steps on the turn and the slot.
ghost use Rattle.std.specs.Prelude.{◌≡◌, true, false, [], MatchBool};
ghost use mathlib.Core.List.{IsPrefix};
ghost use Rattle.turn_lock.specs.Lists.{calls_of};
ghost use Rattle.turn_lock.specs.Sittings.{carried};
ghost use Rattle.turn_lock.specs.Steps.{HasClaimed, HasCounted, IsNextOf, having};

use crate::kept::Kept;
use crate::knowledge::{LockSteps, Token};
use crate::plays::{Claim, Count, Says, Yield};
use crate::sleepers::Sleepers;
use std::hint::spin_loop;
use std::marker::Brand;
use std::sync::Wait;

pub(crate) const TURN: usize = 0;

pub(crate) const FREE: u64 = 0;

const HELD: u64 = 1;

const COUNT: usize = 1;

// How often the turn is looked at before a thread sleeps.
const LOOKS: u32 = 100;

// Takes the turn and the slot where the turn is free, and says whether it was.
fn claim<T: Kept, N: Says<T>>(steps: &LockSteps<T>, token: &mut Token<T>) -> bool
    requires table { token.old.table_id ≡ steps.now.table_id }
    requires words { steps.now.table_id.words ≡ 2 }
    requires live { token.old.me.0.spent ≡ false }
    requires idle { token.old.me.1 ≡ [] }
    requires says { (x : T) → T.fixed x ≡ T.fixed steps.now.key.value → N.says x }
    ensures seat { token.new.table_id ≡ token.old.table_id }
    ensures claimed { MatchBool result (HasClaimed T.calls T.caller N.says token.old.me token.new.me) (token.new.me ≡ token.old.me) }
{
    steps.compare_exchange::<Claim<N>>(token, TURN, FREE, HELD) == FREE
}

// Looks at the turn until it is free, for a short while, and not where a thread may sleep already.
fn look<T: Kept>(steps: &LockSteps<T>, sleepers: &Sleepers)
    requires { steps.now.table_id.words ≡ 2 }
{
    for _ in 0..LOOKS {
        if steps.peek(TURN) == FREE || sleepers.may_sleep() {
            return;
        }
        spin_loop();
    }
}

// Takes the turn and the slot. After a short try it sleeps until a thread that gives the turn back wakes it.
fn claim_at_last<T: Kept, R: Wait, N: Says<T>>(
    rt: &R,
    steps: &LockSteps<T>,
    sleepers: &Sleepers,
    token: &mut Token<T>,
)
    requires table { token.old.table_id ≡ steps.now.table_id }
    requires words { steps.now.table_id.words ≡ 2 }
    requires live { token.old.me.0.spent ≡ false }
    requires idle { token.old.me.1 ≡ [] }
    requires says { (x : T) → T.fixed x ≡ T.fixed steps.now.key.value → N.says x }
    ensures seat { token.new.table_id ≡ token.old.table_id }
    ensures claimed { HasClaimed T.calls T.caller N.says token.old.me token.new.me }
{
    if claim::<T, N>(steps, token) {
        return;
    }
    look(steps, sleepers);
    if claim::<T, N>(steps, token) {
        return;
    }
    for _ in rt.forever() {
        // The turn is asked for after the announcement, so who has it then sees that somebody may sleep.
        sleepers.announce();
        if claim::<T, N>(steps, token) {
            return;
        }
        sleepers.sleep(rt);
        look(steps, sleepers);
    }
    unreachable!()
}

// Takes the turn and the value.
pub(crate) fn take_value<T: Kept, R: Wait>(
    rt: &R,
    steps: &LockSteps<T>,
    sleepers: &Sleepers,
    token: &mut Token<T>,
) -> T
    requires table { token.old.table_id ≡ steps.now.table_id }
    requires words { steps.now.table_id.words ≡ 2 }
    requires live { token.old.me.0.spent ≡ false }
    requires idle { token.old.me.1 ≡ [] }
    ensures fixed { T.fixed result ≡ T.fixed steps.now.key.value }
    ensures begins { IsPrefix token.old.me.0.seen (T.calls result) }
    ensures own { calls_of T.caller token.old.me.0.number (T.calls result) ≡ token.old.me.0.own }
    ensures seat { token.new.table_id ≡ token.old.table_id }
    ensures knows { token.new.me ≡ having token.old.me.0 (T.calls result) }
{
    claim_at_last::<T, R, Brand>(rt, steps, sleepers, token);
    let Some(value) = steps.exchange(token, 0, None) else {
        unreachable!()
    };
    value
}

// Counts the last call of the value, which names the seat's number.
pub(crate) fn count_last<T: Kept, N: Says<T>>(steps: &LockSteps<T>, token: &mut Token<T>, value: &T)
    requires table { token.old.table_id ≡ steps.now.table_id }
    requires words { steps.now.table_id.words ≡ 2 }
    requires live { token.old.me.0.spent ≡ false }
    requires turn { token.old.me.0.turn ≡ true }
    requires slot { token.old.me.1 ≡ carried true }
    requires call { IsNextOf T.caller token.old.me.0 (T.calls value.now) }
    requires says { N.says value.now }
    ensures seat { token.new.table_id ≡ token.old.table_id }
    ensures counted { HasCounted T.calls N.says token.old.me token.new.me }
{
    // The list's length is a `u64`, so the count doesn't wrap.
    let _length = value.kept();
    steps.fetch_add::<Count<N>>(token, COUNT, 1);
}

// Gives the value and the turn back, and wakes one thread that sleeps.
pub(crate) fn put_value<T: Kept>(
    steps: &LockSteps<T>,
    sleepers: &Sleepers,
    token: &mut Token<T>,
    value: T,
)
    requires table { token.old.table_id ≡ steps.now.table_id }
    requires words { steps.now.table_id.words ≡ 2 }
    requires live { token.old.me.0.spent ≡ false }
    requires turn { token.old.me.0.turn ≡ true }
    requires slot { token.old.me.1 ≡ carried true }
    requires counted { T.calls value ≡ token.old.me.0.seen }
    requires fixed { T.fixed value ≡ T.fixed steps.now.key.value }
    ensures seat { token.new.table_id ≡ token.old.table_id }
    ensures knows { token.new.me ≡ (record token.old.me.0 { turn = false }, []) }
{
    let empty = steps.exchange(token, 0, Some(value));
    let None = empty else { unreachable!() };
    steps.swap::<Yield>(token, TURN, FREE);
    sleepers.wake();
}
