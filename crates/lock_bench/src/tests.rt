//! Threads that count their turns.
use crate::turns::{Work, count_of};
use std::rt::HostRuntime;
use std::test::Fail;

// In the second row each turn is held far longer than a thread tries, so those that wait sleep and have to be woken.
#[test]
fn each_turn_of_each_thread_is_counted(rt: HostRuntime) -> Result<(), Fail> {
    let rows = [(1, 100, 0, 100), (8, 5, 5_000, 40), (8, 2_000, 0, 16_000)];
    for (threads, turns, pause, want) in rows {
        let found = count_of(&rt, rt.alloc(), threads, Work { turns, pause })?;
        assert_eq!(rt; found, want, "{threads} threads");
    }
    Ok(())
}
