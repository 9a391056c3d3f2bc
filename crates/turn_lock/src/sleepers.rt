//! Where threads sleep while another seat has the turn.
ghost use Rattle.std.specs.Prelude.{◌≡◌};

use atomic_table::{Play, Table, TableRule};
use std::alloc::{AllocError, Global};
use std::sync::Wait;

const WORD: usize = 0;

const NOBODY: u64 = 0;

const SOMEBODY: u64 = 1;

/// The rule of a word of which nothing is said, and what a step on it tells.
pub(crate) struct Anything;

impl TableRule<(), (), ()> for Anything {
    ghost holds = { λ _ _. Unit {0} };

    ghost first = { λ _. tt };
}

impl Play<(), ()> for Anything {
    ghost then = { λ _ _ _ _. Unit {0} };
}

/// A word that is 1 where a thread may sleep on it, and else 0. No promise rests on it.
#[derive(Drop)]
pub(crate) struct Sleepers {
    table: Table<(), (), (), Anything, Global>,
    ghost one_word: { table.shared.table_id.words ≡ 1 },
}

impl Sleepers {
    pub(crate) fn new(alloc: Global) -> Result<Sleepers, AllocError> {
        let (table, _seat) = Table::of_words(alloc, &[NOBODY], &())?;
        Ok(Sleepers { table })
    }

    pub(crate) fn may_sleep(&self) -> bool {
        self.table.shared.peek(WORD) == SOMEBODY
    }

    // Says that a thread is about to sleep. It looks once more for the turn before it does.
    pub(crate) fn announce(&self) {
        self.table.shared.swap_new_seat::<Anything>(WORD, SOMEBODY);
    }

    // Sleeps, but not where a thread was woken since the last announcement.
    pub(crate) fn sleep<R: Wait>(&self, rt: &R) {
        self.table.shared.park(rt, WORD, SOMEBODY as u32);
    }

    // Wakes one thread. The system is called only where somebody may sleep.
    pub(crate) fn wake(&self) {
        if !self.may_sleep() {
            return;
        }
        let (found, _seat) = self.table.shared.swap_new_seat::<Anything>(WORD, NOBODY);
        if found == SOMEBODY {
            self.table.shared.wake_one(WORD);
        }
    }
}
