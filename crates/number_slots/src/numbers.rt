//! The numbers that a walk goes by: those of all that is there, and some under which nothing stands any more.
ghost use Rattle.std.specs.Vec.{vec_len, vec_capacity};
ghost use Rattle.std.specs.Prelude.{◌≡◌, ◌≤◌, ◌<◌, ◌+◌, ◌++◌, ◌^◌, length};
ghost use Rattle.std.specs.List.{AllByRecursion};
ghost use Rattle.number_slots.specs.Slots.{there, at_numbers};
ghost use Rattle.number_slots.specs.Places.{slots_of, is_taken, numbers_of, IsKept, IsWalk};

use slab::Slab;

// Whether something stands under a number.
fn stands(places: &[usize], number: u32) -> bool
    ensures { result ≡ is_taken places.now number }
{
    if number == 0 {
        return false;
    }
    let i = number as usize - 1;
    if places.len() <= i {
        return false;
    }
    places[i] != 0
}

/// Leaves out the numbers under which nothing stands, where they are more than half. It takes no memory.
pub fn squeeze<T>(numbers: &mut Vec<u32>, places: &[usize], things: &Slab<T>)
    requires kept { IsKept places.now things.now }
    requires all { at_numbers numbers.old.items (there 1 (slots_of things.now places.now)) ≡ there 1 (slots_of things.now places.now) }
    requires given { AllByRecursion (λ n. n < length places.now + 1) numbers.old.items }
    ensures walk { IsWalk numbers.new.items places.now things.now }
    ensures fewer { vec_len numbers.new ≤ vec_len numbers.old }
    ensures room { vec_capacity numbers.new ≡ vec_capacity numbers.old }
{
    if numbers.len() / 2 <= things.len() {
        return;
    }
    numbers.retain(|number| stands(places, *number));
}

/// Puts the numbers of what was made behind the others, from `first` on, for which there is room.
pub fn note<T>(numbers: &mut Vec<u32>, first: u32, made: &[Option<T>])
    requires few { first + length made.now < 2 ^ 32 }
    requires room { vec_len numbers.old + length made.now ≤ vec_capacity numbers.old }
    ensures { numbers.new.items ≡ numbers.old.items ++ numbers_of (there first made.now) }
{
    for (i, thing) in made.iter().enumerate() {
        if thing.is_none() {
            continue;
        }
        numbers.push(first + i as u32).unwrap();
    }
}
