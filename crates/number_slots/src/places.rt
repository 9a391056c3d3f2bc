//! The places of things behind their numbers: 0 where nothing stands, and else one more than the thing's key.
ghost use Rattle.std.specs.Vec.{vec_len, vec_capacity};
ghost use Rattle.std.specs.Prelude.{◌≡◌, ◌≤◌, ◌<◌, ◌+◌, ◌++◌, ◌∷◌, [], ◌^◌, length, Some, None, slice_get, IfSome, IfNone};
ghost use Rattle.slab.specs.Slab.{slab_len, HasRoomFor};
ghost use Rattle.number_slots.specs.Slots.{there, without, at_numbers, IsAt};
ghost use Rattle.number_slots.specs.Places.{slots_of, IsKept, IsPut};

use slab::Slab;

/// What stands under a number.
pub fn thing_at<'a, T>(places: &[usize], things: &'a Slab<T>, number: u32) -> Option<&'a T>
    requires { IsKept places.now things.now }
    ensures some { IfSome result (λ x. IsAt (there 1 (slots_of things.now places.now)) number x.now) }
    ensures none { IfNone result ((x : T) → IsAt (there 1 (slots_of things.now places.now)) number x → ⊥) }
{
    let i = (number as usize).checked_sub(1)?;
    let key = places.get(i)?.checked_sub(1)?;
    things.get(key)
}

/// The `i`-th thing, from 0, in the order of their numbers, and its number.
pub fn nth_thing<'a, T>(
    numbers: &[u32],
    places: &[usize],
    things: &'a Slab<T>,
    i: u32,
) -> Option<(u32, &'a T)>
    requires kept { IsKept places.now things.now }
    requires all { at_numbers numbers.now (there 1 (slots_of things.now places.now)) ≡ there 1 (slots_of things.now places.now) }
    ensures some { IfSome result (λ x. slice_get (there 1 (slots_of things.now places.now)) i ≡ Some (x.0, x.1.now)) }
    ensures none { IfNone result (length (there 1 (slots_of things.now places.now)) ≤ i) }
{
    let mut left = i;
    for number in numbers {
        let Some(thing) = thing_at(places, things, *number) else {
            continue;
        };
        if left == 0 {
            return Some((*number, thing));
        }
        left -= 1;
    }
    None
}

// Takes away what stands under a number.
fn clear_one<T: Drop>(places: &mut Vec<usize>, things: &mut Slab<T>, number: u32)
    requires { IsKept places.old.items things.old }
    ensures kept { IsKept places.new.items things.new }
    ensures left { there 1 (slots_of things.new places.new.items) ≡ without (number ∷ []) (there 1 (slots_of things.old places.old.items)) }
    ensures length { length places.new.items ≡ length places.old.items }
    ensures room { vec_capacity places.new ≡ vec_capacity places.old }
    ensures capacity { things.new.capacity ≡ things.old.capacity }
    ensures fewer { slab_len things.new ≤ slab_len things.old }
{
    let i = number as usize;
    if i == 0 {
        return;
    }
    if places.len() < i {
        return;
    }
    let place = places[i - 1];
    if place == 0 {
        return;
    }
    things.remove(place - 1);
    places[i - 1] = 0;
}

/// Takes away what stands under these numbers.
pub fn clear<T: Drop>(places: &mut Vec<usize>, things: &mut Slab<T>, numbers: &[u32])
    requires { IsKept places.old.items things.old }
    ensures kept { IsKept places.new.items things.new }
    ensures left { there 1 (slots_of things.new places.new.items) ≡ without numbers.now (there 1 (slots_of things.old places.old.items)) }
    ensures length { length places.new.items ≡ length places.old.items }
    ensures room { vec_capacity places.new ≡ vec_capacity places.old }
    ensures capacity { things.new.capacity ≡ things.old.capacity }
    ensures fewer { slab_len things.new ≤ slab_len things.old }
{
    for number in numbers {
        clear_one(places, things, *number);
    }
}

// The place of a thing that is put, for which there is room.
fn place_of<T: Drop>(things: &mut Slab<T>, thing: Option<T>) -> usize
    requires { HasRoomFor things.old 1 }
    ensures put { IsPut things.old things.new thing result }
    ensures capacity { things.new.capacity ≡ things.old.capacity }
{
    match thing {
        None => 0,
        Some(thing) => {
            // A key lies below the capacity, so that one more is a number too.
            let _most = things.capacity();
            things.insert_reserved(thing) + 1
        }
    }
}

// Puts a thing, or nothing, under the next number.
fn put_one<T: Drop>(places: &mut Vec<usize>, things: &mut Slab<T>, thing: Option<T>)
    requires kept { IsKept places.old.items things.old }
    requires few { length places.old.items + 2 < 2 ^ 32 }
    requires room { vec_len places.old + 1 ≤ vec_capacity places.old }
    requires capacity { HasRoomFor things.old 1 }
    ensures kept { IsKept places.new.items things.new }
    ensures put { slots_of things.new places.new.items ≡ slots_of things.old places.old.items ++ thing ∷ [] }
    ensures length { vec_len places.new ≡ vec_len places.old + 1 }
    ensures room { vec_capacity places.old ≤ vec_capacity places.new }
    ensures capacity { things.new.capacity ≡ things.old.capacity }
    ensures more { slab_len things.new ≤ slab_len things.old + 1 }
{
    let place = place_of(things, thing);
    places.push(place).unwrap();
}

/// Puts these things, or nothing, under the next numbers.
pub fn fill<T: Drop>(places: &mut Vec<usize>, things: &mut Slab<T>, made: Vec<Option<T>>)
    requires kept { IsKept places.old.items things.old }
    requires few { length places.old.items + length made.items + 1 < 2 ^ 32 }
    requires room { vec_len places.old + vec_len made ≤ vec_capacity places.old }
    requires capacity { HasRoomFor things.old (vec_len made) }
    ensures kept { IsKept places.new.items things.new }
    ensures put { slots_of things.new places.new.items ≡ slots_of things.old places.old.items ++ made.items }
{
    for thing in made {
        put_one(places, things, thing);
    }
}
