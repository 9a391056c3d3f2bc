//! The places of pairs, and the index from an item to its place.
ghost use Rattle.std.specs.Prelude.{◌≡◌, ◌≤◌, ◌<◌, ◌+◌, ◌++◌, ◌∷◌, [], ◌^◌, false, nat_eq, length, slice_get, Some};
ghost use Rattle.std.specs.Vec.{vec_len, vec_capacity};
ghost use Rattle.indexmap.specs.IndexMap.{get, spare, index_map_len};
ghost use Rattle.reservations.specs.Held.{is_held, holder_of, released, not_of, AreHeldOnce};
ghost use Rattle.reservations.specs.Places.{pair_of, pairs_of, is_others as is_others_place, IsIndex, IsKept};

use indexmap::IndexMap;

/// A pair of an item and its client, or nothing where a reservation has ended.
pub type Place = Option<(u32, u8)>;

// The pair at a place, none past the last.
fn pair_at(places: &[Place], place: usize) -> Place
    ensures { result ≡ pair_of places.now place }
{
    *places.get(place)?
}

/// The client that holds an item.
pub fn client_at(places: &[Place], index: &IndexMap<u32, usize>, id: u32) -> Option<u8>
    requires { IsIndex (get nat_eq index.now) places.now }
    ensures { result ≡ holder_of id (pairs_of places.now) }
{
    let place = index.get(&id)?;
    let pair = pair_at(places, *place)?;
    Some(pair.1)
}

// Whether a pair stands here, and not this client's.
fn is_others(place: Place, client: u8) -> bool
    ensures { result ≡ is_others_place client place }
{
    match place {
        None => false,
        Some(pair) => pair.1 != client,
    }
}

/// The `i`-th pair, from 0.
pub fn nth_pair(places: &[Place], i: u32) -> Place
    ensures { result ≡ slice_get (pairs_of places.now) i }
{
    let mut left = i;
    for place in places {
        let Some(pair) = *place else {
            continue;
        };
        if left == 0 {
            return Some(pair);
        }
        left -= 1;
    }
    None
}

/// Puts a pair at the end, for which there is room.
pub fn put(places: &mut Vec<Place>, index: &mut IndexMap<u32, usize>, id: u32, client: u8)
    requires kept { IsKept index.old places.old.items }
    requires free { is_held id (pairs_of places.old.items) ≡ false }
    requires few { length (pairs_of places.old.items) + 1 < 2 ^ 32 }
    requires room { vec_len places.old < vec_capacity places.old }
    requires spare { 0 < spare index.old }
    ensures kept { IsKept index.new places.new.items }
    ensures pairs { pairs_of places.new.items ≡ pairs_of places.old.items ++ (id, client) ∷ [] }
    ensures len { vec_len places.new ≡ vec_len places.old + 1 }
    ensures capacity { vec_capacity places.old ≤ vec_capacity places.new }
    ensures spare { spare index.old ≤ spare index.new + 1 }
{
    let place = places.len();
    places.push(Some((id, client))).unwrap();
    index.insert(id, place).unwrap();
}

/// Takes the item's pair away, where there is one.
pub fn take(places: &mut Vec<Place>, index: &mut IndexMap<u32, usize>, id: u32)
    requires { IsKept index.old places.old.items }
    ensures kept { IsKept index.new places.new.items }
    ensures pairs { pairs_of places.new.items ≡ released id (pairs_of places.old.items) }
    ensures len { vec_len places.new ≡ vec_len places.old }
    ensures capacity { vec_capacity places.new ≡ vec_capacity places.old }
    ensures spare { spare index.old ≤ spare index.new }
{
    let Some(place) = index.swap_remove(&id) else {
        return;
    };
    places[place] = None;
}

/// Takes away the client's places, and the empty ones.
pub fn keep_others(places: &mut Vec<Place>, client: u8)
    ensures pairs { pairs_of places.new.items ≡ not_of client (pairs_of places.old.items) }
    ensures once { AreHeldOnce (pairs_of places.old.items) → AreHeldOnce (pairs_of places.new.items) }
    ensures fewer { length (pairs_of places.new.items) ≤ length (pairs_of places.old.items) }
    ensures len { vec_len places.new ≤ vec_len places.old }
    ensures capacity { vec_capacity places.new ≡ vec_capacity places.old }
{
    places.retain(|place| is_others(*place, client));
}

/// Makes the index anew, for which there is room.
pub fn reindex(places: &[Place], index: &mut IndexMap<u32, usize>)
    requires once { AreHeldOnce (pairs_of places.now) }
    requires few { length (pairs_of places.now) < 2 ^ 32 }
    requires room { length (pairs_of places.now) ≤ index_map_len index.old + spare index.old }
    ensures kept { IsKept index.new places.now }
    ensures spare { index_map_len index.old + spare index.old ≤ index_map_len index.new + spare index.new }
{
    index.clear();
    for (i, place) in places.iter().enumerate() {
        let Some(pair) = *place else {
            continue;
        };
        index.insert(pair.0, i).unwrap();
    }
}
