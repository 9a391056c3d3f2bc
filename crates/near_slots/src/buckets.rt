//! Numbers of slots and their rectangles under keys, in a table of buckets.
ghost use Rattle.std.specs.Prelude.{◌≡◌, ◌≢◌, ◌<◌, ◌≤◌, ◌++◌, [], ◌∷◌, length, slice_index_or, is_ok, if◌then◌else◌, IfOk, OnOk, IfSome};
ghost use Rattle.std.specs.List.{Contains, Any};
ghost use Rattle.near_slots.specs.Tables.{bucket_of, IsIn, Keeps, KeepsOthers, HasAll};
ghost use Rattle.near_slots.specs.declared.buckets.Spot.{Spot};

use seg_geometry::Rect;
use std::alloc::{AllocError, Global};
use std::marker::Model;

/// Under a key, the number of a slot and the rectangle that is filed in it.
#[derive(Clone, Copy, Debug)]
pub struct Spot {
    pub key: u64,
    pub slot: usize,
    pub rect: Rect,
}

/// The spots whose keys lead to one place of a table.
#[derive(Debug, Drop)]
pub struct Bucket {
    spots: Vec<Spot>,
}

impl Model for Bucket {
    ghost use Rattle.std.specs.Prelude.{List};
    ghost use Rattle.near_slots.specs.declared.buckets.Spot.{Spot};

    ghost Value = { List Spot };

    ghost view = { λ b. b.spots.items };
}

impl Bucket {
    fn new(alloc: Global) -> Bucket
        ensures { result ≡ [] }
    {
        Bucket {
            spots: Vec::new(alloc),
        }
    }

    // Puts a spot at the end. An `Err` is want of memory.
    fn put(&mut self, spot: Spot) -> Result<(), AllocError>
        ensures { self.new ≡ (if is_ok result then self.old ++ spot ∷ [] else self.old) }
    {
        self.spots.push(spot)?;
        Ok(())
    }

    // The place of a spot of a slot.
    fn find(&self, slot: usize) -> Option<usize>
        ensures within { IfSome result (λ i. i < length self.now) }
        ensures of { IfSome result (λ i. (d : Spot) → (slice_index_or self.now i d).slot ≡ slot) }
    {
        for (i, spot) in self.spots.iter().enumerate() {
            if spot.slot == slot {
                return Some(i);
            }
        }
        None
    }

    // Takes one spot of a slot out. Whether there was one.
    fn remove(&mut self, slot: usize) -> bool
        ensures { (s : Spot) → s.slot ≢ slot → Contains self.old s → Contains self.new s }
    {
        let Some(i) = self.find(slot) else {
            return false;
        };
        self.spots.swap_remove(i);
        true
    }

    /// Its spots.
    pub fn spots(&self) -> &[Spot]
        ensures { result.now ≡ self.now }
    {
        self.spots.as_slice()
    }
}

/// Numbers of slots under keys. The spots of a key stand in one bucket.
#[derive(Debug, Drop)]
pub struct Buckets {
    lists: Vec<Bucket>,
    mask: usize,
    // How many spots stand in it.
    count: usize,
}

impl Model for Buckets {
    ghost use Rattle.std.specs.Prelude.{◌<◌, length};
    ghost use Rattle.near_slots.specs.Tables.{Table};

    ghost Value = { Table };

    ghost view = { λ b. record { lists = b.lists.items; mask = b.mask } };

    ghost invariant = { λ b. b.mask < length b.lists.items };
}

/// How many spots a bucket has in the mean before there are more buckets.
const SPOTS_PER_BUCKET: usize = 4;

// The bucket that a key leads to: the high bits of its product with an odd number near 2^64 over the golden ratio, which
// spreads keys that follow one another.
#[tactic(auto, unfolding(crate::specs::Tables::bucket_of))]
fn bucket_of(mask: usize, key: u64) -> usize
    ensures value { result ≡ bucket_of mask key }
    ensures within { result ≤ mask }
{
    (key.wrapping_mul(0x9e37_79b9_7f4a_7c15) >> 32) as usize & mask
}

impl Buckets {
    /// A table of at least one bucket, with no spot. Its one error is want of memory.
    pub fn new(alloc: Global, size: usize) -> Result<Buckets, AllocError> {
        let mut lists = Vec::new(alloc);
        lists.push(Bucket::new(alloc))?;
        for _ in 1..size {
            lists.push(Bucket::new(alloc))?;
        }
        let mask = lists.len() - 1;
        Ok(Buckets {
            lists,
            mask,
            count: 0,
        })
    }

    // Puts a spot into its bucket.
    fn add(&mut self, spot: Spot) -> Result<(), AllocError>
        ensures kept { Keeps self.old self.new }
        ensures added { OnOk result (IsIn self.new spot) }
    {
        let place = bucket_of(self.mask, spot.key);
        let bucket = &mut self.lists[place];
        bucket.put(spot)?;
        Ok(())
    }

    // Puts spots into their buckets.
    fn add_all(&mut self, spots: &[Spot]) -> Result<(), AllocError>
        ensures kept { Keeps self.old self.new }
        ensures added { OnOk result (HasAll self.new spots.now) }
    {
        for spot in spots {
            self.add(*spot)?;
        }
        Ok(())
    }

    // The same spots in twice as many buckets.
    fn doubled(&self) -> Result<Buckets, AllocError>
        ensures { IfOk result (Keeps self.now) }
    {
        let size = self.lists.len().saturating_mul(2);
        let mut table = Buckets::new(*self.lists.allocator(), size)?;
        for bucket in &self.lists {
            table.add_all(bucket.spots())?;
        }
        table.count = self.count;
        Ok(table)
    }

    // Doubles a table whose buckets have several spots each.
    fn make_room(&mut self) -> Result<(), AllocError>
        ensures { Keeps self.old self.new }
    {
        if self.count / SPOTS_PER_BUCKET >= self.lists.len() {
            *self = self.doubled()?;
        }
        Ok(())
    }

    /// Puts a spot under its key. What stands in the table stays, also after an `Err`, for want of memory.
    pub fn put(&mut self, spot: Spot) -> Result<(), AllocError>
        ensures kept { Keeps self.old self.new }
        ensures added { OnOk result (IsIn self.new spot) }
    {
        self.make_room()?;
        self.add(spot)?;
        self.count = self.count.saturating_add(1);
        Ok(())
    }

    /// Takes a slot out from under a key, where it stands there. It takes no memory.
    pub fn remove(&mut self, key: u64, slot: usize)
        ensures { KeepsOthers slot self.old self.new }
    {
        let place = bucket_of(self.mask, key);
        let bucket = &mut self.lists[place];
        if bucket.remove(slot) {
            self.count = self.count.saturating_sub(1);
        }
    }

    /// The bucket of a key: what stands under it, and maybe more.
    pub fn bucket(&self, key: u64) -> &[Spot]
        ensures { (s : Spot) → s.key ≡ key → IsIn self.now s → Contains result.now s }
    {
        self.lists[bucket_of(self.mask, key)].spots()
    }

    /// All buckets. What stands in the table stands in one of them.
    pub fn all(&self) -> &[Bucket]
        ensures { (s : Spot) → IsIn self.now s → Any (λ spots. Contains spots s) result.now }
    {
        self.lists.as_slice()
    }
}
