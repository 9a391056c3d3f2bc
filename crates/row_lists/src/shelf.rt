//! A list over `Vec` in which room can be made before it is used.
ghost use Rattle.std.specs.Prelude.{◌≡◌, ◌≤◌, ◌<◌, ◌==◌, ◌-◌, ◌++◌, [], ◌∷◌, length, slice_get, slice_set, OnOk, OnErr};
ghost use Rattle.row_lists.specs.Shelves.{Shelved, IsSameBut};

use crate::row::Row;
use std::alloc::{AllocError, Global};
use std::marker::Model;

/// A list on the heap, seen by contracts as its elements and the room beside them: how many more can be put without
/// taking memory.
#[derive(Debug, Drop)]
pub struct Shelf<T> {
    items: Vec<T>,
}

impl<T> Model for Shelf<T> {
    ghost use Rattle.std.specs.Prelude.{◌-◌, vec_len, vec_capacity};
    ghost use Rattle.row_lists.specs.Shelves.{Shelved};

    ghost Value = { Shelved T };

    ghost view = { λ s. record { items = s.items.items; room = vec_capacity s.items - vec_len s.items } };
}

impl<T> Shelf<T> {
    /// An empty list without room. It takes no memory.
    pub fn new(alloc: Global) -> Self
        ensures items { result.items ≡ [] }
        ensures room { result.room ≡ 0 }
    {
        Shelf {
            items: Vec::new(alloc),
        }
    }

    /// The elements of a `Vec`, which it takes over.
    pub fn from_vec(items: Vec<T>) -> Self
        ensures { result.items ≡ items.items }
    {
        Shelf { items }
    }

    /// The elements as a `Vec`. It takes no memory.
    pub fn into_vec(self) -> Vec<T>
        ensures { result.items ≡ self.items }
    {
        self.items
    }

    /// The allocator of the list.
    pub fn allocator(&self) -> Global {
        *self.items.allocator()
    }

    pub fn len(&self) -> usize
        ensures { result ≡ length self.now.items }
    {
        self.items.len()
    }

    pub fn is_empty(&self) -> bool
        ensures { result ≡ (length self.now.items == 0) }
    {
        self.items.is_empty()
    }

    pub fn as_slice(&self) -> &[T]
        ensures { result.now ≡ self.now.items }
    {
        self.items.as_slice()
    }

    /// The element at `i`, from 0.
    pub fn get(&self, i: usize) -> &T
        requires { i < length self.now.items }
        ensures { slice_get self.now.items i ≡ Some result.now }
    {
        &self.items[i]
    }

    /// Makes room for `count` more elements. After an `Err`, for want of memory, all is as before.
    pub fn make_room(&mut self, count: usize) -> Result<(), AllocError>
        ensures same { IsSameBut self.old self.new }
        ensures room { OnOk result (count ≤ self.new.room) }
        ensures kept { self.old.room ≤ self.new.room }
        ensures err { OnErr result (self.new ≡ self.old) }
    {
        self.items.reserve(count)
    }

    /// Puts a value at the end, into room that was made. It takes no memory.
    pub fn put(&mut self, value: T)
    where
        T: Drop,
        requires { 0 < self.old.room }
        ensures items { self.new.items ≡ self.old.items ++ value ∷ [] }
        ensures room { self.new.room ≡ self.old.room - 1 }
    {
        self.items.push_reserved(value);
    }

    /// Puts a value in the place of the element at `i`, from 0.
    pub fn set(&mut self, i: usize, value: T)
    where
        T: Drop,
        requires { i < length self.old.items }
        ensures items { self.new.items ≡ slice_set self.old.items i value }
        ensures room { self.new.room ≡ self.old.room }
    {
        self.items[i] = value;
    }
}
