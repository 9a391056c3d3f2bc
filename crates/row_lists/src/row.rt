//! A list over `Vec` whose contracts speak of its elements alone.
ghost use Rattle.std.specs.Prelude.{◌≡◌, ◌<◌, ◌==◌, ◌++◌, [], ◌∷◌, Bool, List, length, take, filter, slice_get, slice_set, option_to_list, IfOk, is_ok, if◌then◌else◌};
ghost use Rattle.std.specs.Fn.{CalledAt};

use crate::copied::Copied;
use std::alloc::{AllocError, Global};
use std::marker::Model;

/// A list on the heap, seen by contracts as the list of its elements.
#[derive(Debug, Drop)]
pub struct Row<T> {
    items: Vec<T>,
}

impl<T> Model for Row<T> {
    ghost use Rattle.std.specs.Prelude.{List};

    ghost Value = { List T };

    ghost view = { λ r. r.items.items };
}

impl<T> Row<T> {
    /// An empty list. It takes no memory.
    pub fn new(alloc: Global) -> Self
        ensures { result ≡ [] }
    {
        Row {
            items: Vec::new(alloc),
        }
    }

    /// The elements of a `Vec`, which it takes over.
    pub fn from_vec(items: Vec<T>) -> Self
        ensures { result ≡ items.items }
    {
        Row { items }
    }

    /// The elements as a `Vec`. It takes no memory.
    pub fn into_vec(self) -> Vec<T>
        ensures { result.items ≡ self }
    {
        self.items
    }

    /// The allocator of the list.
    pub fn allocator(&self) -> Global {
        *self.items.allocator()
    }

    pub fn len(&self) -> usize
        ensures { result ≡ length self.now }
    {
        self.items.len()
    }

    pub fn is_empty(&self) -> bool
        ensures { result ≡ (length self.now == 0) }
    {
        self.items.is_empty()
    }

    pub fn as_slice(&self) -> &[T]
        ensures { result.now ≡ self.now }
    {
        self.items.as_slice()
    }

    /// The element at `i`, from 0.
    pub fn get(&self, i: usize) -> &T
        requires { i < length self.now }
        ensures { slice_get self.now i ≡ Some result.now }
    {
        &self.items[i]
    }

    /// Puts a value at the end. After an `Err`, for want of memory, the list is as before.
    pub fn push(&mut self, value: T) -> Result<(), AllocError>
    where
        T: Drop,
        ensures { self.new ≡ (if is_ok result then self.old ++ value ∷ [] else self.old) }
    {
        self.items.push(value)?;
        Ok(())
    }

    /// Puts the elements of a `Vec` at the end. After an `Err`, for want of memory, the list is as before.
    pub fn append_all(&mut self, more: Vec<T>) -> Result<(), AllocError>
    where
        T: Drop,
        ensures { self.new ≡ (if is_ok result then self.old ++ more.items else self.old) }
    {
        let mut more = more;
        self.items.append(&mut more)
    }

    /// Takes the last element away, where there is one, and answers it.
    pub fn pop(&mut self) -> Option<T>
        ensures { self.old ≡ self.new ++ option_to_list result }
    {
        self.items.pop()
    }

    /// Leaves the first `count` elements, or all where there are no more.
    pub fn truncate(&mut self, count: usize)
    where
        T: Drop,
        ensures { self.new ≡ take count self.old }
    {
        self.items.truncate(count);
    }

    /// Puts a value in the place of the element at `i`, from 0.
    pub fn set(&mut self, i: usize, value: T)
    where
        T: Drop,
        requires { i < length self.old }
        ensures { self.new ≡ slice_set self.old i value }
    {
        self.items[i] = value;
    }

    /// Leaves the elements at which `keep` answers true, in their order. A closure that changes nothing computes a
    /// test, and what is left is the list filtered by it.
    pub fn retain<F: FnMut(&T) -> bool>(&mut self, keep: F)
    where
        T: Drop,
        requires { F.IsAlwaysCallable keep }
        ensures { (test : T → Bool) → ((x : T) (b : Bool) (f : F) → CalledAt F.FnMut keep x b f → (b ≡ test x) × (f ≡ keep)) → self.new ≡ filter test self.old }
    {
        self.items.retain(keep);
    }
}

impl<T: Copy> Row<T> {
    /// A copy of a slice.
    pub fn from_slice(alloc: Global, piece: &[T]) -> Result<Self, AllocError>
        ensures { IfOk result (λ r. r ≡ piece.now) }
    {
        Ok(Row {
            items: Vec::from_slice(alloc, piece)?,
        })
    }

    /// Puts a copy of a slice at the end. After an `Err`, for want of memory, the list is as before.
    pub fn append(&mut self, piece: &[T]) -> Result<(), AllocError>
        ensures { self.new ≡ (if is_ok result then self.old ++ piece.now else self.old) }
    {
        self.items.extend_from_slice(piece)
    }
}

impl<T: Copied> Row<T> {
    /// A list of equal elements in the same order, from the same allocator.
    pub fn copy(&self) -> Result<Self, AllocError>
        ensures { IfOk result (λ r. r ≡ self.now) }
    {
        Row::copy_of(self.allocator(), &self.items)
    }

    /// A list of equal elements in the same order as in a slice.
    pub fn copy_of(alloc: Global, items: &[T]) -> Result<Self, AllocError>
        ensures { IfOk result (λ r. r ≡ items.now) }
    {
        let mut made = Vec::with_capacity(alloc, items.len())?;
        for item in items {
            made.push(item.copied()?)?;
        }
        Ok(Row { items: made })
    }
}

impl<T: Copied> Copied for Row<T> {
    fn copied(&self) -> Result<Row<T>, AllocError> {
        self.copy()
    }
}
