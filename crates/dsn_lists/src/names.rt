//! Names in the order in which they came, each once, found by a hash map.
ghost use Rattle.std.specs.Prelude.{◌≡◌, ◌<◌, ◌++◌, [], ◌∷◌, ◌==◌, length, false, is_ok, is_some, IfSome, slice_get, Some, if◌then◌else◌};
ghost use Rattle.dsn_lists.specs.Names.{is_among, place_of};

use indexmap::IndexSet;
use std::alloc::{AllocError, Global};
use std::marker::Model;

/// Names, each once, numbered from 0 in the order in which they came.
#[derive(Debug, Drop)]
pub struct NameSet {
    names: IndexSet<Vec<u8>>,
}

impl Model for NameSet {
    ghost use Rattle.std.specs.Prelude.{ℕ, List, map};

    ghost Value = { List (List ℕ) };

    ghost view = { λ s. map (λ v. v.items) s.names.keys };
}

impl NameSet {
    /// No names.
    pub fn new(alloc: Global) -> Self
        ensures { result ≡ [] }
    {
        NameSet {
            names: IndexSet::new(alloc),
        }
    }

    /// How many names there are.
    pub fn len(&self) -> usize
        ensures { result ≡ length self.now }
    {
        self.names.len()
    }

    /// Whether there is none.
    pub fn is_empty(&self) -> bool
        ensures { result ≡ (length self.now == 0) }
    {
        self.names.is_empty()
    }

    /// Whether the name is there.
    pub fn contains(&self, name: &[u8]) -> bool
        ensures { result ≡ is_among name.now self.now }
    {
        self.names.contains(name)
    }

    /// The name's number, from 0.
    pub fn place(&self, name: &[u8]) -> Option<usize>
        ensures place { result ≡ place_of self.now name.now }
        ensures found { is_some result ≡ is_among name.now self.now }
        ensures bound { IfSome result (λ n. n < length self.now) }
    {
        self.names.get_index_of(name)
    }

    /// The name of a number, from 0.
    pub fn name(&self, place: usize) -> &[u8]
        requires { place < length self.now }
        ensures { slice_get self.now place ≡ Some result.now }
    {
        match self.names.get_index(place) {
            Some(name) => name.as_slice(),
            None => unreachable!(),
        }
    }

    /// Adds a name that isn't there. After an `Err`, for want of memory, the names are as before.
    pub fn add(&mut self, name: &[u8]) -> Result<(), AllocError>
        requires { is_among name.now self.old ≡ false }
        ensures { self.new ≡ (if is_ok result then self.old ++ name.now ∷ [] else self.old) }
    {
        let owned = Vec::from_slice(*self.names.allocator(), name)?;
        self.names.insert(owned)?;
        Ok(())
    }
}
