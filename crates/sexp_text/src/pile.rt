//! A list that grows and shrinks at one end.
ghost use Rattle.std.specs.Prelude.{◌≡◌, [], ◌∷◌, List, length, MatchOption, is_ok, if◌then◌else◌};

use layout_io::Row;
use std::alloc::{AllocError, Global};
use std::marker::Model;

/// A list whose newest element comes first.
#[derive(Drop)]
pub struct Pile<T> {
    items: Vec<T>,
}

impl<T> Model for Pile<T> {
    ghost use Rattle.std.specs.Prelude.{List, reverse};

    ghost Value = { List T };

    ghost view = { λ p. reverse p.items.items };
}

impl<T> Pile<T> {
    pub fn new(alloc: Global) -> Self
        ensures { result ≡ [] }
    {
        Pile {
            items: Vec::new(alloc),
        }
    }

    pub fn len(&self) -> usize
        ensures { result ≡ length self.now }
    {
        self.items.len()
    }

    /// Puts a value first. After an `Err`, for want of memory, the list is as before.
    pub fn push(&mut self, value: T) -> Result<(), AllocError>
    where
        T: Drop,
        ensures { self.new ≡ (if is_ok result then value ∷ self.old else self.old) }
    {
        self.items.push(value)?;
        Ok(())
    }

    /// Takes the first element, the newest one.
    pub fn pop(&mut self) -> Option<T>
        ensures { MatchOption result ((self.old ≡ []) × (self.new ≡ [])) (λ x. self.old ≡ x ∷ self.new) }
    {
        self.items.pop()
    }

    /// The list itself, newest first, in the same memory.
    pub fn into_row(self) -> Row<T>
        ensures { result ≡ self }
    {
        let Pile { mut items } = self;
        items.reverse();
        Row::from_vec(items)
    }
}

impl<T: Copy> Pile<T> {
    /// The first element, the newest one.
    pub fn top(&self) -> Option<T>
        ensures { MatchOption result (self.now ≡ []) (λ x. (rest : List T) × (self.now ≡ x ∷ rest)) }
    {
        self.items.last().copied()
    }
}
