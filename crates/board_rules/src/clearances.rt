//! The untyped clearances of classes, and a view of them with a change.
ghost use Rattle.std.specs.Prelude.{◌≡◌, ◌↔◌, ◌<◌, ◌≤◌, IsTrue, IfOk, IfSome, IfNone, Some, length, slice_get};
ghost use Rattle.std.specs.List.{AllByRecursion};
ghost use Rattle.row_lists.specs.Limits.{width_limit_nm};
ghost use Rattle.board_rules.specs.Classes.{untyped_of, untyped_at, largest_rule};
ghost use Rattle.board_rules.specs.Designs.{IsFitSize, IsSound};
ghost use Rattle.board_rules.specs.Rules.{with_rule, under, IsFitView};
ghost use Rattle.board_rules.specs.declared.design.Parts.{Parts};

use crate::design::Parts;
use crate::kinds::or_else;
use crate::tables::untyped_in;
use row_lists::Row;
use std::alloc::AllocError;
use std::marker::Model;

/// For each class of a design its untyped clearance in nm, or none. Class 0 is the structure's rule. Each clearance is at
/// most 100,000,000.
#[derive(Debug, Drop)]
pub struct Rules {
    clearances: Row<Option<u32>>,
}

impl Model for Rules {
    ghost use Rattle.std.specs.Prelude.{List, Option, ℕ};
    ghost use Rattle.std.specs.List.{AllByRecursion};
    ghost use Rattle.board_rules.specs.Designs.{IsFitSize};

    ghost Value = { List (Option ℕ) };

    ghost view = { λ r. r.clearances };

    ghost invariant = { λ r. AllByRecursion IsFitSize r.clearances };
}

impl Rules {
    // What the classes of a design state. Its one error is want of memory.
    pub(crate) fn of_parts(parts: &Parts) -> Result<Rules, AllocError>
        requires { IsSound parts.now }
        ensures { IfOk result (λ rules. rules ≡ untyped_of parts.now) }
    {
        Ok(Rules {
            clearances: untyped_in(parts.classes.allocator(), parts.classes.as_slice())?,
        })
    }

    // How many classes there are.
    fn len(&self) -> usize
        ensures len { result ≡ length self.now }
        ensures limits { AllByRecursion IsFitSize self.now }
    {
        self.clearances.len()
    }

    /// Whether the class is there. It takes no memory.
    pub fn has(&self, class: u32) -> bool
        ensures { IsTrue result ↔ class < length self.now }
    {
        (class as usize) < self.clearances.len()
    }

    /// Sets the clearance of a class that is there, in nm, at most 100,000,000. It takes no memory.
    pub fn set(&mut self, class: u32, clearance: u32)
        requires there { class < length self.old }
        requires fits { clearance ≤ width_limit_nm }
        ensures { self.new ≡ with_rule class clearance self.old }
    {
        self.clearances.set(class as usize, Some(clearance));
    }

    /// An equal list. Its one error is want of memory.
    pub fn copy(&self) -> Result<Rules, AllocError>
        ensures { IfOk result (λ rules. rules ≡ self.now) }
    {
        Ok(Rules {
            clearances: self.clearances.copy()?,
        })
    }

    // The place of a class, where it is there.
    fn place(&self, class: usize) -> Option<Option<u32>>
        ensures { result ≡ slice_get self.now class }
    {
        self.clearances.as_slice().get(class).copied()
    }
}

/// The rules of a board, and a change of a class to a clearance in nm, where there is one.
#[derive(Clone, Copy, Debug)]
pub struct RulesView<'a> {
    pub rules: &'a Rules,
    pub change: Option<(u32, u32)>,
}

// What a change sets a class to, where it is of this class.
fn changed_to(change: Option<(u32, u32)>, class: usize) -> Option<u32>
    ensures some { IfSome result (λ clearance. change ≡ Some (class, clearance)) }
    ensures none { IfNone result (IfSome change (λ c. c.0 ≡ class → ⊥)) }
{
    let (other, clearance) = change?;
    if other as usize == class {
        Some(clearance)
    } else {
        None
    }
}

impl<'a> RulesView<'a> {
    // The untyped clearance of a class; none where it has none, or where there is no such class.
    pub(crate) fn untyped(self, class: usize) -> Option<u32>
        ensures { result ≡ untyped_at (under self.entry) class }
    {
        match self.rules.place(class) {
            None => None,
            Some(own) => or_else(changed_to(self.change, class), own),
        }
    }

    // The largest of the rules.
    pub(crate) fn largest(self) -> u32
        ensures { result ≡ largest_rule (under self.entry) }
    {
        let mut most = 0;
        for class in 0..self.rules.len() {
            most = self.untyped(class).unwrap_or(0).max(most);
        }
        most
    }

    // Says that each clearance is within the limit, and does nothing.
    pub(crate) fn keep_limits(self)
        requires { (p : Parts) × IsFitView p self }
        ensures { AllByRecursion IsFitSize (under self.entry) }
    {
        let _count = self.rules.len();
    }
}
