//! Equal copies of the parts of lists.
ghost use Rattle.std.specs.Prelude.{◌≡◌, IfOk};

use std::alloc::AllocError;

/// A value of which an equal one can be made.
pub trait Copied: Drop {
    /// An equal value. Its one error is want of memory.
    fn copied(&self) -> Result<Self, AllocError>
        ensures { IfOk result (λ x. x ≡ self.now) };
}

impl Copied for bool {
    fn copied(&self) -> Result<bool, AllocError> {
        Ok(*self)
    }
}

impl Copied for u8 {
    fn copied(&self) -> Result<u8, AllocError> {
        Ok(*self)
    }
}

impl Copied for u32 {
    fn copied(&self) -> Result<u32, AllocError> {
        Ok(*self)
    }
}

impl Copied for u64 {
    fn copied(&self) -> Result<u64, AllocError> {
        Ok(*self)
    }
}

impl Copied for i64 {
    fn copied(&self) -> Result<i64, AllocError> {
        Ok(*self)
    }
}

impl<T: Copied> Copied for Option<T> {
    fn copied(&self) -> Result<Option<T>, AllocError> {
        match self {
            None => Ok(None),
            Some(value) => Ok(Some(value.copied()?)),
        }
    }
}

impl<A: Copied, B: Copied> Copied for (A, B) {
    fn copied(&self) -> Result<(A, B), AllocError> {
        Ok((self.0.copied()?, self.1.copied()?))
    }
}
