//! Copies of designs. Their one error is want of memory.
ghost use Rattle.std.specs.Prelude.{◌≡◌, IfOk};

use crate::design::{ClassRow, Design, NetRow, PairRow, Parts};
use row_lists::Copied;
use std::alloc::AllocError;

impl Copied for NetRow {
    fn copied(&self) -> Result<NetRow, AllocError> {
        Ok(NetRow {
            name: self.name.copied()?,
            class: self.class,
        })
    }
}

impl Copied for ClassRow {
    fn copied(&self) -> Result<ClassRow, AllocError> {
        Ok(ClassRow {
            name: self.name.copied()?,
            width: self.width,
            vias: Copied::copied(&self.vias)?,
            clearances: self.clearances.copied()?,
        })
    }
}

impl Copied for PairRow {
    fn copied(&self) -> Result<PairRow, AllocError> {
        Ok(PairRow {
            a: self.a,
            b: self.b,
            clearances: self.clearances.copied()?,
        })
    }
}

impl Copied for Parts {
    fn copied(&self) -> Result<Parts, AllocError> {
        Ok(Parts {
            name: self.name.copied()?,
            layers: self.layers.copied()?,
            stacks: self.stacks.copied()?,
            nets: self.nets.copied()?,
            classes: self.classes.copied()?,
            pairs: self.pairs.copied()?,
            outline: self.outline.copied()?,
            items: self.items.copied()?,
        })
    }
}

impl Design {
    /// An equal design. Its one error is want of memory.
    pub fn copy(&self) -> Result<Design, AllocError>
        ensures { IfOk result (λ d. d ≡ self.now) }
    {
        Design::of_parts(self.parts.copied()?)
    }
}
