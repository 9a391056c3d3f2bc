//! A design with nothing in it.
ghost use Rattle.std.specs.Prelude.{◌≡◌, IfOk, length};
ghost use Rattle.std.specs.List.{AllByRecursion};
ghost use Rattle.board_rules.specs.Designs.{IsSound, IsFitClass};

use board_items::{Items, Stacks};
use board_rules::{
    Areas, ClassRow, ClassRows, Design, Names, NetRows, PairRows, Parts, StatedRows,
};
use row_lists::Row;
use std::alloc::{AllocError, Global};

// The structure's rule, which states nothing.
fn one_class(alloc: Global) -> Result<ClassRows, AllocError>
    ensures count { IfOk result (λ all. length all ≡ 1) }
    ensures fit { IfOk result (AllByRecursion (IsFitClass 0)) }
{
    let mut classes = ClassRows::new(alloc);
    classes.push(ClassRow {
        name: Row::new(alloc),
        width: None,
        vias: None,
        clearances: StatedRows::new(alloc),
    })?;
    Ok(classes)
}

fn empty_parts(alloc: Global) -> Result<Parts, AllocError>
    ensures { IfOk result IsSound }
{
    Ok(Parts {
        name: Row::new(alloc),
        layers: Names::new(alloc),
        stacks: Stacks::new(alloc),
        nets: NetRows::new(alloc),
        classes: one_class(alloc)?,
        pairs: PairRows::new(alloc),
        outline: Areas::new(alloc),
        items: Items::new(alloc),
    })
}

/// A design without layers, nets and items. A board takes any edit, whatever its design is.
pub fn empty_design(alloc: Global) -> Result<Design, AllocError> {
    Design::of_parts(empty_parts(alloc)?)
}
