//! A design of two wires.
ghost use Rattle.std.specs.Prelude.{◌≡◌, ◌<◌, IfOk, length};
ghost use Rattle.std.specs.List.{AllByRecursion};
ghost use Rattle.board_rules.specs.Designs.{IsSound, IsFitClass, IsFitItem};
ghost use Rattle.board_rules.specs.declared.design.Parts.{Parts};
ghost use Rattle.seg_geometry.specs.Points.{IsInRange};

use board_items::{Item, Items, Stacks};
use board_rules::{
    Areas, ClassRow, ClassRows, Design, Names, NetRow, NetRows, PairRows, Parts, Stated,
    StatedRows, What,
};
use row_lists::Row;
use seg_geometry::{Points, Pt};
use std::alloc::{AllocError, Global};

/// The width of each wire in nm.
pub(crate) const WIDTH: u32 = 100_000;

// The structure's rule, which states 200,000 nm.
fn one_class(alloc: Global) -> Result<ClassRows, AllocError>
    ensures count { IfOk result (λ all. length all ≡ 1) }
    ensures fit { IfOk result (AllByRecursion (IsFitClass 0)) }
{
    let what = What::Untyped;
    let stated = [Stated {
        what,
        value: 200_000,
    }];
    let mut classes = ClassRows::new(alloc);
    classes.push(ClassRow {
        name: Row::new(alloc),
        width: None,
        vias: None,
        clearances: StatedRows::from_slice(alloc, &stated)?,
    })?;
    Ok(classes)
}

fn two_nets(alloc: Global) -> Result<NetRows, AllocError>
    ensures count { IfOk result (λ all. length all ≡ 2) }
    ensures fit { IfOk result (AllByRecursion (λ row. row.class < 1)) }
{
    let (name, class) = (Row::new(alloc), 0);
    let mut nets = NetRows::new(alloc);
    nets.push(NetRow { name, class })?;
    let name = Row::new(alloc);
    nets.push(NetRow { name, class })?;
    Ok(nets)
}

/// A place, in micrometres.
pub(crate) fn spot(x: u16, y: u16) -> Pt
    ensures { IsInRange result }
{
    Pt {
        x: i64::from(x) * 1_000,
        y: i64::from(y) * 1_000,
    }
}

// A loaded wire of a net, 1 mm long, so many micrometres above the place 0 0.
fn wire(alloc: Global, net: u32, y: u16, fix: bool) -> Result<Item, AllocError>
    ensures { IfOk result (λ i. (p : Parts) → net < length p.nets → 0 < length p.layers → IsFitItem p i) }
{
    Ok(Item::Wire {
        net,
        layer: 0,
        width: WIDTH,
        points: Points::from_slice(alloc, &[spot(0, y), spot(1_000, y)])?,
        fix,
    })
}

// Two wires of two nets, the second so many micrometres above the first, which is fixed.
fn two_wires(alloc: Global, y: u16) -> Result<Items, AllocError>
    ensures count { IfOk result (λ all. length all ≡ 2) }
    ensures fit { IfOk result (λ all. (p : Parts) → 1 < length p.nets → 0 < length p.layers → AllByRecursion (IsFitItem p) all) }
{
    let mut items = Items::new(alloc);
    items.push(wire(alloc, 0, 0, true)?)?;
    items.push(wire(alloc, 1, y, false)?)?;
    Ok(items)
}

fn parts(alloc: Global, y: u16) -> Result<Parts, AllocError>
    ensures { IfOk result IsSound }
{
    let mut layers = Names::new(alloc);
    layers.push(Row::new(alloc))?;
    Ok(Parts {
        name: Row::new(alloc),
        layers,
        stacks: Stacks::new(alloc),
        nets: two_nets(alloc)?,
        classes: one_class(alloc)?,
        pairs: PairRows::new(alloc),
        outline: Areas::new(alloc),
        items: two_wires(alloc, y)?,
    })
}

/// A design of one layer, which states 200,000 nm, with two wires of two nets, so many micrometres apart. The first one
/// is fixed.
pub(crate) fn two_wires_apart(alloc: Global, y: u16) -> Result<Design, AllocError> {
    Design::of_parts(parts(alloc, y)?)
}
