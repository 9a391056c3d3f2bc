//! A design for tests, and its text.
ghost use Rattle.std.specs.Prelude.{◌≡◌, ◌<◌, ◌+◌, ◌^◌, [], IfOk, length, slice_get};
ghost use Rattle.std.specs.List.{AllByRecursion};
ghost use Rattle.seg_geometry.specs.Points.{IsInRange};
ghost use Rattle.board_items.specs.declared.items.Padstack.{Padstack};
ghost use Rattle.board_items.specs.Shapes.{shapes_of};
ghost use Rattle.board_rules.specs.declared.design.Parts.{Parts};
ghost use Rattle.board_rules.specs.Designs.{IsSound, IsFitItem, IsFitShape, IsFitClass};
ghost use Rattle.ses_writer.specs.Samples.{AreFit, IsSample, round_shapes, odd_shapes, circle_on};

use crate::SesPieces;
use area_geometry::{Core, Shape, Shapes};
use board_core::Board;
use board_items::{Item, Items, Padstack, Stacks};
use board_rules::{
    Areas, ClassRow, ClassRows, Design, Names, NetRow, NetRows, PairRows, Parts, StatedRows,
};
use layout_io::{Bytes, Row};
use seg_geometry::{Points, Pt};
use std::alloc::{AllocError, Global};

fn two_layers(alloc: Global) -> Result<Names, AllocError>
    ensures { IfOk result (λ all. length all ≡ 2) }
{
    let mut names = Names::new(alloc);
    names.push(Row::from_slice(alloc, b"F.Cu".as_slice())?)?;
    names.push(Row::from_slice(alloc, b"B.Cu".as_slice())?)?;
    Ok(names)
}

fn net(alloc: Global, name: &[u8]) -> Result<NetRow, AllocError>
    ensures { IfOk result (λ row. row.class ≡ 0) }
{
    let name = Row::from_slice(alloc, name)?;
    Ok(NetRow { name, class: 0 })
}

fn three_nets(alloc: Global) -> Result<NetRows, AllocError>
    ensures count { IfOk result (λ all. length all ≡ 3) }
    ensures fit { IfOk result (AllByRecursion (λ row. row.class < 1)) }
{
    let mut nets = NetRows::new(alloc);
    nets.push(net(alloc, b"GND".as_slice())?)?;
    nets.push(net(alloc, b"B".as_slice())?)?;
    nets.push(net(alloc, b"Net-(R1-2)".as_slice())?)?;
    Ok(nets)
}

fn one_class(alloc: Global) -> Result<ClassRows, AllocError>
    ensures count { IfOk result (λ all. length all ≡ 1) }
    ensures fit { IfOk result (AllByRecursion (IsFitClass 3)) }
{
    let mut classes = ClassRows::new(alloc);
    classes.push(ClassRow {
        name: Row::new(alloc),
        width: None,
        vias: None,
        clearances: StatedRows::new(alloc),
    })?;
    Ok(classes)
}

fn circle(alloc: Global, layer: u8) -> Result<Shape, AllocError>
    ensures { IfOk result (λ s. s ≡ circle_on layer) }
{
    Ok(Shape {
        layer,
        core: Core::Chain(Points::from_slice(alloc, &[Pt { x: 0, y: 0 }])?),
        width: 800_000,
    })
}

fn round_stack(alloc: Global) -> Result<Padstack, AllocError>
    ensures { IfOk result (λ s. s.shapes ≡ round_shapes) }
{
    let mut shapes = Shapes::new(alloc);
    shapes.push(circle(alloc, 0)?)?;
    shapes.push(circle(alloc, 1)?)?;
    let name = Row::from_slice(alloc, b"Via[0-1]_800:400_um".as_slice())?;
    Ok(Padstack { name, shapes })
}

fn odd_stack(alloc: Global) -> Result<Padstack, AllocError>
    ensures { IfOk result (λ s. s.shapes ≡ odd_shapes) }
{
    let way = [Pt { x: 0, y: 0 }, Pt { x: 5, y: 7 }];
    let ring = [Pt { x: 0, y: 0 }, Pt { x: 9, y: 0 }, Pt { x: 0, y: 8 }];
    let mut shapes = Shapes::new(alloc);
    shapes.push(Shape {
        layer: 0,
        core: Core::Chain(Points::from_slice(alloc, &way)?),
        width: 30,
    })?;
    shapes.push(Shape {
        layer: 1,
        core: Core::Area(Points::from_slice(alloc, &ring)?),
        width: 0,
    })?;
    let name = Row::from_slice(alloc, b"odd".as_slice())?;
    Ok(Padstack { name, shapes })
}

fn pad_stack(alloc: Global) -> Result<Padstack, AllocError>
    ensures { IfOk result (λ s. s.shapes ≡ []) }
{
    Ok(Padstack {
        name: Row::from_slice(alloc, b"Rect[T]Pad_1000x1200_um".as_slice())?,
        shapes: Shapes::new(alloc),
    })
}

fn three_stacks(alloc: Global) -> Result<Stacks, AllocError>
    ensures count { IfOk result (λ all. length all ≡ 3) }
    ensures round { IfOk result (λ all. shapes_of (slice_get all 1) ≡ round_shapes) }
    ensures odd { IfOk result (λ all. shapes_of (slice_get all 2) ≡ odd_shapes) }
    ensures fit { IfOk result (AllByRecursion (λ s. AllByRecursion (IsFitShape 2) s.shapes)) }
    ensures few { IfOk result (AllByRecursion (λ s. length s.shapes < 2 ^ 32)) }
{
    let mut stacks = Stacks::new(alloc);
    stacks.push(pad_stack(alloc)?)?;
    stacks.push(round_stack(alloc)?)?;
    stacks.push(odd_stack(alloc)?)?;
    Ok(stacks)
}

// A wire of width 250,000 nm.
#[tactic(auto, using(crate::proofs::FitItems::fit_wire))]
pub(crate) fn wire(
    alloc: Global,
    net: u32,
    layer: u8,
    points: &[Pt],
    fix: bool,
) -> Result<Item, AllocError>
    requires net { net < 3 }
    requires layer { layer < 2 }
    requires points { AllByRecursion IsInRange points.now }
    requires some { 0 < length points.now }
    ensures { (p : Parts) → IsSample p → IfOk result (IsFitItem p) }
{
    Ok(Item::Wire {
        net,
        layer,
        width: 250_000,
        points: Points::from_slice(alloc, points)?,
        fix,
    })
}

// A via of the second padstack at the place 4,000,000 -8,000,000.
#[tactic(auto, using(crate::proofs::FitItems::fit_round))]
pub(crate) fn round_via(net: u32, fix: bool) -> Item
    requires { net < 3 }
    ensures { (p : Parts) → IsSample p → IsFitItem p result }
{
    Item::Via {
        net,
        padstack: 1,
        at: Pt {
            x: 4_000_000,
            y: -8_000_000,
        },
        fix,
    }
}

// A via of the third padstack at the place 1 2.
#[tactic(auto, using(crate::proofs::FitItems::fit_odd))]
pub(crate) fn odd_via(net: u32, fix: bool) -> Item
    requires { net < 3 }
    ensures { (p : Parts) → IsSample p → IsFitItem p result }
{
    Item::Via {
        net,
        padstack: 2,
        at: Pt { x: 1, y: 2 },
        fix,
    }
}

fn parts(alloc: Global, name: &[u8], items: Items) -> Result<Parts, AllocError>
    requires fit { AreFit items }
    requires few { length items < 100 }
    ensures sound { IfOk result IsSound }
    ensures items { IfOk result (λ p. p.items ≡ items) }
{
    Ok(Parts {
        name: Row::from_slice(alloc, name)?,
        layers: two_layers(alloc)?,
        stacks: three_stacks(alloc)?,
        nets: three_nets(alloc)?,
        classes: one_class(alloc)?,
        pairs: PairRows::new(alloc),
        outline: Areas::new(alloc),
        items,
    })
}

// The pieces of a text, joined.
fn joined(alloc: Global, pieces: &mut SesPieces) -> Result<Bytes, AllocError> {
    let mut room = [0; 4096];
    let mut text = Bytes::new(alloc);
    for _turn in 0..10u32 {
        let count = pieces.next(&mut room);
        text.append(&room[..count])?;
    }
    Ok(text)
}

// The session text of a design under a name, with these loaded items.
pub(crate) fn text_of(alloc: Global, name: &[u8], items: Items) -> Result<Bytes, AllocError>
    requires fit { AreFit items }
    requires few { length items < 100 }
{
    let design = Design::of_parts(parts(alloc, name, items)?)?;
    let board = Board::new(alloc, &design)?;
    let mut pieces = SesPieces::new(alloc, &design, &board)?;
    joined(alloc, &mut pieces)
}
