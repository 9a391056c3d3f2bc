//! A design for tests.
ghost use Rattle.std.specs.Prelude.{◌≡◌, ◌≤◌, ◌<◌, ◌+◌, ◌^◌, length, IfOk};
ghost use Rattle.std.specs.List.{AllByRecursion};
ghost use Rattle.row_lists.specs.Limits.{width_limit_nm};
ghost use Rattle.board_rules.specs.Designs.{IsSound, IsFitArea, IsFitClass, IsFitPair, IsFitShape};

use crate::{
    Areas, ClassRow, ClassRows, Design, Kind, Names, NetRow, NetRows, PairRow, PairRows, Parts,
    Stated, StatedRows, What,
};
use area_geometry::{Core, Shape, Shapes};
use board_items::{Items, Padstack, Stacks};
use row_lists::Row;
use seg_geometry::{Ids, Points, Pt};
use std::alloc::{AllocError, Global};

pub(crate) fn pt(x: i64, y: i64) -> Pt
    ensures x { result.x ≡ x }
    ensures y { result.y ≡ y }
{
    Pt { x, y }
}

fn spot(alloc: Global, layer: u8) -> Result<Shape, AllocError>
    ensures { layer < 2 → IfOk result (IsFitShape 2) }
{
    Ok(Shape {
        layer,
        core: Core::Chain(Points::from_slice(alloc, &[pt(0, 0)])?),
        width: 600_000,
    })
}

// A bar that leads 5 nm to the right.
fn bar(alloc: Global) -> Result<Shape, AllocError>
    ensures { IfOk result (IsFitShape 2) }
{
    Ok(Shape {
        layer: 0,
        core: Core::Chain(Points::from_slice(alloc, &[pt(0, 0), pt(5, 0)])?),
        width: 600_000,
    })
}

// Spots on these layers.
pub(crate) fn spots(alloc: Global, layers: &[u8]) -> Result<Shapes, AllocError> {
    let mut shapes = Shapes::new(alloc);
    for layer in layers {
        shapes.push(spot(alloc, *layer)?)?;
    }
    Ok(shapes)
}

fn class(alloc: Global, name: &[u8], stated: &[Stated]) -> Result<ClassRow, AllocError>
    ensures { AllByRecursion (λ s. s.value ≤ width_limit_nm) stated.now → IfOk result (IsFitClass 1) }
{
    Ok(ClassRow {
        name: Row::from_slice(alloc, name)?,
        width: Some(100_000),
        vias: Some(Ids::from_slice(alloc, &[0])?),
        clearances: StatedRows::from_slice(alloc, stated)?,
    })
}

fn net(alloc: Global, class: u32) -> Result<NetRow, AllocError>
    ensures { IfOk result (λ row. row.class ≡ class) }
{
    let name = Row::from_slice(alloc, b"net".as_slice())?;
    Ok(NetRow { name, class })
}

fn two_layers(alloc: Global) -> Result<Names, AllocError>
    ensures { IfOk result (λ all. length all ≡ 2) }
{
    let mut names = Names::new(alloc);
    names.push(Row::from_slice(alloc, b"F.Cu".as_slice())?)?;
    names.push(Row::from_slice(alloc, b"B.Cu".as_slice())?)?;
    Ok(names)
}

fn two_nets(alloc: Global) -> Result<NetRows, AllocError>
    ensures count { IfOk result (λ all. length all ≡ 2) }
    ensures fit { IfOk result (AllByRecursion (λ row. row.class < 1)) }
{
    let mut nets = NetRows::new(alloc);
    nets.push(net(alloc, 0)?)?;
    nets.push(net(alloc, 0)?)?;
    Ok(nets)
}

fn one_class(alloc: Global) -> Result<ClassRows, AllocError>
    ensures count { IfOk result (λ all. length all ≡ 1) }
    ensures fit { IfOk result (AllByRecursion (IsFitClass 1)) }
{
    let what = What::Pair {
        a: Kind::Wire,
        b: Kind::Via,
    };
    let stated = [Stated {
        what,
        value: 25_000,
    }];
    let mut classes = ClassRows::new(alloc);
    classes.push(class(alloc, b"".as_slice(), &stated)?)?;
    Ok(classes)
}

fn two_spots(alloc: Global) -> Result<Shapes, AllocError>
    ensures count { IfOk result (λ all. length all ≡ 2) }
    ensures fit { IfOk result (AllByRecursion (IsFitShape 2)) }
{
    let mut shapes = Shapes::new(alloc);
    shapes.push(spot(alloc, 1)?)?;
    shapes.push(bar(alloc)?)?;
    Ok(shapes)
}

fn one_stack(alloc: Global) -> Result<Stacks, AllocError>
    ensures count { IfOk result (λ all. length all ≡ 1) }
    ensures few { IfOk result (AllByRecursion (λ s. length s.shapes < 2 ^ 32)) }
    ensures fit { IfOk result (AllByRecursion (λ s. AllByRecursion (IsFitShape 2) s.shapes)) }
{
    let name = Row::from_slice(alloc, b"via".as_slice())?;
    let shapes = two_spots(alloc)?;
    let mut stacks = Stacks::new(alloc);
    stacks.push(Padstack { name, shapes })?;
    Ok(stacks)
}

fn one_area(alloc: Global) -> Result<Areas, AllocError>
    ensures count { IfOk result (λ all. length all ≡ 1) }
    ensures fit { IfOk result (AllByRecursion IsFitArea) }
{
    let mut areas = Areas::new(alloc);
    let corners = [
        pt(-5_000_000, -5_000_000),
        pt(5_000_000, -5_000_000),
        pt(5_000_000, 5_000_000),
        pt(-5_000_000, 5_000_000),
    ];
    areas.push(Points::from_slice(alloc, &corners)?)?;
    Ok(areas)
}

// The parts of a design of two layers, two nets and a padstack, whose structure states 25,000 nm for a wire and a via.
pub(crate) fn sound_parts(alloc: Global) -> Result<Parts, AllocError>
    ensures sound { IfOk result IsSound }
    ensures layers { IfOk result (λ p. length p.layers ≡ 2) }
    ensures nets { IfOk result (λ p. length p.nets ≡ 2) }
{
    Ok(Parts {
        name: Row::from_slice(alloc, b"s.dsn".as_slice())?,
        layers: two_layers(alloc)?,
        stacks: one_stack(alloc)?,
        nets: two_nets(alloc)?,
        classes: one_class(alloc)?,
        pairs: PairRows::new(alloc),
        outline: one_area(alloc)?,
        items: Items::new(alloc),
    })
}

fn untyped(value: u32) -> Stated
    ensures { result.value ≡ value }
{
    Stated {
        what: What::Untyped,
        value,
    }
}

fn smd(value: u32) -> Stated
    ensures { result.value ≡ value }
{
    Stated {
        what: What::DefaultSmd,
        value,
    }
}

fn pair(a: Kind, b: Kind, value: u32) -> Stated
    ensures { result.value ≡ value }
{
    Stated {
        what: What::Pair { a, b },
        value,
    }
}

// Puts one more class at the end.
fn add_class(
    alloc: Global,
    rows: &mut ClassRows,
    name: &[u8],
    stated: &[Stated],
) -> Result<(), AllocError>
    requires { AllByRecursion (λ s. s.value ≤ width_limit_nm) stated.now }
    ensures count { IfOk result (λ _. length rows.new ≡ length rows.old + 1) }
    ensures fit { AllByRecursion (IsFitClass 1) rows.old → IfOk result (λ _. AllByRecursion (IsFitClass 1) rows.new) }
{
    rows.push(class(alloc, name, stated)?)
}

// The structure's rule and a class that states a value twice.
fn two_classes(alloc: Global) -> Result<ClassRows, AllocError>
    ensures count { IfOk result (λ all. length all ≡ 2) }
    ensures fit { IfOk result (AllByRecursion (IsFitClass 1)) }
{
    let structure = [
        untyped(500_000),
        smd(150_000),
        pair(Kind::Via, Kind::Wire, 90_000),
        untyped(200_000),
    ];
    let fine = [
        pair(Kind::Wire, Kind::Smd, 250_000),
        pair(Kind::Smd, Kind::Wire, 60_000),
        untyped(100_000),
    ];
    let mut rows = ClassRows::new(alloc);
    add_class(alloc, &mut rows, b"".as_slice(), &structure)?;
    add_class(alloc, &mut rows, b"fine".as_slice(), &fine)?;
    Ok(rows)
}

fn six_classes(alloc: Global) -> Result<ClassRows, AllocError>
    ensures count { IfOk result (λ all. length all ≡ 6) }
    ensures fit { IfOk result (AllByRecursion (IsFitClass 1)) }
{
    let mut rows = two_classes(alloc)?;
    add_class(alloc, &mut rows, b"bare".as_slice(), &[])?;
    add_class(alloc, &mut rows, b"small".as_slice(), &[smd(70_000)])?;
    add_class(alloc, &mut rows, b"none".as_slice(), &[untyped(0)])?;
    add_class(alloc, &mut rows, b"fine".as_slice(), &[])?;
    Ok(rows)
}

fn add_pair(
    alloc: Global,
    rows: &mut PairRows,
    a: u32,
    b: u32,
    stated: &[Stated],
) -> Result<(), AllocError>
    requires one { a < 6 }
    requires other { b < 6 }
    requires within { AllByRecursion (λ s. s.value ≤ width_limit_nm) stated.now }
    ensures { AllByRecursion (IsFitPair 6) rows.old → IfOk result (λ _. AllByRecursion (IsFitPair 6) rows.new) }
{
    rows.push(PairRow {
        a,
        b,
        clearances: StatedRows::from_slice(alloc, stated)?,
    })
}

// The name `fine` with itself, twice, and with two others.
fn four_pairs(alloc: Global) -> Result<PairRows, AllocError>
    ensures { IfOk result (AllByRecursion (IsFitPair 6)) }
{
    let first = [untyped(900_000), pair(Kind::Wire, Kind::Via, 700_000)];
    let small = [smd(20_000), pair(Kind::Via, Kind::Smd, 30_000)];
    let mut rows = PairRows::new(alloc);
    add_pair(alloc, &mut rows, 1, 5, &first)?;
    add_pair(alloc, &mut rows, 3, 1, &small)?;
    add_pair(alloc, &mut rows, 5, 1, &[untyped(300_000)])?;
    add_pair(alloc, &mut rows, 1, 4, &[untyped(0)])?;
    Ok(rows)
}

// A net of each class of these numbers.
fn nets(alloc: Global, classes: &[u32]) -> Result<NetRows, AllocError>
    requires { AllByRecursion (λ c. c < 6) classes.now }
    ensures count { IfOk result (λ all. length all ≡ length classes.now) }
    ensures fit { IfOk result (AllByRecursion (λ row. row.class < 6)) }
{
    let mut rows = NetRows::new(alloc);
    for class in classes {
        rows.push(net(alloc, *class)?)?;
    }
    Ok(rows)
}

// The parts of a design with these pairs, whose nets 2k and 2k + 1 are of class k.
fn full_parts(alloc: Global, pairs: PairRows) -> Result<Parts, AllocError>
    requires { AllByRecursion (IsFitPair 6) pairs }
    ensures { IfOk result IsSound }
{
    Ok(Parts {
        name: Row::from_slice(alloc, b"s.dsn".as_slice())?,
        layers: two_layers(alloc)?,
        stacks: one_stack(alloc)?,
        nets: nets(alloc, &[0, 0, 1, 1, 2, 2, 3, 3, 4, 4, 5])?,
        classes: six_classes(alloc)?,
        pairs,
        outline: one_area(alloc)?,
        items: Items::new(alloc),
    })
}

// The design of these parts, without pairs.
pub(crate) fn full_design(alloc: Global) -> Result<Design, AllocError> {
    Design::of_parts(full_parts(alloc, PairRows::new(alloc))?)
}

// The design of these parts, with four rows of pairs.
pub(crate) fn paired_design(alloc: Global) -> Result<Design, AllocError> {
    Design::of_parts(full_parts(alloc, four_pairs(alloc)?)?)
}
