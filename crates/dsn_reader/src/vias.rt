//! Loaded vias.
ghost use Rattle.std.specs.Prelude.{◌≡◌, ◌≤◌, ◌<◌, length, IfOk, slice_get, ℤ, ◌+ℤ◌};
ghost use Rattle.std.specs.List.{list_all};
ghost use Rattle.row_lists.specs.Limits.{net_limit, padstack_limit};
ghost use Rattle.sexp_text.specs.Shows.{forest};
ghost use Rattle.board_items.specs.Shapes.{shapes_of};
ghost use Rattle.dsn_lists.specs.Results.{Tells, Gives, each};
ghost use Rattle.dsn_lists.specs.Names.{place_of};
ghost use Rattle.dsn_lists.specs.Words.{marked};
ghost use Rattle.dsn_reader.specs.Fronts.{IsFront};
ghost use Rattle.dsn_reader.specs.Wirings.{netted, known_stack, is_near, is_point_near, is_shape_near, are_near, sorted, via_at, vias_at, as_points, some_net, via_of};

use crate::ends::{Ends, read_ends};
use crate::wiring::{Wiring, put_item};
use area_geometry::{Shape, points_of};
use board_items::{Item, Padstack};
use dsn_library::Library;
use dsn_lists::{
    Coordinates, DesignFault, DesignKind, Found, NameSet, ReadWhy, coordinates_at, fault, refused,
    word_at,
};
use dsn_shapes::quota_behind;
use seg_geometry::{Points, Pt};
use sexp_text::{Cursor, Unit};
use std::alloc::Global;

/// How far a coordinate may be from 0, in nm.
const COORDINATE_LIMIT_NM: u128 = 1_000_000_000;

// What all vias of one list have in common: their net, their padstack and its shapes, and whether they are fixed.
#[derive(Clone, Copy, Debug)]
struct Sort<'a> {
    net: u32,
    stack: u32,
    shapes: &'a [Shape],
    fix: bool,
}

// The number of the padstack that a word names.
fn stack_at(names: &NameSet, word: Found<'_>) -> Result<usize, DesignFault>
    ensures told { Tells (λ x. x) result (known_stack word.entry.at (place_of names.now word.entry.text.now)) }
    ensures bound { IfOk result (λ n. n < length names.now) }
{
    match names.place(word.text) {
        Some(stack) => Ok(stack),
        None => Err(fault(DesignKind::Name, word.at)),
    }
}

#[tactic(auto, unfolding(crate::specs::Wirings::is_near))]
fn is_near(a: i64, b: i64) -> bool
    ensures { result ≡ is_near a b }
{
    (i128::from(a) + i128::from(b)).unsigned_abs() <= COORDINATE_LIMIT_NM
}

fn is_point_near(p: Pt, q: &Pt) -> bool
    ensures { result ≡ is_point_near p q.now }
{
    is_near(q.x, p.x) && is_near(q.y, p.y)
}

// Whether all points of a shape, moved by `p`, are in range.
fn is_shape_near(p: Pt, shape: &Shape) -> bool
    ensures { result ≡ is_shape_near p shape.now }
{
    points_of(&shape.core).iter().all(|q| is_point_near(p, q))
}

#[tactic(auto, unfolding(crate::specs::Wirings::are_near))]
fn are_near(p: Pt, shapes: &[Shape]) -> bool
    ensures { result ≡ are_near p shapes.now }
{
    shapes.iter().all(|shape| is_shape_near(p, shape))
}

#[tactic(auto, unfolding(crate::specs::Wirings::via_at))]
fn put_via(wiring: &mut Wiring, at: u32, sort: Sort<'_>, p: Pt) -> Result<(), ReadWhy>
    ensures { Gives (λ _. wiring.new) result (via_at at (sorted sort.entry) wiring.old p) }
{
    if !are_near(p, sort.shapes) {
        return Err(refused(DesignKind::Range, at));
    }
    let quota = quota_behind(wiring.quota, sort.shapes);
    let item = Item::Via {
        net: sort.net,
        padstack: sort.stack,
        at: p,
        fix: sort.fix,
    };
    put_item(wiring, at, item, quota)
}

// Puts a via at each point behind the wiring that is there.
#[tactic(auto, unfolding(crate::specs::Wirings::vias_at))]
fn put_vias(wiring: &mut Wiring, at: u32, sort: Sort<'_>, points: &[Pt]) -> Result<(), ReadWhy>
    ensures { Gives (λ _. wiring.new) result (vias_at at (sorted sort.entry) wiring.old points.now) }
{
    for p in points {
        put_via(wiring, at, sort, *p)?;
    }
    Ok(())
}

fn whole_points(at: u32, c: Coordinates) -> Result<Points, DesignFault>
    ensures { Tells (λ x. x) result (as_points at c) }
{
    if c.half.is_some() || c.points.is_empty() {
        return Err(fault(DesignKind::Points, at));
    }
    Ok(c.points)
}

fn net_of(at: u32, ends: Ends) -> Result<u32, DesignFault>
    ensures { Tells (λ x. x) result (some_net at ends.net) }
{
    match ends.net {
        None => Err(fault(DesignKind::Missing, at)),
        Some(net) => Ok(net),
    }
}

// The shapes of a padstack; none where there is no such padstack.
fn shapes_at(stacks: &[Padstack], stack: usize) -> &[Shape]
    ensures { result.now ≡ shapes_of (slice_get stacks.now stack) }
{
    match stacks.get(stack) {
        None => &[],
        Some(stack) => stack.shapes.as_slice(),
    }
}

/// Reads a via, whose list begins at this byte, behind the wiring that is there.
#[tactic(auto, unfolding(crate::specs::Wirings::via_of), using(crate::proofs::Fronts::front_same))]
pub fn read_via(
    alloc: Global,
    unit: Unit,
    library: &Library,
    nets: &mut NameSet,
    wiring: &mut Wiring,
    at: u32,
    args: Cursor<'_>,
) -> Result<(), ReadWhy>
    requires stacks { length library.now.names ≤ padstack_limit }
    requires nets { length nets.old ≤ net_limit }
    ensures wiring { Gives (λ _. netted nets.new wiring.new) result (via_of unit library.now (netted nets.old wiring.old) at (forest args.entry)) }
    ensures few { length nets.new ≤ net_limit }
    ensures kept { IsFront nets.old nets.new }
{
    let (word, rest) = word_at(at, args)?;
    let stack = stack_at(&library.names, word)?;
    let (c, lists) = coordinates_at(alloc, unit, rest)?;
    let ends = read_ends(nets, lists)?;
    let points = whole_points(at, c)?;
    let net = net_of(at, ends)?;
    let sort = Sort {
        net,
        stack: stack as u32,
        shapes: shapes_at(library.stacks.as_slice(), stack),
        fix: ends.is_fixed(),
    };
    put_vias(wiring, at, sort, points.as_slice())
}
