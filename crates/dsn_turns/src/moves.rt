//! Shapes led through turns and moves.
ghost use Rattle.std.specs.Prelude.{◌≡◌, ◌^◌, ℕ, List, Option, IfOk, IfSome, IfNone};
ghost use Rattle.area_geometry.specs.declared.shapes.Shape.{Shape};
ghost use Rattle.area_geometry.specs.Copper.{moved};
ghost use Rattle.dsn_turns.specs.Wides.{point_of, wide_of, IsAtMost};
ghost use Rattle.dsn_turns.specs.Turning.{carried, each_of, step_of, through, over_layer, core_moved, shape_moved, shapes_moved};
ghost use Rattle.dsn_turns.specs.Moves.{IsCarried, AreMoved};

use crate::turns::{Flip, Wide, narrowed, turn, turned};
use area_geometry::{Core, Shape, Shapes};
use seg_geometry::{Points, Pt};
use std::alloc::{AllocError, Global};

/// A turn, and a move behind it.
#[derive(Clone, Copy, Debug)]
pub struct Motion {
    /// By how many eighths of a turn.
    pub eighths: u8,
    pub flip: Flip,
    /// How far the turned point is moved, in nanometres.
    pub by: Pt,
}

// A point, moved by another.
fn sum_of(p: Pt, by: Pt) -> Wide
    ensures { point_of result ≡ moved by p }
{
    Wide {
        x: i128::from(p.x) + i128::from(by.x),
        y: i128::from(p.y) + i128::from(by.y),
    }
}

// A point that may be far out of range, moved by another.
fn wide_sum(p: Wide, by: Pt) -> Wide
    requires { IsAtMost (2 ^ 64) p }
    ensures { point_of result ≡ moved by (point_of p) }
{
    Wide {
        x: p.x + i128::from(by.x),
        y: p.y + i128::from(by.y),
    }
}

/// The point after a turn about the origin and the move behind it, wherever it comes to lie.
pub fn carried(step: Motion, p: Pt) -> Wide
    ensures led { IsCarried step p (point_of result) }
    ensures reads { result ≡ wide_of (carried step p) }
{
    wide_sum(turned(p, step.eighths, step.flip), step.by)
}

// The point after a step, where it is in range after the turn and after the move.
#[tactic(auto, unfolding(crate::specs::Turning::step_of))]
fn stepped(step: Motion, p: Pt) -> Option<Pt>
    ensures { result ≡ step_of step p }
{
    let turned = turn(p, step.eighths, step.flip)?;
    narrowed(sum_of(turned, step.by))
}

// The point after the steps in order.
#[tactic(auto, unfolding(crate::specs::Turning::through))]
fn led(steps: &[Motion], p: Pt) -> Option<Pt>
    ensures { result ≡ through steps.now p }
{
    let mut place = p;
    for step in steps {
        place = stepped(*step, place)?;
    }
    Some(place)
}

// The points after the steps, in the same order.
fn led_points(alloc: Global, steps: &[Motion], points: &[Pt]) -> Result<Option<Points>, AllocError>
    ensures { IfOk result (λ r. r ≡ each_of (through steps.now) points.now) }
{
    let mut places = Points::new(alloc);
    for p in points {
        let Some(place) = led(steps, *p) else {
            return Ok(None);
        };
        places.push(place)?;
    }
    Ok(Some(places))
}

// The core after the steps.
fn led_core(alloc: Global, steps: &[Motion], core: &Core) -> Result<Option<Core>, AllocError>
    ensures { IfOk result (λ r. r ≡ core_moved steps.now core.now) }
{
    match core {
        Core::Chain(points) => Ok(led_points(alloc, steps, points.as_slice())?.map(Core::Chain)),
        Core::Area(points) => Ok(led_points(alloc, steps, points.as_slice())?.map(Core::Area)),
    }
}

// The layer's number from the other side, where a board of so many layers is turned over.
fn layer_over(over: Option<u8>, layer: u8) -> u8
    ensures { result ≡ over_layer over layer }
{
    match over {
        Some(count) => count.saturating_sub(1).saturating_sub(layer),
        None => layer,
    }
}

// The shape after the steps.
#[tactic(auto, unfolding(crate::specs::Turning::shape_moved))]
fn led_shape(
    alloc: Global,
    steps: &[Motion],
    over: Option<u8>,
    shape: &Shape,
) -> Result<Option<Shape>, AllocError>
    ensures { IfOk result (λ r. r ≡ shape_moved steps.now over shape.now) }
{
    let Some(core) = led_core(alloc, steps, &shape.core)? else {
        return Ok(None);
    };
    Ok(Some(Shape {
        layer: layer_over(over, shape.layer),
        core,
        width: shape.width,
    }))
}

// The shapes after the steps, in the same order.
fn led_shapes(
    alloc: Global,
    steps: &[Motion],
    over: Option<u8>,
    shapes: &[Shape],
) -> Result<Option<Shapes>, AllocError>
    ensures { IfOk result (λ r. r ≡ shapes_moved steps.now over shapes.now) }
{
    let mut places = Shapes::new(alloc);
    for shape in shapes {
        let Some(place) = led_shape(alloc, steps, over, shape)? else {
            return Ok(None);
        };
        places.push(place)?;
    }
    Ok(Some(places))
}

/// The shapes, each point led through the steps in order, or `None` where a point is out of range
/// after a turn or a move. With `over`, on a board of so many layers that is turned over, layer i
/// becomes that number less 1 less i, or 0 where that is below 0. Its one error is want of memory.
pub fn moved_shapes(
    alloc: Global,
    steps: &[Motion],
    over: Option<u8>,
    shapes: &[Shape],
) -> Result<Option<Shapes>, AllocError>
    ensures found { IfOk result (λ r. IfSome r (AreMoved steps.now over shapes.now)) }
    ensures none { IfOk result (λ r. IfNone r ((places : List Shape) → AreMoved steps.now over shapes.now places → ⊥)) }
    ensures reads { IfOk result (λ r. r ≡ shapes_moved steps.now over shapes.now) }
{
    led_shapes(alloc, steps, over, shapes)
}
