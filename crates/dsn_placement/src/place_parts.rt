//! The pads and keepouts of a component, at their place.
ghost use Rattle.std.specs.Prelude.{◌≡◌, slice_get, IfOk};
ghost use Rattle.board_items.specs.Shapes.{shapes_of};
ghost use Rattle.dsn_lists.specs.Results.{Gives};
ghost use Rattle.dsn_placement.specs.Placements.{step_of_pin, step_of_pose, ground_of, shapes_placed, part_placed, put_placed, with_shapes, with_part, with_parts, posed};

use crate::placement::{PlacedPart, Placement};
use crate::poses::Pose;
use area_geometry::{Shape, Shapes};
use board_items::Padstack;
use dsn_library::ImagePart;
use dsn_lists::{DesignKind, ReadWhy, refused};
use dsn_shapes::{Quota, quota_behind};
use dsn_turns::{Flip, Motion, carried, moved_shapes};
use seg_geometry::Pt;
use std::alloc::{AllocError, Global};

/// How the components of a board lie: how those on the back are mirrored, on how many layers, and the padstacks.
#[derive(Clone, Copy, Debug)]
pub struct Setting<'a> {
    pub flip: Flip,
    pub layers: u8,
    pub stacks: &'a [Padstack],
}

fn pin_step(eighths: u8, at: Pt) -> Motion
    ensures { result ≡ step_of_pin eighths at }
{
    Motion {
        eighths,
        flip: Flip::Plain,
        by: at,
    }
}

fn pose_step(flip: Flip, pose: Pose) -> Motion
    ensures { result ≡ step_of_pose flip pose }
{
    Motion {
        eighths: pose.eighths,
        flip: pose.side.flip(flip),
        by: pose.at,
    }
}

fn stack_shapes(stacks: &[Padstack], stack: usize) -> &[Shape]
    ensures { result.now ≡ shapes_of (slice_get stacks.now stack) }
{
    match stacks.get(stack) {
        None => &[],
        Some(padstack) => padstack.shapes.as_slice(),
    }
}

// The shapes of a part at their place; none where a point is out of range.
#[tactic(auto, unfolding(crate::specs::Placements::shapes_placed))]
fn shapes_placed(
    alloc: Global,
    setting: Setting<'_>,
    pose: Pose,
    part: &ImagePart,
) -> Result<Option<Shapes>, AllocError>
    ensures { IfOk result (λ x. x ≡ shapes_placed (ground_of setting.entry) pose part.now) }
{
    let last = pose_step(setting.flip, pose);
    let over = pose.side.over(setting.layers);
    match part {
        ImagePart::Pin {
            stack,
            eighths,
            at,
            ..
        } => {
            let steps = [pin_step(*eighths, *at), last];
            moved_shapes(alloc, &steps, over, stack_shapes(setting.stacks, *stack))
        }
        ImagePart::Keep { shapes, .. } => moved_shapes(alloc, &[last], over, shapes.as_slice()),
    }
}

fn part_placed(step: Motion, component: usize, part: &ImagePart, shapes: Shapes) -> PlacedPart
    ensures { result ≡ part_placed step component part.now shapes }
{
    match part {
        ImagePart::Pin { id, at, .. } => PlacedPart::Pad {
            component,
            pin: *id,
            at: carried(step, *at),
            shapes,
        },
        ImagePart::Keep { kind, .. } => PlacedPart::Keep {
            kind: *kind,
            shapes,
        },
    }
}

// Puts a pad or keepout behind the others, where there is room for it. Else the fault `Large` at the byte.
fn put_placed(
    at: u32,
    placement: &mut Placement,
    placed: PlacedPart,
    quota: Option<Quota>,
) -> Result<(), ReadWhy>
    ensures { Gives (λ _. placement.new) result (put_placed at placement.old placed quota) }
{
    let Some(quota) = quota else {
        return Err(refused(DesignKind::Large, at));
    };
    placement.parts.push(placed)?;
    placement.quota = quota;
    Ok(())
}

fn put_shapes(
    step: Motion,
    at: u32,
    component: usize,
    placement: &mut Placement,
    part: &ImagePart,
    shapes: Option<Shapes>,
) -> Result<(), ReadWhy>
    ensures { Gives (λ _. placement.new) result (with_shapes step at component placement.old part.now shapes) }
{
    let Some(shapes) = shapes else {
        return Err(refused(DesignKind::Range, at));
    };
    let quota = quota_behind(placement.quota, shapes.as_slice());
    put_placed(
        at,
        placement,
        part_placed(step, component, part, shapes),
        quota,
    )
}

#[tactic(auto, unfolding(crate::specs::Placements::with_part))]
fn put_part(
    alloc: Global,
    setting: Setting<'_>,
    pose: Pose,
    at: u32,
    component: usize,
    placement: &mut Placement,
    part: &ImagePart,
) -> Result<(), ReadWhy>
    ensures { Gives (λ _. placement.new) result (with_part (ground_of setting.entry) pose at component placement.old part.now) }
{
    let shapes = shapes_placed(alloc, setting, pose, part)?;
    let step = pose_step(setting.flip, pose);
    put_shapes(step, at, component, placement, part, shapes)
}

#[tactic(auto, unfolding(crate::specs::Placements::with_parts))]
fn put_parts(
    alloc: Global,
    setting: Setting<'_>,
    pose: Pose,
    at: u32,
    component: usize,
    placement: &mut Placement,
    parts: &[ImagePart],
) -> Result<(), ReadWhy>
    ensures { Gives (λ _. placement.new) result (with_parts (ground_of setting.entry) pose at component placement.old parts.now) }
{
    for part in parts {
        put_part(alloc, setting, pose, at, component, placement, part)?;
    }
    Ok(())
}

/// Puts the pads and keepouts of a component behind those that are there; one without a pose has none. Else the fault
/// `Range` or `Large` at the byte.
pub fn put_component(
    alloc: Global,
    setting: Setting<'_>,
    pose: Option<Pose>,
    at: u32,
    component: usize,
    placement: &mut Placement,
    parts: &[ImagePart],
) -> Result<(), ReadWhy>
    ensures { Gives (λ _. placement.new) result (posed (ground_of setting.entry) pose at component placement.old parts.now) }
{
    match pose {
        None => Ok(()),
        Some(pose) => put_parts(alloc, setting, pose, at, component, placement, parts),
    }
}
