//! The padstacks of a session.
ghost use Rattle.std.specs.Prelude.{◌≡◌, ◌<◌, ◌++◌, [], OnOk, length, if◌then◌else◌};
ghost use Rattle.std.specs.List.{flat_map, AllByRecursion};
ghost use Rattle.area_geometry.specs.Copper.{core_points};
ghost use Rattle.board_rules.specs.Designs.{IsFitShape};
ghost use Rattle.ses_writer.specs.Routes.{point_text};
ghost use Rattle.ses_writer.specs.Library.{shape_word, shape_text, stack_text};
ghost use Rattle.ses_writer.specs.ByNet.{marked_text};

use crate::fixed::{put_shape_close, put_shape_open, put_stack_close, put_stack_open};
use crate::points::put_points;
use area_geometry::{Core, Shape};
use board_items::Padstack;
use board_rules::Design;
use itoa::Buffer;
use layout_io::Bytes;
use quoted_names::put_name;
use std::alloc::AllocError;

fn put_word(out: &mut Bytes, core: &Core) -> Result<(), AllocError>
    ensures { OnOk result (out.new ≡ out.old ++ shape_word core.now) }
{
    match core {
        Core::Area(_) => out.append(b"polygon ".as_slice()),
        Core::Chain(points) => match points.as_slice() {
            [_] => out.append(b"circle ".as_slice()),
            _ => out.append(b"path ".as_slice()),
        },
    }
}

fn put_core_points(out: &mut Bytes, core: &Core) -> Result<(), AllocError>
    ensures { OnOk result (out.new ≡ out.old ++ flat_map point_text (core_points core.now)) }
{
    match core {
        Core::Chain(points) => put_points(out, points.as_slice()),
        Core::Area(points) => put_points(out, points.as_slice()),
    }
}

#[tactic(auto, unfolding(crate::specs::Library::shape_text))]
fn put_shape(out: &mut Bytes, design: &Design, shape: &Shape) -> Result<(), AllocError>
    requires { shape.now.layer < length design.now.parts.layers }
    ensures { OnOk result (out.new ≡ out.old ++ shape_text design.now.parts shape.now) }
{
    let mut width = Buffer::new();
    put_shape_open(out)?;
    put_word(out, &shape.core)?;
    put_name(out, design.layer_name(u32::from(shape.layer)).as_slice())?;
    out.append(b" ".as_slice())?;
    out.append(width.format(shape.width).as_bytes())?;
    put_core_points(out, &shape.core)?;
    put_shape_close(out)
}

fn put_shapes(out: &mut Bytes, design: &Design, shapes: &[Shape]) -> Result<(), AllocError>
    requires { AllByRecursion (IsFitShape (length design.now.parts.layers)) shapes.now }
    ensures { OnOk result (out.new ≡ out.old ++ flat_map (shape_text design.now.parts) shapes.now) }
{
    for shape in shapes {
        put_shape(out, design, shape)?;
    }
    Ok(())
}

#[tactic(auto, unfolding(crate::specs::Library::stack_text))]
fn put_stack(out: &mut Bytes, design: &Design, stack: &Padstack) -> Result<(), AllocError>
    requires { AllByRecursion (IsFitShape (length design.now.parts.layers)) stack.now.shapes }
    ensures { OnOk result (out.new ≡ out.old ++ stack_text design.now.parts stack.now) }
{
    put_stack_open(out)?;
    put_name(out, stack.name.as_slice())?;
    out.append(b"\n".as_slice())?;
    put_shapes(out, design, stack.shapes.as_slice())?;
    put_stack_close(out)
}

// Puts a padstack that is used.
fn put_used(
    out: &mut Bytes,
    design: &Design,
    stack: &Padstack,
    used: bool,
) -> Result<(), AllocError>
    requires { AllByRecursion (IsFitShape (length design.now.parts.layers)) stack.now.shapes }
    ensures { OnOk result (out.new ≡ out.old ++ (if used then stack_text design.now.parts stack.now else [])) }
{
    if used {
        return put_stack(out, design, stack);
    }
    Ok(())
}

/// Puts the padstacks that are marked at the end, in the design's order.
pub fn put_stacks(out: &mut Bytes, design: &Design, marks: &[bool]) -> Result<(), AllocError>
    requires { length marks.now ≡ length design.now.parts.stacks }
    ensures { OnOk result (out.new ≡ out.old ++ marked_text design.now.parts marks.now design.now.parts.stacks) }
{
    let stacks = design.stacks().as_slice();
    for (i, stack) in stacks.iter().enumerate() {
        put_used(out, design, stack, marks[i])?;
    }
    Ok(())
}
