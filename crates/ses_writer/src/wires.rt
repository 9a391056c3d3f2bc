//! A wire of a session.
ghost use Rattle.std.specs.Prelude.{◌≡◌, ◌++◌, [], OnOk, decimal, if◌then◌else◌};
ghost use Rattle.ses_writer.specs.Routes.{path_line, type_line, wire_text};

use crate::fixed::{put_path_close, put_path_open, put_wire_close, put_wire_open};
use crate::points::put_lines;
use itoa::Buffer;
use layout_io::Bytes;
use quoted_names::put_name;
use seg_geometry::Pt;
use std::alloc::AllocError;

#[tactic(auto, unfolding(crate::specs::Routes::path_line))]
fn put_path(out: &mut Bytes, layer: &[u8], width: u32) -> Result<(), AllocError>
    ensures { OnOk result (out.new ≡ out.old ++ path_line layer.now width) }
{
    let mut number = Buffer::new();
    put_path_open(out)?;
    put_name(out, layer)?;
    out.append(b" ".as_slice())?;
    out.append(number.format(width).as_bytes())?;
    out.append(b"\n".as_slice())
}

#[tactic(auto, unfolding(crate::specs::Routes::type_line))]
fn put_type(out: &mut Bytes, fix: bool) -> Result<(), AllocError>
    ensures { OnOk result (out.new ≡ out.old ++ type_line fix) }
{
    if fix {
        out.append(b"          (type fix)\n".as_slice())?;
    }
    Ok(())
}

/// Puts a wire at the end: its path over several lines, and whether it is fixed.
#[tactic(auto, unfolding(crate::specs::Routes::wire_text))]
pub fn put_wire(
    out: &mut Bytes,
    layer: &[u8],
    width: u32,
    points: &[Pt],
    fix: bool,
) -> Result<(), AllocError>
    ensures { OnOk result (out.new ≡ out.old ++ wire_text layer.now width points.now fix) }
{
    put_wire_open(out)?;
    put_path(out, layer, width)?;
    put_lines(out, points)?;
    put_path_close(out)?;
    put_type(out, fix)?;
    put_wire_close(out)
}
