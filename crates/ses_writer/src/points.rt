//! Points of a session, in nm.
ghost use Rattle.std.specs.Prelude.{◌≡◌, ◌++◌, OnOk};
ghost use Rattle.std.specs.List.{flat_map};
ghost use Rattle.ses_writer.specs.Routes.{point_line, point_text};

use itoa::Buffer;
use layout_io::Bytes;
use seg_geometry::Pt;
use std::alloc::AllocError;

/// Puts a point behind a word of the same line.
#[tactic(auto, unfolding(crate::specs::Routes::point_text))]
pub fn put_point(out: &mut Bytes, p: &Pt) -> Result<(), AllocError>
    ensures { OnOk result (out.new ≡ out.old ++ point_text p.now) }
{
    let mut x = Buffer::new();
    let mut y = Buffer::new();
    out.append(b" ".as_slice())?;
    out.append(x.format(p.x).as_bytes())?;
    out.append(b" ".as_slice())?;
    out.append(y.format(p.y).as_bytes())
}

/// Puts points one behind another on a line.
pub fn put_points(out: &mut Bytes, points: &[Pt]) -> Result<(), AllocError>
    ensures { OnOk result (out.new ≡ out.old ++ flat_map point_text points.now) }
{
    for p in points {
        put_point(out, p)?;
    }
    Ok(())
}

#[tactic(auto, unfolding(crate::specs::Routes::point_line))]
fn put_line(out: &mut Bytes, p: &Pt) -> Result<(), AllocError>
    ensures { OnOk result (out.new ≡ out.old ++ point_line p.now) }
{
    let mut x = Buffer::new();
    let mut y = Buffer::new();
    out.append(b"            ".as_slice())?;
    out.append(x.format(p.x).as_bytes())?;
    out.append(b" ".as_slice())?;
    out.append(y.format(p.y).as_bytes())?;
    out.append(b"\n".as_slice())
}

/// Puts the points of a wire's path, each on a line of its own.
pub fn put_lines(out: &mut Bytes, points: &[Pt]) -> Result<(), AllocError>
    ensures { OnOk result (out.new ≡ out.old ++ flat_map point_line points.now) }
{
    for p in points {
        put_line(out, p)?;
    }
    Ok(())
}
