//! A via of a session.
ghost use Rattle.std.specs.Prelude.{◌≡◌, ◌++◌, OnOk, if◌then◌else◌};
ghost use Rattle.ses_writer.specs.Routes.{via_close, via_text};

use crate::fixed::put_via_open;
use crate::points::put_point;
use layout_io::Bytes;
use quoted_names::put_name;
use seg_geometry::Pt;
use std::alloc::AllocError;

#[tactic(auto, unfolding(crate::specs::Routes::via_close))]
fn put_via_close(out: &mut Bytes, fix: bool) -> Result<(), AllocError>
    ensures { OnOk result (out.new ≡ out.old ++ via_close fix) }
{
    if fix {
        return out.append(b" (type fix))\n".as_slice());
    }
    out.append(b")\n".as_slice())
}

/// Puts a via at the end: its padstack's name, its place, and whether it is fixed.
#[tactic(auto, unfolding(crate::specs::Routes::via_text))]
pub fn put_via(out: &mut Bytes, name: &[u8], place: Pt, fix: bool) -> Result<(), AllocError>
    ensures { OnOk result (out.new ≡ out.old ++ via_text name.now place fix) }
{
    put_via_open(out)?;
    put_name(out, name)?;
    put_point(out, &place)?;
    put_via_close(out, fix)
}
