//! The nets of a session.
ghost use Rattle.std.specs.Prelude.{◌≡◌, ◌++◌, [], OnOk, length, if◌then◌else◌};
ghost use Rattle.ses_writer.specs.Session.{net_text};
ghost use Rattle.ses_writer.specs.ByNet.{listed_text};

use crate::by_net::NetLists;
use crate::fixed::{put_net_close, put_net_open};
use board_rules::Design;
use layout_io::Bytes;
use quoted_names::put_name;
use std::alloc::AllocError;

#[tactic(auto, unfolding(crate::specs::Session::net_text))]
fn put_net(out: &mut Bytes, name: &[u8], wires: &[u8], vias: &[u8]) -> Result<(), AllocError>
    ensures { OnOk result (out.new ≡ out.old ++ net_text name.now wires.now vias.now) }
{
    put_net_open(out)?;
    put_name(out, name)?;
    out.append(b"\n".as_slice())?;
    out.append(wires)?;
    out.append(vias)?;
    put_net_close(out)
}

// Puts a net that is listed.
fn put_listed(out: &mut Bytes, name: &[u8], list: &NetLists) -> Result<(), AllocError>
    ensures { OnOk result (out.new ≡ out.old ++ (if list.now.listed then net_text name.now list.now.wires list.now.vias else [])) }
{
    if list.listed {
        return put_net(out, name, list.wires.as_slice(), list.vias.as_slice());
    }
    Ok(())
}

/// Puts the nets that are listed at the end, in the design's order.
pub fn put_nets(out: &mut Bytes, design: &Design, lists: &[NetLists]) -> Result<(), AllocError>
    requires { length lists.now ≡ length design.now.parts.nets }
    ensures { OnOk result (out.new ≡ out.old ++ listed_text lists.now design.now.parts.nets) }
{
    for net in 0..design.net_count() {
        let name = design.net_name(net).as_slice();
        put_listed(out, name, &lists[net as usize])?;
    }
    Ok(())
}
