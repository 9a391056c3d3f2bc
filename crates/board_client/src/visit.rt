//! What is done over a link that came.
ghost use Rattle.std.specs.Prelude.{◌≡◌};
ghost use Rattle.board_client.specs.Visits.{HasVisited};

use crate::load::load;
use crate::stop::ClientStop;
use client_talk::meet;
use layout_io::{Files, Link, Sink};
use std::alloc::Global;
use std::sync::Wait;

/// Reads the design and the file of lines, and talks with the server.
pub(crate) fn visit<R: Wait, F: Files, L: Link, O: Sink>(
    rt: &R,
    alloc: Global,
    design: &str,
    lines: &str,
    files: &mut F,
    link: &mut L,
    out: &mut O,
) -> Result<(), ClientStop>
    ensures { HasVisited design.now lines.now (F.told files.old) (F.told files.new) (O.told out.old) (O.told out.new) (L.told link.old) (L.told link.new) result }
{
    let loaded = match load(alloc, files, design, lines) {
        Err(stop) => return Err(ClientStop::Files(stop)),
        Ok(loaded) => loaded,
    };
    match meet(rt, alloc, link, loaded.design, out, loaded.text.as_slice()) {
        Err(stop) => Err(ClientStop::Talk(stop)),
        Ok(()) => Ok(()),
    }
}
