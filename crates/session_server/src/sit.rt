//! The session of the one client.
ghost use Rattle.std.specs.Prelude.{◌≡◌, [], ℕ};
ghost use Rattle.row_lists.specs.Limits.{weight_limit};
ghost use Rattle.session_server.specs.Lefts.{HasSat, standing_of};

use client_desk::{ClientDesk, Place};
use layout_io::Link;
use serial_master::SerialMaster;
use session_loop::{SessionEnd, serve_link};
use std::alloc::Global;
use std::marker::Brand;
use std::sync::Wait;

/// The master as it stands when the session has ended, with the end and the link.
pub(crate) struct Sat<L> {
    pub(crate) master: SerialMaster,
    pub(crate) end: SessionEnd,
    pub(crate) link: L,
}

// The session of the client that J names, over a master that answered nothing yet.
fn sit_as<R: Wait, L: Link, J: Place>(
    rt: &R,
    alloc: Global,
    master: SerialMaster,
    link: L,
) -> Sat<L>
    requires parts { J.parts ≡ master.parts }
    requires clients { J.clients ≡ 1 }
    requires limit { J.limit ≡ weight_limit }
    requires client { J.client ≡ 1 }
    requires new { master ≡ standing_of master.parts [] }
    ensures standing { result.master ≡ standing_of master.parts result.master.history }
    ensures sat { HasSat master.parts (L.told link) result.master.history result.end (L.told result.link) }
{
    let mut link = link;
    let mut desk: ClientDesk<SerialMaster, J> = ClientDesk::new(alloc, master, 1);
    let end = serve_link(rt, alloc, &mut desk, &mut link, 1, 1);
    let master = desk.into_master();
    let _calls = master.history();
    Sat { master, end, link }
}

/// The session over a link of the one client, by a master that answered nothing yet. It may wait.
pub(crate) fn sit<R: Wait, L: Link>(rt: &R, alloc: Global, master: SerialMaster, link: L) -> Sat<L>
    requires { master ≡ standing_of master.parts [] }
    ensures standing { result.master ≡ standing_of master.parts result.master.history }
    ensures sat { HasSat master.parts (L.told link) result.master.history result.end (L.told result.link) }
{
    sit_as::<R, L, Brand>(rt, alloc, master, link)
}
