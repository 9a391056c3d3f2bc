//! How adds and requests are written.
ghost use Rattle.std.specs.Prelude.{◌≡◌, ◌++◌, ◌∷◌, OnOk, codes, List, ℕ, length};
ghost use Rattle.std.specs.List.{flat_map};
ghost use Rattle.session_wire.specs.Numbers.{number_text};
ghost use Rattle.session_wire.specs.Points.{point_text};
ghost use Rattle.session_wire.specs.Adds.{add_text, next_add_text};
ghost use Rattle.session_wire.specs.Parts.{counted_text};
ghost use Rattle.session_wire.specs.Requests.{edit_text, fence_text, request_text};

use crate::put_parts::{
    put_number, put_numbers, put_one, put_point, put_points, put_small_numbers, put_two,
};
use board_items::{Add, Request};
use layout_io::Bytes;
use seg_geometry::Pt;
use std::alloc::AllocError;

// An add behind a space.
fn put_add(to: &mut Bytes, add: &Add) -> Result<(), AllocError>
    ensures { OnOk result (to.new ≡ to.old ++ next_add_text add.now) }
{
    match add {
        Add::Wire {
            net,
            layer,
            width,
            points,
        } => {
            put_two(to, b" wire", *net, *layer)?;
            put_number(to, u64::from(*width))?;
            put_number(to, points.len() as u64)?;
            put_points(to, points.as_slice())
        }
        Add::Via { net, padstack, at } => {
            put_two(to, b" via", *net, *padstack)?;
            put_point(to, *at)
        }
    }
}

fn put_adds(to: &mut Bytes, adds: &[Add]) -> Result<(), AllocError>
    ensures { OnOk result (to.new ≡ to.old ++ flat_map next_add_text adds.now) }
{
    for add in adds {
        put_add(to, add)?;
    }
    Ok(())
}

fn put_edit(to: &mut Bytes, deletes: &[u32], adds: &[Add]) -> Result<(), AllocError>
    ensures { OnOk result (to.new ≡ to.old ++ edit_text deletes.now adds.now) }
{
    to.append(b"edit".as_slice())?;
    put_number(to, deletes.len() as u64)?;
    put_numbers(to, deletes)?;
    put_number(to, adds.len() as u64)?;
    put_adds(to, adds)
}

fn put_fence(to: &mut Bytes, layers: &[u8], area: &[Pt], clients: &[u8]) -> Result<(), AllocError>
    ensures { OnOk result (to.new ≡ to.old ++ fence_text layers.now area.now clients.now) }
{
    to.append(b"fence".as_slice())?;
    put_number(to, layers.len() as u64)?;
    put_small_numbers(to, layers)?;
    put_number(to, area.len() as u64)?;
    put_points(to, area)?;
    put_number(to, clients.len() as u64)?;
    put_small_numbers(to, clients)
}

pub(crate) fn put_request(to: &mut Bytes, request: &Request) -> Result<(), AllocError>
    ensures { OnOk result (to.new ≡ to.old ++ request_text request.now) }
{
    match request {
        Request::Edit { deletes, adds } => put_edit(to, deletes.as_slice(), adds.as_slice()),
        Request::Reserve { id } => put_one(to, b"reserve", id.0),
        Request::Release { id } => put_one(to, b"release", id.0),
        Request::Fence {
            layers,
            area,
            clients,
        } => put_fence(to, layers.as_slice(), area.as_slice(), clients.as_slice()),
        Request::Unfence { fence } => put_one(to, b"unfence", *fence),
        Request::Entitle { fence, client } => put_two(to, b"entitle", *fence, u32::from(*client)),
        Request::Rule { class, clearance } => put_two(to, b"rule", *class, *clearance),
    }
}
