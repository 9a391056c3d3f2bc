//! The lines of loaded items.
ghost use Rattle.std.specs.Prelude.{◌≡◌, ◌++◌, OnOk, slice_get};
ghost use Rattle.board_numbers.specs.Lines.{keep_word, keep_line, place_or_empty, path_text, track_text, wire_line, hole_text, via_line, item_line};
ghost use Rattle.board_numbers.specs.Numbers.{numbered};

use crate::origins::Origins;
use crate::pins::put_part;
use crate::words::{put_end, put_front, put_number, put_place};
use board_items::{Item, KeepKind};
use layout_io::Bytes;
use seg_geometry::Pt;
use std::alloc::AllocError;

fn keep_word(kind: KeepKind) -> &'static [u8]
    ensures { result.now ≡ keep_word kind }
{
    match kind {
        KeepKind::All => b"all",
        KeepKind::Vias => b"vias",
        KeepKind::Wires => b"wires",
    }
}

#[tactic(auto, unfolding(crate::specs::Lines::keep_line))]
fn put_keep(out: &mut Bytes, n: usize, kind: KeepKind) -> Result<(), AllocError>
    ensures { OnOk result (out.new ≡ out.old ++ keep_line n kind) }
{
    put_front(out, b"item", n)?;
    out.append(b"keepout ".as_slice())?;
    out.append(keep_word(kind))?;
    out.append(b"\n".as_slice())
}

// Puts the point of this place in a path.
fn put_point(out: &mut Bytes, points: &[Pt], i: usize) -> Result<(), AllocError>
    ensures { OnOk result (out.new ≡ out.old ++ place_or_empty (slice_get points.now i)) }
{
    match points.get(i) {
        None => Ok(()),
        Some(p) => put_place(out, p),
    }
}

#[tactic(auto, unfolding(crate::specs::Lines::path_text))]
fn put_path(out: &mut Bytes, points: &[Pt]) -> Result<(), AllocError>
    ensures { OnOk result (out.new ≡ out.old ++ path_text points.now) }
{
    out.append(b" points ".as_slice())?;
    put_number(out, points.len())?;
    out.append(b" from ".as_slice())?;
    put_point(out, points, 0)?;
    out.append(b" to ".as_slice())?;
    put_point(out, points, points.len().saturating_sub(1))
}

#[tactic(auto, unfolding(crate::specs::Lines::track_text))]
fn put_track(out: &mut Bytes, net: u32, layer: u8, width: u32) -> Result<(), AllocError>
    ensures { OnOk result (out.new ≡ out.old ++ track_text net layer width) }
{
    out.append(b"wire net ".as_slice())?;
    put_number(out, net as usize)?;
    out.append(b" layer ".as_slice())?;
    put_number(out, layer as usize)?;
    out.append(b" width ".as_slice())?;
    put_number(out, width as usize)
}

#[tactic(auto, unfolding(crate::specs::Lines::wire_line))]
fn put_wire(
    out: &mut Bytes,
    n: usize,
    net: u32,
    layer: u8,
    width: u32,
    points: &[Pt],
    fix: bool,
) -> Result<(), AllocError>
    ensures { OnOk result (out.new ≡ out.old ++ wire_line n net layer width points.now fix) }
{
    put_front(out, b"item", n)?;
    put_track(out, net, layer, width)?;
    put_path(out, points)?;
    put_end(out, fix)
}

#[tactic(auto, unfolding(crate::specs::Lines::hole_text))]
fn put_hole(out: &mut Bytes, net: u32, padstack: u32, at: &Pt) -> Result<(), AllocError>
    ensures { OnOk result (out.new ≡ out.old ++ hole_text net padstack at.now) }
{
    out.append(b"via net ".as_slice())?;
    put_number(out, net as usize)?;
    out.append(b" padstack ".as_slice())?;
    put_number(out, padstack as usize)?;
    out.append(b" at ".as_slice())?;
    put_place(out, at)
}

#[tactic(auto, unfolding(crate::specs::Lines::via_line))]
fn put_via(
    out: &mut Bytes,
    n: usize,
    net: u32,
    padstack: u32,
    at: &Pt,
    fix: bool,
) -> Result<(), AllocError>
    ensures { OnOk result (out.new ≡ out.old ++ via_line n net padstack at.now fix) }
{
    put_front(out, b"item", n)?;
    put_hole(out, net, padstack, at)?;
    put_end(out, fix)
}

fn put_item(out: &mut Bytes, origins: &Origins, n: usize, item: &Item) -> Result<(), AllocError>
    ensures { OnOk result (out.new ≡ out.old ++ item_line origins.now n item.now) }
{
    match item {
        Item::Wire {
            net,
            layer,
            width,
            points,
            fix,
        } => put_wire(out, n, *net, *layer, *width, points.as_slice(), *fix),
        Item::Via {
            net,
            padstack,
            at,
            fix,
        } => put_via(out, n, *net, *padstack, at, *fix),
        Item::Pad { net, shapes } => put_part(out, origins, n, *net, shapes),
        Item::Keep { kind, .. } => put_keep(out, n, *kind),
    }
}

/// Puts a line for each loaded item, numbered from 1.
pub fn put_items(out: &mut Bytes, origins: &Origins, items: &[Item]) -> Result<(), AllocError>
    ensures { OnOk result (out.new ≡ out.old ++ numbered (item_line origins.now) 1 items.now) }
{
    for (i, item) in items.iter().enumerate() {
        put_item(out, origins, i + 1, item)?;
    }
    Ok(())
}
