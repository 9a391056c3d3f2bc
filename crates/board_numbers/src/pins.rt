//! The lines of pads.
ghost use Rattle.std.specs.Prelude.{◌≡◌, ◌++◌, ◌-◌, IfOk, OnOk, slice_get};
ghost use Rattle.board_numbers.specs.Lines.{or_empty, ids_in, ids_of, pin_name, pad_word, net_text, pad_end, pad_line, of_part};

use crate::origins::Origins;
use crate::words::{put_front, put_optional, put_wide};
use area_geometry::Shapes;
use board_rules::{Kind, pad_kind};
use dsn_library::Image;
use dsn_lists::NameSet;
use dsn_placement::PlacedPart;
use dsn_turns::Wide;
use layout_io::{Bytes, Name};
use quoted_names::put_name;
use std::alloc::AllocError;

// The name of this number, or nothing where there is none.
fn name_in(names: &NameSet, n: usize) -> &[u8]
    ensures { result.now ≡ or_empty (slice_get names.now n) }
{
    if n < names.len() {
        return names.name(n);
    }
    &[]
}

// The id of a pin of an image.
fn id_in(images: &[Image], image: usize, pin: usize) -> &[u8]
    ensures { result.now ≡ or_empty (slice_get (ids_in (slice_get images.now image)) pin) }
{
    match images.get(image) {
        None => &[],
        Some(image) => name_in(&image.ids, pin),
    }
}

// The id of a pin of a component.
fn id_of(origins: &Origins, component: usize, pin: usize) -> &[u8]
    ensures { result.now ≡ or_empty (slice_get (ids_of origins.now component) pin) }
{
    match origins.placement.images.as_slice().get(component) {
        None => &[],
        Some(image) => id_in(origins.library.images.as_slice(), *image, pin),
    }
}

// The name of a pin: its component's name, a dash, and its own id.
#[tactic(auto, unfolding(crate::specs::Lines::pin_name))]
fn pin_name(
    out: &Bytes,
    origins: &Origins,
    component: usize,
    pin: usize,
) -> Result<Name, AllocError>
    ensures { IfOk result (λ name. name ≡ pin_name origins.now component pin) }
{
    let mut name = Name::new(out.allocator());
    name.append(name_in(&origins.placement.components, component))?;
    name.append(b"-".as_slice())?;
    name.append(id_of(origins, component, pin))?;
    Ok(name)
}

// The word for a pad of these shapes.
fn pad_word(shapes: &Shapes) -> &'static [u8]
    ensures { result.now ≡ pad_word shapes.now }
{
    match pad_kind(shapes) {
        Kind::Smd => b"smd",
        _ => b"pin",
    }
}

// Puts the net of a pad, between spaces.
#[tactic(auto, unfolding(crate::specs::Lines::net_text))]
fn put_net(out: &mut Bytes, net: Option<u32>) -> Result<(), AllocError>
    ensures { OnOk result (out.new ≡ out.old ++ net_text net) }
{
    out.append(b" net ".as_slice())?;
    put_optional(out, net)?;
    out.append(b" ".as_slice())
}

// Puts what stands behind the name of a pad.
#[tactic(auto, unfolding(crate::specs::Lines::pad_end))]
fn put_pad_end(
    out: &mut Bytes,
    net: Option<u32>,
    shapes: &Shapes,
    at: &Wide,
) -> Result<(), AllocError>
    ensures { OnOk result (out.new ≡ out.old ++ pad_end net shapes.now at.now) }
{
    put_net(out, net)?;
    out.append(pad_word(shapes))?;
    out.append(b" at ".as_slice())?;
    put_wide(out, at)?;
    out.append(b"\n".as_slice())
}

// Puts the line of a pad.
#[tactic(auto, unfolding(crate::specs::Lines::pad_line))]
fn put_pad(
    out: &mut Bytes,
    origins: &Origins,
    n: usize,
    net: Option<u32>,
    shapes: &Shapes,
    component: usize,
    pin: usize,
    at: &Wide,
) -> Result<(), AllocError>
    ensures { OnOk result (out.new ≡ out.old ++ pad_line origins.now n net shapes.now component pin at.now) }
{
    let name = pin_name(out, origins, component, pin)?;
    put_front(out, b"item", n)?;
    out.append(b"pad ".as_slice())?;
    put_name(out, name.as_slice())?;
    put_pad_end(out, net, shapes, at)
}

/// Puts the line of a pad, by the part of a component that it comes of. A pad that comes of none has no line.
pub fn put_part(
    out: &mut Bytes,
    origins: &Origins,
    n: usize,
    net: Option<u32>,
    shapes: &Shapes,
) -> Result<(), AllocError>
    ensures { OnOk result (out.new ≡ out.old ++ of_part origins.now n net shapes.now (slice_get origins.now.placement.parts (n - 1 - origins.now.keeps))) }
{
    let place = n.saturating_sub(1).saturating_sub(origins.keeps);
    match origins.placement.parts.as_slice().get(place) {
        None => Ok(()),
        Some(PlacedPart::Keep { .. }) => Ok(()),
        Some(
            PlacedPart::Pad {
                component,
                pin,
                at,
                ..
            },
        ) => put_pad(out, origins, n, net, shapes, *component, *pin, at),
    }
}
