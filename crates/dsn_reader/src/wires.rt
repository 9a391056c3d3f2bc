//! Loaded wires.
ghost use Rattle.std.specs.Prelude.{◌≡◌, ◌≤◌, length};
ghost use Rattle.row_lists.specs.Limits.{layer_limit, net_limit};
ghost use Rattle.sexp_text.specs.Shows.{forest};
ghost use Rattle.dsn_lists.specs.Results.{Gives, each};
ghost use Rattle.dsn_reader.specs.Fronts.{IsFront};
ghost use Rattle.dsn_reader.specs.Wirings.{netted, track_of, path_once, wire_word, ended_draft, wire_item, no_draft, as_wire, wire_of};

use crate::ends::{Ends, read_end};
use crate::wiring::{Wiring, put_item};
use board_items::Item;
use dsn_lists::{
    DesignKind, NameSet, ReadWhy, is_word, layer_at, next_list, opening, path_at, refused, word_at,
};
use dsn_shapes::quota_for;
use seg_geometry::Points;
use sexp_text::{Cursor, Unit};
use std::alloc::Global;

/// The layer of a wire from 0, its width and its points in nm.
#[derive(Debug, Drop)]
pub struct Track {
    pub layer: u8,
    pub width: u32,
    pub points: Points,
}

/// What the lists of a wire state.
#[derive(Debug, Drop)]
pub struct Draft {
    pub ends: Ends,
    pub track: Option<Track>,
}

// What a list of a wire is.
#[derive(Clone, Copy, Debug)]
enum WireWord {
    Path,
    Shape,
    Arc,
    Polyline,
    End,
}

#[tactic(auto, unfolding(crate::specs::Wirings::track_of))]
fn track_at(
    alloc: Global,
    unit: Unit,
    layers: &NameSet,
    at: u32,
    args: Cursor<'_>,
) -> Result<Track, ReadWhy>
    requires { length layers.now ≤ layer_limit }
    ensures { Gives (λ x. x) result (track_of unit layers.now at (forest args.entry)) }
{
    let (word, rest) = word_at(at, args)?;
    let layer = layer_at(layers, word)?;
    let path = path_at(alloc, unit, at, rest)?;
    Ok(Track {
        layer: layer as u8,
        width: path.width,
        points: path.points,
    })
}

#[tactic(auto, unfolding(crate::specs::Wirings::path_once))]
fn read_path(
    alloc: Global,
    unit: Unit,
    layers: &NameSet,
    draft: Draft,
    at: u32,
    args: Cursor<'_>,
) -> Result<Draft, ReadWhy>
    requires { length layers.now ≤ layer_limit }
    ensures { Gives (λ x. x) result (path_once unit layers.now draft at (forest args.entry)) }
{
    if draft.track.is_some() {
        return Err(refused(DesignKind::Form, at));
    }
    let track = track_at(alloc, unit, layers, at, args)?;
    Ok(Draft {
        ends: draft.ends,
        track: Some(track),
    })
}

#[tactic(auto, unfolding(crate::specs::Wirings::wire_word))]
fn wire_word(text: &[u8]) -> WireWord
    ensures { result ≡ wire_word text.now }
{
    if is_word(text, b"path") {
        return WireWord::Path;
    }
    if is_word(text, b"rect") {
        return WireWord::Shape;
    }
    if is_word(text, b"circle") {
        return WireWord::Shape;
    }
    if is_word(text, b"polygon") {
        return WireWord::Shape;
    }
    if is_word(text, b"qarc") {
        return WireWord::Arc;
    }
    if is_word(text, b"polyline_path") {
        return WireWord::Polyline;
    }
    WireWord::End
}

fn read_wire_end(
    nets: &mut NameSet,
    draft: Draft,
    at: u32,
    inside: Cursor<'_>,
) -> Result<Draft, ReadWhy>
    requires { length nets.old ≤ net_limit }
    ensures draft { Gives (λ d. netted nets.new d) result (ended_draft nets.old draft at (forest inside.entry)) }
    ensures few { length nets.new ≤ net_limit }
    ensures kept { IsFront nets.old nets.new }
{
    let ends = read_end(nets, draft.ends, at, inside)?;
    Ok(Draft {
        ends,
        track: draft.track,
    })
}

#[tactic(auto, unfolding(crate::specs::Wirings::wire_item), using(crate::proofs::Fronts::front_same))]
fn read_list(
    alloc: Global,
    unit: Unit,
    layers: &NameSet,
    nets: &mut NameSet,
    draft: Draft,
    at: u32,
    inside: Cursor<'_>,
) -> Result<Draft, ReadWhy>
    requires layers { length layers.now ≤ layer_limit }
    requires nets { length nets.old ≤ net_limit }
    ensures draft { Gives (λ d. netted nets.new d) result (wire_item unit layers.now (netted nets.old draft) at (forest inside.entry)) }
    ensures few { length nets.new ≤ net_limit }
    ensures kept { IsFront nets.old nets.new }
{
    let head = opening(inside);
    match wire_word(head.text) {
        WireWord::Path => read_path(alloc, unit, layers, draft, at, head.args),
        WireWord::Shape => Err(refused(DesignKind::Shape, head.at)),
        WireWord::Arc => Err(refused(DesignKind::Arc, head.at)),
        WireWord::Polyline => Err(refused(DesignKind::Polyline, head.at)),
        WireWord::End => read_wire_end(nets, draft, at, inside),
    }
}

#[tactic(auto, unfolding(dsn_lists::specs::Results::each), using(crate::proofs::Fronts::front_same, crate::proofs::Fronts::front_then))]
fn read_lists(
    alloc: Global,
    unit: Unit,
    layers: &NameSet,
    nets: &mut NameSet,
    list: Cursor<'_>,
) -> Result<Draft, ReadWhy>
    requires layers { length layers.now ≤ layer_limit }
    requires nets { length nets.old ≤ net_limit }
    ensures draft { Gives (λ d. netted nets.new d) result (each (wire_item unit layers.now) (netted nets.old no_draft) (forest list.entry)) }
    ensures few { length nets.new ≤ net_limit }
    ensures kept { IsFront nets.old nets.new }
{
    let mut draft = Draft {
        ends: Ends {
            net: None,
            fix: None,
        },
        track: None,
    };
    let mut rest = list;
    'lists: while let Some((at, inside, after)) = next_list(rest)? {
        draft = read_list(alloc, unit, layers, nets, draft, at, inside)?;
        rest = after;
    }
    Ok(draft)
}

// Puts the wire that the lists state behind the wiring that is there.
#[tactic(auto, unfolding(crate::specs::Wirings::as_wire))]
fn put_wire(wiring: &mut Wiring, at: u32, draft: Draft) -> Result<(), ReadWhy>
    ensures { Gives (λ _. wiring.new) result (as_wire at wiring.old draft) }
{
    let Draft { ends, track } = draft;
    let Some(track) = track else {
        return Err(refused(DesignKind::Missing, at));
    };
    let Some(net) = ends.net else {
        return Err(refused(DesignKind::Missing, at));
    };
    let quota = quota_for(wiring.quota, track.points.len());
    let item = Item::Wire {
        net,
        layer: track.layer,
        width: track.width,
        points: track.points,
        fix: ends.is_fixed(),
    };
    put_item(wiring, at, item, quota)
}

/// Reads a wire, whose list begins at this byte, behind the wiring that is there.
#[tactic(auto, unfolding(crate::specs::Wirings::wire_of))]
pub fn read_wire(
    alloc: Global,
    unit: Unit,
    layers: &NameSet,
    nets: &mut NameSet,
    wiring: &mut Wiring,
    at: u32,
    args: Cursor<'_>,
) -> Result<(), ReadWhy>
    requires layers { length layers.now ≤ layer_limit }
    requires nets { length nets.old ≤ net_limit }
    ensures wiring { Gives (λ _. netted nets.new wiring.new) result (wire_of unit layers.now (netted nets.old wiring.old) at (forest args.entry)) }
    ensures few { length nets.new ≤ net_limit }
    ensures kept { IsFront nets.old nets.new }
{
    let draft = read_lists(alloc, unit, layers, nets, args)?;
    put_wire(wiring, at, draft)
}
