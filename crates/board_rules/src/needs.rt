//! The clearance that two items must keep.
ghost use Rattle.std.specs.Prelude.{◌≡◌, ◌==◌, slice_get, if◌then◌else◌};
ghost use Rattle.std.specs.List.{list_all};
ghost use Rattle.board_items.specs.Adds.{item_seen};
ghost use Rattle.board_rules.specs.Classes.{typed_value, stated_in, own_value, value_in, class_in, class_of};
ghost use Rattle.board_rules.specs.Pairs.{pair_value};
ghost use Rattle.board_rules.specs.Rules.{under};
ghost use Rattle.board_rules.specs.Needs.{is_on_one_layer, role_of, net_of, is_same_net, bars, barred, copper_gap, gap_of, need_in};

use crate::clearances::RulesView;
use crate::design::{Design, Kind, NetRows};
use crate::kinds::or_else;
use crate::tables::cell_at;
use area_geometry::{Shape, Shapes};
use board_items::{ItemView, KeepKind, is_fixed};

// What an item is to a clearance: copper of a kind, or a keepout.
#[derive(Clone, Copy)]
pub(crate) enum Role {
    Copper { kind: Kind },
    Keepout { kind: KeepKind },
}

// Whether all of the shapes lie on this layer.
fn lie_on(shapes: &[Shape], layer: u8) -> bool
    ensures { result ≡ list_all (λ t. t.layer == layer) shapes.now }
{
    for shape in shapes {
        if shape.layer != layer {
            return false;
        }
    }
    true
}

// Whether the shapes lie on exactly one layer.
fn is_on_one_layer(shapes: &[Shape]) -> bool
    ensures { result ≡ is_on_one_layer shapes.now }
{
    match shapes.split_first() {
        None => false,
        Some((first, rest)) => lie_on(rest, first.layer),
    }
}

/// The kind of a pad of these shapes: `Smd` where they lie on exactly one layer, else `Pin`.
pub fn pad_kind(shapes: &Shapes) -> Kind
    ensures { result ≡ (if is_on_one_layer shapes.now then Kind.Smd else Kind.Pin) }
{
    if is_on_one_layer(shapes.as_slice()) {
        Kind::Smd
    } else {
        Kind::Pin
    }
}

fn role_of(item: ItemView<'_>) -> Role
    ensures { result ≡ role_of (item_seen item.entry) }
{
    match item {
        ItemView::Wire { .. } => Role::Copper { kind: Kind::Wire },
        ItemView::Via { .. } => Role::Copper { kind: Kind::Via },
        ItemView::Pad { shapes, .. } => Role::Copper {
            kind: pad_kind(shapes),
        },
        ItemView::Keep { kind, .. } => Role::Keepout { kind },
    }
}

fn net_of(item: ItemView<'_>) -> Option<u32>
    ensures { result ≡ net_of (item_seen item.entry) }
{
    match item {
        ItemView::Wire { net, .. } => Some(net),
        ItemView::Via { net, .. } => Some(net),
        ItemView::Pad { net, .. } => net,
        ItemView::Keep { .. } => None,
    }
}

// Whether both have a net, and it is the same.
fn is_same_net(a: Option<u32>, b: Option<u32>) -> bool
    ensures { result ≡ is_same_net a b }
{
    match (a, b) {
        (Some(n), Some(m)) => n == m,
        _ => false,
    }
}

fn bars(keep: KeepKind, kind: Kind) -> bool
    ensures { result ≡ bars keep kind }
{
    match (keep, kind) {
        (KeepKind::All, Kind::Wire) => true,
        (KeepKind::All, Kind::Via) => true,
        (KeepKind::Vias, Kind::Via) => true,
        (KeepKind::Wires, Kind::Wire) => true,
        _ => false,
    }
}

// 1 nm from what a keepout bars, else nothing.
fn barred(keep: KeepKind, kind: Kind) -> Option<u32>
    ensures { result ≡ barred keep kind }
{
    if bars(keep, kind) { Some(1) } else { None }
}

// The class of a net that may not be there.
fn net_class(nets: &NetRows, net: u32) -> u32
    ensures { result ≡ class_in (slice_get nets.now net) }
{
    match nets.as_slice().get(net as usize) {
        None => 0,
        Some(row) => row.class,
    }
}

impl Design {
    // The class of a net; without a net it is class 0.
    fn class_of(&self, net: Option<u32>) -> u32
        ensures { result ≡ class_of self.now.parts net }
    {
        match net {
            None => 0,
            Some(net) => net_class(&self.parts.nets, net),
        }
    }

    // What a class states for two kinds but for its untyped value.
    fn typed(&self, class: u32, k: Kind, l: Kind) -> Option<u32>
        ensures { result ≡ typed_value (stated_in (slice_get self.now.parts.classes class)) k l }
    {
        cell_at(&self.tables, class, k, l)
    }

    // What a class gives two kinds under these rules.
    fn own_value(&self, rules: RulesView<'_>, class: u32, k: Kind, l: Kind) -> Option<u32>
        ensures { result ≡ own_value self.now.parts (under rules.entry) class k l }
    {
        or_else(self.typed(class, k, l), rules.untyped(class as usize))
    }

    // What a class gives two kinds under these rules: its own statements, then the structure's, then 0.
    fn class_value(&self, rules: RulesView<'_>, class: u32, k: Kind, l: Kind) -> u32
        ensures { result ≡ value_in self.now.parts (under rules.entry) class k l }
    {
        let own = self.own_value(rules, class, k, l);
        or_else(own, self.own_value(rules, 0, k, l)).unwrap_or(0)
    }

    // What is stated for two classes and these kinds.
    fn pair_value(&self, c: u32, d: u32, k: Kind, l: Kind) -> Option<u32>
        ensures { result ≡ pair_value self.now.parts c d k l }
    {
        if self.parts.pairs.is_empty() {
            return None;
        }
        if c == 0 || d == 0 {
            return None;
        }
        self.pairs.table(c, d).value(k, l)
    }

    // What copper of two classes must keep under these rules.
    fn copper_gap(&self, rules: RulesView<'_>, k: Kind, c: u32, l: Kind, d: u32) -> u32
        ensures { result ≡ copper_gap self.now.parts (under rules.entry) k c l d }
    {
        if let Some(value) = self.pair_value(c, d, k, l) {
            return 1u32.max(value);
        }
        let own = self.class_value(rules, c, k, l);
        1u32.max(own.max(self.class_value(rules, d, k, l)))
    }

    // What two roles must keep under these rules, of items of these nets.
    fn gap(
        &self,
        rules: RulesView<'_>,
        a: Role,
        net: Option<u32>,
        b: Role,
        other: Option<u32>,
    ) -> Option<u32>
        ensures { result ≡ gap_of self.now.parts (under rules.entry) a net b other }
    {
        match (a, b) {
            (Role::Copper { kind: k }, Role::Copper { kind: l }) => {
                let c = self.class_of(net);
                Some(self.copper_gap(rules, k, c, l, self.class_of(other)))
            }
            (Role::Copper { kind }, Role::Keepout { kind: keep }) => barred(keep, kind),
            (Role::Keepout { kind: keep }, Role::Copper { kind }) => barred(keep, kind),
            (Role::Keepout { .. }, Role::Keepout { .. }) => None,
        }
    }

    /// The clearance in nm that two items must keep under these rules, or none. It is the same both ways round. It takes
    /// no memory.
    pub fn need(&self, rules: RulesView<'_>, a: ItemView<'_>, b: ItemView<'_>) -> Option<u32>
        ensures { result ≡ need_in self.now.parts (under rules.entry) (item_seen a.entry) (item_seen b.entry) }
    {
        let net = net_of(a);
        let other = net_of(b);
        if is_same_net(net, other) || (is_fixed(a) && is_fixed(b)) {
            return None;
        }
        self.gap(rules, role_of(a), net, role_of(b), other)
    }
}
