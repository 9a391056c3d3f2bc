//! The section that says what wiring is there.
ghost use Rattle.std.specs.Prelude.{◌≡◌, ◌≤◌, length, IfOk, IfErr, Ok, Err};
ghost use Rattle.row_lists.specs.Limits.{layer_limit, net_limit, padstack_limit};
ghost use Rattle.sexp_text.specs.Shows.{forest};
ghost use Rattle.sexp_text.specs.Trees.{tree_forest};
ghost use Rattle.dsn_lists.specs.Results.{Gives, each};
ghost use Rattle.dsn_lists.specs.Pcbs.{spotted};
ghost use Rattle.dsn_lists.specs.declared.faults.DesignFault.{DesignFault};
ghost use Rattle.dsn_reader.specs.Fronts.{IsFront};
ghost use Rattle.dsn_reader.specs.Wirings.{Netted, netted, with_item, wiring_word, wiring_item, wiring_at, wiring_of};
ghost use Rattle.dsn_reader.specs.Meaning.{HasWiring, WiringFault, WhyNot};

use crate::vias::read_via;
use crate::wires::read_wire;
use board_items::{Item, Items};
use dsn_library::Library;
use dsn_lists::{
    DesignKind, NameSet, Place, ReadWhy, Section, is_word, next_list, opening, refused, section_of,
    title_of, unit_at, unit_for,
};
use dsn_network::Network;
use dsn_shapes::Quota;
use dsn_structure::Structure;
use row_lists::Row;
use sexp_text::{Cursor, Tree, Unit};
use std::alloc::Global;

/// The wiring of a design.
#[derive(Debug, Drop)]
pub struct Wiring {
    /// The wires and vias in the order of the text.
    pub items: Items,
    /// How many items and points may come behind them.
    pub quota: Quota,
}

// What a list of the section is.
#[derive(Clone, Copy, Debug)]
enum WiringWord {
    Wire,
    Via,
    Unit,
    Resolution,
    Other,
}

/// Puts an item behind the others, where there is room for it. Else the fault `Large` at the byte.
pub fn put_item(
    wiring: &mut Wiring,
    at: u32,
    item: Item,
    quota: Option<Quota>,
) -> Result<(), ReadWhy>
    ensures { Gives (λ _. wiring.new) result (with_item at wiring.old item quota) }
{
    let Some(quota) = quota else {
        return Err(refused(DesignKind::Large, at));
    };
    wiring.items.push(item)?;
    wiring.quota = quota;
    Ok(())
}

#[tactic(auto, unfolding(crate::specs::Wirings::wiring_word))]
fn wiring_word(text: &[u8]) -> WiringWord
    ensures { result ≡ wiring_word text.now }
{
    if is_word(text, b"wire") {
        return WiringWord::Wire;
    }
    if is_word(text, b"via") {
        return WiringWord::Via;
    }
    if is_word(text, b"unit") {
        return WiringWord::Unit;
    }
    if is_word(text, b"resolution") {
        return WiringWord::Resolution;
    }
    WiringWord::Other
}

#[tactic(auto, unfolding(crate::specs::Wirings::wiring_item), using(crate::proofs::Fronts::front_same))]
fn read_list(
    alloc: Global,
    unit: Unit,
    layers: &NameSet,
    library: &Library,
    nets: &mut NameSet,
    wiring: &mut Wiring,
    at: u32,
    inside: Cursor<'_>,
) -> Result<(), ReadWhy>
    requires layers { length layers.now ≤ layer_limit }
    requires stacks { length library.now.names ≤ padstack_limit }
    requires nets { length nets.old ≤ net_limit }
    ensures wiring { Gives (λ _. netted nets.new wiring.new) result (wiring_item unit layers.now library.now (netted nets.old wiring.old) at (forest inside.entry)) }
    ensures few { length nets.new ≤ net_limit }
    ensures kept { IsFront nets.old nets.new }
{
    let head = opening(inside);
    match wiring_word(head.text) {
        WiringWord::Wire => read_wire(alloc, unit, layers, nets, wiring, at, head.args),
        WiringWord::Via => read_via(alloc, unit, library, nets, wiring, at, head.args),
        WiringWord::Unit => {
            unit_at(at, head.args)?;
            Ok(())
        }
        WiringWord::Resolution => Err(refused(DesignKind::Unit, head.at)),
        WiringWord::Other => Ok(()),
    }
}

#[tactic(auto, unfolding(dsn_lists::specs::Results::each), using(crate::proofs::Fronts::front_same, crate::proofs::Fronts::front_then))]
fn read_lists(
    alloc: Global,
    unit: Unit,
    layers: &NameSet,
    library: &Library,
    nets: &mut NameSet,
    wiring: &mut Wiring,
    list: Cursor<'_>,
) -> Result<(), ReadWhy>
    requires layers { length layers.now ≤ layer_limit }
    requires stacks { length library.now.names ≤ padstack_limit }
    requires nets { length nets.old ≤ net_limit }
    ensures wiring { Gives (λ _. netted nets.new wiring.new) result (each (wiring_item unit layers.now library.now) (netted nets.old wiring.old) (forest list.entry)) }
    ensures few { length nets.new ≤ net_limit }
    ensures kept { IsFront nets.old nets.new }
{
    let mut rest = list;
    'lists: while let Some((at, inside, after)) = next_list(rest)? {
        read_list(alloc, unit, layers, library, nets, wiring, at, inside)?;
        rest = after;
    }
    Ok(())
}

#[tactic(auto, unfolding(crate::specs::Wirings::wiring_at))]
fn wiring_at(
    alloc: Global,
    unit: Unit,
    layers: &NameSet,
    library: &Library,
    nets: &mut NameSet,
    quota: Quota,
    place: Place<'_>,
) -> Result<Wiring, ReadWhy>
    requires layers { length layers.now ≤ layer_limit }
    requires stacks { length library.now.names ≤ padstack_limit }
    requires nets { length nets.old ≤ net_limit }
    ensures wiring { Gives (λ w. netted nets.new w) result (wiring_at unit layers.now library.now nets.old quota (spotted place.entry)) }
    ensures few { length nets.new ≤ net_limit }
    ensures kept { IsFront nets.old nets.new }
{
    let unit = unit_for(unit, place.args);
    let mut wiring = Wiring {
        items: Row::new(alloc),
        quota,
    };
    read_lists(alloc, unit, layers, library, nets, &mut wiring, place.args)?;
    Ok(wiring)
}

/// The wiring of a design, or the first fault of the design itself or of the section. The structure, the library and
/// the network are the design's. Nets that the network doesn't have are put behind its nets, in the order of their
/// first use; after an `Err` some of them may be there, behind the nets that were.
pub fn read_wiring(
    alloc: Global,
    tree: &Tree,
    structure: &Structure,
    library: &Library,
    network: &mut Network,
) -> Result<Wiring, ReadWhy>
    requires layers { length structure.now.layers ≤ layer_limit }
    requires stacks { length library.now.names ≤ padstack_limit }
    requires nets { length network.old.nets ≤ net_limit }
    ensures read { Gives (λ w. netted network.new.nets w) result (wiring_of (tree_forest tree.now) structure.now.layers library.now network.old.nets network.old.quota) }
    // What is read is the wiring of the design, with its nets, and a design that has one is read.
    ensures found { IfOk result (λ w. HasWiring (tree_forest tree.now) structure.now.layers library.now network.old.nets network.old.quota (netted network.new.nets w)) }
    ensures only { (x : Netted Wiring) → HasWiring (tree_forest tree.now) structure.now.layers library.now network.old.nets network.old.quota x → Gives (λ w. netted network.new.nets w) result (Ok x) }
    // What is told is the first fault, and the first fault is told.
    ensures fault { IfErr result (WhyNot (tree_forest tree.now) structure.now.layers library.now network.old.nets network.old.quota) }
    ensures first { (e : DesignFault) → WiringFault (tree_forest tree.now) structure.now.layers library.now network.old.nets network.old.quota e → Gives (λ w. netted network.new.nets w) result (Err e) }
    // After a fault too, the nets that were there are the front of the network's nets.
    ensures kept { IsFront network.old.nets network.new.nets }
    ensures classes { network.new.classes ≡ network.old.classes }
    ensures pins { network.new.pins ≡ network.old.pins }
    ensures pairs { network.new.pairs ≡ network.old.pairs }
{
    section(alloc, tree, structure, library, network)
}

#[tactic(auto, unfolding(crate::specs::Wirings::wiring_of), using(crate::proofs::Fronts::front_same))]
fn section(
    alloc: Global,
    tree: &Tree,
    structure: &Structure,
    library: &Library,
    network: &mut Network,
) -> Result<Wiring, ReadWhy>
    requires layers { length structure.now.layers ≤ layer_limit }
    requires stacks { length library.now.names ≤ padstack_limit }
    requires nets { length network.old.nets ≤ net_limit }
    ensures read { Gives (λ w. netted network.new.nets w) result (wiring_of (tree_forest tree.now) structure.now.layers library.now network.old.nets network.old.quota) }
    ensures kept { IsFront network.old.nets network.new.nets }
    ensures classes { network.new.classes ≡ network.old.classes }
    ensures pins { network.new.pins ≡ network.old.pins }
    ensures pairs { network.new.pairs ≡ network.old.pairs }
{
    let title = title_of(alloc, tree)?;
    let place = section_of(tree, Section::Wiring);
    let quota = network.quota;
    wiring_at(
        alloc,
        title.unit,
        &structure.layers,
        library,
        &mut network.nets,
        quota,
        place,
    )
}
