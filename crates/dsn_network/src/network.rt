//! The section that says what nets there are, and of which classes.
ghost use Rattle.std.specs.Prelude.{◌≡◌, ◌≤◌, ◌*◌, false, IfOk, IfErr, OnOk, Ok, Err, length};
ghost use Rattle.sexp_text.specs.Shows.{forest};
ghost use Rattle.sexp_text.specs.Nodes.{size};
ghost use Rattle.sexp_text.specs.Trees.{tree_forest};
ghost use Rattle.dsn_lists.specs.Results.{Gives, each};
ghost use Rattle.dsn_lists.specs.Words.{marked};
ghost use Rattle.dsn_lists.specs.Pcbs.{spotted};
ghost use Rattle.dsn_network.specs.Limits.{IsFitNetwork};
ghost use Rattle.dsn_network.specs.NetworkMeaning.{HasNetwork, NetworkFault, WhyNot};
ghost use Rattle.dsn_network.specs.Networks.{reference_of, pins_of, net_item, with_net, with_class, with_pairs, network_word, network_item, no_network, network_at, network_of};

use crate::classes::{Class, class_at};
use crate::pairs::{ClassPairs, pairs_at};
use crate::pins::PinNets;
use crate::references::PinNames;
use dsn_library::Library;
use dsn_lists::{
    DesignFault, DesignKind, Found, NameSet, Place, ReadWhy, Section, check_new, is_word,
    next_list, opening, read_over, refused, section_of, title_of, unit_at, unit_for, word_at,
};
use dsn_placement::Placement;
use dsn_shapes::Quota;
use row_lists::{NET_LIMIT, Row};
use sexp_text::{Cursor, Part, Tree, Unit, front};
use std::alloc::Global;

/// Classes in the order of the text.
pub type Classes = Row<Class>;

/// What lists between classes state, in the order of the text.
pub type PairLists = Row<ClassPairs>;

/// The nets of a design and their classes.
#[derive(Debug, Drop)]
pub struct Network {
    /// The names of the nets, at most 100,000, numbered from 0 in the order of the text.
    pub nets: NameSet,
    /// The nets of the pins that are named.
    pub pins: PinNets,
    pub classes: Classes,
    /// What is stated between classes, a row for each list, so that it takes room in proportion to the text.
    pub pairs: PairLists,
    /// How many items and points may come behind those of the placement.
    pub quota: Quota,
}

// What a list of the section is.
#[derive(Clone, Copy, Debug)]
enum NetworkWord {
    Net,
    Class,
    Pairs,
    Unit,
    Resolution,
    Other,
}

// Gives the net of this number to the pin that a reference names.
#[tactic(auto, unfolding(crate::specs::Networks::reference_of))]
fn read_reference(
    names: &PinNames<'_>,
    net: u32,
    pins: &mut PinNets,
    word: Found<'_>,
) -> Result<(), ReadWhy>
    ensures { Gives (λ _. pins.new) result (reference_of names.now.placement.now names.now.library.now net pins.old (marked word.entry)) }
{
    let Some((component, pin)) = names.pin(word.text) else {
        return Err(refused(DesignKind::Name, word.at));
    };
    match pins.get(component, pin) {
        None => Ok(pins.add(component, pin, net)?),
        Some(other) if other == net => Ok(()),
        Some(_) => Err(refused(DesignKind::Twice, word.at)),
    }
}

#[tactic(auto, unfolding(crate::specs::Networks::pins_of))]
fn read_pins(
    names: &PinNames<'_>,
    net: u32,
    pins: &mut PinNets,
    args: Cursor<'_>,
) -> Result<(), ReadWhy>
    ensures { Gives (λ _. pins.new) result (pins_of names.now.placement.now names.now.library.now net pins.old (forest args.entry)) }
{
    let mut rest = args;
    'words: loop {
        match front(rest) {
            Part::End => return Ok(()),
            Part::Word {
                at,
                text,
                rest: after,
            } => {
                read_reference(names, net, pins, Found { at, text })?;
                rest = after;
            }
            Part::List { .. } => {
                read_over(rest)?;
                return Ok(());
            }
        }
    }
}

#[tactic(auto, unfolding(crate::specs::Networks::net_item))]
fn read_net_list(
    names: &PinNames<'_>,
    net: u32,
    pins: &mut PinNets,
    at: u32,
    inside: Cursor<'_>,
) -> Result<(), ReadWhy>
    ensures { Gives (λ _. pins.new) result (net_item names.now.placement.now names.now.library.now net pins.old at (forest inside.entry)) }
{
    let head = opening(inside);
    if !is_word(head.text, b"pins") {
        return Ok(());
    }
    read_pins(names, net, pins, head.args)
}

#[tactic(auto, unfolding(dsn_lists::specs::Results::each))]
fn read_net_lists(
    names: &PinNames<'_>,
    net: u32,
    pins: &mut PinNets,
    list: Cursor<'_>,
) -> Result<(), ReadWhy>
    ensures { Gives (λ _. pins.new) result (each (net_item names.now.placement.now names.now.library.now net) pins.old (forest list.entry)) }
{
    let mut rest = list;
    'lists: while let Some((at, inside, after)) = next_list(rest)? {
        read_net_list(names, net, pins, at, inside)?;
        rest = after;
    }
    Ok(())
}

#[tactic(auto, unfolding(crate::specs::Networks::with_net))]
fn add_net(
    names: &PinNames<'_>,
    network: &mut Network,
    at: u32,
    args: Cursor<'_>,
) -> Result<(), ReadWhy>
    ensures { Gives (λ _. network.new) result (with_net names.now.placement.now names.now.library.now network.old at (forest args.entry)) }
{
    let (word, rest) = word_at(at, args)?;
    check_new(&network.nets, NET_LIMIT, word)?;
    let net = network.nets.len() as u32;
    read_net_lists(names, net, &mut network.pins, rest)?;
    network.nets.add(word.text)?;
    Ok(())
}

fn add_class(
    alloc: Global,
    unit: Unit,
    network: &mut Network,
    at: u32,
    args: Cursor<'_>,
) -> Result<(), ReadWhy>
    ensures { Gives (λ _. network.new) result (with_class unit network.old at (forest args.entry)) }
{
    let class = class_at(alloc, unit, at, args)?;
    network.classes.push(class)?;
    Ok(())
}

fn add_pairs(
    alloc: Global,
    unit: Unit,
    network: &mut Network,
    at: u32,
    args: Cursor<'_>,
) -> Result<(), ReadWhy>
    ensures { Gives (λ _. network.new) result (with_pairs unit network.old at (forest args.entry)) }
{
    let pairs = pairs_at(alloc, unit, at, args)?;
    network.pairs.push(pairs)?;
    Ok(())
}

#[tactic(auto, unfolding(crate::specs::Networks::network_word))]
fn network_word(text: &[u8]) -> NetworkWord
    ensures { result ≡ network_word text.now }
{
    if is_word(text, b"net") {
        return NetworkWord::Net;
    }
    if is_word(text, b"class") {
        return NetworkWord::Class;
    }
    if is_word(text, b"class_class") {
        return NetworkWord::Pairs;
    }
    if is_word(text, b"unit") {
        return NetworkWord::Unit;
    }
    if is_word(text, b"resolution") {
        return NetworkWord::Resolution;
    }
    NetworkWord::Other
}

#[tactic(auto, unfolding(crate::specs::Networks::network_item))]
fn read_list(
    alloc: Global,
    unit: Unit,
    names: &PinNames<'_>,
    network: &mut Network,
    at: u32,
    inside: Cursor<'_>,
) -> Result<(), ReadWhy>
    ensures { Gives (λ _. network.new) result (network_item unit names.now.placement.now names.now.library.now network.old at (forest inside.entry)) }
{
    let head = opening(inside);
    match network_word(head.text) {
        NetworkWord::Net => add_net(names, network, at, head.args),
        NetworkWord::Class => add_class(alloc, unit, network, at, head.args),
        NetworkWord::Pairs => add_pairs(alloc, unit, network, at, head.args),
        NetworkWord::Unit => {
            unit_at(at, head.args)?;
            Ok(())
        }
        NetworkWord::Resolution => Err(refused(DesignKind::Unit, head.at)),
        NetworkWord::Other => Ok(()),
    }
}

#[tactic(auto, unfolding(dsn_lists::specs::Results::each))]
fn read_lists(
    alloc: Global,
    unit: Unit,
    names: &PinNames<'_>,
    network: &mut Network,
    list: Cursor<'_>,
) -> Result<(), ReadWhy>
    ensures { Gives (λ _. network.new) result (each (network_item unit names.now.placement.now names.now.library.now) network.old (forest list.entry)) }
{
    let mut rest = list;
    'lists: while let Some((at, inside, after)) = next_list(rest)? {
        read_list(alloc, unit, names, network, at, inside)?;
        rest = after;
    }
    Ok(())
}

#[tactic(auto, unfolding(crate::specs::Networks::network_at))]
fn network_at(
    alloc: Global,
    unit: Unit,
    placement: &Placement,
    library: &Library,
    place: Place<'_>,
) -> Result<Network, ReadWhy>
    ensures { Gives (λ x. x) result (network_at unit placement.now library.now (spotted place.entry)) }
{
    let unit = unit_for(unit, place.args);
    let names = PinNames::new(alloc, placement, library)?;
    let mut network = Network {
        nets: NameSet::new(alloc),
        pins: PinNets::new(alloc),
        classes: Row::new(alloc),
        pairs: Row::new(alloc),
        quota: placement.quota,
    };
    read_lists(alloc, unit, &names, &mut network, place.args)?;
    Ok(network)
}

/// The nets of a design and their classes, or the first fault of the design itself or of the section. The placement and
/// the library are the design's.
#[tactic(auto, using(crate::proofs::NetworkFits::network_if_given, crate::proofs::NetworkFits::few_if_given))]
pub fn read_network(
    alloc: Global,
    tree: &Tree,
    placement: &Placement,
    library: &Library,
) -> Result<Network, ReadWhy>
    ensures read { Gives (λ x. x) result (network_of (tree_forest tree.now) placement.now library.now) }
    // What is read is the network of the design, and a design that has one is read.
    ensures found { IfOk result (HasNetwork (tree_forest tree.now) placement.now library.now) }
    ensures only { (n : Network) → HasNetwork (tree_forest tree.now) placement.now library.now n → Gives (λ x. x) result (Ok n) }
    // What is told is the first fault, and the first fault is told.
    ensures fault { IfErr result (WhyNot (tree_forest tree.now) placement.now library.now) }
    ensures first { (e : DesignFault) → NetworkFault (tree_forest tree.now) placement.now library.now e → Gives (λ x. x) result (Err e) }
    // What is read is within the limits.
    ensures fit { IfOk result IsFitNetwork }
    // There are at most 32 classes for each word and list of the text.
    ensures few { IfOk result (λ network. length network.classes ≤ 32 * size (tree_forest tree.now)) }
{
    section(alloc, tree, placement, library)
}

#[tactic(auto, unfolding(crate::specs::Networks::network_of))]
fn section(
    alloc: Global,
    tree: &Tree,
    placement: &Placement,
    library: &Library,
) -> Result<Network, ReadWhy>
    ensures { Gives (λ x. x) result (network_of (tree_forest tree.now) placement.now library.now) }
{
    let title = title_of(alloc, tree)?;
    network_at(
        alloc,
        title.unit,
        placement,
        library,
        section_of(tree, Section::Network),
    )
}
