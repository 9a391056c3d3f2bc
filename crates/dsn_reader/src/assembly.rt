//! The design of what its sections state.
ghost use Rattle.std.specs.Prelude.{◌≡◌, ◌≤◌, ◌<◌, ◌^◌, true, [], length, Some, None, Err, is_ok, IfOk, IfErr, OnOk};
ghost use Rattle.row_lists.specs.Limits.{padstack_limit};
ghost use Rattle.dsn_lists.specs.declared.faults.DesignFault.{DesignFault};
ghost use Rattle.dsn_lists.specs.Results.{Tells};
ghost use Rattle.dsn_network.specs.Networks.{in_class, named_in, classed};
ghost use Rattle.std.specs.Option.{option_copied};
ghost use Rattle.dsn_lists.specs.Names.{place_of};
ghost use Rattle.dsn_reader.specs.Numbering.{with_number};
ghost use Rattle.dsn_reader.specs.Assembly.{lesser, least_of, least_unknown, least_in_lists, least_in_classes, known_vias, numbers_of, last_vias, class_row, class_rows, all_classes, row_at, net_rows, classes_of};
ghost use Rattle.dsn_reader.specs.Rows.{via_names, AreKnown, ViaNameFault};

use board_rules::{ClassRow, ClassRows, Names, NetRow, NetRows};
use dsn_lists::{DesignFault, DesignKind, Mark, Marks, NameSet, Rule, fault};
use dsn_network::{Class, Network, ViaLists};
use dsn_structure::Structure;
use layout_io::Name;
use row_lists::Row;
use seg_geometry::Ids;
use std::alloc::{AllocError, Global};

fn lesser(least: Option<u32>, at: u32) -> Option<u32>
    ensures { result ≡ lesser least at }
{
    match least {
        None => Some(at),
        Some(least) => {
            if at < least {
                return Some(at);
            }
            Some(least)
        }
    }
}

fn least_of(names: &NameSet, least: Option<u32>, mark: &Mark) -> Option<u32>
    ensures { result ≡ least_of names.now least mark.now }
{
    if names.contains(mark.name.as_slice()) {
        return least;
    }
    lesser(least, mark.at)
}

#[tactic(auto, unfolding(crate::specs::Assembly::least_unknown))]
fn least_unknown(names: &NameSet, least: Option<u32>, marks: &[Mark]) -> Option<u32>
    ensures { result ≡ least_unknown names.now least marks.now }
{
    let mut least = least;
    for mark in marks {
        least = least_of(names, least, mark);
    }
    least
}

#[tactic(auto, unfolding(crate::specs::Assembly::least_in_lists))]
fn least_in_lists(names: &NameSet, least: Option<u32>, lists: &[Marks]) -> Option<u32>
    ensures { result ≡ least_in_lists names.now least lists.now }
{
    let mut least = least;
    for marks in lists {
        least = least_unknown(names, least, marks.as_slice());
    }
    least
}

#[tactic(auto, unfolding(crate::specs::Assembly::least_in_classes))]
fn least_in_classes(names: &NameSet, least: Option<u32>, classes: &[Class]) -> Option<u32>
    ensures { result ≡ least_in_classes names.now least classes.now }
{
    let mut least = least;
    for class in classes {
        least = least_in_lists(names, least, class.vias.as_slice());
    }
    least
}

/// Whether each name in a list of vias is a padstack's; else the fault `Name` at the first in the text that isn't.
pub fn check_vias(
    names: &NameSet,
    structure: &Structure,
    network: &Network,
) -> Result<(), DesignFault>
    ensures read { Tells (λ x. x) result (known_vias names.now structure.now network.now.classes) }
    // Nothing is told exactly where each name is a padstack's.
    ensures found { IfOk result (λ _. AreKnown names.now (via_names structure.now network.now.classes)) }
    ensures only { AreKnown names.now (via_names structure.now network.now.classes) → is_ok result ≡ true }
    // What is told is the unknown name that stands first in the text, and that name is told.
    ensures fault { IfErr result (ViaNameFault names.now (via_names structure.now network.now.classes)) }
    ensures first { (e : DesignFault) → ViaNameFault names.now (via_names structure.now network.now.classes) e → result ≡ Err e }
{
    least_fault(names, structure, network)
}

#[tactic(auto, unfolding(crate::specs::Assembly::known_vias))]
fn least_fault(names: &NameSet, structure: &Structure, network: &Network) -> Result<(), DesignFault>
    ensures { Tells (λ x. x) result (known_vias names.now structure.now network.now.classes) }
{
    let least = least_in_lists(names, None, structure.vias.as_slice());
    match least_in_classes(names, least, network.classes.as_slice()) {
        None => Ok(()),
        Some(at) => Err(fault(DesignKind::Name, at)),
    }
}

fn put_number(names: &NameSet, ids: &mut Ids, mark: &Mark) -> Result<(), AllocError>
    requires { length names.now ≤ padstack_limit }
    ensures { OnOk result (ids.new ≡ with_number ids.old (place_of names.now mark.now.name)) }
{
    match names.place(mark.name.as_slice()) {
        None => Ok(()),
        Some(place) => ids.push(place as u32),
    }
}

#[tactic(auto, unfolding(crate::specs::Numbering::numbers_by))]
fn numbers_of(alloc: Global, names: &NameSet, marks: &[Mark]) -> Result<Ids, AllocError>
    requires { length names.now ≤ padstack_limit }
    ensures { IfOk result (λ ids. ids ≡ numbers_of names.now marks.now) }
{
    let mut ids = Row::new(alloc);
    for mark in marks {
        put_number(names, &mut ids, mark)?;
    }
    Ok(ids)
}

// The numbers of the list of vias that holds: the last one.
#[tactic(auto, unfolding(crate::specs::Assembly::last_vias))]
fn last_vias(alloc: Global, names: &NameSet, lists: &[Marks]) -> Result<Option<Ids>, AllocError>
    requires { length names.now ≤ padstack_limit }
    ensures { IfOk result (λ x. x ≡ last_vias names.now lists.now) }
{
    match lists.get(lists.len().saturating_sub(1)) {
        None => Ok(None),
        Some(marks) => Ok(Some(numbers_of(alloc, names, marks.as_slice())?)),
    }
}

// The row of a class or of the structure's rule.
fn class_row(
    alloc: Global,
    names: &NameSet,
    name: Name,
    vias: &ViaLists,
    rule: &Rule,
) -> Result<ClassRow, AllocError>
    requires { length names.now ≤ padstack_limit }
    ensures { IfOk result (λ row. row ≡ class_row names.now name vias.now rule.now) }
{
    Ok(ClassRow {
        name,
        width: rule.width,
        vias: last_vias(alloc, names, vias.as_slice())?,
        clearances: rule.stated.copy()?,
    })
}

#[tactic(auto, unfolding(crate::specs::Assembly::class_rows))]
fn put_classes(
    alloc: Global,
    names: &NameSet,
    rows: &mut ClassRows,
    classes: &[Class],
) -> Result<(), AllocError>
    requires { length names.now ≤ padstack_limit }
    ensures { OnOk result (rows.new ≡ class_rows names.now rows.old classes.now) }
{
    for class in classes {
        let row = class_row(alloc, names, class.name.copy()?, &class.vias, &class.rule)?;
        rows.push(row)?;
    }
    Ok(())
}

/// The rows of the structure's rule, which is class 0, and of the classes.
pub fn class_rows_of(
    alloc: Global,
    names: &NameSet,
    structure: &Structure,
    network: &Network,
) -> Result<ClassRows, AllocError>
    requires { length names.now ≤ padstack_limit }
    ensures { IfOk result (λ rows. rows ≡ all_classes names.now structure.now network.now.classes) }
{
    let mut rows = Row::new(alloc);
    let name = Row::new(alloc);
    rows.push(class_row(alloc, names, name, &structure.vias, &structure.rule)?)?;
    put_classes(alloc, names, &mut rows, network.classes.as_slice())?;
    Ok(rows)
}

// Gives the net of a name the class, unless it has one.
fn name_net(nets: &NameSet, class: u32, classes: &mut [u32], mark: &Mark)
    requires { length classes.old ≡ length nets.now }
    ensures named { classes.new ≡ in_class classes.old class (place_of nets.now mark.now.name) }
    ensures same { length classes.new ≡ length nets.now }
{
    if let Some(place) = nets.place(mark.name.as_slice()) {
        if classes[place] == 0 {
            classes[place] = class;
        }
    }
}

#[tactic(auto, unfolding(dsn_network::specs::Networks::named_in))]
fn name_nets(nets: &NameSet, class: u32, classes: &mut [u32], marks: &[Mark])
    requires { length classes.old ≡ length nets.now }
    ensures named { classes.new ≡ named_in nets.now class classes.old marks.now }
    ensures same { length classes.new ≡ length nets.now }
{
    for mark in marks {
        name_net(nets, class, classes, mark);
    }
}

#[tactic(auto, unfolding(dsn_network::specs::Networks::classed))]
fn name_all(nets: &NameSet, numbers: &mut [u32], classes: &[Class])
    requires same { length numbers.old ≡ length nets.now }
    requires few { length classes.now < 2 ^ 32 }
    ensures { numbers.new ≡ classed nets.now 1 numbers.old classes.now }
{
    for i in 0..classes.len() {
        name_nets(nets, i as u32 + 1, numbers, classes[i].nets.as_slice());
    }
}

/// The classes of the nets of a network, by their numbers; 0 for a net that no class names.
pub fn numbers_of_classes(alloc: Global, network: &Network) -> Result<Vec<u32>, AllocError>
    requires { length network.now.classes < 2 ^ 32 }
    ensures { IfOk result (λ numbers. numbers.items ≡ classes_of network.now) }
{
    let mut numbers: Vec<u32> = Vec::new(alloc);
    numbers.resize(network.nets.len(), 0)?;
    name_all(&network.nets, &mut numbers, network.classes.as_slice());
    Ok(numbers)
}

fn net_row(alloc: Global, name: &[u8], class: Option<&u32>) -> Result<NetRow, AllocError>
    ensures { IfOk result (λ row. row ≡ row_at (Some name.now) (option_copied class.entry)) }
{
    let class = match class {
        None => 0,
        Some(class) => *class,
    };
    Ok(NetRow {
        name: Row::from_slice(alloc, name)?,
        class,
    })
}

/// The rows of nets, each with its class, which is 0 for those behind the classes.
#[tactic(auto, unfolding(crate::specs::Assembly::net_rows))]
pub fn net_rows_of(alloc: Global, nets: &NameSet, classes: &[u32]) -> Result<NetRows, AllocError>
    ensures { IfOk result (λ rows. rows ≡ net_rows (length nets.now) nets.now classes.now) }
{
    let mut rows = Row::new(alloc);
    for i in 0..nets.len() {
        rows.push(net_row(alloc, nets.name(i), classes.get(i))?)?;
    }
    Ok(rows)
}

/// The names of a set in their order.
#[tactic(auto, using(crate::proofs::Drops::one_more))]
pub fn names_of(alloc: Global, set: &NameSet) -> Result<Names, AllocError>
    ensures { IfOk result (λ names. names ≡ set.now) }
{
    let mut names = Row::new(alloc);
    for i in 0..set.len() {
        names.push(Row::from_slice(alloc, set.name(i))?)?;
    }
    Ok(names)
}
