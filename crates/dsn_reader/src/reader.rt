//! Reads designs.
ghost use Rattle.std.specs.Prelude.{◌≡◌, ◌≤◌, ◌<◌, ◌^◌, IfOk, IfErr, List, ℕ, length};
ghost use Rattle.row_lists.specs.Limits.{padstack_limit};
ghost use Rattle.sexp_text.specs.Nodes.{size};
ghost use Rattle.sexp_text.specs.Trees.{tree_forest};
ghost use Rattle.board_rules.specs.Designs.{IsSound};
ghost use Rattle.board_rules.specs.declared.design.Design.{Design};
ghost use Rattle.dsn_lists.specs.declared.faults.DesignFault.{DesignFault};
ghost use Rattle.dsn_lists.specs.Results.{Gives};
ghost use Rattle.dsn_structure.specs.Limits.{IsFitStructure};
ghost use Rattle.dsn_library.specs.Limits.{IsFitLibrary};
ghost use Rattle.dsn_network.specs.Limits.{IsFitNetwork};
ghost use Rattle.dsn_reader.specs.Assembly.{rows_of, with_rows, assembled, gathered, wired, wired_of, behind_library, sections_of, parts_of};
ghost use Rattle.dsn_reader.specs.Design.{most_bytes, IsDesign, IsFirstFault, WhyNoDesign, IsReadAs, IsRefusedBy, IsTextWhy};

use crate::assembly::{check_vias, class_rows_of, names_of, net_rows_of, numbers_of_classes};
use crate::loaded::loaded_items;
use crate::pairs::pair_rows_of;
use crate::wiring::{Wiring, read_wiring};
use board_rules::{ClassRows, Design, Names, NetRows, PairRows, Parts};
use dsn_library::{Library, read_library};
use dsn_lists::{DesignKind, ReadWhy, Title, refused, title_of};
use dsn_network::{Network, read_network};
use dsn_placement::{Placement, read_placement};
use dsn_structure::{Structure, read_structure};
use row_lists::TEXT_LIMIT_BYTES;
use sexp_text::{TextFault, Tree, read_tree};
use std::alloc::{AllocError, Global};

// All that the sections of a design state.
#[derive(Drop)]
struct Sections {
    title: Title,
    structure: Structure,
    library: Library,
    placement: Placement,
    network: Network,
    /// The class of each net that the network has by itself.
    numbers: Vec<u32>,
    wiring: Wiring,
}

// A text fault as the fault of a design.
fn text_why(why: TextFault) -> ReadWhy
    ensures { IsTextWhy why result }
{
    match why {
        TextFault::Quote { at } => refused(DesignKind::Quote, at),
        TextFault::Unclosed { at } => refused(DesignKind::Unclosed, at),
        TextFault::Unopened { at } => refused(DesignKind::Unopened, at),
        TextFault::Deep { at } => refused(DesignKind::Deep, at),
        TextFault::Memory => ReadWhy::Memory,
    }
}

// The rows of a design that are copies of what its sections state.
#[derive(Drop)]
struct Laid {
    layers: Names,
    nets: NetRows,
    classes: ClassRows,
    pairs: PairRows,
}

// The rows of layers, nets, classes and pairs of classes. Its one error is want of memory.
fn rows_of(alloc: Global, stated: &Sections) -> Result<Laid, AllocError>
    requires names { length stated.now.library.names ≤ padstack_limit }
    requires few { length stated.now.network.classes < 2 ^ 32 }
    ensures { IfOk result (λ laid. laid ≡ rows_of (gathered stated.now)) }
{
    let structure = &stated.structure;
    let network = &stated.network;
    Ok(Laid {
        layers: names_of(alloc, &structure.layers)?,
        nets: net_rows_of(alloc, &network.nets, &stated.numbers)?,
        classes: class_rows_of(alloc, &stated.library.names, structure, network)?,
        pairs: pair_rows_of(alloc, network)?,
    })
}

// The design of these rows, with the padstacks, the outline and the items that the sections give away. Its one error is
// want of memory.
fn with_rows(stated: Sections, laid: Laid) -> Result<Parts, AllocError>
    ensures { IfOk result (λ parts. parts ≡ with_rows (gathered stated) laid) }
{
    let Sections {
        title,
        structure,
        library,
        placement,
        network,
        wiring,
        ..
    } = stated;
    let items = loaded_items(
        structure.keeps,
        &network.pins,
        placement.parts,
        wiring.items,
    )?;
    Ok(Parts {
        name: title.name,
        layers: laid.layers,
        stacks: library.stacks,
        nets: laid.nets,
        classes: laid.classes,
        pairs: laid.pairs,
        outline: structure.outline,
        items,
    })
}

// The design of what its sections state. Its one error is want of memory.
#[tactic(auto, using(crate::proofs::AssemblyLaws::if_assembled))]
fn assemble(alloc: Global, stated: Sections) -> Result<Parts, AllocError>
    requires names { length stated.library.names ≤ padstack_limit }
    requires few { length stated.network.classes < 2 ^ 32 }
    ensures { IfOk result (λ parts. parts ≡ assembled (gathered stated)) }
{
    let laid = rows_of(alloc, &stated)?;
    with_rows(stated, laid)
}

// The wiring and the class of each net, where each name in a list of vias is a padstack's.
#[tactic(auto, unfolding(crate::specs::Assembly::wired_of))]
fn wired_of(
    alloc: Global,
    tree: &Tree,
    structure: &Structure,
    library: &Library,
    network: &mut Network,
) -> Result<(Vec<u32>, Wiring), ReadWhy>
    requires structure { IsFitStructure structure.now }
    requires library { IsFitLibrary (length structure.now.layers) library.now }
    requires network { IsFitNetwork network.old }
    requires few { length network.old.classes < 2 ^ 32 }
    ensures wired { Gives (wired network.new.nets) result (wired_of (tree_forest tree.now) structure.now library.now network.old) }
    ensures classes { network.new.classes ≡ network.old.classes }
    ensures pins { network.new.pins ≡ network.old.pins }
    ensures pairs { network.new.pairs ≡ network.old.pairs }
{
    let numbers = numbers_of_classes(alloc, network)?;
    let wiring = read_wiring(alloc, tree, structure, library, network)?;
    check_vias(&library.names, structure, network)?;
    Ok((numbers, wiring))
}

// All that the sections state behind the structure and the library.
#[tactic(auto, unfolding(crate::specs::Assembly::behind_library))]
fn behind_library(
    alloc: Global,
    tree: &Tree,
    title: Title,
    structure: Structure,
    library: Library,
) -> Result<Sections, ReadWhy>
    requires size { size (tree_forest tree.now) ≤ most_bytes }
    requires structure { IsFitStructure structure }
    requires library { IsFitLibrary (length structure.layers) library }
    ensures stated { Gives gathered result (behind_library (tree_forest tree.now) title.name structure library) }
    ensures names { IfOk result (λ stated. length stated.library.names ≤ padstack_limit) }
    ensures few { IfOk result (λ stated. length stated.network.classes < 2 ^ 32) }
{
    let placement = read_placement(alloc, tree, &structure, &library)?;
    let mut network = read_network(alloc, tree, &placement, &library)?;
    match wired_of(alloc, tree, &structure, &library, &mut network) {
        Ok((numbers, wiring)) => Ok(Sections {
            title,
            structure,
            library,
            placement,
            network,
            numbers,
            wiring,
        }),
        Err(why) => Err(why),
    }
}

// All that the sections state.
#[tactic(auto, unfolding(crate::specs::Assembly::sections_of))]
fn sections_of(alloc: Global, tree: &Tree) -> Result<Sections, ReadWhy>
    requires { size (tree_forest tree.now) ≤ most_bytes }
    ensures stated { Gives gathered result (sections_of (tree_forest tree.now)) }
    ensures names { IfOk result (λ stated. length stated.library.names ≤ padstack_limit) }
    ensures few { IfOk result (λ stated. length stated.network.classes < 2 ^ 32) }
{
    let title = title_of(alloc, tree)?;
    let structure = read_structure(alloc, tree)?;
    let library = read_library(alloc, tree, &structure)?;
    behind_library(alloc, tree, title, structure, library)
}

#[tactic(auto, unfolding(crate::specs::Assembly::parts_of))]
fn parts_of(alloc: Global, tree: &Tree) -> Result<Parts, ReadWhy>
    requires { size (tree_forest tree.now) ≤ most_bytes }
    ensures { Gives (λ x. x) result (parts_of (tree_forest tree.now)) }
{
    let stated = sections_of(alloc, tree)?;
    Ok(assemble(alloc, stated)?)
}

#[tactic(auto, using(crate::proofs::Fits::sound_if_given))]
fn sound_parts(alloc: Global, tree: &Tree) -> Result<Parts, ReadWhy>
    requires { size (tree_forest tree.now) ≤ most_bytes }
    ensures parts { Gives (λ x. x) result (parts_of (tree_forest tree.now)) }
    ensures sound { IfOk result IsSound }
{
    parts_of(alloc, tree)
}

fn design_of(alloc: Global, tree: &Tree) -> Result<Design, ReadWhy>
    requires { size (tree_forest tree.now) ≤ most_bytes }
    ensures states { Gives (λ d. d.parts) result (parts_of (tree_forest tree.now)) }
{
    let parts = sound_parts(alloc, tree)?;
    Ok(Design::of_parts(parts)?)
}

// The design of a text that isn't too long.
#[tactic(auto, using(crate::proofs::Readings::found_if, crate::proofs::Readings::fault_if, crate::proofs::Readings::only_if, crate::proofs::Readings::first_if, crate::proofs::Readings::no_only_if, crate::proofs::Readings::no_fault_if, crate::proofs::Readings::no_first_if))]
fn read_short(alloc: Global, bytes: &[u8]) -> Result<Design, ReadWhy>
    requires { length bytes.now ≤ most_bytes }
    ensures found { IfOk result (IsDesign bytes.now) }
    ensures only { (d : Design) → IsDesign bytes.now d → IsReadAs result d }
    ensures fault { IfErr result (WhyNoDesign bytes.now) }
    ensures first { (e : DesignFault) → IsFirstFault bytes.now e → IsRefusedBy result e }
{
    match read_tree(alloc, bytes) {
        Ok(tree) => design_of(alloc, &tree),
        Err(why) => Err(text_why(why)),
    }
}

/// The design of a text, or its first fault.
#[tactic(auto, using(crate::proofs::Readings::long_only_if, crate::proofs::Readings::long_first_if))]
pub fn read_design(alloc: Global, bytes: &[u8]) -> Result<Design, ReadWhy>
    // What is read is the design that the text states.
    ensures found { IfOk result (IsDesign bytes.now) }
    // A design that the text states is read, unless memory runs out.
    ensures only { (d : Design) → IsDesign bytes.now d → IsReadAs result d }
    // What is told is the text's first fault.
    ensures fault { IfErr result (WhyNoDesign bytes.now) }
    // The first fault is told, unless memory runs out.
    ensures first { (e : DesignFault) → IsFirstFault bytes.now e → IsRefusedBy result e }
{
    if bytes.len() > TEXT_LIMIT_BYTES {
        return Err(refused(DesignKind::Large, TEXT_LIMIT_BYTES as u32));
    }
    read_short(alloc, bytes)
}
