//! The design that a board is made of.
ghost use Rattle.std.specs.Prelude.{◌≡◌, ◌<◌, ◌≤◌, ◌^◌, length, slice_get, Some, IfOk, IfSome};
ghost use Rattle.row_lists.specs.Limits.{width_limit_nm};
ghost use Rattle.board_rules.specs.Designs.{IsSound};
ghost use Rattle.board_rules.specs.OneProof.{IsSound-prop};
ghost use Rattle.board_rules.specs.Classes.{untyped_of};
ghost use Rattle.board_rules.specs.Needs.{largest_stated, largest_of};
ghost use Rattle.board_rules.specs.Tables.{tables_of};
ghost use Rattle.board_rules.specs.PairTables.{pair_tables_of};
ghost use Rattle.board_rules.specs.Rules.{under, IsFitView};
ghost use Rattle.std.proofs.Props.{props};

use crate::clearances::{Rules, RulesView};
use crate::largest::largest_stated;
use crate::pair_tables::PairTables;
use crate::tables::{KindTable, tables_of};
use board_items::{Items, Stacks};
use layout_io::Name;
use row_lists::{Copied, Row};
use seg_geometry::{Ids, Points};
use std::alloc::AllocError;

/// Names in the design's order.
pub type Names = Row<Name>;

/// Areas, each by the points of its ring, in nm.
pub type Areas = Row<Points>;

/// The kind of an item for a clearance. A pad is `Smd` where its shapes lie on exactly one layer, else `Pin`.
#[derive(Clone, Copy, Debug)]
pub enum Kind {
    Wire,
    Via,
    Pin,
    Smd,
}

/// What a clearance is stated for.
#[derive(Clone, Copy, Debug)]
pub enum What {
    /// All for which nothing closer is stated.
    Untyped,
    /// Two items of which exactly one is a pad on one layer.
    DefaultSmd,
    /// Items of these two kinds, in either order.
    Pair { a: Kind, b: Kind },
}

/// A clearance in nm, 0 to 100,000,000, and what it is stated for.
#[derive(Clone, Copy, Debug)]
pub struct Stated {
    pub what: What,
    pub value: u32,
}

impl Copied for Stated {
    fn copied(&self) -> Result<Stated, AllocError> {
        Ok(*self)
    }
}

/// Stated clearances in the design's order. Of those that state the same thing the last one holds.
pub type StatedRows = Row<Stated>;

/// What holds for the nets of a class. A class that states no width, and no list of vias, has the structure's.
#[derive(Debug, Drop)]
pub struct ClassRow {
    pub name: Name,
    /// The least width of a wire that a client adds, in nm, 0 to 100,000,000.
    pub width: Option<u32>,
    /// The padstacks that its vias may have.
    pub vias: Option<Ids>,
    pub clearances: StatedRows,
}

/// Classes in the design's order. Class 0 is the structure's rule, with an empty name.
pub type ClassRows = Row<ClassRow>;

/// What two classes must keep from each other, in place of what each of them states: for the pair of their names, so that
/// all classes of these names are such a pair.
#[derive(Debug, Drop)]
pub struct PairRow {
    pub a: u32,
    pub b: u32,
    pub clearances: StatedRows,
}

/// Pairs of classes in the design's order. Of those that state the same thing for the same two names the last one holds.
pub type PairRows = Row<PairRow>;

/// A net and its class, which is 0 where no class names it.
#[derive(Debug, Drop)]
pub struct NetRow {
    pub name: Name,
    pub class: u32,
}

/// Nets in the design's order.
pub type NetRows = Row<NetRow>;

/// What a design is made of. Layers, padstacks, nets and classes are numbered from 0 in these orders.
#[derive(Debug, Drop)]
pub struct Parts {
    pub name: Name,
    pub layers: Names,
    pub stacks: Stacks,
    pub nets: NetRows,
    pub classes: ClassRows,
    /// What holds between two classes.
    pub pairs: PairRows,
    /// The areas in which copper has to lie; without one it may lie anywhere.
    pub outline: Areas,
    /// The loaded items in the order of their numbers.
    pub items: Items,
}

/// A design. It is sound: each number names a thing that is there, and all is within the limits. Beside its parts it
/// keeps what its classes state for a look-up.
#[derive(Debug, Drop)]
pub struct Design {
    pub(crate) parts: Parts,
    pub(crate) tables: Row<KindTable>,
    pub(crate) pairs: PairTables,
    start: Rules,
    largest: u32,
    pub ghost sound: { IsSound parts } by { IsSound-prop parts },
    ghost tabled: { tables ≡ tables_of parts.classes } by { Prim.hlevel props },
    ghost paired: { pairs ≡ pair_tables_of parts } by { Prim.hlevel props },
    ghost start_is: { start ≡ untyped_of parts } by { Prim.hlevel props },
    ghost largest_is: { largest ≡ largest_stated parts },
}

impl Design {
    /// The design of its parts. Its one error is want of memory.
    pub fn of_parts(parts: Parts) -> Result<Design, AllocError>
        requires { IsSound parts }
        ensures { IfOk result (λ d. d.parts ≡ parts) }
    {
        let alloc = parts.classes.allocator();
        let tables = tables_of(alloc, parts.classes.as_slice())?;
        let pairs = PairTables::of_parts(&parts)?;
        let start = Rules::of_parts(&parts)?;
        let largest = largest_stated(&parts, &pairs);
        Ok(Design {
            parts,
            tables,
            pairs,
            start,
            largest,
        })
    }

    /// What the design is made of.
    pub fn parts(&self) -> &Parts
        ensures { result.now ≡ self.now.parts }
    {
        &self.parts
    }

    /// The design's name.
    pub fn name(&self) -> &Name
        ensures { result.now ≡ self.now.parts.name }
    {
        &self.parts.name
    }

    /// The rules that a board of the design starts with: what its classes state. It takes no memory.
    pub fn start_rules(&self) -> &Rules
        ensures { result.now ≡ untyped_of self.now.parts }
    {
        &self.start
    }

    /// How many classes the design has, the structure's rule included.
    pub fn class_count(&self) -> u32
        ensures { result ≡ length self.now.parts.classes }
    {
        self.parts.classes.len() as u32
    }

    /// The largest clearance in nm under these rules, at least 1: of the rules, and of what a class states for more than
    /// all, or a pair of classes for anything. A statement that a later one of the same thing replaces states nothing. It
    /// takes no memory, and a look at each class's rule.
    pub fn largest_clearance(&self, rules: RulesView<'_>) -> u32
        requires { IsFitView self.now.parts rules }
        ensures largest { result ≡ largest_of self.now.parts (under rules.entry) }
        ensures limit { result ≤ width_limit_nm }
    {
        rules.keep_limits();
        self.largest.max(rules.largest())
    }

    /// How many layers the design has.
    pub fn layer_count(&self) -> u32
        ensures { result ≡ length self.now.parts.layers }
    {
        self.parts.layers.len() as u32
    }

    /// The name of the layer `i`, from 0.
    pub fn layer_name(&self, i: u32) -> &Name
        requires { i < length self.now.parts.layers }
        ensures { slice_get self.now.parts.layers i ≡ Some result.now }
    {
        self.parts.layers.get(i as usize)
    }

    /// How many nets the design has.
    pub fn net_count(&self) -> u32
        ensures { result ≡ length self.now.parts.nets }
    {
        self.parts.nets.len() as u32
    }

    /// The name of the net `i`, from 0.
    pub fn net_name(&self, i: u32) -> &Name
        requires { i < length self.now.parts.nets }
        ensures { IfSome (slice_get self.now.parts.nets i) (λ row. row.name ≡ result.now) }
    {
        &self.parts.nets.get(i as usize).name
    }

    /// The padstacks in the design's order.
    pub fn stacks(&self) -> &Stacks
        ensures { result.now ≡ self.now.parts.stacks }
    {
        &self.parts.stacks
    }

    /// The loaded items in the order of their numbers.
    pub fn items(&self) -> &Items
        ensures { result.now ≡ self.now.parts.items }
    {
        &self.parts.items
    }

    /// How many areas the outline has.
    pub fn outline_count(&self) -> u32
        ensures { result ≡ length self.now.parts.outline }
    {
        self.parts.outline.len() as u32
    }
}
