//! What each pair of classes states, for a look-up.
ghost use Rattle.std.specs.Prelude.{◌≡◌, [], Some, None, IfOk, OnOk, if◌then◌else◌};
ghost use Rattle.board_rules.specs.Classes.{is_one_smd};
ghost use Rattle.board_rules.specs.PairTables.{table_of, later_cells, later_table, cell_of, cells_of, value_by, most_in, most_of, pair_tables_of, key_of, put_row, put_rows, table_at};

use crate::design::{Kind, PairRow, Parts, Stated, What};
use crate::kinds::{is_one_smd, or_else, value_of};
use crate::names::numbers_of;
use indexmap::IndexMap;
use row_lists::Row;
use std::alloc::{AllocError, Global};
use std::marker::Model;

/// What is stated for a kind and each other one, in nm.
#[derive(Clone, Copy, Debug)]
pub(crate) struct KindCells {
    pub wire: Option<u32>,
    pub via: Option<u32>,
    pub pin: Option<u32>,
    pub smd: Option<u32>,
}

/// What is stated for each thing, in nm.
#[derive(Clone, Copy, Debug)]
pub(crate) struct PairTable {
    pub wire: KindCells,
    pub via: KindCells,
    pub pin: KindCells,
    pub smd: KindCells,
    pub default_smd: Option<u32>,
    pub untyped: Option<u32>,
}

/// The tables of each two classes.
#[derive(Debug, Drop)]
pub(crate) struct PairTables {
    numbers: Row<usize>,
    tables: IndexMap<(usize, usize), PairTable>,
}

impl Model for PairTables {
    ghost use Rattle.std.specs.Prelude.{ℕ, List};
    ghost use Rattle.board_rules.specs.declared.pair_tables.PairTable.{PairTable};

    ghost Value = { List ℕ × List ((ℕ × ℕ) × PairTable) };

    ghost view = { λ t. (t.numbers, t.tables.entries) };
}

impl KindCells {
    // What is stated for a kind and this one.
    fn cell(self, kind: Kind) -> Option<u32>
        ensures { result ≡ cell_of self kind }
    {
        match kind {
            Kind::Wire => self.wire,
            Kind::Via => self.via,
            Kind::Pin => self.pin,
            Kind::Smd => self.smd,
        }
    }

    // With what later statements give a kind and each other one.
    fn with_rows(self, a: Kind, rows: &[Stated]) -> KindCells
        ensures { result ≡ later_cells rows.now a self }
    {
        let wire = value_of(rows, What::Pair { a, b: Kind::Wire });
        let via = value_of(rows, What::Pair { a, b: Kind::Via });
        let pin = value_of(rows, What::Pair { a, b: Kind::Pin });
        let smd = value_of(rows, What::Pair { a, b: Kind::Smd });
        KindCells {
            wire: or_else(wire, self.wire),
            via: or_else(via, self.via),
            pin: or_else(pin, self.pin),
            smd: or_else(smd, self.smd),
        }
    }

    fn most(self) -> u32
        ensures { result ≡ most_in self }
    {
        let wire = self.wire.unwrap_or(0);
        let via = self.via.unwrap_or(0);
        let pin = self.pin.unwrap_or(0);
        wire.max(via).max(pin.max(self.smd.unwrap_or(0)))
    }
}

impl PairTable {
    // The table of no statements.
    fn empty() -> PairTable
        ensures { result ≡ table_of [] }
    {
        let cells = KindCells {
            wire: None,
            via: None,
            pin: None,
            smd: None,
        };
        PairTable {
            wire: cells,
            via: cells,
            pin: cells,
            smd: cells,
            default_smd: None,
            untyped: None,
        }
    }

    // The table of the same statements and later ones.
    fn with_rows(self, rows: &[Stated]) -> PairTable
        ensures { result ≡ later_table rows.now self }
    {
        PairTable {
            wire: self.wire.with_rows(Kind::Wire, rows),
            via: self.via.with_rows(Kind::Via, rows),
            pin: self.pin.with_rows(Kind::Pin, rows),
            smd: self.smd.with_rows(Kind::Smd, rows),
            default_smd: or_else(value_of(rows, What::DefaultSmd), self.default_smd),
            untyped: or_else(value_of(rows, What::Untyped), self.untyped),
        }
    }

    fn cells(self, kind: Kind) -> KindCells
        ensures { result ≡ cells_of self kind }
    {
        match kind {
            Kind::Wire => self.wire,
            Kind::Via => self.via,
            Kind::Pin => self.pin,
            Kind::Smd => self.smd,
        }
    }

    // What is stated for one pad on one layer, where exactly one of the two is such a pad.
    fn smd_value(self, k: Kind, l: Kind) -> Option<u32>
        ensures { result ≡ (if is_one_smd k l then self.default_smd else None) }
    {
        if is_one_smd(k, l) {
            self.default_smd
        } else {
            None
        }
    }

    // What the statements give two kinds.
    pub(crate) fn value(self, k: Kind, l: Kind) -> Option<u32>
        ensures { result ≡ value_by self k l }
    {
        let typed = or_else(self.cells(k).cell(l), self.smd_value(k, l));
        or_else(typed, self.untyped)
    }

    // The largest value that the statements state.
    pub(crate) fn most(self) -> u32
        ensures { result ≡ most_of self }
    {
        let general = self.untyped.unwrap_or(0).max(self.default_smd.unwrap_or(0));
        let wire = self.wire.most();
        let via = self.via.most();
        let pin = self.pin.most();
        general.max(wire.max(via).max(pin.max(self.smd.most())))
    }
}

// The numbers of the names of two classes, the lower one first; none where a class isn't there.
fn key_of(numbers: &Row<usize>, c: u32, d: u32) -> Option<(usize, usize)>
    ensures { result ≡ key_of numbers.now c d }
{
    let one = *numbers.as_slice().get(c as usize)?;
    let other = *numbers.as_slice().get(d as usize)?;
    Some((one.min(other), one.max(other)))
}

// The table of a key, else an empty one.
fn table_of(tables: &IndexMap<(usize, usize), PairTable>, key: (usize, usize)) -> PairTable
    ensures { result ≡ table_at tables.now.entries (Some key) }
{
    match tables.get(&key) {
        Some(table) => *table,
        None => PairTable::empty(),
    }
}

// Puts what a row states behind what the rows before it state.
fn add_row(
    tables: &mut IndexMap<(usize, usize), PairTable>,
    numbers: &Row<usize>,
    row: &PairRow,
) -> Result<(), AllocError>
    ensures { OnOk result (tables.new.entries ≡ put_row (key_of numbers.now row.now.a row.now.b) row.now.clearances tables.old.entries) }
{
    let Some(key) = key_of(numbers, row.a, row.b) else {
        return Ok(());
    };
    let table = table_of(tables, key).with_rows(row.clearances.as_slice());
    tables.insert(key, table)?;
    Ok(())
}

// The table of each two names that a row is of.
fn make_tables(
    alloc: Global,
    numbers: &Row<usize>,
    rows: &[PairRow],
) -> Result<IndexMap<(usize, usize), PairTable>, AllocError>
    ensures { IfOk result (λ tables. tables.entries ≡ put_rows numbers.now rows.now []) }
{
    let mut tables = IndexMap::new(alloc);
    for row in rows {
        add_row(&mut tables, numbers, row)?;
    }
    Ok(tables)
}

impl PairTables {
    // The tables of each two classes of a design. Its one error is want of memory.
    pub(crate) fn of_parts(parts: &Parts) -> Result<PairTables, AllocError>
        ensures { IfOk result (λ tables. tables ≡ pair_tables_of parts.now) }
    {
        let alloc = parts.classes.allocator();
        let numbers = numbers_of(alloc, parts.classes.as_slice())?;
        let tables = make_tables(alloc, &numbers, parts.pairs.as_slice())?;
        Ok(PairTables { numbers, tables })
    }

    // The table of two classes.
    pub(crate) fn table(&self, c: u32, d: u32) -> PairTable
        ensures { result ≡ table_at self.now.1 (key_of self.now.0 c d) }
    {
        match key_of(&self.numbers, c, d) {
            Some(key) => table_of(&self.tables, key),
            None => PairTable::empty(),
        }
    }
}
