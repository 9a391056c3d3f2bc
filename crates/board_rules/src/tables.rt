//! Tables of what each class states for two kinds.
ghost use Rattle.std.specs.Prelude.{◌≡◌, ◌≤◌, IfOk, get_or, slice_get, None};
ghost use Rattle.board_rules.specs.Classes.{typed_value, untyped_in};
ghost use Rattle.board_rules.specs.Tables.{code_of, kind_table, place_of, cell_in, tables_of};

use crate::design::{ClassRow, Kind, Stated, What};
use crate::kinds::{typed_value, value_of};
use row_lists::Row;
use std::alloc::{AllocError, Global};

/// What a class states for each two kinds but for its untyped value, in nm, in the order of their places.
pub(crate) type KindTable = Row<Option<u32>>;

// The number of a kind.
fn code_of(k: Kind) -> usize
    ensures is { result ≡ code_of k }
    ensures small { result ≤ 3 }
{
    match k {
        Kind::Wire => 0,
        Kind::Via => 1,
        Kind::Pin => 2,
        Kind::Smd => 3,
    }
}

// What a table has for two kinds.
fn cell(table: &KindTable, k: Kind, l: Kind) -> Option<u32>
    ensures { result ≡ get_or table.now (place_of k l) None }
{
    match table.as_slice().get(code_of(k) * 4 + code_of(l)) {
        None => None,
        Some(value) => *value,
    }
}

// What the table of a class has for two kinds; none where there is no such class.
pub(crate) fn cell_at(tables: &Row<KindTable>, class: u32, k: Kind, l: Kind) -> Option<u32>
    ensures { result ≡ cell_in (slice_get tables.now class) k l }
{
    match tables.as_slice().get(class as usize) {
        None => None,
        Some(table) => cell(table, k, l),
    }
}

// The table of these statements.
fn kind_table(alloc: Global, rows: &[Stated]) -> Result<KindTable, AllocError>
    ensures { IfOk result (λ table. table ≡ kind_table rows.now) }
{
    let cells = [
        typed_value(rows, Kind::Wire, Kind::Wire),
        typed_value(rows, Kind::Wire, Kind::Via),
        typed_value(rows, Kind::Wire, Kind::Pin),
        typed_value(rows, Kind::Wire, Kind::Smd),
        typed_value(rows, Kind::Via, Kind::Wire),
        typed_value(rows, Kind::Via, Kind::Via),
        typed_value(rows, Kind::Via, Kind::Pin),
        typed_value(rows, Kind::Via, Kind::Smd),
        typed_value(rows, Kind::Pin, Kind::Wire),
        typed_value(rows, Kind::Pin, Kind::Via),
        typed_value(rows, Kind::Pin, Kind::Pin),
        typed_value(rows, Kind::Pin, Kind::Smd),
        typed_value(rows, Kind::Smd, Kind::Wire),
        typed_value(rows, Kind::Smd, Kind::Via),
        typed_value(rows, Kind::Smd, Kind::Pin),
        typed_value(rows, Kind::Smd, Kind::Smd),
    ];
    Row::from_slice(alloc, &cells)
}

// The table of each class.
pub(crate) fn tables_of(alloc: Global, classes: &[ClassRow]) -> Result<Row<KindTable>, AllocError>
    ensures { IfOk result (λ all. all ≡ tables_of classes.now) }
{
    let mut all = Row::new(alloc);
    for class in classes {
        all.push(kind_table(alloc, class.clearances.as_slice())?)?;
    }
    Ok(all)
}

// The untyped value of each class.
pub(crate) fn untyped_in(
    alloc: Global,
    classes: &[ClassRow],
) -> Result<Row<Option<u32>>, AllocError>
    ensures { IfOk result (λ all. all ≡ untyped_in classes.now) }
{
    let mut all = Row::new(alloc);
    for class in classes {
        all.push(value_of(class.clearances.as_slice(), What::Untyped))?;
    }
    Ok(all)
}
