//! A search through the cells in which something may stand that meets the asked rectangle.
ghost use Rattle.std.specs.Prelude.{◌≡◌, ◌<◌, ℕ, OnOk, length};
ghost use Rattle.near_slots.specs.Looks.{Adds};
ghost use Rattle.grid_index.specs.Cells.{level_count};
ghost use Rattle.grid_index.specs.Levels.{IsInColumn, IsInColumns, IsAsked, IsAskedBelow};

use crate::cells::{key_of, shift_of, span_of};
use near_slots::{Buckets, Search};
use std::alloc::AllocError;

/// Up to so many buckets it isn't asked whether the cells are fewer.
const FEW_BUCKETS: usize = 2;

// Looks in the cells of one column, in the rows from the first to before the second.
fn look_in_rows(
    search: &Search,
    cells: &Buckets,
    column: u64,
    rows: (u64, u64),
    found: &mut Vec<u32>,
) -> Result<(), AllocError>
    ensures { OnOk result (Adds search.now
        (IsInColumn cells.now search.now.layer column rows.0 rows.1)
        found.old.items found.new.items) }
{
    for row in rows.0..rows.1 {
        let key = key_of(search.layer, column, row);
        search.look_in(cells.bucket(key), found)?;
    }
    Ok(())
}

// Looks in the cells of some columns, from the first to before the second.
fn look_in_cells(
    search: &Search,
    cells: &Buckets,
    columns: (u64, u64),
    rows: (u64, u64),
    found: &mut Vec<u32>,
) -> Result<(), AllocError>
    ensures { OnOk result (Adds search.now
        (IsInColumns cells.now search.now.layer columns.0 columns.1 rows.0 rows.1)
        found.old.items found.new.items) }
{
    for column in columns.0..columns.1 {
        look_in_rows(search, cells, column, rows, found)?;
    }
    Ok(())
}

// Looks in the cells of one size in which something may stand that meets the rectangle, or at all that stands in
// cells of that size, where that is less.
fn look_by(
    search: &Search,
    cells: &Buckets,
    shift: u32,
    found: &mut Vec<u32>,
) -> Result<(), AllocError>
    requires above { 0 < shift }
    requires below { shift < 64 }
    ensures { OnOk result (Adds search.now
        (IsAsked cells.now search.now.layer shift search.now.rect)
        found.old.items found.new.items) }
{
    // A size of cells in which next to nothing stands takes one step.
    if cells.all().len() <= FEW_BUCKETS {
        return search.look_through(cells, found);
    }
    let columns = span_of(shift, search.rect.lo.x, search.rect.hi.x);
    let rows = span_of(shift, search.rect.lo.y, search.rect.hi.y);
    let wide = columns.1.saturating_sub(columns.0);
    let high = rows.1.saturating_sub(rows.0);
    if wide.saturating_mul(high) < cells.all().len() as u64 {
        look_in_cells(search, cells, columns, rows, found)
    } else {
        search.look_through(cells, found)
    }
}

/// Looks in the cells of all sizes. An `Err` is want of memory.
pub fn look(search: &Search, levels: &[Buckets], found: &mut Vec<u32>) -> Result<(), AllocError>
    requires { length levels.now ≡ level_count }
    ensures { OnOk result (Adds search.now
        (IsAskedBelow levels.now search.now.layer search.now.rect level_count)
        found.old.items found.new.items) }
{
    for (level, cells) in levels.iter().enumerate() {
        look_by(search, cells, shift_of(level), found)?;
    }
    Ok(())
}
