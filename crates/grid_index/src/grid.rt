//! The grid.
ghost use Rattle.std.specs.Prelude.{◌≡◌, ◌<◌, ◌↔◌, ℕ, [], length, IfOk, IfSome, OnOk, Any};
ghost use Rattle.std.specs.List.{Contains};
ghost use Rattle.seg_geometry.specs.Near.{IsNear};
ghost use Rattle.grid_index.specs.Cells.{level_count, shift_of, IsFitting};
ghost use Rattle.grid_index.specs.Levels.{cell_key, IsInCell, LevelsKeep, LevelsKeepOthers};

use crate::cell_search::look;
use crate::cells::{LEVELS, USUAL_LEVEL, cell_of, is_fitting, key_of, level_of, shift_of};
use near_slots::{Buckets, Search, Shelf, Spot, rising};
use seg_geometry::{Filed, Ids, Near, Rect};
use std::alloc::{AllocError, Global};
use std::marker::Model;

/// How many spots a cell may have before others are put into finer ones.
const CROWD: usize = 64;

/// Rectangles in the cells of a plane. A rectangle stands in one cell, that of its corner with the least coordinates, at a
/// size of cells at which it reaches no farther than the next column and row.
#[derive(Debug, Drop)]
pub struct Grid {
    shelf: Shelf,
    levels: Vec<Buckets>,
}

impl Model for Grid {
    ghost use Rattle.std.specs.Prelude.{List};
    ghost use Rattle.seg_geometry.specs.declared.near.Filed.{Filed};
    ghost use Rattle.near_slots.specs.Slots.{filed_in};
    ghost use Rattle.grid_index.specs.Levels.{AreInCells};

    ghost Value = { List Filed };

    ghost view = { λ g. filed_in g.shelf };

    ghost invariant = { λ g. AreInCells g.levels.items g.shelf };
}

fn new_levels(alloc: Global) -> Result<Vec<Buckets>, AllocError>
    ensures { IfOk result (λ levels. length levels.items ≡ level_count) }
{
    let mut levels = Vec::new(alloc);
    for _ in 0..LEVELS {
        levels.push(Buckets::new(alloc, 1)?)?;
    }
    Ok(levels)
}

// The key of a rectangle's cell at a level.
fn key_at(level: usize, filed: Filed) -> u64
    requires { level < level_count }
    ensures { result ≡ cell_key (shift_of level) filed }
{
    let (column, row) = cell_of(shift_of(level), filed.rect.lo);
    key_of(filed.layer, column, row)
}

// The next finer level, where a rectangle's cell at this one is crowded and it fits there too.
fn finer_level(levels: &[Buckets], filed: Filed, level: usize) -> Option<usize>
    requires complete { length levels.now ≡ level_count }
    requires there { level < level_count }
    ensures there { IfSome result (λ l. l < level_count) }
    ensures fitting { IfSome result (λ l. IsFitting (shift_of l) filed.rect) }
{
    let next = level.checked_sub(1)?;
    if levels[level].bucket(key_at(level, filed)).len() <= CROWD {
        return None;
    }
    if !is_fitting(shift_of(next), filed.rect) {
        return None;
    }
    Some(next)
}

// The level at which a rectangle is put in: the usual one or the first at which it fits, but a finer one where its cell
// is crowded.
fn level_for(levels: &[Buckets], filed: Filed) -> usize
    requires { length levels.now ≡ level_count }
    ensures there { result < level_count }
    ensures fitting { IsFitting (shift_of result) filed.rect }
{
    let mut level = level_of(filed.rect);
    for _ in 0..USUAL_LEVEL {
        match finer_level(levels, filed, level) {
            None => return level,
            Some(finer) => level = finer,
        }
    }
    level
}

// Puts a slot into its cell. What stands in cells stays there, also after an `Err`, which is want of memory.
fn put_in_cell(levels: &mut Vec<Buckets>, filed: Filed, slot: usize) -> Result<(), AllocError>
    requires { length levels.old.items ≡ level_count }
    ensures kept { LevelsKeep levels.old.items levels.new.items }
    ensures added { OnOk result (IsInCell levels.new.items filed slot) }
{
    let level = level_for(levels, filed);
    let key = key_at(level, filed);
    let cells = &mut levels[level];
    cells.put(Spot {
        key,
        slot,
        rect: filed.rect,
    })
}

// Takes a slot out of the cells in which it may stand. All others stay.
fn take_from_cells(levels: &mut Vec<Buckets>, filed: Filed, slot: usize)
    requires { length levels.old.items ≡ level_count }
    ensures { LevelsKeepOthers slot levels.old.items levels.new.items }
{
    let last = level_of(filed.rect);
    let first = if last == USUAL_LEVEL { 0 } else { last };
    for level in first..last + 1 {
        let key = key_at(level, filed);
        let cells = &mut levels[level];
        cells.remove(key, slot);
    }
}

impl Grid {
    /// An empty grid. Its one error is want of memory.
    pub fn new(alloc: Global) -> Result<Grid, AllocError>
        ensures { IfOk result (λ g. g ≡ []) }
    {
        Ok(Grid {
            shelf: Shelf::new(alloc)?,
            levels: new_levels(alloc)?,
        })
    }

    // The ids under which something near is filed, in any order and maybe more than once.
    fn found(&self, layer: u8, rect: Rect) -> Result<Vec<u32>, AllocError>
        ensures { IfOk result (λ ids. (id : ℕ) →
            Contains ids.items id ↔ Any (λ f. (f.id ≡ id) × IsNear layer rect f) self.now) }
    {
        let search = Search {
            shelf: &self.shelf,
            layer,
            rect,
        };
        let mut found = Vec::new(self.shelf.alloc());
        look(&search, &self.levels, &mut found)?;
        Ok(found)
    }
}

impl Near for Grid {
    ghost filed = { λ g. g };

    // The cell comes first: a spot of a slot that isn't filled is passed over.
    fn insert(&mut self, id: u32, layer: u8, rect: Rect) -> Result<(), AllocError> {
        let filed = Filed { id, layer, rect };
        put_in_cell(&mut self.levels, filed, self.shelf.len())?;
        self.shelf.push(filed)?;
        Ok(())
    }

    fn remove(&mut self, id: u32) {
        while let Some((slot, filed)) = self.shelf.take(id) {
            take_from_cells(&mut self.levels, filed, slot);
        }
    }

    fn query(&self, layer: u8, rect: Rect) -> Result<Ids, AllocError> {
        Ok(rising(self.found(layer, rect)?))
    }
}
