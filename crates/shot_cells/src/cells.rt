//! What is seen of cells, and the calls that change it.

ghost use Rattle.std.specs.Prelude.{◌≡◌, ℕ, List, length, OnOk};
ghost use Rattle.std.specs.List.{All};
ghost use Rattle.cell_types.specs.declared.value.CellValue.TheVariants.{Null};
ghost use Rattle.shot_cells.specs.Places.{HasPlace, MakesRoom, place_at, seen_at, with_all, with_each};

use crate::places::{TableValues, find_place, make_places, set_values, take_places};
use cell_types::{CellId, CellValue, Name};
use std::alloc::{AllocError, Global};
use std::collections::BTreeMap;

/// Values of cells by table, column and row. A cell may have a place, at which a value stands; what
/// is seen of a cell without a place is Null.
#[derive(Drop)]
pub struct ShotCells {
    tables: TableValues,
    // What is seen of a cell without a place.
    null: CellValue,
    ghost is_null: { null ≡ Null },
}

impl ShotCells {
    /// No cell has a place.
    ///
    /// Memory: none.
    pub fn new(alloc: Global) -> ShotCells
        ensures { (table : List ℕ) (column : List ℕ) (row : ℕ) →
            place_at result.tables table column row ≡ None }
    {
        ShotCells {
            tables: BTreeMap::new(alloc),
            null: CellValue::Null,
        }
    }

    /// The value of a cell, Null where it has no place.
    ///
    /// Memory: none. Cost: the logarithm of the tables, of the columns of one and of the rows.
    pub fn value(&self, table: &Name, column: &Name, row: u32) -> &CellValue
        ensures { result.now ≡ seen_at self.now.tables table.now column.now row }
    {
        match find_place(&self.tables, table, column, row) {
            Some(value) => value,
            None => &self.null,
        }
    }

    /// Makes a place, with Null, for each of the cells that has none. Nothing else is seen then,
    /// whatever it answers.
    ///
    /// Errors: out of memory; some of the cells may have a place then that had none.
    /// Memory: a place for each cell that has none. Cost: that of `value` for each.
    pub fn make_room(&mut self, alloc: Global, cells: &[CellId]) -> Result<(), AllocError>
        ensures placed { OnOk result (All (HasPlace self.new.tables) cells.now) }
        ensures room { MakesRoom (place_at self.old.tables) (place_at self.new.tables) }
        ensures seen { seen_at self.new.tables ≡ seen_at self.old.tables }
    {
        make_places(alloc, &mut self.tables, cells)
    }

    /// Sets the values of cells that have a place, each to the value beside it; where a cell stands
    /// twice, its first value counts.
    ///
    /// Memory: none. Cost: that of `value` for each.
    pub fn set_values(&mut self, cells: &[CellId], values: Vec<CellValue>)
        requires placed { All (HasPlace self.old.tables) cells.now }
        requires beside { length values.items ≡ length cells.now }
        ensures seen { seen_at self.new.tables
            ≡ with_all cells.now values.items (seen_at self.old.tables) }
        ensures places { (cell : CellId) → HasPlace self.old.tables cell
            → HasPlace self.new.tables cell }
    {
        set_values(&mut self.tables, cells, values);
    }

    /// Takes the places of cells away.
    ///
    /// Memory: none. Cost: that of `value` for each.
    pub fn take_away(&mut self, cells: &[CellId])
        ensures places { place_at self.new.tables
            ≡ with_each cells.now None (place_at self.old.tables) }
        ensures seen { seen_at self.new.tables
            ≡ with_each cells.now Null (seen_at self.old.tables) }
    {
        take_places(&mut self.tables, cells);
    }
}
