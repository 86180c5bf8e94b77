//! Rows that go, each from its index.

ghost use Rattle.std.specs.Prelude.{◌≡◌, ◌≤◌, ◌+◌, ◌<◌, ◌^◌, IfOk, OnErr, OnOk, length, vec_capacity, vec_len};
ghost use Rattle.doc_model.specs.Column.{column_id};
ghost use Rattle.doc_model.specs.Document.{on_grid};
ghost use Rattle.doc_model.specs.Grid.{IsGrid};
ghost use Rattle.doc_model.specs.Records.{remove_rows};
ghost use Rattle.doc_model.specs.Rows.{IsAscending};
ghost use Rattle.row_tables.specs.InPlace.{beside_left, cells_again, on_rows, rows_again, rows_left};
ghost use Rattle.column_store.specs.Crossed.{AreRooms};
ghost use Rattle.column_store.specs.Changes.{AreWide, HasRoom, rows_gone};

use crate::columns::CellColumns;
use crate::in_place::{insert_reserved, move_to};
use crate::rooms::rooms_for;
use crate::table::ColumnTable;
use cell_types::CellValue;
use doc_model::search_row;
use std::alloc::AllocError;
use std::marker::Model;

/// A row that is gone, its index, and its cells. It is seen as one of `row_tables`.
#[derive(Drop)]
pub(crate) struct TakenRow {
    pub(crate) index: usize,
    pub(crate) row: u32,
    pub(crate) cells: Vec<CellValue>,
}

impl Model for TakenRow {
    ghost use Rattle.row_tables.specs.declared.removed.TakenRow.{TakenRow as Seen};

    ghost Value = { Seen };

    ghost view = { λ t. record { index = t.index; row = t.row; cells = t.cells.items } };
}

/// Rows that are gone, and the room that they come back to.
#[derive(Drop)]
pub(crate) struct TakenRows {
    pub(crate) taken: Vec<TakenRow>,
    pub(crate) rows: Vec<u32>,
    pub(crate) cells: Vec<Vec<CellValue>>,
}

// Takes rows out, and notes them with their cells, for which lists are given.
fn take_out(
    rows: &mut Vec<u32>,
    cells: &mut CellColumns,
    gone: &[u32],
    lists: Vec<Vec<CellValue>>,
    taken: &mut Vec<TakenRow>,
)
    requires ascending { IsAscending rows.old.items }
    requires beside { length cells.old.rows ≡ vec_len rows.old }
    requires none { vec_len taken.old ≡ 0 }
    requires room { length gone.now ≤ vec_capacity taken.old }
    requires lists { AreRooms cells.old.width lists.items }
    requires enough { length lists.items ≡ length gone.now }
    ensures rows { rows.new.items ≡ rows_left gone.now rows.old.items }
    ensures cells { cells.new.rows ≡ beside_left gone.now rows.old.items cells.old.rows }
    ensures rows_back { rows_again taken.new.items rows.new.items ≡ rows.old.items }
    ensures cells_back { cells_again taken.new.items cells.new.rows ≡ cells.old.rows }
    ensures rows_len { vec_len rows.new + vec_len taken.new ≡ vec_len rows.old }
    ensures beside { length cells.new.rows ≡ vec_len rows.new }
    ensures width { cells.new.width ≡ cells.old.width }
    ensures wide { AreWide cells.old.width taken.new.items }
{
    let mut lists = lists;
    for row in gone {
        let Some(list) = lists.pop() else {
            unreachable!()
        };
        if let Ok(index) = search_row(rows, *row) {
            let row = rows.remove(index);
            let cells = cells.take_row(index, list);
            taken.push_reserved(TakenRow { index, row, cells });
        }
    }
}

// Puts rows and their cells in again, the last one first.
fn put_again(rows: &mut Vec<u32>, cells: &mut CellColumns, taken: Vec<TakenRow>)
    requires rows_room { vec_len rows.old + vec_len taken ≤ vec_capacity rows.old }
    requires cells_room { vec_len taken ≤ cells.old.room }
    requires few { cells.old.room + length cells.old.rows < 2 ^ 63 }
    requires wide { AreWide cells.old.width taken.items }
    ensures rows { rows.new.items ≡ rows_again taken.items rows.old.items }
    ensures cells { cells.new.rows ≡ cells_again taken.items cells.old.rows }
    ensures width { cells.new.width ≡ cells.old.width }
{
    let mut taken = taken;
    while let Some(last) = taken.pop() {
        insert_reserved(rows, last.index, last.row);
        cells.insert_row(last.index, last.cells);
    }
}

impl ColumnTable {
    /// Takes these rows out, and gives them with the room that they come back to.
    ///
    /// Errors: out of memory. Memory: room for all cells of the table.
    pub(crate) fn take_rows(&mut self, gone: &[u32]) -> Result<TakenRows, AllocError>
        requires ascending { IsAscending self.old.grid.rows }
        requires height { length self.old.grid.cells ≡ length self.old.grid.rows }
        ensures ok { OnOk result (self.new ≡ on_grid (rows_gone gone.now) self.old) }
        ensures back { IfOk result
            (λ back. on_grid
            (on_rows (rows_again back.taken.items) (cells_again back.taken.items)) self.new
            ≡ self.old) }
        ensures fit { IfOk result (λ back. HasRoom back self.new.grid) }
        ensures err { OnErr result (self.new ≡ self.old) }
    {
        let alloc = self.alloc();
        let mut taken = Vec::with_capacity(alloc, gone.len())?;
        let rows = Vec::with_capacity(alloc, self.rows.len())?;
        let cells = rooms_for(alloc, self.columns.len(), self.rows.len())?;
        let lists = rooms_for(alloc, gone.len(), self.columns.len())?;
        take_out(&mut self.rows, &mut self.cells, gone, lists, &mut taken);
        Ok(TakenRows { taken, rows, cells })
    }

    /// Removes rows, and gives them with the room that they come back to.
    ///
    /// Errors: out of memory. Memory: room for all cells of the table.
    pub(crate) fn remove_rows(&mut self, gone: &[u32]) -> Result<TakenRows, AllocError>
        requires { IsGrid column_id self.old.grid }
        ensures ok { OnOk result (self.new ≡ on_grid (remove_rows column_id gone.now) self.old) }
        ensures back { IfOk result
            (λ back. on_grid
            (on_rows (rows_again back.taken.items) (cells_again back.taken.items)) self.new
            ≡ self.old) }
        ensures fit { IfOk result (λ back. HasRoom back self.new.grid) }
        ensures err { OnErr result (self.new ≡ self.old) }
    {
        Ok(self.take_rows(gone)?)
    }

    /// Puts rows in again, the last one first.
    ///
    /// Memory: none.
    pub(crate) fn put_rows_again(&mut self, back: TakenRows)
        requires { HasRoom back self.old.grid }
        ensures { self.new
            ≡ on_grid (on_rows (rows_again back.taken.items)
            (cells_again back.taken.items)) self.old }
    {
        let more = back.taken.len();
        move_to(&mut self.rows, back.rows);
        self.cells.move_to(back.cells, more);
        put_again(&mut self.rows, &mut self.cells, back.taken);
    }
}
