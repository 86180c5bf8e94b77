//! Rows that go, each from its index.

ghost use Rattle.std.specs.Prelude.{◌≡◌, ◌≤◌, ◌+◌, IfOk, OnErr, OnOk, length, vec_capacity, vec_len};
ghost use Rattle.doc_model.specs.Column.{column_id};
ghost use Rattle.doc_model.specs.Document.{on_grid};
ghost use Rattle.doc_model.specs.Grid.{IsGrid};
ghost use Rattle.doc_model.specs.Records.{remove_rows};
ghost use Rattle.doc_model.specs.Rows.{IsAscending};
ghost use Rattle.row_tables.specs.InPlace.{beside_left, cells_again, HasRoom, on_rows, rows_again, rows_left};

use crate::RowTable;
use crate::in_place::{insert_reserved, move_to};
use cell_types::ValueList;
use doc_model::search_row;
use std::alloc::AllocError;

/// A row that is gone, its index, and its cells.
#[derive(Drop)]
pub(crate) struct TakenRow {
    pub(crate) index: usize,
    pub(crate) row: u32,
    pub(crate) cells: ValueList,
}

/// Rows that are gone, and the room that they come back to.
#[derive(Drop)]
pub(crate) struct TakenRows {
    pub(crate) taken: Vec<TakenRow>,
    pub(crate) rows: Vec<u32>,
    pub(crate) cells: Vec<ValueList>,
}

// Takes rows out, and notes them with their cells.
fn take_out(
    rows: &mut Vec<u32>,
    cells: &mut Vec<ValueList>,
    gone: &[u32],
    taken: &mut Vec<TakenRow>,
)
    requires ascending { IsAscending rows.old.items }
    requires beside { vec_len cells.old ≡ vec_len rows.old }
    requires none { vec_len taken.old ≡ 0 }
    requires room { length gone.now ≤ vec_capacity taken.old }
    ensures rows { rows.new.items ≡ rows_left gone.now rows.old.items }
    ensures cells { cells.new.items ≡ beside_left gone.now rows.old.items cells.old.items }
    ensures rows_back { rows_again taken.new.items rows.new.items ≡ rows.old.items }
    ensures cells_back { cells_again taken.new.items cells.new.items ≡ cells.old.items }
    ensures rows_len { vec_len rows.new + vec_len taken.new ≡ vec_len rows.old }
    ensures cells_len { vec_len cells.new + vec_len taken.new ≡ vec_len cells.old }
{
    for row in gone {
        if let Ok(index) = search_row(rows, *row) {
            let row = rows.remove(index);
            let cells = cells.remove(index);
            taken.push_reserved(TakenRow { index, row, cells });
        }
    }
}

// Puts rows and their cells in again, the last one first.
fn put_again(rows: &mut Vec<u32>, cells: &mut Vec<ValueList>, taken: Vec<TakenRow>)
    requires rows_room { vec_len rows.old + vec_len taken ≤ vec_capacity rows.old }
    requires cells_room { vec_len cells.old + vec_len taken ≤ vec_capacity cells.old }
    ensures rows { rows.new.items ≡ rows_again taken.items rows.old.items }
    ensures cells { cells.new.items ≡ cells_again taken.items cells.old.items }
{
    let mut taken = taken;
    while let Some(last) = taken.pop() {
        insert_reserved(rows, last.index, last.row);
        insert_reserved(cells, last.index, last.cells);
    }
}

impl RowTable {
    /// Takes these rows out, and gives them with the room that they come back to.
    pub(crate) fn take_rows(&mut self, gone: &[u32]) -> Result<TakenRows, AllocError>
        requires { IsGrid column_id self.old.grid }
        ensures ok { OnOk result (self.new ≡ on_grid (remove_rows column_id gone.now) self.old) }
        ensures back { IfOk result
            (λ back. on_grid
            (on_rows (rows_again back.taken.items) (cells_again back.taken.items)) self.new
            ≡ self.old) }
        ensures fit { IfOk result (λ back. HasRoom back self.new.grid) }
        ensures err { OnErr result (self.new ≡ self.old) }
    {
        let alloc = self.alloc();
        let mut taken = Vec::with_capacity(alloc, gone.len())?;
        let rows = Vec::with_capacity(alloc, self.rows.len())?;
        let cells = Vec::with_capacity(alloc, self.cells.len())?;
        take_out(&mut self.rows, &mut self.cells, gone, &mut taken);
        Ok(TakenRows { taken, rows, cells })
    }

    /// Puts rows in again, the last one first.
    ///
    /// Memory: none.
    pub(crate) fn put_rows_again(&mut self, back: TakenRows)
        requires { HasRoom back self.old.grid }
        ensures { self.new
            ≡ on_grid (on_rows (rows_again back.taken.items)
            (cells_again back.taken.items)) self.old }
    {
        let mut rows = move_to(&mut self.rows, back.rows);
        let mut cells = move_to(&mut self.cells, back.cells);
        put_again(&mut rows, &mut cells, back.taken);
        self.rows = rows;
        self.cells = cells;
    }
}
