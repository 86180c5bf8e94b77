//! Values written into their cells.

ghost use Rattle.std.specs.Prelude.{◌≡◌, ◌++◌, [], IfOk, OnErr, OnOk, slice_index_or, slice_set};
ghost use Rattle.doc_model.specs.Column.{column_id};
ghost use Rattle.doc_model.specs.Document.{on_grid};
ghost use Rattle.doc_model.specs.Grid.{IsGrid};
ghost use Rattle.doc_model.specs.Records.{update_rows};
ghost use Rattle.doc_model.specs.Rows.{IsAscending};
ghost use Rattle.row_tables.specs.InPlace.{all_writes, column_writes, on_rows, set_cell, written, written_back};

use crate::columns::CellColumns;
use crate::table::ColumnTable;
use cell_types::{CellValue, copy_of};
use doc_model::{CellColumn, search_row};
use std::alloc::AllocError;
use std::marker::Model;

/// A value for the cell at the indexes of a row and a column. It is seen as one of `row_tables`.
#[derive(Drop)]
pub(crate) struct Write {
    pub(crate) row: usize,
    pub(crate) column: usize,
    pub(crate) value: CellValue,
}

impl Model for Write {
    ghost use Rattle.row_tables.specs.declared.written.Write.{Write as Seen};

    ghost Value = { Seen };

    ghost view = { λ w. record { row = w.row; column = w.column; value = w.value } };
}

// Notes what values beside rows write in a column.
fn note_column(
    writes: &mut Vec<Write>,
    there: &[u32],
    column: usize,
    rows: &[u32],
    values: &[CellValue],
) -> Result<(), AllocError>
    requires { IsAscending there.now }
    ensures { OnOk result
        (writes.new.items ≡ writes.old.items
        ++ column_writes there.now column rows.now values.now) }
{
    for (index, row) in rows.iter().enumerate() {
        let Some(value) = values.get(index) else {
            return Ok(());
        };
        if let Ok(row) = search_row(there, *row) {
            writes.push(Write {
                row,
                column,
                value: copy_of(value)?,
            })?;
        }
    }
    Ok(())
}

// Swaps a value with the one in its cell.
fn swap_cell(cells: &mut CellColumns, write: &mut Write)
    ensures cells { cells.new.rows ≡ set_cell write.old cells.old.rows }
    ensures width { cells.new.width ≡ cells.old.width }
    ensures row { write.new.row ≡ write.old.row }
    ensures column { write.new.column ≡ write.old.column }
    ensures value { write.new.value
        ≡ slice_index_or
        (slice_index_or cells.old.rows write.old.row []) write.old.column write.old.value }
{
    cells.swap(write.row, write.column, &mut write.value);
}

// Writes a value into its cell.
fn write_cell(cells: &mut CellColumns, write: Write)
    ensures rows { cells.new.rows ≡ set_cell write cells.old.rows }
    ensures width { cells.new.width ≡ cells.old.width }
{
    let mut write = write;
    swap_cell(cells, &mut write);
}

// Swaps the values with those in their cells.
fn swap_cells(cells: &mut CellColumns, writes: &mut Vec<Write>)
    ensures done { cells.new.rows ≡ written writes.old.items cells.old.rows }
    ensures back { written_back writes.new.items cells.new.rows ≡ cells.old.rows }
    ensures width { cells.new.width ≡ cells.old.width }
{
    for index in 0..writes.len() {
        swap_cell(cells, &mut writes[index]);
    }
}

impl ColumnTable {
    // What given columns write.
    fn writes(&self, rows: &[u32], given: &[CellColumn]) -> Result<Vec<Write>, AllocError>
        requires { IsAscending self.now.grid.rows }
        ensures { IfOk result (λ ws. ws.items ≡ all_writes self.now.grid rows.now given.now) }
    {
        let mut writes = Vec::new(self.alloc());
        for column in given {
            let index = self.place_of(&column.id);
            note_column(
                &mut writes,
                &self.rows,
                index,
                rows,
                column.values.as_slice(),
            )?;
        }
        Ok(writes)
    }

    /// Writes values, and gives those that stood there.
    ///
    /// Memory: none.
    pub(crate) fn write_all(&mut self, writes: Vec<Write>) -> Vec<Write>
        ensures done { self.new ≡ on_grid (on_rows (λ rows. rows) (written writes.items)) self.old }
        ensures back { on_grid (on_rows (λ rows. rows) (written_back result.items)) self.new
            ≡ self.old }
    {
        let mut writes = writes;
        swap_cells(&mut self.cells, &mut writes);
        writes
    }

    /// Writes the given values, and gives those that stood there.
    pub(crate) fn write_values(
        &mut self,
        rows: &[u32],
        given: &[CellColumn],
    ) -> Result<Vec<Write>, AllocError>
        requires { IsGrid column_id self.old.grid }
        ensures ok { OnOk result
            (self.new ≡ on_grid (update_rows column_id rows.now given.now) self.old) }
        ensures back { IfOk result
            (λ ws. on_grid (on_rows (λ rows. rows) (written_back ws.items)) self.new ≡ self.old) }
        ensures err { OnErr result (self.new ≡ self.old) }
    {
        let writes = self.writes(rows, given)?;
        Ok(self.write_all(writes))
    }

    /// Writes values back, the last one first.
    ///
    /// Memory: none.
    pub(crate) fn write_back(&mut self, writes: Vec<Write>)
        ensures { self.new ≡ on_grid (on_rows (λ rows. rows) (written_back writes.items)) self.old }
    {
        let mut writes = writes;
        while let Some(write) = writes.pop() {
            write_cell(&mut self.cells, write);
        }
    }
}
