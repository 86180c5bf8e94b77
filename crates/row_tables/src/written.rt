//! Values written into their cells.

ghost use Rattle.std.specs.Prelude.{◌≡◌, ◌++◌, [], IfOk, OnErr, OnOk, slice_index_or, slice_set};
ghost use Rattle.doc_model.specs.Column.{column_id};
ghost use Rattle.doc_model.specs.Document.{on_grid};
ghost use Rattle.doc_model.specs.Grid.{IsGrid};
ghost use Rattle.doc_model.specs.Records.{update_rows};
ghost use Rattle.doc_model.specs.Rows.{IsAscending};
ghost use Rattle.row_tables.specs.InPlace.{all_writes, column_writes, id_index, on_rows, set_cell, written, written_back};

use crate::RowTable;
use crate::in_place::swap_at;
use cell_types::{CellValue, Name, ValueList, copy_of};
use doc_model::{CellColumn, ColDef, search_row};
use std::alloc::{AllocError, Global};
use std::mem;

/// A value for the cell at the indexes of a row and a column.
#[derive(Drop)]
pub(crate) struct Write {
    pub(crate) row: usize,
    pub(crate) column: usize,
    pub(crate) value: CellValue,
}

// The index of the column of this id, or the end.
fn index_of_id(columns: &[ColDef], id: &Name) -> usize
    ensures { result ≡ id_index id.now columns.now }
{
    for (index, column) in columns.iter().enumerate() {
        if id.as_str() == column.id.as_str() {
            return index;
        }
    }
    columns.len()
}

// Notes what values beside rows write in a column.
fn note_column(
    writes: &mut Vec<Write>,
    there: &[u32],
    column: usize,
    rows: &[u32],
    values: &[CellValue],
) -> Result<(), AllocError>
    requires { IsAscending there.now }
    ensures { OnOk result
        (writes.new.items ≡ writes.old.items
        ++ column_writes there.now column rows.now values.now) }
{
    for (index, row) in rows.iter().enumerate() {
        let Some(value) = values.get(index) else {
            return Ok(());
        };
        if let Ok(row) = search_row(there, *row) {
            writes.push(Write {
                row,
                column,
                value: copy_of(value)?,
            })?;
        }
    }
    Ok(())
}

// Swaps a value with the one at an index of a list.
fn swap_value(alloc: Global, list: &mut ValueList, index: usize, value: &mut CellValue)
    ensures list { list.new ≡ slice_set list.old index value.old }
    ensures value { value.new ≡ slice_index_or list.old index value.old }
{
    let mut cells = mem::replace(list, ValueList::new(alloc)).into_vec();
    swap_at(&mut cells, index, value);
    *list = ValueList::from(cells);
}

// Swaps a value with the one in its cell.
fn swap_cell(cells: &mut Vec<ValueList>, write: &mut Write)
    ensures cells { cells.new.items ≡ set_cell write.old cells.old.items }
    ensures row { write.new.row ≡ write.old.row }
    ensures column { write.new.column ≡ write.old.column }
    ensures value { write.new.value
        ≡ slice_index_or
        (slice_index_or cells.old.items write.old.row []) write.old.column write.old.value }
{
    let alloc = *cells.allocator();
    if write.row < cells.len() {
        swap_value(alloc, &mut cells[write.row], write.column, &mut write.value);
    }
}

// Writes a value into its cell.
fn write_cell(cells: &mut Vec<ValueList>, write: Write)
    ensures { cells.new.items ≡ set_cell write cells.old.items }
{
    let mut write = write;
    swap_cell(cells, &mut write);
}

// Swaps the values with those in their cells.
fn swap_cells(cells: &mut Vec<ValueList>, writes: &mut Vec<Write>)
    ensures done { cells.new.items ≡ written writes.old.items cells.old.items }
    ensures back { written_back writes.new.items cells.new.items ≡ cells.old.items }
{
    for index in 0..writes.len() {
        swap_cell(cells, &mut writes[index]);
    }
}

impl RowTable {
    // What given columns write.
    fn writes(&self, rows: &[u32], given: &[CellColumn]) -> Result<Vec<Write>, AllocError>
        requires { IsAscending self.now.grid.rows }
        ensures { IfOk result (λ ws. ws.items ≡ all_writes self.now.grid rows.now given.now) }
    {
        let mut writes = Vec::new(self.alloc());
        for column in given {
            let index = index_of_id(&self.columns, &column.id);
            note_column(
                &mut writes,
                &self.rows,
                index,
                rows,
                column.values.as_slice(),
            )?;
        }
        Ok(writes)
    }

    /// Writes the given values, and gives those that stood there.
    pub(crate) fn write_values(
        &mut self,
        rows: &[u32],
        given: &[CellColumn],
    ) -> Result<Vec<Write>, AllocError>
        requires { IsGrid column_id self.old.grid }
        ensures ok { OnOk result
            (self.new ≡ on_grid (update_rows column_id rows.now given.now) self.old) }
        ensures back { IfOk result
            (λ ws. on_grid (on_rows (λ rows. rows) (written_back ws.items)) self.new ≡ self.old) }
        ensures err { OnErr result (self.new ≡ self.old) }
    {
        let mut writes = self.writes(rows, given)?;
        swap_cells(&mut self.cells, &mut writes);
        Ok(writes)
    }

    /// Writes values back, the last one first.
    ///
    /// Memory: none.
    pub(crate) fn write_back(&mut self, writes: Vec<Write>)
        ensures { self.new ≡ on_grid (on_rows (λ rows. rows) (written_back writes.items)) self.old }
    {
        let mut writes = writes;
        while let Some(write) = writes.pop() {
            write_cell(&mut self.cells, write);
        }
    }
}
