//! One table.

ghost use Rattle.std.specs.Prelude.{◌≡◌, ℕ, List, true, IfOk, map, option_and_then, slice_get};
ghost use Rattle.std.specs.Option.{option_copied};
ghost use Rattle.std.specs.Str.{bytes_eq};
ghost use Rattle.cell_types.specs.declared.value.CellValue.{CellValue};
ghost use Rattle.doc_model.specs.Column.{column_id};
ghost use Rattle.doc_model.specs.Grid.{cell, grid_of};
ghost use Rattle.doc_model.specs.Rows.{IsAscending};
ghost use Rattle.row_tables.specs.Kept.{found_beside, kept};

use crate::copies::{copy_of_cells, copy_of_name};
use crate::fill::{CellSource, filled};
use crate::look::{cell_at_place, cell_in_row, cells_of_row, column_place, search_cells};
use cell_types::{CellValue, Name, ValueList, copy_of};
use doc_model::ColDef;
use std::alloc::{AllocError, Global};
use std::marker::Model;

/// A table: its columns, its rows, and a list of cells for each row, in the order of the columns.
///
/// Its row describes it in the table of tables, and is 0 for a metadata table.
#[derive(Drop)]
pub struct RowTable {
    pub(crate) id: Name,
    pub(crate) row: u32,
    pub(crate) columns: Vec<ColDef>,
    pub(crate) rows: Vec<u32>,
    pub(crate) cells: Vec<ValueList>,
}

impl Model for RowTable {
    ghost use Rattle.doc_model.specs.Document.{Table};
    ghost use Rattle.row_tables.specs.TableCode.{coded_table};

    ghost Value = { Table };

    ghost coded = { coded_table };

    ghost view = { λ a.
        record {
          id = a.id;
          row = a.row;
          grid = record { columns = a.columns.items; rows = a.rows.items; cells = a.cells.items };
        } };
}

impl RowTable {
    /// The cell of a column in a row; nothing where there is none.
    ///
    /// Memory: none. Cost: linear in the rows and the columns.
    pub fn cell(&self, column: &Name, row: u32) -> Option<&CellValue>
        ensures { option_copied result ≡ kept self.now.grid column.now row }
    {
        let cells = cells_of_row(&self.rows, &self.cells, row);
        cell_in_row(&self.columns, cells, column)
    }

    /// The cell of a column in one of ascending rows; nothing where there is none.
    ///
    /// Memory: none. Cost: the logarithm of the number of rows, and linear in the columns.
    pub(crate) fn search_cell(&self, column: &Name, row: u32) -> Option<&CellValue>
        requires { IsAscending self.now.grid.rows }
        ensures { option_copied result ≡ kept self.now.grid column.now row }
    {
        let cells = search_cells(&self.rows, &self.cells, row);
        cell_in_row(&self.columns, cells, column)
    }

    // The cell at a place among those of one of ascending rows.
    fn cell_in_place(&self, place: Option<usize>, row: u32) -> Option<&CellValue>
        requires { IsAscending self.now.grid.rows }
        ensures { (column : List ℕ)
            → ((cells : List CellValue) → option_and_then (slice_get cells) place
            ≡ found_beside (λ d. bytes_eq (column_id d) column) self.now.grid.columns cells)
            → option_copied result ≡ kept self.now.grid column row }
    {
        cell_at_place(search_cells(&self.rows, &self.cells, row), place)
    }

    /// The cells of a column in some rows, where those of the table ascend; nothing where there is
    /// none.
    ///
    /// Errors: out of memory. Memory: a place for each row.
    /// Cost: linear in the columns, once, and for each row the logarithm of the rows of the table.
    pub(crate) fn column_cells(
        &self,
        alloc: Global,
        column: &Name,
        rows: &[u32],
    ) -> Result<Vec<Option<&CellValue>>, AllocError>
        requires { IsAscending self.now.grid.rows }
        ensures { IfOk result (λ cells. map option_copied cells.items
            ≡ map (kept self.now.grid column.now) rows.now) }
    {
        let place = column_place(&self.columns, column);
        let mut cells = Vec::with_capacity(alloc, rows.len())?;
        for row in rows {
            cells.push(self.cell_in_place(place, *row))?;
        }
        Ok(cells)
    }

    // The same, by search where the rows are known to ascend.
    fn cell_by(&self, ascends: bool, column: &Name, row: u32) -> Option<&CellValue>
        requires { ascends ≡ true → IsAscending self.now.grid.rows }
        ensures { option_copied result ≡ kept self.now.grid column.now row }
    {
        if ascends {
            return self.search_cell(column, row);
        }
        self.cell(column, row)
    }

    /// A copy of the cell of a column in a row; null where there is none.
    ///
    /// Cost: the logarithm of the rows where they are known to ascend, else linear in them; and
    /// linear in the columns.
    pub(crate) fn stored(
        &self,
        ascends: bool,
        column: &Name,
        row: u32,
    ) -> Result<CellValue, AllocError>
        requires { ascends ≡ true → IsAscending self.now.grid.rows }
        ensures { IfOk result (λ v. v ≡ cell column_id self.now.grid column.now row) }
    {
        match self.cell_by(ascends, column, row) {
            Some(value) => copy_of(value),
            None => Ok(CellValue::Null),
        }
    }

    pub(crate) fn alloc(&self) -> Global {
        *self.columns.allocator()
    }

    /// The id.
    pub fn id(&self) -> &Name
        ensures { result.now ≡ self.now.id }
    {
        &self.id
    }

    /// The row that describes the table.
    pub fn row(&self) -> u32
        ensures { result ≡ self.now.row }
    {
        self.row
    }

    /// The columns, in the order of their rows.
    pub fn columns(&self) -> &[ColDef]
        ensures { result.now ≡ self.now.grid.columns }
    {
        &self.columns
    }

    /// The row ids, which ascend.
    pub fn rows(&self) -> &[u32]
        ensures { result.now ≡ self.now.grid.rows }
    {
        &self.rows
    }

    /// A copy of the table with this id and these columns in place of its own.
    pub(crate) fn with_columns(
        &self,
        id: &Name,
        columns: Vec<ColDef>,
    ) -> Result<RowTable, AllocError>
        ensures { IfOk result (λ t.
            t ≡ record {
              id = id.now;
              row = self.now.row;
              grid = record {
                columns = columns.items;
                rows = self.now.grid.rows;
                cells = self.now.grid.cells;
              };
            }) }
    {
        let cells = copy_of_cells(self.alloc(), &self.cells)?;
        let rows = self.rows_copy()?;
        let id = copy_of_name(id)?;
        let row = self.row;
        Ok(RowTable {
            id,
            row,
            columns,
            rows,
            cells,
        })
    }

    /// A copy of the table.
    pub fn copy(&self) -> Result<RowTable, AllocError>
        ensures { IfOk result (λ t. t ≡ self.now) }
    {
        self.with_columns(&self.id, self.columns_copy()?)
    }

    pub(crate) fn columns_copy(&self) -> Result<Vec<ColDef>, AllocError>
        ensures { IfOk result (λ v. v.items ≡ self.now.grid.columns) }
    {
        Vec::from_clones(self.alloc(), &self.columns)
    }

    pub(crate) fn rows_copy(&self) -> Result<Vec<u32>, AllocError>
        ensures { IfOk result (λ v. v.items ≡ self.now.grid.rows) }
    {
        Vec::from_slice(self.alloc(), &self.rows)
    }

    /// The table with these columns and rows, and the cells that the source gives.
    pub(crate) fn refilled<S: CellSource>(
        &self,
        columns: Vec<ColDef>,
        rows: Vec<u32>,
        source: &S,
    ) -> Result<RowTable, AllocError>
        ensures { IfOk result (λ t. t
            ≡ record {
              id = self.now.id;
              row = self.now.row;
              grid = grid_of columns.items rows.items
                  (S.value_at source.now);
            }) }
    {
        let cells = filled(self.alloc(), &columns, &rows, source)?;
        Ok(RowTable {
            id: self.id.clone()?,
            row: self.row,
            columns,
            rows,
            cells,
        })
    }
}
