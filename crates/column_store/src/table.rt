//! One table.

ghost use Rattle.std.specs.Prelude.{◌≡◌, IfOk, map};
ghost use Rattle.std.specs.Option.{option_copied};
ghost use Rattle.doc_model.specs.Column.{column_id};
ghost use Rattle.doc_model.specs.Grid.{IsGrid};
ghost use Rattle.doc_model.specs.Rows.{IsAscending};
ghost use Rattle.row_tables.specs.InPlace.{id_index};
ghost use Rattle.row_tables.specs.Kept.{kept};
ghost use Rattle.column_store.specs.Kept.{kept_at};

use crate::columns::CellColumns;
use crate::copies::copy_of_name;
use crate::look::{index_of_id, row_place};
use crate::places::{Places, column_places};
use cell_types::{CellValue, Name};
use doc_model::ColDef;
use std::alloc::{AllocError, Global};
use std::marker::Model;

/// A table: its columns, which are found by their ids in one step where they are many, its rows,
/// and the cells of each column beside these. It is seen as a table of the definitions, row by row.
///
/// Its row describes it in the table of tables, and is 0 for a metadata table.
#[derive(Drop)]
pub struct ColumnTable {
    pub(crate) id: Name,
    pub(crate) row: u32,
    pub(crate) columns: Vec<ColDef>,
    // Where they are known: after a schema action is taken back they are not, until the next put.
    pub(crate) places: Option<Places>,
    pub(crate) rows: Vec<u32>,
    pub(crate) cells: CellColumns,
}

impl Model for ColumnTable {
    ghost use Rattle.std.specs.Prelude.{◌≡◌, IfSome, length, map};
    ghost use Rattle.doc_model.specs.Column.{column_id};
    ghost use Rattle.doc_model.specs.Document.{Table};
    ghost use Rattle.row_tables.specs.TableCode.{coded_table};

    ghost Value = { Table };

    ghost coded = { coded_table };

    ghost view = { λ a.
        record {
          id = a.id;
          row = a.row;
          grid = record { columns = a.columns.items; rows = a.rows.items; cells = a.cells.rows };
        } };

    ghost invariant = { λ a. (a.cells.width ≡ length a.columns.items)
        × IfSome a.places (λ places. places ≡ map column_id a.columns.items) };
}

impl ColumnTable {
    /// The place of a column, or the end.
    ///
    /// Memory: none. Cost: hashing the id where there are many columns, else linear in them.
    pub fn place_of(&self, id: &Name) -> usize
        ensures { result ≡ id_index id.now self.now.grid.columns }
    {
        let Some(places) = &self.places else {
            return index_of_id(&self.columns, id);
        };
        match places.place(id) {
            Some(place) => place,
            None => self.columns.len(),
        }
    }

    /// The cell of a column, by its place, in one of ascending rows.
    ///
    /// Memory: none. Cost: the logarithm of the rows, and nothing where they have no gap.
    pub fn cell_there(&self, place: usize, row: u32) -> Option<&CellValue>
        requires { IsAscending self.now.grid.rows }
        ensures { option_copied result ≡ kept_at self.now.grid place row }
    {
        let index = row_place(&self.rows, row)?;
        self.cells.get(index, place)
    }

    /// The cell of a column in one of ascending rows; nothing where there is none.
    ///
    /// Memory: none. Cost: that of the column's place, and of the row's.
    pub fn cell(&self, column: &Name, row: u32) -> Option<&CellValue>
        requires { IsGrid column_id self.now.grid }
        ensures { option_copied result ≡ kept self.now.grid column.now row }
    {
        self.cell_there(self.place_of(column), row)
    }

    /// The cells of a column in some rows; nothing where there is none.
    ///
    /// Errors: out of memory. Memory: a place for each row.
    /// Cost: that of the column's place, once, and of each row's.
    pub(crate) fn column_cells(
        &self,
        alloc: Global,
        column: &Name,
        rows: &[u32],
    ) -> Result<Vec<Option<&CellValue>>, AllocError>
        requires { IsGrid column_id self.now.grid }
        ensures { IfOk result (λ cells. map option_copied cells.items
            ≡ map (kept self.now.grid column.now) rows.now) }
    {
        let place = self.place_of(column);
        let mut cells = Vec::with_capacity(alloc, rows.len())?;
        for row in rows {
            cells.push(self.cell_there(place, *row))?;
        }
        Ok(cells)
    }

    /// Finds the places of the columns where they are not known, and there is memory.
    pub(crate) fn know_places(&mut self)
        ensures { self.new ≡ self.old }
    {
        if self.places.is_none() {
            self.places = column_places(self.alloc(), &self.columns);
        }
    }

    /// A copy of the table.
    ///
    /// Errors: out of memory. Cost: linear in the cells.
    pub fn copy(&self) -> Result<ColumnTable, AllocError>
        ensures { IfOk result (λ t. t ≡ self.now) }
    {
        let alloc = self.alloc();
        let columns = Vec::from_clones(alloc, &self.columns)?;
        let places = column_places(alloc, &columns);
        let rows = Vec::from_slice(alloc, &self.rows)?;
        let cells = self.cells.copy(alloc)?;
        let id = copy_of_name(&self.id)?;
        let row = self.row;
        Ok(ColumnTable {
            id,
            row,
            columns,
            places,
            rows,
            cells,
        })
    }

    pub(crate) fn alloc(&self) -> Global {
        *self.columns.allocator()
    }

    /// The id.
    pub fn id(&self) -> &Name
        ensures { result.now ≡ self.now.id }
    {
        &self.id
    }

    /// The row that describes the table.
    pub fn row(&self) -> u32
        ensures { result ≡ self.now.row }
    {
        self.row
    }

    /// The columns, in the order of their rows.
    pub fn columns(&self) -> &[ColDef]
        ensures { result.now ≡ self.now.grid.columns }
    {
        &self.columns
    }

    /// The row ids, which ascend.
    pub fn rows(&self) -> &[u32]
        ensures { result.now ≡ self.now.grid.rows }
    {
        &self.rows
    }
}
