//! Rows that come, each into its place.

ghost use Rattle.std.specs.Prelude.{◌≡◌, ◌<◌, ◌≤◌, ◌+◌, ◌^◌, ◌++◌, true, IfOk, OnOk, OnErr, length, map, unwrap_or, vec_capacity, vec_len};
ghost use Rattle.std.specs.List.{AllByRecursion};
ghost use Rattle.doc_model.specs.Column.{column_id, start_of};
ghost use Rattle.doc_model.specs.Document.{on_grid};
ghost use Rattle.doc_model.specs.Grid.{IsGrid};
ghost use Rattle.doc_model.specs.Records.{add_rows, given};
ghost use Rattle.doc_model.specs.Rows.{IsAscending, has_no_duplicates};
ghost use Rattle.row_tables.specs.InPlace.{on_rows};
ghost use Rattle.doc_model.specs.Indexes.{row_index};
ghost use Rattle.column_store.specs.Changes.{AreFull, rows_put};
ghost use Rattle.row_tables.specs.RowIndexes.{AreNew, AreWithin, given_at, new_indexes, put_at, taken_out};

use crate::columns::CellColumns;
use crate::given::given_value;
use crate::in_place::{insert_reserved, remove_at};
use crate::table::ColumnTable;
use cell_types::{CellValue, ValueList, copy_of, default_of};
use doc_model::{CellColumn, ColDef, search_row};
use list_ops::all_made;
use std::alloc::{AllocError, Global};

/// What a new cell of the column holds.
///
/// Memory: none.
pub(crate) fn start_of(column: &ColDef) -> CellValue
    ensures { result ≡ start_of column.now }
{
    if column.info.is_formula {
        CellValue::Null
    } else {
        default_of(&column.info.ty)
    }
}

// A cell of the new row at this index among the rows of an action.
fn new_cell(column: &ColDef, values: &[CellColumn], index: usize) -> Result<CellValue, AllocError>
    ensures { IfOk result
        (λ v. v ≡ unwrap_or (given_at values.now column.now.id index) (start_of column.now)) }
{
    match given_value(values, &column.id, index) {
        Some(value) => copy_of(value),
        None => Ok(start_of(column)),
    }
}

// The cells of that row.
fn new_row(
    alloc: Global,
    columns: &[ColDef],
    values: &[CellColumn],
    index: usize,
) -> Result<ValueList, AllocError>
    ensures { IfOk result
        (λ l. l ≡ map (λ d. unwrap_or (given_at values.now d.id index) (start_of d)) columns.now) }
{
    let cells = all_made(alloc, columns, |column| new_cell(column, values, index))?;
    Ok(ValueList::from(cells))
}

// The cells of new rows.
fn cells_of_new(
    alloc: Global,
    columns: &[ColDef],
    rows: &[u32],
    values: &[CellColumn],
) -> Result<Vec<ValueList>, AllocError>
    requires { has_no_duplicates rows.now ≡ true }
    ensures { IfOk result
        (λ v. v.items
        ≡ map (λ r. map
        (λ d. unwrap_or (given rows.now values.now d.id r) (start_of d)) columns.now) rows.now) }
{
    let mut lists = Vec::with_capacity(alloc, rows.len())?;
    for (index, _row) in rows.iter().enumerate() {
        lists.push(new_row(alloc, columns, values, index)?)?;
    }
    Ok(lists)
}

// Where a row goes.
fn index_for(rows: &[u32], row: u32) -> usize
    requires { IsAscending rows.now }
    ensures { result ≡ row_index row rows.now }
{
    match search_row(rows, row) {
        Ok(index) | Err(index) => index,
    }
}

// Puts new rows into their places, and notes these.
fn insert_rows(rows: &mut Vec<u32>, new: &[u32], indexes: &mut Vec<usize>)
    requires new { AreNew new.now rows.old.items }
    requires room { vec_len rows.old + length new.now ≤ vec_capacity rows.old }
    requires room_of_indexes { vec_len indexes.old + length new.now ≤ vec_capacity indexes.old }
    ensures rows { rows.new.items
        ≡ put_at (new_indexes new.now rows.old.items) new.now rows.old.items }
    ensures indexes { indexes.new.items ≡ indexes.old.items ++ new_indexes new.now rows.old.items }
{
    for row in new {
        let index = index_for(rows, *row);
        insert_reserved(rows, index, *row);
        indexes.push_reserved(index);
    }
}

// Puts the cells of new rows in at their places.
fn insert_cells(cells: &mut CellColumns, indexes: &[usize], lists: Vec<ValueList>)
    requires within { AreWithin indexes.now (length cells.old.rows) }
    requires each { length lists.items ≡ length indexes.now }
    requires wide { AllByRecursion (λ l. length l ≡ cells.old.width) lists.items }
    requires room { length lists.items ≤ cells.old.room }
    requires few { cells.old.room + length cells.old.rows < 2 ^ 63 }
    ensures rows { cells.new.rows ≡ put_at indexes.now lists.items cells.old.rows }
    ensures width { cells.new.width ≡ cells.old.width }
{
    let mut placed = 0;
    for list in lists {
        cells.insert_row(indexes[placed], list.into_vec());
        placed += 1;
    }
}

impl ColumnTable {
    /// Puts new rows and their cells in, and gives their indexes.
    pub(crate) fn add_lists(
        &mut self,
        new: &[u32],
        lists: Vec<ValueList>,
    ) -> Result<Vec<usize>, AllocError>
        requires height { length self.old.grid.cells ≡ length self.old.grid.rows }
        requires new { AreNew new.now self.old.grid.rows }
        requires each { length lists.items ≡ length new.now }
        requires full { AreFull lists.items self.old.grid }
        ensures ok { OnOk result (self.new ≡ on_grid (rows_put new.now lists.items) self.old) }
        ensures back { IfOk result
            (λ indexes. on_grid
            (on_rows (taken_out indexes.items) (taken_out indexes.items)) self.new ≡ self.old) }
        ensures err { OnErr result (self.new ≡ self.old) }
    {
        let mut indexes = Vec::with_capacity(self.alloc(), new.len())?;
        self.rows.reserve(new.len())?;
        self.cells.reserve(new.len())?;
        insert_rows(&mut self.rows, new, &mut indexes);
        insert_cells(&mut self.cells, &indexes, lists);
        Ok(indexes)
    }

    /// Puts new rows in, with the given values and elsewhere what new cells hold, and gives their
    /// indexes.
    pub(crate) fn add_rows(
        &mut self,
        new: &[u32],
        values: &[CellColumn],
    ) -> Result<Vec<usize>, AllocError>
        requires grid { IsGrid column_id self.old.grid }
        requires new { AreNew new.now self.old.grid.rows }
        ensures ok { OnOk result
            (self.new ≡ on_grid (add_rows column_id start_of new.now values.now) self.old) }
        ensures back { IfOk result
            (λ indexes. on_grid
            (on_rows (taken_out indexes.items) (taken_out indexes.items)) self.new ≡ self.old) }
        ensures err { OnErr result (self.new ≡ self.old) }
    {
        let lists = cells_of_new(self.alloc(), &self.columns, new, values)?;
        Ok(self.add_lists(new, lists)?)
    }

    /// Takes out what stands at these indexes, at the last one first.
    ///
    /// Memory: none.
    pub(crate) fn take_out(&mut self, indexes: Vec<usize>)
        ensures { self.new
            ≡ on_grid (on_rows (taken_out indexes.items) (taken_out indexes.items)) self.old }
    {
        let mut indexes = indexes;
        while let Some(index) = indexes.pop() {
            remove_at(&mut self.rows, index);
            self.cells.remove_at(index);
        }
    }
}
