//! What schema actions make of one table, in place, and what takes that back.

ghost use Rattle.std.specs.Prelude.{◌≡◌, ◌<◌, false, true, IfOk, OnErr, OnOk, length, map};
ghost use Rattle.doc_model.specs.Column.{column_id, start_of};
ghost use Rattle.doc_model.specs.Apply.{add_column, remove_column, with_column, with_info, with_name};
ghost use Rattle.doc_model.specs.ByIds.{has_id};
ghost use Rattle.doc_model.specs.Document.{on_grid, renamed};
ghost use Rattle.doc_model.specs.Grid.{IsGrid};
ghost use Rattle.row_tables.specs.Steps.{is_record, table_change};
ghost use Rattle.column_store.specs.Reshaped.{ReshapeAsks, back_fits, column_out, column_put, table_back};

use crate::added::start_of;
use crate::copies::{copy_of_column, copy_of_name};
use crate::in_place::{insert_reserved, move_to, remove_at, swap_at};
use crate::table::ColumnTable;
use cell_types::{CellValue, Name};
use doc_model::{ColDef, ColInfo, DocAction, index_of_column};
use std::alloc::{AllocError, Global};
use std::mem;

/// What takes back a schema action on a table: its id, the column as it was, the index of one that
/// came, or one that went, with room for all columns.
#[derive(Drop)]
pub(crate) enum TableBack {
    Named {
        old: Name,
    },
    ColumnChanged {
        index: usize,
        old: ColDef,
    },
    ColumnCame {
        index: usize,
    },
    ColumnWent {
        index: usize,
        old: ColDef,
        cells: Vec<CellValue>,
        columns: Vec<ColDef>,
        room: Vec<Vec<CellValue>>,
    },
}

// What new cells of a column hold, for each row.
fn starts(alloc: Global, column: &ColDef, rows: &[u32]) -> Result<Vec<CellValue>, AllocError>
    ensures { IfOk result (λ v. v.items ≡ map (λ _. start_of column.now) rows.now) }
{
    let mut cells = Vec::with_capacity(alloc, rows.len())?;
    for _row in rows {
        cells.push(start_of(column))?;
    }
    Ok(cells)
}

// The column under the new name.
fn with_name(column: &ColDef, new: &Name) -> Result<ColDef, AllocError>
    ensures { IfOk result (λ d. d ≡ with_name new.now column.now) }
{
    let info = column.info.clone()?;
    let id = copy_of_name(new)?;
    let row = column.row;
    Ok(ColDef { id, info, row })
}

// The column with the new info.
fn with_info(column: &ColDef, info: &ColInfo) -> Result<ColDef, AllocError>
    ensures { IfOk result (λ d. d ≡ with_info info.now column.now) }
{
    let info = info.clone()?;
    let id = copy_of_name(&column.id)?;
    let row = column.row;
    Ok(ColDef { id, info, row })
}

impl ColumnTable {
    // Gives the table another id.
    fn put_id(&mut self, new: Name) -> TableBack
        ensures ok { self.new ≡ renamed new self.old }
        ensures back { table_back result self.new ≡ self.old }
        ensures fit { back_fits result self.new }
    {
        let old = mem::replace(&mut self.id, new);
        TableBack::Named { old }
    }

    // Puts another column in the place of one.
    fn put_column(&mut self, index: usize, new: ColDef) -> TableBack
        ensures ok { self.new ≡ on_grid (column_put index new) self.old }
        ensures back { table_back result self.new ≡ self.old }
        ensures fit { back_fits result self.new }
    {
        let mut old = new;
        let _forgotten = self.places.take();
        swap_at(&mut self.columns, index, &mut old);
        TableBack::ColumnChanged { index, old }
    }

    // Puts a column into its place, whose cells are as new ones are.
    fn add_column(&mut self, new: &ColDef) -> Result<TableBack, AllocError>
        requires grid { IsGrid column_id self.old.grid }
        requires absent { has_id column_id self.old.grid.columns new.now.id ≡ false }
        ensures ok { OnOk result (self.new ≡ on_grid (add_column new.now) self.old) }
        ensures back { IfOk result (λ back. table_back back self.new ≡ self.old) }
        ensures fit { IfOk result (λ back. back_fits back self.new) }
        ensures err { OnErr result (self.new ≡ self.old) }
    {
        let index = index_of_column(&self.columns, new.row);
        let column = copy_of_column(new)?;
        let cells = starts(self.alloc(), new, &self.rows)?;
        self.columns.reserve(1)?;
        self.cells.insert_column(index, cells)?;
        self.places = None;
        insert_reserved(&mut self.columns, index, column);
        Ok(TableBack::ColumnCame { index })
    }

    // Takes the column of this id out, which is there.
    fn drop_column(&mut self, id: &Name) -> Result<TableBack, AllocError>
        requires grid { IsGrid column_id self.old.grid }
        requires there { has_id column_id self.old.grid.columns id.now ≡ true }
        ensures ok { OnOk result (self.new ≡ on_grid (remove_column id.now) self.old) }
        ensures back { IfOk result (λ back. table_back back self.new ≡ self.old) }
        ensures fit { IfOk result (λ back. back_fits back self.new) }
        ensures err { OnErr result (self.new ≡ self.old) }
    {
        let alloc = self.alloc();
        let index = self.place_of(id);
        let columns = Vec::with_capacity(alloc, self.columns.len())?;
        let room = Vec::with_capacity(alloc, self.columns.len())?;
        self.places = None;
        let old = self.columns.remove(index);
        let cells = self.cells.remove_column(index);
        Ok(TableBack::ColumnWent {
            index,
            old,
            cells,
            columns,
            room,
        })
    }

    // Changes the column of this id, which is there.
    fn name_column(&mut self, id: &Name, new: &Name) -> Result<TableBack, AllocError>
        requires grid { IsGrid column_id self.old.grid }
        requires there { has_id column_id self.old.grid.columns id.now ≡ true }
        ensures ok { OnOk result
            (self.new ≡ on_grid (with_column id.now (with_name new.now)) self.old) }
        ensures back { IfOk result (λ back. table_back back self.new ≡ self.old) }
        ensures fit { IfOk result (λ back. back_fits back self.new) }
        ensures err { OnErr result (self.new ≡ self.old) }
    {
        let index = self.place_of(id);
        let column = with_name(&self.columns[index], new)?;
        Ok(self.put_column(index, column))
    }

    // Gives the column of this id, which is there, another type or formula.
    fn modify_column(&mut self, id: &Name, info: &ColInfo) -> Result<TableBack, AllocError>
        requires grid { IsGrid column_id self.old.grid }
        requires there { has_id column_id self.old.grid.columns id.now ≡ true }
        ensures ok { OnOk result
            (self.new ≡ on_grid (with_column id.now (with_info info.now)) self.old) }
        ensures back { IfOk result (λ back. table_back back self.new ≡ self.old) }
        ensures fit { IfOk result (λ back. back_fits back self.new) }
        ensures err { OnErr result (self.new ≡ self.old) }
    {
        let index = self.place_of(id);
        let column = with_info(&self.columns[index], info)?;
        Ok(self.put_column(index, column))
    }

    // Does what a schema action makes of the table; the places of its columns may be forgotten.
    fn reshaped(&mut self, action: &DocAction) -> Result<TableBack, AllocError>
        requires schema { is_record action.now ≡ false }
        requires grid { IsGrid column_id self.old.grid }
        requires asks { ReshapeAsks action.now self.old.grid }
        ensures ok { OnOk result (self.new ≡ table_change action.now self.old) }
        ensures back { IfOk result (λ back. table_back back self.new ≡ self.old) }
        ensures fit { IfOk result (λ back. back_fits back self.new) }
        ensures err { OnErr result (self.new ≡ self.old) }
    {
        match action {
            DocAction::RenameTable { new, .. } => Ok(self.put_id(copy_of_name(new)?)),
            DocAction::AddColumn { column, .. } => self.add_column(column),
            DocAction::RemoveColumn { column, .. } => self.drop_column(column),
            DocAction::RenameColumn { column, new, .. } => self.name_column(column, new),
            DocAction::ModifyColumn { column, info, .. } => self.modify_column(column, info),
            DocAction::AddTable { .. } | DocAction::RemoveTable { .. } => {
                let id = copy_of_name(&self.id)?;
                Ok(self.put_id(id))
            }
            DocAction::BulkAdd { .. }
            | DocAction::BulkUpdate { .. }
            | DocAction::BulkRemove { .. } => unreachable!(),
        }
    }

    /// Does what a schema action makes of the table.
    ///
    /// Errors: out of memory; the table is then as it was.
    pub(crate) fn reshape(&mut self, action: &DocAction) -> Result<TableBack, AllocError>
        requires schema { is_record action.now ≡ false }
        requires grid { IsGrid column_id self.old.grid }
        requires asks { ReshapeAsks action.now self.old.grid }
        ensures ok { OnOk result (self.new ≡ table_change action.now self.old) }
        ensures back { IfOk result (λ back. table_back back self.new ≡ self.old) }
        ensures fit { IfOk result (λ back. back_fits back self.new) }
        ensures err { OnErr result (self.new ≡ self.old) }
    {
        let back = self.reshaped(action)?;
        self.know_places();
        Ok(back)
    }

    // Takes out the column at an index, where one stands.
    fn take_column(&mut self, index: usize)
        requires { index < length self.old.grid.columns }
        ensures { self.new ≡ on_grid (column_out index) self.old }
    {
        self.places = None;
        remove_at(&mut self.columns, index);
        let _cells = self.cells.remove_column(index);
    }

    /// Takes such a change back.
    ///
    /// Memory: none.
    pub(crate) fn reshape_back(&mut self, back: TableBack)
        requires { back_fits back self.old }
        ensures { self.new ≡ table_back back self.old }
    {
        match back {
            TableBack::Named { old } => self.id = old,
            TableBack::ColumnChanged { index, old } => {
                let _new = self.put_column(index, old);
            }
            TableBack::ColumnCame { index } => self.take_column(index),
            TableBack::ColumnWent {
                index,
                old,
                cells,
                columns,
                room,
            } => {
                self.places = None;
                move_to(&mut self.columns, columns);
                insert_reserved(&mut self.columns, index, old);
                self.cells.put_column(index, cells, room);
            }
        }
    }
}
