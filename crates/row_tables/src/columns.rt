//! What schema actions make of one table.

ghost use Rattle.std.specs.Prelude.{◌≡◌, [], ◌∷◌, ◌++◌, IfOk, cond};
ghost use Rattle.std.specs.Str.{bytes_eq};
ghost use Rattle.cell_types.specs.declared.value.CellValue.TheVariants.{Null};
ghost use Rattle.doc_model.specs.Apply.{add_column, new_table, remove_column, with_column, with_info, with_name};
ghost use Rattle.doc_model.specs.ByIds.{without_id};
ghost use Rattle.doc_model.specs.Column.{column_id, column_row};
ghost use Rattle.doc_model.specs.Document.{by_row, on_grid, put_by_row, renamed};
ghost use Rattle.row_tables.specs.Told.{told_column};

use crate::RowTable;
use crate::added::start_of;
use crate::copies::{copy_of_column, copy_of_name};
use crate::fill::{CellSource, Kept};
use cell_types::{CellValue, Name};
use doc_model::{ColDef, ColInfo, index_of_column};
use list_ops::all_made;
use std::alloc::{AllocError, Global};

// Puts a column before the first one with a greater row.
fn put_column(columns: &mut Vec<ColDef>, column: ColDef) -> Result<(), AllocError>
    ensures { IfOk result
        (λ _. columns.new.items ≡ put_by_row column_row column columns.old.items) }
{
    let index = index_of_column(columns, column.row);
    columns.insert(index, column)?;
    Ok(())
}

/// The columns in the order of their rows.
///
/// Cost: the square of their number.
fn columns_by_row(alloc: Global, columns: &[ColDef]) -> Result<Vec<ColDef>, AllocError>
    ensures { IfOk result (λ v. v.items ≡ by_row column_row columns.now) }
{
    let mut sorted = Vec::with_capacity(alloc, columns.len())?;
    for passed in 0..columns.len() {
        let column = copy_of_column(&columns[columns.len() - 1 - passed])?;
        put_column(&mut sorted, column)?;
    }
    Ok(sorted)
}

// Adds a copy of a column, but not where it has this id.
fn add_other(left: &mut Vec<ColDef>, column: &ColDef, id: &Name) -> Result<(), AllocError>
    ensures { IfOk result
        (λ _. left.new.items ≡ left.old.items ++ without_id column_id id.now (column.now ∷ [])) }
{
    if column.id.as_str() == id.as_str() {
        return Ok(());
    }
    left.push(copy_of_column(column)?)?;
    Ok(())
}

// The columns but those of this id.
fn columns_without(alloc: Global, columns: &[ColDef], id: &Name) -> Result<Vec<ColDef>, AllocError>
    ensures { IfOk result (λ v. v.items ≡ without_id column_id id.now columns.now) }
{
    let mut left = Vec::with_capacity(alloc, columns.len())?;
    for column in columns {
        add_other(&mut left, column, id)?;
    }
    Ok(left)
}

// What is new of a column.
#[derive(Drop)]
pub(crate) enum Told<'a> {
    Name(&'a Name),
    Info(&'a ColInfo),
}

// The column under the new name.
fn with_name(column: &ColDef, new: &Name) -> Result<ColDef, AllocError>
    ensures { IfOk result (λ d. d ≡ with_name new.now column.now) }
{
    let info = column.info.clone()?;
    let id = copy_of_name(new)?;
    let row = column.row;
    Ok(ColDef { id, info, row })
}

// The column with the new info.
fn with_info(column: &ColDef, info: &ColInfo) -> Result<ColDef, AllocError>
    ensures { IfOk result (λ d. d ≡ with_info info.now column.now) }
{
    let info = info.clone()?;
    let id = copy_of_name(&column.id)?;
    let row = column.row;
    Ok(ColDef { id, info, row })
}

// The column with what is new.
fn told_column(column: &ColDef, told: &Told) -> Result<ColDef, AllocError>
    ensures { IfOk result (λ d. d ≡ told_column told.now column.now) }
{
    match told {
        Told::Name(new) => with_name(column, new),
        Told::Info(info) => with_info(column, info),
    }
}

// The column, with what is new where it has this id.
fn changed(column: &ColDef, id: &Name, told: &Told) -> Result<ColDef, AllocError>
    ensures { IfOk result
        (λ d. d ≡ cond (bytes_eq column.now.id id.now)
        (told_column told.now column.now) column.now) }
{
    if column.id.as_str() == id.as_str() {
        told_column(column, told)
    } else {
        copy_of_column(column)
    }
}

// A table with a new column.
#[derive(Drop)]
struct Widened<'a> {
    old: Kept<'a>,
    new: &'a ColDef,
}

impl CellSource for Widened<'_> {
    ghost use Rattle.std.specs.Prelude.{cond};
    ghost use Rattle.std.specs.Str.{bytes_eq};
    ghost use Rattle.doc_model.specs.Grid.{cell};
    ghost use Rattle.doc_model.specs.Column.{column_id, start_of};

    ghost value_at = { λ a d r.
        cond (bytes_eq d.id a.new.now.id) (start_of a.new.now)
        (cell column_id a.old.grid d.id r) };

    fn value(&self, column: &ColDef, row: u32) -> Result<CellValue, AllocError> {
        if column.id.as_str() == self.new.id.as_str() {
            Ok(start_of(self.new))
        } else {
            self.old.value(column, row)
        }
    }
}

impl RowTable {
    /// A table of these columns in the order of their rows, without rows.
    pub fn empty(
        alloc: Global,
        id: &Name,
        row: u32,
        columns: &[ColDef],
    ) -> Result<RowTable, AllocError>
        ensures { IfOk result (λ t. t ≡ new_table id.now row columns.now) }
    {
        Ok(RowTable {
            id: id.clone()?,
            row,
            columns: columns_by_row(alloc, columns)?,
            rows: Vec::new(alloc),
            cells: Vec::new(alloc),
        })
    }

    /// The table under another id.
    pub fn named(&self, new: &Name) -> Result<RowTable, AllocError>
        ensures { IfOk result (λ t. t ≡ renamed new.now self.now) }
    {
        self.with_columns(new, self.columns_copy()?)
    }

    /// The table with the column in its place, whose cells are as new ones are.
    pub fn with_column(&self, new: &ColDef) -> Result<RowTable, AllocError>
        ensures { IfOk result (λ t. t ≡ on_grid (add_column new.now) self.now) }
    {
        let source = Widened {
            old: Kept::of(self),
            new,
        };
        let mut columns = self.columns_copy()?;
        put_column(&mut columns, copy_of_column(new)?)?;
        self.refilled(columns, self.rows_copy()?, &source)
    }

    /// The table without the column of this id.
    pub fn without_column(&self, id: &Name) -> Result<RowTable, AllocError>
        ensures { IfOk result (λ t. t ≡ on_grid (remove_column id.now) self.now) }
    {
        let left = columns_without(self.alloc(), self.columns(), id)?;
        self.refilled(left, self.rows_copy()?, &Kept::of(self))
    }

    // The table with the column of this id changed.
    fn with_changed(&self, id: &Name, told: &Told) -> Result<RowTable, AllocError>
        ensures { IfOk result
            (λ t. t ≡ on_grid (with_column id.now (told_column told.now)) self.now) }
    {
        let columns = all_made(
            self.alloc(),
            &self.columns,
            |column| changed(column, id, told),
        )?;
        self.with_columns(&self.id, columns)
    }

    /// The table with the column of this id under another one.
    pub fn with_column_named(&self, id: &Name, new: &Name) -> Result<RowTable, AllocError>
        ensures { IfOk result (λ t. t ≡ on_grid (with_column id.now (with_name new.now)) self.now) }
    {
        self.with_changed(id, &Told::Name(new))
    }

    /// The table with the column of this id of another type or formula.
    pub fn with_column_modified(&self, id: &Name, info: &ColInfo) -> Result<RowTable, AllocError>
        ensures { IfOk result
            (λ t. t ≡ on_grid (with_column id.now (with_info info.now)) self.now) }
    {
        self.with_changed(id, &Told::Info(info))
    }
}
