//! The changes of a table's rows and cells.

ghost use Rattle.std.specs.Prelude.{◌≡◌, ◌++◌, filter, map, IfOk, OnOk};
ghost use Rattle.doc_model.specs.declared.view.ViewCol.{ViewCol};
ghost use Rattle.doc_model.specs.declared.view.ViewAction.TheVariants.{BulkAdd, BulkRemove};
ghost use Rattle.doc_model.specs.Changes.{for_each, grid};
ghost use Rattle.doc_model.specs.Records.{column_of};
ghost use Rattle.doc_model.specs.Rows.{IsAscending, without};
ghost use Rattle.doc_model.specs.ViewEdits.{IsShown, if_any, shown_id, shown_start, whole};
ghost use Rattle.plain_view.specs.Cells.{column_index};
ghost use Rattle.plain_view.specs.Told.{is_told_at};
ghost use Rattle.plain_view.specs.Steps.{is_told, updated_column};

use crate::actions::add;
use crate::cells::{column_of, is_same_value, row_cells, value_in};
use crate::copies::name_copy;
use crate::named::index_of;
use crate::rows::{has_row, push_if, rows_without};
use cell_types::{CellValue, Name, RowList, default_of};
use doc_model::{CellColumn, ColumnList, ViewAction, ViewCol, ViewTable};
use list_ops::all_made;
use std::alloc::{AllocError, Global};
use std::slice::from_ref;

/// A column's index before and after, and what its cells start with.
#[derive(Drop)]
struct Indexes {
    before: Option<usize>,
    after: Option<usize>,
    start: CellValue,
}

fn indexes_of(before: &ViewTable, after: &ViewTable, column: &ViewCol) -> Indexes
    ensures before { result.before ≡ column_index before.now.columns column.now.id }
    ensures after { result.after ≡ column_index after.now.columns column.now.id }
    ensures start { result.start ≡ shown_start column.now }
{
    Indexes {
        before: index_of(before.columns.as_slice(), &column.id),
        after: index_of(after.columns.as_slice(), &column.id),
        start: default_of(&column.ty),
    }
}

// Whether the cell of a row that stays is another one than before.
fn is_told(before: &ViewTable, after: &ViewTable, indexes: &Indexes, row: u32) -> bool
    requires before { IsShown (grid before.now) }
    requires after { IsShown (grid after.now) }
    ensures { result ≡ is_told_at (grid before.now) (grid after.now) indexes.now row }
{
    if !has_row(before.rows.as_slice(), row) {
        return false;
    }
    let old = value_in(row_cells(before, row), indexes.before, &indexes.start);
    let new = value_in(row_cells(after, row), indexes.after, &CellValue::Null);
    !is_same_value(old, new)
}

// The rows that stay and in which the cell of the column is another one than before.
fn told_rows(
    alloc: Global,
    before: &ViewTable,
    after: &ViewTable,
    column: &ViewCol,
) -> Result<RowList, AllocError>
    requires before { IsShown (grid before.now) }
    requires after { IsShown (grid after.now) }
    ensures { IfOk result
        (λ l. l ≡ filter (is_told (grid before.now) (grid after.now) column.now) after.now.rows) }
{
    let indexes = indexes_of(before, after, column);
    rows_told(alloc, before, after, &indexes)
}

// The same, by the column's indexes.
fn rows_told(
    alloc: Global,
    before: &ViewTable,
    after: &ViewTable,
    indexes: &Indexes,
) -> Result<RowList, AllocError>
    requires before { IsShown (grid before.now) }
    requires after { IsShown (grid after.now) }
    ensures { IfOk result
        (λ l. l ≡ filter
        (is_told_at (grid before.now) (grid after.now) indexes.now) after.now.rows) }
{
    let mut rows = Vec::new(alloc);
    for row in after.rows.as_slice() {
        push_if(&mut rows, is_told(before, after, indexes, *row), *row)?;
    }
    Ok(RowList::from(rows))
}

// The table's id, and the cells of columns in these rows.
fn told_cells(
    alloc: Global,
    table: &ViewTable,
    columns: &[ViewCol],
    rows: &[u32],
) -> Result<(Name, ColumnList), AllocError>
    requires { IsShown (grid table.now) }
    ensures { IfOk result
        (λ t. t ≡ (
          table.now.id,
          map
              (λ (d : ViewCol). column_of shown_id (grid table.now) rows.now d.id) columns.now,
        )) }
{
    let told = all_made(
        alloc,
        columns,
        |column| column_of(alloc, table, rows, &column.id),
    )?;
    Ok((name_copy(&table.id)?, ColumnList::from(told)))
}

fn tell_updated(
    alloc: Global,
    before: &ViewTable,
    after: &ViewTable,
    column: &ViewCol,
    actions: &mut Vec<ViewAction>,
) -> Result<(), AllocError>
    requires before { IsShown (grid before.now) }
    requires after { IsShown (grid after.now) }
    ensures { OnOk result
        (actions.new.items ≡ actions.old.items
        ++ updated_column after.now.id (grid before.now) (grid after.now) column.now) }
{
    let rows = told_rows(alloc, before, after, column)?;
    if rows.is_empty() {
        return Ok(());
    }
    let (table, columns) = told_cells(alloc, after, from_ref(column), rows.as_slice())?;
    add(
        actions,
        ViewAction::BulkUpdate {
            table,
            rows,
            columns,
        },
    )
}

/// Adds, for each column, the cells that are other ones than before to the actions.
///
/// Errors: out of memory. Cost: the cells, times the logarithm of the rows, and the square of the
/// columns.
pub(crate) fn tell_updated_cells(
    alloc: Global,
    before: &ViewTable,
    after: &ViewTable,
    actions: &mut Vec<ViewAction>,
) -> Result<(), AllocError>
    requires before { IsShown (grid before.now) }
    requires after { IsShown (grid after.now) }
    ensures { OnOk result
        (actions.new.items ≡ actions.old.items
        ++ for_each (updated_column after.now.id (grid before.now)
        (grid after.now)) after.now.columns) }
{
    for column in after.columns.as_slice() {
        tell_updated(alloc, before, after, column, actions)?;
    }
    Ok(())
}

/// Adds the rows that are gone to the actions.
///
/// Errors: out of memory. Cost: the rows, times their logarithm.
pub(crate) fn tell_removed_rows(
    alloc: Global,
    table: &Name,
    before: &[u32],
    after: &[u32],
    actions: &mut Vec<ViewAction>,
) -> Result<(), AllocError>
    requires { IsAscending after.now }
    ensures { OnOk result
        (actions.new.items ≡ actions.old.items
        ++ if_any (without after.now before.now)
        (BulkRemove table.now (without after.now before.now))) }
{
    let rows = rows_without(alloc, after, true, before)?;
    if rows.is_empty() {
        return Ok(());
    }
    let table = name_copy(table)?;
    add(actions, ViewAction::BulkRemove { table, rows })
}

/// Adds rows of a table with all their cells to the actions, where there are any.
///
/// Errors: out of memory. Cost: the cells of the rows, times the logarithm of the table's rows,
/// and the square of the columns.
pub(crate) fn tell_added_rows(
    alloc: Global,
    table: &ViewTable,
    rows: RowList,
    actions: &mut Vec<ViewAction>,
) -> Result<(), AllocError>
    requires { IsShown (grid table.now) }
    ensures { OnOk result
        (actions.new.items ≡ actions.old.items
        ++ if_any rows (BulkAdd table.now.id rows (whole (grid table.now) rows))) }
{
    if rows.is_empty() {
        return Ok(());
    }
    let shown = table.columns.as_slice();
    let (table, columns) = told_cells(alloc, table, shown, rows.as_slice())?;
    add(
        actions,
        ViewAction::BulkAdd {
            table,
            rows,
            columns,
        },
    )
}
