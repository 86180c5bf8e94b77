//! A table after an edit, as a new table.

ghost use Rattle.std.specs.Prelude.{◌≡◌, [], bytes_eq, false, true, IfOk};
ghost use Rattle.doc_model.specs.ByIds.{AreDistinct, put_by_id, without_id};
ghost use Rattle.doc_model.specs.Changes.{grid, table as table_of};
ghost use Rattle.doc_model.specs.Grid.{grid_of};
ghost use Rattle.doc_model.specs.Rows.{none_in};
ghost use Rattle.doc_model.specs.ViewEdits.{IsShown, add, edited, remove, remove_column, shown_id, update};
ghost use Rattle.view_patch.specs.Given.{AreFull, new_cell};

use crate::placing::{put_by_id, remove_by_id};
use crate::rebuilding::rebuilt;
use crate::rows::{is_ascending, rows_with};
use cell_types::Name;
use doc_model::{CellColumn, ViewCol, ViewColList, ViewTable};
use plain_view::copies::{column_copy, columns_copy, rows_copy};
use plain_view::rows::rows_without;
use std::alloc::{AllocError, Global};

fn columns_without(columns: &ViewColList, id: &Name) -> Result<ViewColList, AllocError>
    requires { AreDistinct shown_id columns.now }
    ensures { IfOk result (λ l. l ≡ without_id shown_id id.now columns.now) }
{
    let mut all = columns_copy(columns)?.into_vec();
    remove_by_id(&mut all, id);
    Ok(ViewColList::from(all))
}

fn columns_with(columns: &ViewColList, column: &ViewCol) -> Result<ViewColList, AllocError>
    ensures { IfOk result (λ l. l ≡ put_by_id shown_id column.now columns.now) }
{
    let mut all = columns_copy(columns)?.into_vec();
    put_by_id(&mut all, column_copy(column)?)?;
    Ok(ViewColList::from(all))
}

/// The table without the column of an id.
///
/// Errors: out of memory. Cost: as `rebuilt`.
pub(crate) fn without_column(
    alloc: Global,
    table: &ViewTable,
    id: &Name,
) -> Result<ViewTable, AllocError>
    requires { IsShown (grid table.now) }
    ensures { IfOk result
        (λ t. t ≡ table_of table.now.id (edited (remove_column id.now) (grid table.now))) }
{
    let columns = columns_without(&table.columns, id)?;
    rebuilt(alloc, table, columns, rows_copy(&table.rows)?, &[], &[])
}

/// The table with a column in its place, instead of one of its id. Cells of a new column are the
/// type's default.
///
/// Errors: out of memory. Cost: as `rebuilt`.
pub(crate) fn with_column(
    alloc: Global,
    table: &ViewTable,
    column: &ViewCol,
) -> Result<ViewTable, AllocError>
    requires { IsShown (grid table.now) }
    ensures { IfOk result
        (λ t. t ≡ table_of table.now.id
        (grid_of (put_by_id shown_id column.now table.now.columns) table.now.rows
        (new_cell (grid table.now) [] []))) }
{
    let columns = columns_with(&table.columns, column)?;
    rebuilt(alloc, table, columns, rows_copy(&table.rows)?, &[], &[])
}

/// The table without rows.
///
/// Errors: out of memory. Cost: as `rebuilt`.
pub(crate) fn without_rows(
    alloc: Global,
    table: &ViewTable,
    rows: &[u32],
) -> Result<ViewTable, AllocError>
    requires { IsShown (grid table.now) }
    ensures { IfOk result
        (λ t. t ≡ table_of table.now.id (edited (remove rows.now) (grid table.now))) }
{
    let left = rows_without(alloc, rows, is_ascending(rows), table.rows.as_slice())?;
    rebuilt(alloc, table, columns_copy(&table.columns)?, left, &[], &[])
}

/// The table with new rows, whose cells are those given or the types' defaults.
///
/// Errors: out of memory. Cost: as `rebuilt`, and for each new row the rows above it.
pub(crate) fn with_rows(
    alloc: Global,
    table: &ViewTable,
    rows: &[u32],
    columns: &[CellColumn],
) -> Result<ViewTable, AllocError>
    requires table { IsShown (grid table.now) }
    requires new { none_in rows.now table.now.rows ≡ true }
    requires full { AreFull rows.now columns.now }
    ensures { IfOk result
        (λ t. t ≡ table_of table.now.id (edited (add rows.now columns.now) (grid table.now))) }
{
    let all = rows_with(rows_copy(&table.rows)?.into_vec(), rows)?;
    rebuilt(
        alloc,
        table,
        columns_copy(&table.columns)?,
        all,
        rows,
        columns,
    )
}

/// The table with the given values written.
///
/// Errors: out of memory. Cost: as `rebuilt`.
pub(crate) fn with_values(
    alloc: Global,
    table: &ViewTable,
    rows: &[u32],
    columns: &[CellColumn],
) -> Result<ViewTable, AllocError>
    requires table { IsShown (grid table.now) }
    requires full { AreFull rows.now columns.now }
    ensures { IfOk result
        (λ t. t ≡ table_of table.now.id (edited (update rows.now columns.now) (grid table.now))) }
{
    let kept = rows_copy(&table.rows)?;
    rebuilt(
        alloc,
        table,
        columns_copy(&table.columns)?,
        kept,
        rows,
        columns,
    )
}
