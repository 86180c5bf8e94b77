//! Whether an action fits a view: it names what is there, and adds what is not.

ghost use Rattle.std.specs.Prelude.{◌≡◌};
ghost use Rattle.std.specs.List.{AllByRecursion, list_all};
ghost use Rattle.doc_model.specs.declared.column.CellColumn.{CellColumn};
ghost use Rattle.doc_model.specs.ByIds.{has_id};
ghost use Rattle.doc_model.specs.Changes.{IsView, grid};
ghost use Rattle.doc_model.specs.Patch.{edit_fits, fits};
ghost use Rattle.doc_model.specs.Rows.{IsAscending, all_in};
ghost use Rattle.doc_model.specs.ViewEdits.{IsShown, add, shown_id};
ghost use Rattle.view_patch.specs.Acts.{act_fits, fits_there};

use crate::rows::{are_all_in, are_none_in, has_no_duplicates};
use cell_types::Name;
use doc_model::{CellColumn, ViewAction, ViewTable};
use plain_view::named::{are_distinct, find_id, is_there};

// Whether the table has each of the columns.
fn has_each(table: &ViewTable, columns: &[CellColumn]) -> bool
    ensures { result
        ≡ list_all (λ (k : CellColumn). has_id shown_id table.now.columns k.id) columns.now }
{
    let known = table.columns.as_slice();
    columns.iter().all(|column| is_there(known, &column.id))
}

fn takes_rows(table: &ViewTable, rows: &[u32], columns: &[CellColumn]) -> bool
    requires { IsAscending table.now.rows }
    ensures { result ≡ edit_fits (add rows.now columns.now) (grid table.now) }
{
    has_no_duplicates(rows)
        && are_none_in(rows, table.rows.as_slice())
        && are_distinct(columns)
        && has_each(table, columns)
}

/// Whether the action is about a table that is there, and fits this one.
///
/// Memory: none. Cost: the rows of the action, times the logarithm of the table's rows, and the
/// square of the columns; new rows that do not ascend cost their square.
pub(crate) fn fits_in(table: &ViewTable, action: &ViewAction) -> bool
    requires { IsAscending table.now.rows }
    ensures { result ≡ act_fits action.now table.now }
{
    let known = table.columns.as_slice();
    let there = table.rows.as_slice();
    match action {
        ViewAction::AddColumn { column, .. } => !is_there(known, &column.id),
        ViewAction::RemoveColumn { column, .. } => is_there(known, column),
        ViewAction::ModifyColumn { column, .. } => is_there(known, &column.id),
        ViewAction::BulkRemove { rows, .. } => are_all_in(rows.as_slice(), there),
        ViewAction::BulkAdd { rows, columns, .. } => {
            takes_rows(table, rows.as_slice(), columns.as_slice())
        }
        ViewAction::BulkUpdate { rows, columns, .. } => {
            are_all_in(rows.as_slice(), there) && has_each(table, columns.as_slice())
        }
        ViewAction::AddTable { .. } | ViewAction::RemoveTable { .. } => false,
    }
}

fn fits_there(tables: &[ViewTable], table: &Name, action: &ViewAction) -> bool
    requires { AllByRecursion (λ t. IsShown (grid t)) tables.now }
    ensures { result ≡ fits_there table.now action.now tables.now }
{
    match find_id(tables, table) {
        Some(found) => fits_in(found, action),
        None => false,
    }
}

/// Whether the action fits the view.
///
/// Memory: none. Cost: as `fits_in`, and the number of tables.
pub(crate) fn fits(tables: &[ViewTable], action: &ViewAction) -> bool
    requires { AllByRecursion (λ t. IsShown (grid t)) tables.now }
    ensures { result ≡ fits action.now tables.now }
{
    match action {
        ViewAction::AddTable { table, columns } => {
            !is_there(tables, table) && are_distinct(columns.as_slice())
        }
        ViewAction::RemoveTable { table } => is_there(tables, table),
        ViewAction::AddColumn { table, .. } => fits_there(tables, table, action),
        ViewAction::RemoveColumn { table, .. } => fits_there(tables, table, action),
        ViewAction::ModifyColumn { table, .. } => fits_there(tables, table, action),
        ViewAction::BulkAdd { table, .. } => fits_there(tables, table, action),
        ViewAction::BulkUpdate { table, .. } => fits_there(tables, table, action),
        ViewAction::BulkRemove { table, .. } => fits_there(tables, table, action),
    }
}
