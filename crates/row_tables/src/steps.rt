//! Document actions as changes of one table, and the index of that table.

ghost use Rattle.std.specs.Prelude.{◌≡◌, ◌<◌, false, None, IfOk, MatchOption, length, slice_get};
ghost use Rattle.doc_model.specs.ByIds.{find_id};
ghost use Rattle.doc_model.specs.Document.{table_id};
ghost use Rattle.row_tables.specs.Steps.{is_record, table_change, table_named, table_index};

use crate::RowTable;
use cell_types::Name;
use doc_model::DocAction;
use std::alloc::AllocError;

/// Whether the action changes rows alone.
pub(crate) fn is_record(action: &DocAction) -> bool
    ensures { result ≡ is_record action.now }
{
    matches!(
        action,
        DocAction::BulkAdd { .. } | DocAction::BulkUpdate { .. } | DocAction::BulkRemove { .. }
    )
}

/// The table that the action names.
pub(crate) fn table_named(action: &DocAction) -> &Name
    ensures { result.now ≡ table_named action.now }
{
    match action {
        DocAction::BulkAdd { table, .. }
        | DocAction::BulkUpdate { table, .. }
        | DocAction::BulkRemove { table, .. }
        | DocAction::AddTable { table, .. }
        | DocAction::RemoveTable { table }
        | DocAction::RenameTable { table, .. }
        | DocAction::AddColumn { table, .. }
        | DocAction::RemoveColumn { table, .. }
        | DocAction::RenameColumn { table, .. }
        | DocAction::ModifyColumn { table, .. } => table,
    }
}

/// What becomes of the table that the action names, where it stays.
pub(crate) fn changed_table(table: &RowTable, action: &DocAction) -> Result<RowTable, AllocError>
    requires { is_record action.now ≡ false }
    ensures { IfOk result (λ t. t ≡ table_change action.now table.now) }
{
    match action {
        DocAction::RenameTable { new, .. } => table.named(new),
        DocAction::AddColumn { column, .. } => table.with_column(column),
        DocAction::RemoveColumn { column, .. } => table.without_column(column),
        DocAction::RenameColumn { column, new, .. } => table.with_column_named(column, new),
        DocAction::ModifyColumn { column, info, .. } => table.with_column_modified(column, info),
        DocAction::AddTable { .. } | DocAction::RemoveTable { .. } => table.copy(),
        DocAction::BulkAdd { .. } | DocAction::BulkUpdate { .. } | DocAction::BulkRemove { .. } => {
            unreachable!()
        }
    }
}

/// The index of the table of this id.
///
/// Memory: none. Cost: linear in the tables.
pub(crate) fn index_of_table(tables: &[RowTable], id: &Name) -> Option<usize>
    ensures { MatchOption result (find_id table_id id.now tables.now ≡ None)
        (λ k. (k < length tables.now)
        × (slice_get tables.now k ≡ find_id table_id id.now tables.now)) }
{
    for (index, table) in tables.iter().enumerate() {
        if table.id().as_str() == id.as_str() {
            return Some(index);
        }
    }
    None
}

/// Where a table of that row goes: before the first one with a greater row.
///
/// Memory: none. Cost: linear in the tables.
pub(crate) fn index_by_row(tables: &[RowTable], row: u32) -> usize
    ensures { result ≡ table_index row tables.now }
{
    for (index, table) in tables.iter().enumerate() {
        if row < table.row() {
            return index;
        }
    }
    tables.len()
}
