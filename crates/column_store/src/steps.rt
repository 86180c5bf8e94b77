//! Document actions as changes of one table, and the index of that table.

ghost use Rattle.std.specs.Prelude.{◌≡◌, ◌<◌, IfSome, None, MatchOption, length, slice_get};
ghost use Rattle.doc_model.specs.ByIds.{AreDistinct, find_id};
ghost use Rattle.doc_model.specs.Document.{table_id};
ghost use Rattle.row_tables.specs.Steps.{is_record, table_index, table_named};

use crate::look::is_same_id;
use crate::table::ColumnTable;
use cell_types::Name;
use doc_model::DocAction;

/// Whether the action changes rows alone.
pub(crate) fn is_record(action: &DocAction) -> bool
    ensures { result ≡ is_record action.now }
{
    matches!(
        action,
        DocAction::BulkAdd { .. } | DocAction::BulkUpdate { .. } | DocAction::BulkRemove { .. }
    )
}

/// The table that the action names.
pub(crate) fn table_named(action: &DocAction) -> &Name
    ensures { result.now ≡ table_named action.now }
{
    match action {
        DocAction::BulkAdd { table, .. }
        | DocAction::BulkUpdate { table, .. }
        | DocAction::BulkRemove { table, .. }
        | DocAction::AddTable { table, .. }
        | DocAction::RemoveTable { table }
        | DocAction::RenameTable { table, .. }
        | DocAction::AddColumn { table, .. }
        | DocAction::RemoveColumn { table, .. }
        | DocAction::RenameColumn { table, .. }
        | DocAction::ModifyColumn { table, .. } => table,
    }
}

// The index of the table of this id, by a walk.
fn walked_index(tables: &[ColumnTable], id: &Name) -> Option<usize>
    ensures { MatchOption result (find_id table_id id.now tables.now ≡ None)
        (λ k. (k < length tables.now)
        × (slice_get tables.now k ≡ find_id table_id id.now tables.now)) }
{
    for (index, table) in tables.iter().enumerate() {
        if is_same_id(table.id(), id) {
            return Some(index);
        }
    }
    None
}

// The index, where the table of this id stands there.
fn confirmed(tables: &[ColumnTable], guess: Option<usize>, id: &Name) -> Option<usize>
    requires { AreDistinct table_id tables.now }
    ensures { IfSome result (λ k. (k < length tables.now)
        × (slice_get tables.now k ≡ find_id table_id id.now tables.now)) }
{
    let index = guess?;
    let table = tables.get(index)?;
    if is_same_id(table.id(), id) {
        Some(index)
    } else {
        None
    }
}

/// The index of the table of this id. A guess is looked at first, whatever it is.
///
/// Memory: none. Cost: linear in the tables where the guess is wrong, else the same for each.
pub(crate) fn index_of_table(
    tables: &[ColumnTable],
    guess: Option<usize>,
    id: &Name,
) -> Option<usize>
    requires { AreDistinct table_id tables.now }
    ensures { MatchOption result (find_id table_id id.now tables.now ≡ None)
        (λ k. (k < length tables.now)
        × (slice_get tables.now k ≡ find_id table_id id.now tables.now)) }
{
    match confirmed(tables, guess, id) {
        Some(index) => Some(index),
        None => walked_index(tables, id),
    }
}

/// Where a table of that row goes: before the first one with a greater row.
///
/// Memory: none. Cost: linear in the tables.
pub(crate) fn index_by_row(tables: &[ColumnTable], row: u32) -> usize
    ensures { result ≡ table_index row tables.now }
{
    for (index, table) in tables.iter().enumerate() {
        if row < table.row() {
            return index;
        }
    }
    tables.len()
}
