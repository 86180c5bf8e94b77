//! Where a document action is valid.

ghost use Rattle.std.specs.Prelude.{◌≡◌};
ghost use Rattle.doc_model.specs.DocumentLaws.{IsWhole};
ghost use Rattle.doc_model.specs.Valid.{valid};

use crate::record_validity::{may_add, may_remove, may_update};
use crate::schema_validity::{
    may_add_column, may_add_table, may_modify_column, may_remove_column, may_remove_table,
    may_rename_column, may_rename_table,
};
use doc_model::{DocAction, DocTables};
use std::alloc::Global;

/// Whether the action is valid.
///
/// Memory: a copy of given rows that do not ascend; without it the answer is the same.
/// Cost: linear in the given values; for each given row the logarithm of the given rows and of the
/// rows of the table; for each given column the given columns and those of the table.
pub fn is_valid<D: DocTables>(alloc: Global, tables: &D, action: &DocAction) -> bool
    requires whole { IsWhole (D.document tables.now) }
    ensures { result ≡ valid (D.document tables.now) action.now }
{
    match action {
        DocAction::BulkAdd {
            table,
            rows,
            columns,
        } => may_add(alloc, tables, table, rows.as_slice(), columns.as_slice()),
        DocAction::BulkUpdate {
            table,
            rows,
            columns,
        } => may_update(alloc, tables, table, rows.as_slice(), columns.as_slice()),
        DocAction::BulkRemove { table, rows } => may_remove(alloc, tables, table, rows.as_slice()),
        DocAction::AddTable {
            table,
            row,
            columns,
        } => may_add_table(tables, table, *row, columns.as_slice()),
        DocAction::RemoveTable { table } => may_remove_table(tables, table),
        DocAction::RenameTable { table, new } => may_rename_table(tables, table, new),
        DocAction::AddColumn { table, column } => may_add_column(tables, table, column),
        DocAction::RemoveColumn { table, column } => may_remove_column(tables, table, column),
        DocAction::RenameColumn { table, column, new } => {
            may_rename_column(tables, table, column, new)
        }
        DocAction::ModifyColumn {
            table,
            column,
            info,
        } => may_modify_column(tables, table, column, info),
    }
}
