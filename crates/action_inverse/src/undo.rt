//! The inverse of a document action.

ghost use Rattle.std.specs.Prelude.{◌≡◌, [], ◌∷◌, true, IfOk};
ghost use Rattle.doc_model.specs.declared.action.DocAction.TheVariants.{BulkRemove, RemoveColumn, RemoveTable, RenameColumn, RenameTable};
ghost use Rattle.doc_model.specs.DocumentLaws.{IsWhole};
ghost use Rattle.doc_model.specs.Inverse.{inverse};
ghost use Rattle.doc_model.specs.Valid.{valid};

use crate::restore::{cells_again, column_again, info_again, rows_again, single, table_again};
use cell_types::{Name, RowList};
use doc_model::{DocAction, DocActionList, DocTables};
use std::alloc::{AllocError, Global};

// Rows go.
fn rows_gone(alloc: Global, table: &Name, rows: &RowList) -> Result<DocActionList, AllocError>
    ensures { IfOk result (λ l. l ≡ BulkRemove table.now rows.now ∷ []) }
{
    let rows = rows.clone()?;
    let table = table.clone()?;
    single(alloc, DocAction::BulkRemove { table, rows })
}

// A table goes.
fn table_gone(alloc: Global, table: &Name) -> Result<DocActionList, AllocError>
    ensures { IfOk result (λ l. l ≡ RemoveTable table.now ∷ []) }
{
    let table = table.clone()?;
    single(alloc, DocAction::RemoveTable { table })
}

// A table gets a new name.
fn table_named(alloc: Global, table: &Name, new: &Name) -> Result<DocActionList, AllocError>
    ensures { IfOk result (λ l. l ≡ RenameTable table.now new.now ∷ []) }
{
    let new = new.clone()?;
    let table = table.clone()?;
    single(alloc, DocAction::RenameTable { table, new })
}

// A column goes.
fn column_gone(alloc: Global, table: &Name, column: &Name) -> Result<DocActionList, AllocError>
    ensures { IfOk result (λ l. l ≡ RemoveColumn table.now column.now ∷ []) }
{
    let column = column.clone()?;
    let table = table.clone()?;
    single(alloc, DocAction::RemoveColumn { table, column })
}

// A column gets a new name.
fn column_named(
    alloc: Global,
    table: &Name,
    column: &Name,
    new: &Name,
) -> Result<DocActionList, AllocError>
    ensures { IfOk result (λ l. l ≡ RenameColumn table.now column.now new.now ∷ []) }
{
    let new = new.clone()?;
    let column = column.clone()?;
    let table = table.clone()?;
    single(alloc, DocAction::RenameColumn { table, column, new })
}

/// The actions that undo a valid action, taken at the document before it.
///
/// The document has to be whole: the metadata row with which a removed table comes back is read
/// from the table of tables.
///
/// Memory: the result, and the columns of the table. Cost: linear in the cells that the action
/// takes away, and at most the square of the number of columns.
#[tactic(auto, using(crate::proofs::TableLemmas::info_is_back))]
pub fn inverse<D: DocTables>(
    alloc: Global,
    tables: &D,
    action: &DocAction,
) -> Result<DocActionList, AllocError>
    requires whole { IsWhole (D.document tables.now) }
    requires valid { valid (D.document tables.now) action.now ≡ true }
    ensures { IfOk result (λ l. l ≡ inverse (D.document tables.now) action.now) }
{
    match action {
        DocAction::BulkAdd { table, rows, .. } => rows_gone(alloc, table, rows),
        DocAction::BulkUpdate {
            table,
            rows,
            columns,
        } => cells_again(alloc, tables, table, rows, columns),
        DocAction::BulkRemove { table, rows } => rows_again(alloc, tables, table, rows),
        DocAction::AddTable { table, .. } => table_gone(alloc, table),
        DocAction::RemoveTable { table } => table_again(alloc, tables, table),
        DocAction::RenameTable { table, new } => table_named(alloc, new, table),
        DocAction::AddColumn { table, column } => column_gone(alloc, table, &column.id),
        DocAction::RemoveColumn { table, column } => column_again(alloc, tables, table, column),
        DocAction::RenameColumn { table, column, new } => column_named(alloc, table, new, column),
        DocAction::ModifyColumn { table, column, .. } => info_again(alloc, tables, table, column),
    }
}
