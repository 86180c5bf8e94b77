//! The tables, columns and rows of data cells that an action may lose.

ghost use Rattle.std.specs.Prelude.{◌≡◌, [], cond, filter, map, IfOk};
ghost use Rattle.std.specs.Str.{bytes_eq};
ghost use Rattle.doc_model.specs.ByIds.{has_id};
ghost use Rattle.doc_model.specs.Column.{column_row};
ghost use Rattle.doc_model.specs.MetadataIds.{columns_id, tables_id};
ghost use Rattle.doc_model.specs.Records.{given_id};
ghost use Rattle.doc_model.specs.Touched.{column_described, columns_described, columns_touched, names_table};
ghost use Rattle.doc_readers.specs.Parts.{grid_at};
ghost use Rattle.recalc.specs.MayLose.{is_adding, is_record, may_lose_all, may_lose_column, may_lose_data, may_lose_row, rows_to_lose, rows_written, tables_written};

use crate::rows::rows_among;
use cell_types::Name;
use doc_model::{CellColumn, ColDef, DocAction, DocReader};
use doc_readers::{find_column, is_schema_id, rows_in};
use std::alloc::{AllocError, Global};

/// Whether the action is one on records.
pub(crate) fn is_record(action: &DocAction) -> bool
    ensures { result ≡ is_record action.now }
{
    matches!(
        action,
        DocAction::BulkAdd { .. } | DocAction::BulkUpdate { .. } | DocAction::BulkRemove { .. }
    )
}

/// Whether the action adds records or a table, and so loses no data cell.
fn is_adding(action: &DocAction) -> bool
    ensures { result ≡ is_adding action.now }
{
    matches!(
        action,
        DocAction::BulkAdd { .. } | DocAction::AddTable { .. }
    )
}

fn names_table(action: &DocAction, id: &Name) -> bool
    ensures { result ≡ names_table action.now id.now }
{
    match action {
        DocAction::BulkAdd { table, .. }
        | DocAction::BulkUpdate { table, .. }
        | DocAction::BulkRemove { table, .. }
        | DocAction::AddTable { table, .. }
        | DocAction::RemoveTable { table }
        | DocAction::AddColumn { table, .. }
        | DocAction::RemoveColumn { table, .. }
        | DocAction::RenameColumn { table, .. }
        | DocAction::ModifyColumn { table, .. } => table.as_str() == id.as_str(),
        DocAction::RenameTable { table, new } => {
            table.as_str() == id.as_str() || new.as_str() == id.as_str()
        }
    }
}

#[tactic(auto, unfolding(doc_model::specs::MetadataIds::tables_id))]
fn is_tables_id(id: &Name) -> bool
    ensures { result ≡ bytes_eq tables_id id.now }
{
    "_grist_Tables" == id.as_str()
}

#[tactic(auto, unfolding(doc_model::specs::MetadataIds::columns_id))]
fn is_columns_id(id: &Name) -> bool
    ensures { result ≡ bytes_eq columns_id id.now }
{
    "_grist_Tables_column" == id.as_str()
}

/// The table in which a record action writes or removes rows, and none of another.
pub(crate) fn tables_written(alloc: Global, action: &DocAction) -> Result<Vec<Name>, AllocError>
    ensures { IfOk result (λ v. v.items ≡ tables_written action.now) }
{
    let mut tables = Vec::new(alloc);
    if let DocAction::BulkUpdate { table, .. } | DocAction::BulkRemove { table, .. } = action {
        tables.push(table.clone()?)?;
    }
    Ok(tables)
}

fn is_given(columns: &[CellColumn], id: &Name) -> bool
    ensures { result ≡ has_id given_id columns.now id.now }
{
    columns
        .iter()
        .any(|column| column.id.as_str() == id.as_str())
}

/// Whether data cells of the column may be lost, where its table is named.
///
/// Memory: none. Cost: linear in the columns that the action gives.
pub fn may_lose_column(action: &DocAction, id: &Name) -> bool
    ensures { result ≡ may_lose_column action.now id.now }
{
    match action {
        DocAction::BulkUpdate { columns, .. } => is_given(columns.as_slice(), id),
        _ => true,
    }
}

/// Whether data cells of the table may be lost.
pub(crate) fn may_lose_data(action: &DocAction, id: &Name) -> bool
    ensures { result ≡ may_lose_data action.now id.now }
{
    !is_adding(action)
        && (names_table(action, id) || !is_record(action) && is_schema_id(id.as_str()))
}

fn may_lose_all(action: &DocAction, id: &Name) -> bool
    ensures { result ≡ may_lose_all action.now id.now }
{
    !is_record(action) && (names_table(action, id) || is_tables_id(id))
}

fn rows_written(action: &DocAction) -> &[u32]
    ensures { result.now ≡ rows_written action.now }
{
    match action {
        DocAction::BulkUpdate { rows, .. } | DocAction::BulkRemove { rows, .. } => rows.as_slice(),
        _ => &[],
    }
}

// The rows of the table that a record action writes or removes.
fn rows_written_in<'a>(action: &'a DocAction, id: &Name) -> &'a [u32]
    ensures { result.now ≡ cond (names_table action.now id.now) (rows_written action.now) [] }
{
    if names_table(action, id) {
        return rows_written(action);
    }
    &[]
}

fn rows_of_new(alloc: Global, columns: &[ColDef]) -> Result<Vec<u32>, AllocError>
    ensures { IfOk result (λ v. v.items ≡ map column_row columns.now) }
{
    let mut rows = Vec::new(alloc);
    for column in columns {
        rows.push(column.row)?;
    }
    Ok(rows)
}

fn columns_described<R: DocReader>(
    alloc: Global,
    doc: &R,
    table: &Name,
) -> Result<Vec<u32>, AllocError>
    ensures { IfOk result
        (λ v. v.items ≡ columns_described (R.document doc.now) table.now) }
{
    let mut rows = Vec::new(alloc);
    while let Some(column) = doc.column(table, rows.len()) {
        rows.push(column.row)?;
    }
    Ok(rows)
}

fn column_described<R: DocReader>(
    alloc: Global,
    doc: &R,
    table: &Name,
    column: &Name,
) -> Result<Vec<u32>, AllocError>
    ensures { IfOk result
        (λ v. v.items ≡ column_described (R.document doc.now) table.now column.now) }
{
    let mut rows = Vec::new(alloc);
    if let Some(found) = find_column(doc, table, column) {
        rows.push(found.row)?;
    }
    Ok(rows)
}

// The rows of the table of columns that the action adds, writes or removes.
fn columns_touched<R: DocReader>(
    alloc: Global,
    doc: &R,
    action: &DocAction,
) -> Result<Vec<u32>, AllocError>
    ensures { IfOk result (λ v. v.items ≡ columns_touched (R.document doc.now) action.now) }
{
    match action {
        DocAction::AddTable { columns, .. } => rows_of_new(alloc, columns.as_slice()),
        DocAction::RemoveTable { table } => columns_described(alloc, doc, table),
        DocAction::AddColumn { column, .. } => Ok(vec![in alloc; column.row]?),
        DocAction::RemoveColumn { table, column }
        | DocAction::RenameColumn { table, column, .. }
        | DocAction::ModifyColumn { table, column, .. } => {
            column_described(alloc, doc, table, column)
        }
        _ => Ok(Vec::new(alloc)),
    }
}

// The same where it is the table of columns.
fn columns_touched_in<R: DocReader>(
    alloc: Global,
    doc: &R,
    action: &DocAction,
    id: &Name,
) -> Result<Vec<u32>, AllocError>
    ensures { IfOk result (λ v. v.items
        ≡ cond (bytes_eq columns_id id.now) (columns_touched (R.document doc.now) action.now) []) }
{
    if is_columns_id(id) {
        return columns_touched(alloc, doc, action);
    }
    Ok(Vec::new(alloc))
}

// The rows of the table that may be lost, where not all may.
fn rows_to_lose<R: DocReader>(
    alloc: Global,
    doc: &R,
    action: &DocAction,
    id: &Name,
) -> Result<Vec<u32>, AllocError>
    ensures { IfOk result (λ v. v.items ≡ rows_to_lose (R.document doc.now) action.now id.now) }
{
    let mut rows = Vec::from_slice(alloc, rows_written_in(action, id))?;
    let touched = columns_touched_in(alloc, doc, action, id)?;
    rows.extend_from_slice(touched.as_slice())?;
    Ok(rows)
}

/// The rows of a table whose data cells may be lost, in ascending order.
///
/// Cost: sorting the rows that are named, and for each the logarithm of the rows; linear in the
/// rows where all may be lost.
pub fn rows_of_table<R: DocReader>(
    alloc: Global,
    doc: &R,
    action: &DocAction,
    id: &Name,
) -> Result<Vec<u32>, AllocError>
    ensures { IfOk result (λ v. v.items
        ≡ filter (may_lose_row (R.document doc.now) action.now id.now)
        (grid_at (R.document doc.now) id.now).rows) }
{
    if is_adding(action) {
        return Ok(Vec::new(alloc));
    }
    let rows = rows_in(doc, id);
    if may_lose_all(action, id) {
        let all = Vec::from_slice(alloc, rows)?;
        return Ok(all);
    }
    let named = rows_to_lose(alloc, doc, action, id)?;
    rows_among(alloc, named, rows)
}
