//! Indexes of data columns over an action.

ghost use Rattle.std.specs.Prelude.{◌≡◌, true, false, Some, IfOk, IfSome};
ghost use Rattle.std.specs.Option.{option_copied};
ghost use Rattle.doc_model.specs.ByIds.{find_id};
ghost use Rattle.doc_model.specs.Column.{column_id};
ghost use Rattle.doc_readers.specs.Parts.{grid_at};
ghost use Rattle.recalc.specs.Evaluated.{sheet_of};
ghost use Rattle.recalc.specs.Indexes.{AreIndexes, IsIndex};
ghost use Rattle.affected_values.specs.Indexing.{AreLeft, IsDataColumn, IsIndexBut, IsLeft, leaves_column, rows_of};

use cell_types::Name;
use doc_model::{ColDef, DocAction, DocTables};
use doc_readers::{find_column, holds_row, rows_in};
use lookup_index::LookupIndex;
use recalc::{ColumnIndex, bucket_at, may_lose_column};
use std::alloc::{AllocError, Global};

// Whether an action on records leaves the rows of a table and the cells of its column alone.
fn leaves_column(action: &DocAction, table: &Name, column: &Name) -> bool
    ensures { result ≡ leaves_column action.now table.now column.now }
{
    match action {
        DocAction::BulkUpdate { table: written, .. } => {
            !(table.as_str() == written.as_str() && may_lose_column(action, column))
        }
        DocAction::BulkAdd { table: moved, .. } | DocAction::BulkRemove { table: moved, .. } => {
            table.as_str() != moved.as_str()
        }
        _ => false,
    }
}

// The rows of an action on records.
fn rows_of(action: &DocAction) -> Option<&[u32]>
    ensures { option_copied result ≡ rows_of action.now }
{
    match action {
        DocAction::BulkAdd { rows, .. }
        | DocAction::BulkUpdate { rows, .. }
        | DocAction::BulkRemove { rows, .. } => Some(rows.as_slice()),
        _ => None,
    }
}

// Takes rows out from under the buckets of their cells; tells whether that was done.
fn leave_rows<D: DocTables>(
    alloc: Global,
    tables: &D,
    table: &Name,
    column: &ColDef,
    index: &mut LookupIndex,
    rows: &[u32],
) -> Result<bool, AllocError>
    requires there { Some column.now
        ≡ find_id column_id column.now.id (grid_at (D.document tables.now) table.now).columns }
    requires plain { column.now.info.is_formula ≡ false }
    requires right { IsIndex (sheet_of (D.document tables.now)) table.now column.now.id index.old }
    ensures { IfOk result (λ done. done ≡ true → IsIndexBut (sheet_of (D.document tables.now))
        rows.now table.now column.now.id index.new) }
{
    for row in rows {
        match bucket_at(alloc, tables, table, column, *row)? {
            Some(bucket) => {
                index.remove(bucket, *row);
            }
            None => {
                if holds_row(rows_in(tables, table), *row) {
                    return Ok(false);
                }
            }
        }
    }
    Ok(true)
}

// Puts the rows that are there in under the buckets of their cells; tells whether that was done.
fn enter_rows<D: DocTables>(
    alloc: Global,
    tables: &D,
    table: &Name,
    column: &ColDef,
    index: &mut LookupIndex,
    rows: &[u32],
) -> Result<bool, AllocError>
    requires there { Some column.now
        ≡ find_id column_id column.now.id (grid_at (D.document tables.now) table.now).columns }
    requires plain { column.now.info.is_formula ≡ false }
    requires right { IsIndexBut (sheet_of (D.document tables.now)) rows.now table.now column.now.id
        index.old }
    ensures { IfOk result (λ done. done ≡ true → IsIndex (sheet_of (D.document tables.now))
        table.now column.now.id index.new) }
{
    for row in rows {
        if holds_row(rows_in(tables, table), *row) {
            let Some(bucket) = bucket_at(alloc, tables, table, column, *row)? else {
                return Ok(false);
            };
            index.insert(alloc, bucket, *row)?;
        }
    }
    Ok(true)
}

// The column of an index, where it is there and has no formulas.
fn data_column<'a, D: DocTables>(tables: &'a D, table: &Name, column: &Name) -> Option<&'a ColDef>
    ensures { IfSome result (λ d. IsDataColumn (D.document tables.now) table.now column.now d.now) }
{
    let found = find_column(tables, table, column)?;
    if found.info.is_formula {
        return None;
    }
    Some(found)
}

// An index as it is left before an action; none, where it is not.
fn leave_index<D: DocTables>(
    alloc: Global,
    tables: &D,
    index: ColumnIndex,
    action: &DocAction,
) -> Result<Option<ColumnIndex>, AllocError>
    requires { IsIndex (sheet_of (D.document tables.now)) index.table index.column index.index }
    ensures { IfOk result
        (λ o. IfSome o (λ i. IsLeft (sheet_of (D.document tables.now)) action.now i)) }
{
    if leaves_column(action, &index.table, &index.column) {
        return Ok(Some(index));
    }
    let Some(rows) = rows_of(action) else {
        return Ok(None);
    };
    let Some(column) = data_column(tables, &index.table, &index.column) else {
        return Ok(None);
    };
    let mut index = index;
    if leave_rows(alloc, tables, &index.table, column, &mut index.index, rows)? {
        return Ok(Some(index));
    }
    Ok(None)
}

// An index that was left before an action, made right after it; none, where it is not.
fn enter_index<D: DocTables>(
    alloc: Global,
    tables: &D,
    index: ColumnIndex,
    action: &DocAction,
) -> Result<Option<ColumnIndex>, AllocError>
    requires { IsLeft (sheet_of (D.document tables.now)) action.now index }
    ensures { IfOk result (λ o. IfSome o (λ i. IsIndex (sheet_of (D.document tables.now))
        i.table i.column i.index)) }
{
    if leaves_column(action, &index.table, &index.column) {
        return Ok(Some(index));
    }
    let Some(rows) = rows_of(action) else {
        return Ok(None);
    };
    let Some(column) = data_column(tables, &index.table, &index.column) else {
        return Ok(None);
    };
    let mut index = index;
    if enter_rows(alloc, tables, &index.table, column, &mut index.index, rows)? {
        return Ok(Some(index));
    }
    Ok(None)
}

fn leave_each<D: DocTables>(
    alloc: Global,
    tables: &D,
    indexes: Vec<ColumnIndex>,
    action: &DocAction,
) -> Result<Vec<ColumnIndex>, AllocError>
    requires { AreIndexes (sheet_of (D.document tables.now)) indexes.items }
    ensures { IfOk result (λ v. AreLeft (D.document tables.now) action.now v.items) }
{
    let mut indexes = indexes;
    let mut left = Vec::with_capacity(alloc, indexes.len())?;
    'leaving: while let Some(index) = indexes.pop() {
        if let Some(index) = leave_index(alloc, tables, index, action)? {
            left.push(index)?;
        }
    }
    Ok(left)
}

fn enter_each<D: DocTables>(
    alloc: Global,
    tables: &D,
    left: Vec<ColumnIndex>,
    action: &DocAction,
) -> Result<Vec<ColumnIndex>, AllocError>
    requires { AreLeft (D.document tables.now) action.now left.items }
    ensures { IfOk result (λ v. AreIndexes (sheet_of (D.document tables.now)) v.items) }
{
    let mut left = left;
    let mut indexes = Vec::with_capacity(alloc, left.len())?;
    'entering: while let Some(index) = left.pop() {
        if let Some(index) = enter_index(alloc, tables, index, action)? {
            indexes.push(index)?;
        }
    }
    Ok(indexes)
}

/// Takes the rows of an action on records out of the indexes of a document, before it is done: the
/// rows that it writes out of the indexes of the columns that it gives, rows that come or go out of
/// those of their table. An index is given up where that wants memory, and each before an action on
/// no records.
///
/// Memory: a place for each index, and of one cell what is read. Cost: for each such index and row
/// a search for the cell, and a place in its bucket.
pub fn leave_indexes<D: DocTables>(
    alloc: Global,
    tables: &D,
    indexes: Vec<ColumnIndex>,
    action: &DocAction,
) -> Vec<ColumnIndex>
    requires { AreIndexes (sheet_of (D.document tables.now)) indexes.items }
    ensures { AreLeft (D.document tables.now) action.now result.items }
{
    match leave_each(alloc, tables, indexes, action) {
        Ok(left) => left,
        Err(_) => Vec::new(alloc),
    }
}

/// Puts the rows of an action on records into the indexes that were left for it, now that it is
/// done. An index is given up where an error stands in a cell, or where memory is wanting.
///
/// Memory: a place for each index, and what a row takes under a bucket. Cost: as of
/// `leave_indexes`.
pub fn enter_indexes<D: DocTables>(
    alloc: Global,
    tables: &D,
    left: Vec<ColumnIndex>,
    action: &DocAction,
) -> Vec<ColumnIndex>
    requires { AreLeft (D.document tables.now) action.now left.items }
    ensures { AreIndexes (sheet_of (D.document tables.now)) result.items }
{
    match enter_each(alloc, tables, left, action) {
        Ok(indexes) => indexes,
        Err(_) => Vec::new(alloc),
    }
}
