//! Indexes of data columns.

ghost use Rattle.std.specs.Prelude.{◌≡◌, false, Some, IfOk, IfSome, OnOk};
ghost use Rattle.std.specs.Option.{option_copied};
ghost use Rattle.doc_model.specs.ByIds.{find_id};
ghost use Rattle.doc_model.specs.Column.{column_id};
ghost use Rattle.doc_readers.specs.Parts.{grid_at};
ghost use Rattle.recalc.specs.Evaluated.{sheet_of};
ghost use Rattle.recalc.specs.Indexes.{AreIndexes, IsInBucket, IsIndex, index_at, is_error};

use crate::candidates::is_id;
use crate::places::is_same_id;
use cell_types::{CellValue, KeyList, Name};
use doc_model::{ColDef, DocTables};
use doc_readers::{find_column, rows_in};
use formula_eval::{Note, as_read};
use lookup_index::{LookupIndex, bucket_of};
use std::alloc::{AllocError, Global};

/// The rows of a table under the buckets of their cells in a data column.
#[derive(Drop)]
pub struct ColumnIndex {
    pub table: Name,
    pub column: Name,
    pub index: LookupIndex,
}

/// The index of a column.
pub(crate) fn find_index<'a>(
    indexes: &'a [ColumnIndex],
    table: &Name,
    column: &Name,
) -> Option<&'a ColumnIndex>
    ensures { option_copied result ≡ index_at indexes.now table.now column.now }
{
    indexes.iter().find(|index| is_same_id(&index.table, table)
        && is_same_id(&index.column, column))
}

fn is_error(value: &CellValue) -> bool
    ensures { result ≡ is_error value.now }
{
    match value {
        CellValue::Err(_) => true,
        _ => false,
    }
}

/// The bucket of a cell of a data column, where it is there and holds no error.
///
/// Errors: out of memory. Memory: the value, while it is read. Cost: a search for the cell, and the
/// length of a text.
pub fn bucket_at<D: DocTables>(
    alloc: Global,
    tables: &D,
    table: &Name,
    column: &ColDef,
    row: u32,
) -> Result<Option<u64>, AllocError>
    ensures { IfOk result (λ o. IfSome o (IsInBucket (sheet_of (D.document tables.now))
        table.now column.now.id column.now.info.ty row)) }
{
    let Some(value) = tables.cell(table, &column.id, row) else {
        return Ok(None);
    };
    if is_error(value) {
        return Ok(None);
    }
    let read = as_read(alloc, &column.info.ty, value)?;
    Ok(Some(bucket_of(&read)))
}

// The index of a data column, where none of its cells holds an error.
fn index_of<D: DocTables>(
    alloc: Global,
    tables: &D,
    table: &Name,
    column: &ColDef,
) -> Result<Option<LookupIndex>, AllocError>
    requires there { Some column.now
        ≡ find_id column_id column.now.id (grid_at (D.document tables.now) table.now).columns }
    requires plain { column.now.info.is_formula ≡ false }
    ensures { IfOk result (λ o. IfSome o
        (IsIndex (sheet_of (D.document tables.now)) table.now column.now.id)) }
{
    let mut index = LookupIndex::new(alloc);
    for row in rows_in(tables, table) {
        let Some(bucket) = bucket_at(alloc, tables, table, column, *row)? else {
            return Ok(None);
        };
        index.insert(alloc, bucket, *row)?;
    }
    Ok(Some(index))
}

fn column_index(table: &Name, column: &Name, index: LookupIndex) -> Result<ColumnIndex, AllocError>
    ensures { IfOk result (λ made. (made.table ≡ table.now) × (made.column ≡ column.now)
        × (made.index ≡ index)) }
{
    Ok(ColumnIndex {
        table: table.clone()?,
        column: column.clone()?,
        index,
    })
}

/// Makes the index of a column, where it is a data column in which no error stands and has none. By
/// `id` rows are found without one.
///
/// Errors: out of memory; the indexes are then to be given up.
/// Memory: a row id for each row of the table. Cost: linear in the table's rows, where it is made.
pub fn index_column<D: DocTables>(
    alloc: Global,
    tables: &D,
    indexes: &mut Vec<ColumnIndex>,
    table: &Name,
    column: &Name,
) -> Result<(), AllocError>
    requires { AreIndexes (sheet_of (D.document tables.now)) indexes.old.items }
    ensures { OnOk result (AreIndexes (sheet_of (D.document tables.now)) indexes.new.items) }
{
    if is_id(column) || find_index(&*indexes, table, column).is_some() {
        return Ok(());
    }
    let Some(found) = find_column(tables, table, column) else {
        return Ok(());
    };
    if found.info.is_formula {
        return Ok(());
    }
    let Some(index) = index_of(alloc, tables, table, found)? else {
        return Ok(());
    };
    indexes.push(column_index(table, &found.id, index)?)?;
    Ok(())
}

fn index_keys<D: DocTables>(
    alloc: Global,
    tables: &D,
    indexes: &mut Vec<ColumnIndex>,
    table: &Name,
    keys: &KeyList,
) -> Result<(), AllocError>
    requires { AreIndexes (sheet_of (D.document tables.now)) indexes.old.items }
    ensures { OnOk result (AreIndexes (sheet_of (D.document tables.now)) indexes.new.items) }
{
    for key in keys.as_slice() {
        index_column(alloc, tables, indexes, table, &key.column)?;
    }
    Ok(())
}

/// Makes the indexes of the data columns by which a lookup was made, where they have none. A column
/// in which an error stands has none, and neither has `id`.
///
/// Errors: out of memory; the indexes are then to be given up.
/// Memory: a row id for each row of the table, for each index. Cost: linear in the table's rows for
/// each index that is made; where all are there, a search for each key.
pub fn index_lookup<D: DocTables>(
    alloc: Global,
    tables: &D,
    indexes: &mut Vec<ColumnIndex>,
    note: &Note,
) -> Result<(), AllocError>
    requires { AreIndexes (sheet_of (D.document tables.now)) indexes.old.items }
    ensures { OnOk result (AreIndexes (sheet_of (D.document tables.now)) indexes.new.items) }
{
    match note {
        Note::Met { table, keys } => index_keys(alloc, tables, indexes, table, keys),
        Note::Read(_) | Note::All { .. } => Ok(()),
    }
}

/// Makes the indexes of the data columns by which the lookups of a run were made, where they have
/// none.
///
/// Errors, memory and cost: as to make those of each.
pub fn index_lookups<D: DocTables>(
    alloc: Global,
    tables: &D,
    indexes: &mut Vec<ColumnIndex>,
    notes: &[Note],
) -> Result<(), AllocError>
    requires { AreIndexes (sheet_of (D.document tables.now)) indexes.old.items }
    ensures { OnOk result (AreIndexes (sheet_of (D.document tables.now)) indexes.new.items) }
{
    for note in notes {
        index_lookup(alloc, tables, indexes, note)?;
    }
    Ok(())
}
