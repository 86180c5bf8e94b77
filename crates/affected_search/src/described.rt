//! The rows of the schema tables that describe tables and columns.

ghost use Rattle.std.specs.Prelude.{◌≡◌, Some, map, slice_get, IfOk};
ghost use Rattle.doc_model.specs.Column.{column_row};
ghost use Rattle.doc_model.specs.Document.{Table};
ghost use Rattle.doc_model.specs.DocumentLaws.{IsWhole};
ghost use Rattle.doc_model.specs.Touched.{column_described, columns_described, table_described};

use cell_types::Name;
use doc_model::{ColDef, DocReader};
use doc_readers::{find_column, rows_in};
use std::alloc::{AllocError, Global};

// How many metadata tables stand before the others.
const METADATA_TABLES: usize = 4;

/// The rows that describe new columns.
pub(crate) fn rows_of_new(alloc: Global, columns: &[ColDef]) -> Result<Vec<u32>, AllocError>
    ensures { IfOk result (λ v. v.items ≡ map column_row columns.now) }
{
    let mut rows = Vec::new(alloc);
    for column in columns {
        rows.push(column.row)?;
    }
    Ok(rows)
}

/// The rows that describe the columns of a table.
pub(crate) fn columns_described<R: DocReader>(
    alloc: Global,
    tables: &R,
    table: &Name,
) -> Result<Vec<u32>, AllocError>
    ensures { IfOk result
        (λ v. v.items ≡ columns_described (R.document tables.now) table.now) }
{
    let mut rows = Vec::new(alloc);
    while let Some(column) = tables.column(table, rows.len()) {
        rows.push(column.row)?;
    }
    Ok(rows)
}

/// The row that describes a column of a table.
pub(crate) fn column_described<R: DocReader>(
    alloc: Global,
    tables: &R,
    table: &Name,
    column: &Name,
) -> Result<Vec<u32>, AllocError>
    ensures { IfOk result
        (λ v. v.items ≡ column_described (R.document tables.now) table.now column.now) }
{
    let mut rows = Vec::new(alloc);
    if let Some(found) = find_column(tables, table, column) {
        rows.push(found.row)?;
    }
    Ok(rows)
}

// The row of the table at an index. The rows of the table of tables, which is the first one, stand
// in the order of the tables that follow the metadata tables.
fn row_at<R: DocReader>(tables: &R, index: usize) -> u32
    ensures { IsWhole (R.document tables.now) → (t : Table)
        → slice_get (R.document tables.now) index ≡ Some t → result ≡ t.row }
{
    if index < METADATA_TABLES {
        return 0;
    }
    let Some(described) = tables.table(0) else {
        return 0;
    };
    let rows = rows_in(tables, described);
    let place = index - METADATA_TABLES;
    if place < rows.len() { rows[place] } else { 0 }
}

/// The row that describes a table.
///
/// Cost: linear in the number of tables.
pub(crate) fn table_described<R: DocReader>(
    alloc: Global,
    tables: &R,
    table: &Name,
) -> Result<Vec<u32>, AllocError>
    ensures { IfOk result (λ v. IsWhole (R.document tables.now)
        → v.items ≡ table_described (R.document tables.now) table.now) }
{
    let mut index = 0;
    while let Some(id) = tables.table(index) {
        if id.as_str() == table.as_str() {
            return Ok(vec![in alloc; row_at(tables, index)]?);
        }
        index += 1;
    }
    Ok(Vec::new(alloc))
}
