//! What a document tells of one table.

ghost use Rattle.std.specs.Prelude.{◌≡◌, IfOk, Some};
ghost use Rattle.std.specs.Option.{option_copied};
ghost use Rattle.doc_readers.specs.Parts.{grid_at};
ghost use Rattle.doc_model.specs.ByIds.{find_id, has_id};
ghost use Rattle.doc_model.specs.Column.{column_id};
ghost use Rattle.doc_model.specs.Document.{table_id};
ghost use Rattle.doc_model.specs.Grid.{cell};
ghost use Rattle.doc_model.specs.MetadataIds.{columns_id, tables_id};
ghost use Rattle.doc_model.specs.Readers.{table_at};
ghost use Rattle.doc_model.specs.Rows.{IsAscending};

use cell_types::{CellValue, Name, copy_of};
use doc_model::{ColDef, DocReader};
use std::alloc::AllocError;

/// Whether the document has the table.
pub fn has_table<D: DocReader>(tables: &D, table: &Name) -> bool
    ensures { result ≡ has_id table_id (D.document tables.now) table.now }
{
    tables.rows(table).is_some()
}

/// The rows of a table, none where it is not there.
pub fn rows_in<'a, D: DocReader>(tables: &'a D, table: &Name) -> &'a [u32]
    ensures value { result.now ≡ (grid_at (D.document tables.now) table.now).rows }
    ensures ascending { IsAscending result.now }
{
    match tables.rows(table) {
        Some(rows) => rows,
        None => &[],
    }
}

/// The column of this id.
///
/// Memory: none. Cost: linear in the columns.
pub fn find_column<'a, D: DocReader>(tables: &'a D, table: &Name, id: &Name) -> Option<&'a ColDef>
    ensures { option_copied result ≡ find_id column_id id.now
        (grid_at (D.document tables.now) table.now).columns }
{
    let mut index = 0;
    while let Some(column) = tables.column(table, index) {
        if column.id.as_str() == id.as_str() {
            return Some(column);
        }
        index += 1;
    }
    None
}

/// Whether the table has the column.
pub fn has_column<D: DocReader>(tables: &D, table: &Name, id: &Name) -> bool
    ensures { result ≡ has_id column_id (grid_at (D.document tables.now) table.now).columns id.now }
{
    find_column(tables, table, id).is_some()
}

/// A copy of the cell of a column in a row, null where there is none.
///
/// Cost: that of the store.
#[tactic(auto, using(crate::proofs::CellLemmas::cell_told))]
pub fn cell_in<D: DocReader>(
    tables: &D,
    table: &Name,
    column: &Name,
    row: u32,
) -> Result<CellValue, AllocError>
    ensures { IfOk result
        (λ v. v ≡ cell column_id (grid_at (D.document tables.now) table.now) column.now row) }
{
    match tables.cell(table, column, row) {
        Some(value) => copy_of(value),
        None => Ok(CellValue::Null),
    }
}

/// The id of the table whose rows describe the tables. It stands first.
///
/// Memory: none.
pub fn tables_table<D: DocReader>(tables: &D) -> &Name
    requires { table_at (D.document tables.now) 0 ≡ Some tables_id }
    ensures { result.now ≡ tables_id }
{
    let Some(id) = tables.table(0) else {
        unreachable!()
    };
    id
}

/// The id of the table whose rows describe the columns. It stands second.
///
/// Memory: none.
pub fn columns_table<D: DocReader>(tables: &D) -> &Name
    requires { table_at (D.document tables.now) 1 ≡ Some columns_id }
    ensures { result.now ≡ columns_id }
{
    let Some(id) = tables.table(1) else {
        unreachable!()
    };
    id
}
