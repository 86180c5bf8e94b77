//! Metadata rows that are free.

ghost use Rattle.std.specs.Prelude.{◌≡◌, [], ◌∷◌, map};
ghost use Rattle.std.specs.List.{list_all};
ghost use Rattle.doc_model.specs.Column.{column_row};
ghost use Rattle.doc_model.specs.DocumentLaws.{IsWhole};
ghost use Rattle.doc_model.specs.MetadataIds.{columns_id, tables_id};
ghost use Rattle.doc_model.specs.Rows.{IsAscending, has, has_no_duplicates, none_in};
ghost use Rattle.doc_model.specs.Valid.{are_free, from_one, rows_of};

use doc_model::{ColDef, DocTables};
use doc_readers::holds_row;

/// The rows that describe the tables. The table that holds them is the first one.
fn rows_of_tables<D: DocTables>(tables: &D) -> &[u32]
    requires { IsWhole (D.document tables.now) }
    ensures value { result.now ≡ rows_of (D.document tables.now) tables_id }
    ensures ascending { IsAscending result.now }
{
    let Some(id) = tables.table(0) else {
        unreachable!()
    };
    let Some(rows) = tables.rows(id) else {
        unreachable!()
    };
    rows
}

/// The rows that describe the columns. The table that holds them is the second one.
fn rows_of_columns<D: DocTables>(tables: &D) -> &[u32]
    requires { IsWhole (D.document tables.now) }
    ensures value { result.now ≡ rows_of (D.document tables.now) columns_id }
    ensures ascending { IsAscending result.now }
{
    let Some(id) = tables.table(1) else {
        unreachable!()
    };
    let Some(rows) = tables.rows(id) else {
        unreachable!()
    };
    rows
}

/// Whether a new table may have the row.
pub(crate) fn is_free_table_row<D: DocTables>(tables: &D, row: u32) -> bool
    requires { IsWhole (D.document tables.now) }
    ensures { result ≡ are_free (D.document tables.now) tables_id (row ∷ []) }
{
    0 < row && !holds_row(rows_of_tables(tables), row)
}

/// Whether a new column may have the row.
pub(crate) fn is_free_column_row<D: DocTables>(tables: &D, row: u32) -> bool
    requires { IsWhole (D.document tables.now) }
    ensures { result ≡ are_free (D.document tables.now) columns_id (row ∷ []) }
{
    0 < row && !holds_row(rows_of_columns(tables), row)
}

fn has_row(columns: &[ColDef], row: u32) -> bool
    ensures { result ≡ has (map column_row columns.now) row }
{
    for column in columns {
        if column.row == row {
            return true;
        }
    }
    false
}

// Whether no row describes two of the columns.
fn are_rows_apart(columns: &[ColDef]) -> bool
    ensures { result ≡ has_no_duplicates (map column_row columns.now) }
{
    for (index, column) in columns.iter().enumerate() {
        if has_row(&columns[index + 1..], column.row) {
            return false;
        }
    }
    true
}

// Whether no row is 0.
fn have_rows(columns: &[ColDef]) -> bool
    ensures { result ≡ from_one (map column_row columns.now) }
{
    for column in columns {
        if column.row == 0 {
            return false;
        }
    }
    true
}

// Whether none of the columns has one of the rows.
fn have_other_rows(columns: &[ColDef], rows: &[u32]) -> bool
    requires { IsAscending rows.now }
    ensures { result ≡ none_in (map column_row columns.now) rows.now }
{
    for column in columns {
        if holds_row(rows, column.row) {
            return false;
        }
    }
    true
}

/// Whether new columns may have their rows.
pub(crate) fn have_free_rows<D: DocTables>(tables: &D, columns: &[ColDef]) -> bool
    requires { IsWhole (D.document tables.now) }
    ensures { result ≡ are_free (D.document tables.now) columns_id (map column_row columns.now) }
{
    have_rows(columns)
        && are_rows_apart(columns)
        && have_other_rows(columns, rows_of_columns(tables))
}
