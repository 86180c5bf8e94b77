//! What a document tells of one table.

ghost use Rattle.std.specs.Prelude.{◌≡◌, is_some};
ghost use Rattle.std.specs.Option.{option_copied};
ghost use Rattle.doc_readers.specs.Parts.{grid_at};
ghost use Rattle.doc_model.specs.ByIds.{find_id, has_id};
ghost use Rattle.doc_model.specs.Column.{column_id};
ghost use Rattle.cell_types.specs.ColumnRange.{is_null};
ghost use Rattle.doc_model.specs.Document.{table_id};
ghost use Rattle.doc_model.specs.DocumentLaws.{IsWhole};
ghost use Rattle.doc_model.specs.Grid.{cell};
ghost use Rattle.doc_model.specs.Rows.{IsAscending};
ghost use Rattle.doc_model.specs.Valid.{all_null, is_data, record_table, schema_table};

use crate::base_values::is_null;
use cell_types::Name;
use doc_model::DocTables;
use doc_readers::{find_column, has_table, is_metadata_id, is_schema_id, rows_in};

/// Whether a record action may name the table.
pub(crate) fn is_record_table<D: DocTables>(tables: &D, table: &Name) -> bool
    ensures { result ≡ is_some (record_table (D.document tables.now) table.now) }
{
    !is_schema_id(table.as_str()) && has_table(tables, table)
}

/// Whether a schema action may name the table.
pub(crate) fn is_schema_table<D: DocTables>(tables: &D, table: &Name) -> bool
    ensures { result ≡ is_some (schema_table (D.document tables.now) table.now) }
{
    !is_metadata_id(table.as_str()) && has_table(tables, table)
}

/// Whether the table has the column, and that has no formula.
pub(crate) fn is_data<D: DocTables>(tables: &D, table: &Name, id: &Name) -> bool
    requires { IsWhole (D.document tables.now) }
    ensures { result ≡ is_data (grid_at (D.document tables.now) table.now) id.now }
{
    match find_column(tables, table, id) {
        Some(column) => !column.info.is_formula,
        None => false,
    }
}

// Whether a cell is null or not there.
fn is_null_cell<D: DocTables>(tables: &D, table: &Name, column: &Name, row: u32) -> bool
    ensures { result
        ≡ is_null (cell column_id (grid_at (D.document tables.now) table.now) column.now row) }
{
    match tables.cell(table, column, row) {
        Some(value) => is_null(value),
        None => true,
    }
}

/// Whether the column holds null in each row.
pub(crate) fn is_all_null<D: DocTables>(tables: &D, table: &Name, column: &Name) -> bool
    requires { IsWhole (D.document tables.now) }
    ensures { result ≡ all_null (grid_at (D.document tables.now) table.now) column.now }
{
    let rows = rows_in(tables, table);
    for row in rows {
        if !is_null_cell(tables, table, column, *row) {
            return false;
        }
    }
    true
}
