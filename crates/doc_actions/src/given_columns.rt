//! The columns that a record action gives.

ghost use Rattle.std.specs.Prelude.{◌≡◌};
ghost use Rattle.doc_readers.specs.Parts.{grid_at};
ghost use Rattle.doc_model.specs.ByIds.{are_distinct, has_id};
ghost use Rattle.doc_model.specs.DocumentLaws.{IsWhole};
ghost use Rattle.doc_model.specs.Records.{given_id};
ghost use Rattle.doc_model.specs.Valid.{gives_column, gives_data};

use crate::table_readers::is_data;
use cell_types::Name;
use doc_model::{CellColumn, DocTables};
use doc_readers::are_base;

fn is_given(columns: &[CellColumn], id: &Name) -> bool
    ensures { result ≡ has_id given_id columns.now id.now }
{
    columns
        .iter()
        .any(|column| column.id.as_str() == id.as_str())
}

// Whether no column is given twice.
fn are_apart(columns: &[CellColumn]) -> bool
    ensures { result ≡ are_distinct given_id columns.now }
{
    for (index, column) in columns.iter().enumerate() {
        if is_given(&columns[index + 1..], &column.id) {
            return false;
        }
    }
    true
}

// Whether it is a data column, with a base value for each row.
fn gives_column<D: DocTables>(tables: &D, table: &Name, rows: &[u32], column: &CellColumn) -> bool
    requires { IsWhole (D.document tables.now) }
    ensures { result
        ≡ gives_column (grid_at (D.document tables.now) table.now) rows.now column.now }
{
    is_data(tables, table, &column.id)
        && column.values.len() == rows.len()
        && are_base(column.values.as_slice())
}

/// Whether each is a data column with a base value for each row, and none is given twice.
///
/// Memory: none. Cost: the values, and the given columns times those of the table.
pub(crate) fn gives_data<D: DocTables>(
    tables: &D,
    table: &Name,
    rows: &[u32],
    columns: &[CellColumn],
) -> bool
    requires { IsWhole (D.document tables.now) }
    ensures { result
        ≡ gives_data (grid_at (D.document tables.now) table.now) rows.now columns.now }
{
    if !are_apart(columns) {
        return false;
    }
    for column in columns {
        if !gives_column(tables, table, rows, column) {
            return false;
        }
    }
    true
}
