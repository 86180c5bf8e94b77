//! Whether a document agrees with its schema.

ghost use Rattle.std.specs.Prelude.{◌≡◌};
ghost use Rattle.doc_model.specs.MetadataIds.{columns_id, tables_id};
ghost use Rattle.meta_schema.specs.Agreement.{agrees, cell_beside, has_text, has_truth, has_type, is_said, rows_left, tables_agree};
ghost use Rattle.meta_schema.specs.Decoding.{holds};

use crate::metadata_tables::{
    has_columns_table, has_resources_table, has_rules_table, has_tables_table,
};
use crate::told_cells::{holds, text_in, truth_in};
use crate::type_texts::is_type_text;
use cell_types::{ColType, Name};
use doc_model::{ColDef, DocTables};
use doc_readers::rows_in;

// Whether the cell of a row, in the column at an index, holds that text.
fn has_text<D: DocTables>(tables: &D, table: &Name, index: usize, row: u32, text: &str) -> bool
    ensures { result ≡ has_text (cell_beside (D.document tables.now) table.now index row) text.now }
{
    let Some(column) = tables.column(table, index) else {
        return false;
    };
    match text_in(tables, table, &column.id, row) {
        Some(told) => told.as_str() == text,
        None => false,
    }
}

// Whether it holds the text of that type.
fn has_type<D: DocTables>(tables: &D, table: &Name, index: usize, row: u32, ty: &ColType) -> bool
    ensures { result ≡ has_type (cell_beside (D.document tables.now) table.now index row) ty.now }
{
    let Some(column) = tables.column(table, index) else {
        return false;
    };
    match text_in(tables, table, &column.id, row) {
        Some(told) => is_type_text(told.as_str(), ty),
        None => false,
    }
}

// Whether it holds that truth value.
fn has_truth<D: DocTables>(tables: &D, table: &Name, index: usize, row: u32, truth: bool) -> bool
    ensures { result ≡ has_truth (cell_beside (D.document tables.now) table.now index row) truth }
{
    let Some(column) = tables.column(table, index) else {
        return false;
    };
    match truth_in(tables, table, &column.id, row) {
        Some(told) => told == truth,
        None => false,
    }
}

// Whether it holds that row.
fn has_row<D: DocTables>(tables: &D, table: &Name, index: usize, row: u32, wanted: u32) -> bool
    ensures { result ≡ holds (cell_beside (D.document tables.now) table.now index row) wanted }
{
    match tables.column(table, index) {
        Some(column) => holds(tables, table, &column.id, row, wanted),
        None => false,
    }
}

// Whether the row of a column says it, as one of the table of the row `parent`.
fn is_said<D: DocTables>(tables: &D, columns: &Name, parent: u32, column: &ColDef) -> bool
    requires { columns.now ≡ columns_id }
    ensures { result ≡ is_said (D.document tables.now) parent column.now }
{
    let row = column.row;
    has_row(tables, columns, 0, row, parent)
        && has_text(tables, columns, 1, row, column.id.as_str())
        && has_type(tables, columns, 2, row, &column.info.ty)
        && has_truth(tables, columns, 3, row, column.info.is_formula)
        && has_text(tables, columns, 4, row, column.info.formula.as_str())
}

// Where the columns of a table are said, as those of the row `parent`, how many rows are left of
// `left` when each column has taken one. Nothing where they are not, or are too many.
fn rows_left<D: DocTables>(
    tables: &D,
    columns: &Name,
    table: &Name,
    parent: u32,
    left: usize,
) -> Option<usize>
    requires { columns.now ≡ columns_id }
    ensures { result ≡ rows_left (D.document tables.now) table.now parent left }
{
    let mut index = 0;
    let mut low = 0;
    while let Some(column) = tables.column(table, index) {
        if index == left || column.row <= low || !is_said(tables, columns, parent, column) {
            return None;
        }
        low = column.row;
        index += 1;
    }
    Some(left - index)
}

// Whether each table behind the metadata tables is said, and each row of the table of columns.
fn tables_agree<D: DocTables>(tables: &D, said: &Name, columns: &Name) -> bool
    requires tables { said.now ≡ tables_id }
    requires columns { columns.now ≡ columns_id }
    ensures { result ≡ tables_agree (D.document tables.now) }
{
    let rows = rows_in(tables, said);
    let mut left = rows_in(tables, columns).len();
    for (index, row) in rows.iter().enumerate() {
        let Some(table) = tables.table(index + 4) else {
            return false;
        };
        if !has_text(tables, said, 0, *row, table.as_str()) {
            return false;
        }
        let Some(rest) = rows_left(tables, columns, table, *row, left) else {
            return false;
        };
        left = rest;
    }
    left == 0 && tables.table(rows.len() + 4).is_none()
}

/// Whether a document agrees with its schema, as far as a store tells it.
///
/// No store tells the metadata row of a table: it is the one that the table of tables has for it.
/// `told_agrees_law` says that this is agreement for every sound document, as a store tells it.
///
/// Memory: none. Cost: linear in the tables and columns, in cells of the store.
pub fn agrees<D: DocTables>(tables: &D) -> bool
    ensures { result ≡ agrees (D.document tables.now) }
{
    if !has_tables_table(tables) || !has_columns_table(tables) {
        return false;
    }
    if !has_resources_table(tables) || !has_rules_table(tables) {
        return false;
    }
    match (tables.table(0), tables.table(1)) {
        (Some(said), Some(columns)) => tables_agree(tables, said, columns),
        _ => false,
    }
}
