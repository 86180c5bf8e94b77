//! The cells that a view shows of rows.

ghost use Rattle.std.specs.Prelude.{◌≡◌, option_copied};
ghost use Rattle.std.specs.List.{position};
ghost use Rattle.std.specs.Str.{bytes_eq};
ghost use Rattle.doc_model.specs.declared.view.ViewCol.{ViewCol};
ghost use Rattle.acl_rules.specs.Loaded.{number_in, text_in};
ghost use Rattle.rename_flow.specs.ShownRows.{cells_at, shown_cell};

use cell_types::CellValue;
use doc_model::{ViewCol, ViewTable};

fn column_index(columns: &[ViewCol], column: &str) -> Option<usize>
    ensures { result ≡ position (λ (d : ViewCol). bytes_eq d.id column.now) columns.now }
{
    columns.iter().position(|shown| shown.id.as_str() == column)
}

fn shown_cell<'a>(
    columns: &[ViewCol],
    cells: &'a [CellValue],
    column: &str,
) -> Option<&'a CellValue>
    ensures { option_copied result ≡ shown_cell columns.now cells.now column.now }
{
    match column_index(columns, column) {
        Some(index) => cells.get(index),
        None => None,
    }
}

/// The text that the cell of a column holds; Null is the empty one.
pub(crate) fn text_shown<'a>(
    columns: &[ViewCol],
    cells: &'a [CellValue],
    column: &str,
) -> Option<&'a str>
    ensures { option_copied result ≡ text_in (shown_cell columns.now cells.now column.now) }
{
    match shown_cell(columns, cells, column) {
        Some(CellValue::Null) => Some(""),
        Some(CellValue::Text(text)) => Some(text.as_str()),
        _ => None,
    }
}

/// The number that the cell of a column holds; anything else is 0.
pub(crate) fn number_shown(columns: &[ViewCol], cells: &[CellValue], column: &str) -> i64
    ensures { result ≡ number_in (shown_cell columns.now cells.now column.now) }
{
    match shown_cell(columns, cells, column) {
        Some(CellValue::Int(number)) => *number,
        _ => 0,
    }
}

/// The cells at an index.
pub(crate) fn cells_at<'a>(table: &'a ViewTable, index: usize) -> &'a [CellValue]
    ensures { result.now ≡ cells_at table.now index }
{
    match table.cells.as_slice().get(index) {
        Some(cells) => cells.as_slice(),
        None => &[],
    }
}
