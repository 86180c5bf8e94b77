//! What one cell of a document says.

ghost use Rattle.std.specs.Prelude.{◌≡◌, option_copied};
ghost use Rattle.cell_types.specs.Reference.{row_number};
ghost use Rattle.doc_model.specs.Readers.{cell_at};
ghost use Rattle.acl_rules.specs.Loaded.{number_in, text_in};

use cell_types::{CellValue, Name};
use doc_model::DocReader;

/// The text that a cell holds; Null is the empty one.
///
/// Memory: none.
pub fn text_in<'a, D: DocReader>(
    tables: &'a D,
    table: &Name,
    column: &Name,
    row: u32,
) -> Option<&'a str>
    ensures { option_copied result
        ≡ text_in (cell_at (D.document tables.now) table.now column.now row) }
{
    match tables.cell(table, column, row) {
        Some(CellValue::Null) => Some(""),
        Some(CellValue::Text(text)) => Some(text.as_str()),
        _ => None,
    }
}

/// The number that a cell holds; anything else is 0.
pub(crate) fn number_in<D: DocReader>(tables: &D, table: &Name, column: &Name, row: u32) -> i64
    ensures { result ≡ number_in (cell_at (D.document tables.now) table.now column.now row) }
{
    match tables.cell(table, column, row) {
        Some(CellValue::Int(number)) => *number,
        _ => 0,
    }
}

/// The row that a number is.
pub(crate) fn row_number(number: i64) -> Option<u32>
    ensures { result ≡ row_number number }
{
    match u32::try_from(number) {
        Ok(row) => Some(row),
        Err(_) => None,
    }
}
