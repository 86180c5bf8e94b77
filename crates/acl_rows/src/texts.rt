//! Texts that cells hold.

ghost use Rattle.std.specs.Prelude.{◌≡◌, Some, None, MatchOption};
ghost use Rattle.acl_rows.specs.GoodRows.{text_in};

use cell_types::CellValue;

/// The text that a cell holds; Null is the empty one.
///
/// Memory: none.
pub(crate) fn text_in(cell: &CellValue) -> Option<&str>
    ensures { MatchOption result (text_in cell.now ≡ None) (λ t. text_in cell.now ≡ Some t.now) }
{
    match cell {
        CellValue::Null => Some(""),
        CellValue::Text(text) => Some(text.as_str()),
        _ => None,
    }
}
