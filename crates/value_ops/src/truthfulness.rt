//! Truth of values.

ghost use Rattle.std.specs.Prelude.{◌≡◌};
ghost use Rattle.value_ops.specs.Truth.{truth_of};

use cell_types::CellValue;

/// Whether a value is true, as a condition sees it: all is but 0, False, None, the empty text, list
/// and set of records, and a record of row 0, which is no row.
///
/// Memory: none.
pub fn truth(value: &CellValue) -> bool
    ensures { result ≡ truth_of value.now }
{
    match value {
        CellValue::Null => false,
        CellValue::Int(number) => *number != 0,
        CellValue::Bool(truth) => *truth,
        CellValue::Text(text) => !text.is_empty(),
        CellValue::Rec(row) => row.row != 0,
        CellValue::RecSet(set) => !set.rows.is_empty(),
        CellValue::List(items) => !items.is_empty(),
        CellValue::Date(_) | CellValue::Err(_) | CellValue::Censored => true,
    }
}
