//! The values that a record action gives.

ghost use Rattle.std.specs.Prelude.{◌≡◌, None, cond, slice_get};
ghost use Rattle.std.specs.Option.{option_copied};
ghost use Rattle.std.specs.Str.{bytes_eq};
ghost use Rattle.row_tables.specs.RowIndexes.{given_at};

use cell_types::{CellValue, Name};
use doc_model::CellColumn;

// What one given column gives at an index to the column of this id.
fn value_of<'a>(column: &'a CellColumn, id: &Name, index: usize) -> Option<&'a CellValue>
    ensures { option_copied result
        ≡ cond (bytes_eq column.now.id id.now) (slice_get column.now.values index) None }
{
    if column.id.as_str() == id.as_str() {
        column.values.as_slice().get(index)
    } else {
        None
    }
}

/// The last value that an action gives to a column, in the row at this index among its rows.
///
/// Memory: none. Cost: linear in the given columns.
pub(crate) fn given_value<'a>(
    columns: &'a [CellColumn],
    id: &Name,
    index: usize,
) -> Option<&'a CellValue>
    ensures { option_copied result ≡ given_at columns.now id.now index }
{
    let mut last = None;
    for column in columns {
        last = value_of(column, id, index).or(last);
    }
    last
}
