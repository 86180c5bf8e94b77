//! The values that an action gives, by rows and columns. Of what is given twice the last counts.

ghost use Rattle.std.specs.Prelude.{◌≡◌, bytes_eq};
ghost use Rattle.std.specs.Bool.{OnTrue};
ghost use Rattle.std.specs.Option.{option_copied};
ghost use Rattle.doc_model.specs.Rows.{IsAscending};
ghost use Rattle.view_patch.specs.Given.{column_at, last_row, last_named};

use cell_types::Name;
use doc_model::CellColumn;
use plain_view::named::has_id;
use plain_view::rows::row_index;

/// The last index of a row; rows that ascend are searched faster.
///
/// Memory: none. Cost: the logarithm of the rows where they ascend, and else linear.
pub(crate) fn last_index(rows: &[u32], ascending: bool, row: u32) -> Option<usize>
    requires { OnTrue ascending (IsAscending rows.now) }
    ensures { result ≡ last_row rows.now row }
{
    if ascending {
        return row_index(rows, row);
    }
    let mut found = None;
    for (index, other) in rows.iter().enumerate() {
        if *other == row {
            found = Some(index);
        }
    }
    found
}

/// The last index of a column of an id.
///
/// Memory: none. Cost: linear in the columns.
pub(crate) fn named_index(columns: &[CellColumn], id: &Name) -> Option<usize>
    ensures { result ≡ last_named columns.now id.now }
{
    let mut found = None;
    for (index, column) in columns.iter().enumerate() {
        if has_id(column, id) {
            found = Some(index);
        }
    }
    found
}

/// The column at an index.
///
/// Memory: none.
pub(crate) fn column_at<'a>(
    columns: &'a [CellColumn],
    index: Option<usize>,
) -> Option<&'a CellColumn>
    ensures { option_copied result ≡ column_at columns.now index }
{
    match index {
        Some(index) => columns.get(index),
        None => None,
    }
}
