//! Row ids and metadata rows: whether rows stand once, and the indexes of rows and of columns.

ghost use Rattle.std.specs.Prelude.{◌≡◌, ◌≤◌, length};
ghost use Rattle.doc_model.specs.Indexes.{column_index, row_search};
ghost use Rattle.doc_model.specs.Rows.{IsAscending, has_no_duplicates};

use crate::ColDef;

/// Whether no row stands twice.
///
/// Memory: none. Cost: the square of the length.
pub fn have_no_duplicates(rows: &[u32]) -> bool
    ensures { result ≡ has_no_duplicates rows.now }
{
    for (index, row) in rows.iter().enumerate() {
        if rows[index + 1..].contains(row) {
            return false;
        }
    }
    true
}

/// Where a column of that metadata row goes: before the first one with a greater row.
///
/// Memory: none. Cost: linear in the place.
pub fn index_of_column(columns: &[ColDef], row: u32) -> usize
    ensures { result ≡ column_index row columns.now }
{
    for (index, column) in columns.iter().enumerate() {
        if row < column.row {
            return index;
        }
    }
    columns.len()
}

/// The index of a row, or where it would go.
///
/// Memory: none. Cost: the logarithm of the number of rows.
pub fn search_row(rows: &[u32], row: u32) -> Result<usize, usize>
    requires { IsAscending rows.now }
    ensures { result ≡ row_search row rows.now }
{
    rows.binary_search(&row)
}
