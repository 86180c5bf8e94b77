//! Rows that come and go: whether some are all there, or none, and new ones in their order.

ghost use Rattle.std.specs.Prelude.{◌≡◌, ◌↔◌, IfOk, IsTrue, OnOk};
ghost use Rattle.doc_model.specs.Rows.{IsAscending, all_in, has_no_duplicates, insert_row, insert_rows, none_in};

use cell_types::RowList;
use doc_model::have_no_duplicates;
use plain_view::rows::has_row;
use std::alloc::AllocError;

/// Whether each row is below the next.
///
/// Memory: none. Cost: linear.
pub(crate) fn is_ascending(rows: &[u32]) -> bool
    ensures { IsTrue result ↔ IsAscending rows.now }
{
    for index in 1..rows.len() {
        if rows[index] <= rows[index - 1] {
            return false;
        }
    }
    true
}

// Puts a row in its place, once.
fn put_row(rows: &mut Vec<u32>, row: u32) -> Result<(), AllocError>
    requires { IsAscending rows.old.items }
    ensures { OnOk result (rows.new.items ≡ insert_row row rows.old.items) }
{
    match rows.binary_search(&row) {
        Ok(_) => Ok(()),
        Err(index) => Ok(rows.insert(index, row)?),
    }
}

/// The rows with new ones in their places.
///
/// Cost: the length, and for each new row the rows above it.
pub(crate) fn rows_with(rows: Vec<u32>, new: &[u32]) -> Result<RowList, AllocError>
    requires { IsAscending rows.items }
    ensures { IfOk result (λ l. l ≡ insert_rows new.now rows.items) }
{
    let mut all = rows;
    for row in new {
        put_row(&mut all, *row)?;
    }
    Ok(RowList::from(all))
}

/// Whether each of the wanted rows stands among the rows.
///
/// Memory: none. Cost: the wanted rows, times the logarithm of the others.
pub(crate) fn are_all_in(wanted: &[u32], rows: &[u32]) -> bool
    requires { IsAscending rows.now }
    ensures { result ≡ all_in wanted.now rows.now }
{
    for row in wanted {
        if !has_row(rows, *row) {
            return false;
        }
    }
    true
}

/// Whether none of the new rows stands among the rows.
///
/// Memory: none. Cost: the new rows, times the logarithm of the others.
pub(crate) fn are_none_in(new: &[u32], rows: &[u32]) -> bool
    requires { IsAscending rows.now }
    ensures { result ≡ none_in new.now rows.now }
{
    for row in new {
        if has_row(rows, *row) {
            return false;
        }
    }
    true
}

/// Whether no row stands twice.
///
/// Memory: none. Cost: linear where the rows ascend, and else their square.
pub(crate) fn has_no_duplicates(rows: &[u32]) -> bool
    ensures { result ≡ has_no_duplicates rows.now }
{
    is_ascending(rows) || have_no_duplicates(rows)
}
