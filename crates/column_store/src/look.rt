//! Columns and rows found by a walk or a search.

ghost use Rattle.std.specs.Prelude.{◌≡◌, true, false, MatchOption, Some, slice_get};
ghost use Rattle.std.specs.Str.{bytes_eq};
ghost use Rattle.doc_model.specs.Rows.{IsAscending, has};
ghost use Rattle.row_tables.specs.InPlace.{id_index};

use cell_types::Name;
use doc_model::{ColDef, search_row};

/// Whether two ids are the same.
#[tactic(auto, using(row_tables::proofs::Walks::lengths_first, row_tables::proofs::Walks::other_lengths))]
#[inline(always)]
pub(crate) fn is_same_id(left: &Name, right: &Name) -> bool
    ensures { result ≡ bytes_eq left.now right.now }
{
    // Lengths first: they differ mostly, and cost least.
    let (left, right) = (left.as_str(), right.as_str());
    left.len() == right.len() && left == right
}

/// The index of the column of this id, or the end.
///
/// Memory: none. Cost: linear in the columns.
pub(crate) fn index_of_id(columns: &[ColDef], id: &Name) -> usize
    ensures { result ≡ id_index id.now columns.now }
{
    for (index, column) in columns.iter().enumerate() {
        if is_same_id(id, &column.id) {
            return index;
        }
    }
    columns.len()
}

// Whether the row stands at the index.
fn stands_at(rows: &[u32], index: usize, row: u32) -> bool
    ensures { result ≡ true → slice_get rows.now index ≡ Some row }
{
    match rows.get(index) {
        Some(found) => *found == row,
        None => false,
    }
}

// The index of a row among rows from 1 on without a gap.
fn dense_index(row: u32) -> usize {
    let row = row as usize;
    if row == 0 { 0 } else { row - 1 }
}

/// Where a row stands among ascending ones.
///
/// Memory: none. Cost: the logarithm of the rows, and nothing where they have no gap.
pub(crate) fn row_place(rows: &[u32], row: u32) -> Option<usize>
    requires { IsAscending rows.now }
    ensures { MatchOption result (has rows.now row ≡ false)
        (λ index. slice_get rows.now index ≡ Some row) }
{
    // Most tables have no gap.
    let dense = dense_index(row);
    if stands_at(rows, dense, row) {
        return Some(dense);
    }
    match search_row(rows, row) {
        Ok(index) => Some(index),
        Err(_) => None,
    }
}
