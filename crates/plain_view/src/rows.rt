//! Rows in ascending order: where one stands, and those that another list does not have.

ghost use Rattle.std.specs.Prelude.{◌≡◌, ◌<◌, ◌∷◌, ◌++◌, [], cond, false, length, slice_index, IfOk, MatchOption, OnOk};
ghost use Rattle.std.specs.Bool.{OnTrue};
ghost use Rattle.doc_model.specs.Rows.{IsAscending, has, without};

use cell_types::RowList;
use std::alloc::{AllocError, Global};

/// The index of a row.
///
/// Memory: none. Cost: the logarithm of the length.
pub fn row_index(rows: &[u32], row: u32) -> Option<usize>
    requires { IsAscending rows.now }
    ensures { MatchOption result (has rows.now row ≡ false)
        (λ index. (index < length rows.now) × (slice_index rows.now index ≡ row)) }
{
    match rows.binary_search(&row) {
        Ok(index) => Some(index),
        Err(_) => None,
    }
}

/// Whether the row stands among the rows.
///
/// Memory: none. Cost: the logarithm of the length.
pub fn has_row(rows: &[u32], row: u32) -> bool
    requires { IsAscending rows.now }
    ensures { result ≡ has rows.now row }
{
    match row_index(rows, row) {
        Some(_) => true,
        None => false,
    }
}

/// Adds the row behind the others, where it is wanted.
pub fn push_if(rows: &mut Vec<u32>, wanted: bool, row: u32) -> Result<(), AllocError>
    ensures { OnOk result (rows.new.items ≡ rows.old.items ++ cond wanted (row ∷ []) []) }
{
    if wanted {
        rows.push(row)?;
    }
    Ok(())
}

// Whether the row stands among rows; rows that ascend are searched faster.
fn is_among(rows: &[u32], is_ascending: bool, row: u32) -> bool
    requires { OnTrue is_ascending (IsAscending rows.now) }
    ensures { result ≡ has rows.now row }
{
    if is_ascending {
        return has_row(rows, row);
    }
    rows.contains(&row)
}

/// The rows that are not among those that are gone; rows that ascend are searched faster.
///
/// Cost: the length, times the logarithm of the other where that one ascends, and else the product
/// of both.
pub fn rows_without(
    alloc: Global,
    gone: &[u32],
    is_ascending: bool,
    rows: &[u32],
) -> Result<RowList, AllocError>
    requires { OnTrue is_ascending (IsAscending gone.now) }
    ensures { IfOk result (λ l. l ≡ without gone.now rows.now) }
{
    let mut kept = Vec::new(alloc);
    for row in rows {
        push_if(&mut kept, !is_among(gone, is_ascending, *row), *row)?;
    }
    Ok(RowList::from(kept))
}
