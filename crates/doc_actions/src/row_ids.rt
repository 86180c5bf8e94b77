//! Tests of given row ids.

ghost use Rattle.std.specs.Prelude.{◌≡◌, IfOk};
ghost use Rattle.std.specs.List.Sorted.{IsNonDecreasing, IsPermutation};
ghost use Rattle.doc_actions.specs.Parts.{ascends_from};
ghost use Rattle.doc_model.specs.Rows.{IsAscending, all_in, has, has_no_duplicates, none_in};
ghost use Rattle.doc_model.specs.Valid.{from_one};

use doc_model::have_no_duplicates;
use doc_readers::holds_row;
use std::alloc::{AllocError, Global};

/// Whether each of the wanted rows stands among the rows.
///
/// Memory: none. Cost: linear in the wanted rows, times the logarithm of the rows.
pub(crate) fn all_there(wanted: &[u32], rows: &[u32]) -> bool
    requires { IsAscending rows.now }
    ensures { result ≡ all_in wanted.now rows.now }
{
    for row in wanted {
        if !holds_row(rows, *row) {
            return false;
        }
    }
    true
}

/// Whether none of the new rows stands among the rows.
///
/// Memory: none. Cost: linear in the new rows, times the logarithm of the rows.
pub(crate) fn none_there(new: &[u32], rows: &[u32]) -> bool
    requires { IsAscending rows.now }
    ensures { result ≡ none_in new.now rows.now }
{
    for row in new {
        if holds_row(rows, *row) {
            return false;
        }
    }
    true
}

// Whether each row is greater than the one before it.
fn ascends(rows: &[u32]) -> bool
    ensures { result ≡ ascends_from 0 rows.now }
{
    let mut least = 0;
    for row in rows {
        if (*row as u64) < least {
            return false;
        }
        least = *row as u64 + 1;
    }
    true
}

// The rows in ascending order.
fn sorted(alloc: Global, rows: &[u32]) -> Result<Vec<u32>, AllocError>
    ensures permutation { IfOk result (λ v. IsPermutation rows.now v.items) }
    ensures sorted { IfOk result (λ v. IsNonDecreasing v.items) }
{
    let mut rows = Vec::from_slice(alloc, rows)?;
    rows.sort_unstable();
    Ok(rows)
}

/// Whether no row stands twice.
///
/// Memory: a copy of rows that do not ascend; where it is wanting, they are compared in pairs.
/// Cost: linear where the rows ascend, and else that of sorting, or of comparing in pairs.
#[tactic(auto, using(crate::proofs::RowIdLemmas::once_by_order))]
pub(crate) fn are_once(alloc: Global, rows: &[u32]) -> bool
    ensures { result ≡ has_no_duplicates rows.now }
{
    if ascends(rows) {
        return true;
    }
    match sorted(alloc, rows) {
        Ok(rows) => ascends(&rows),
        Err(_) => have_no_duplicates(rows),
    }
}

/// Whether no row is 0.
pub(crate) fn are_from_one(rows: &[u32]) -> bool
    ensures { result ≡ from_one rows.now }
{
    rows.iter().all(|row| 0 < *row)
}
