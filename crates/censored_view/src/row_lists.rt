//! Rows that are wanted, among those that a table has.

ghost use Rattle.std.specs.Prelude.{◌≡◌, ℕ, filter, IfOk};
ghost use Rattle.doc_model.specs.Rows.{IsAscending, has};

use doc_readers::holds_row;
use std::alloc::{AllocError, Global};

/// The numbers in ascending order, without repeats.
///
/// Errors: out of memory. Cost: sorting them.
pub fn once_in_order(numbers: Vec<u32>) -> Result<Vec<u32>, AllocError>
    ensures ascending { IfOk result (λ l. IsAscending l.items) }
    ensures same { IfOk result (λ l. (q : ℕ) → has l.items q ≡ has numbers.items q) }
{
    let mut sorted = numbers;
    sorted.sort()?;
    sorted.dedup();
    Ok(sorted)
}

/// Those of the wanted rows that are there.
///
/// Errors: out of memory. Cost: for each the logarithm of the rows.
pub fn rows_there(alloc: Global, wanted: &[u32], rows: &[u32]) -> Result<Vec<u32>, AllocError>
    requires { IsAscending rows.now }
    ensures { IfOk result (λ l. l.items ≡ filter (has rows.now) wanted.now) }
{
    let mut there = Vec::new(alloc);
    for row in wanted {
        if holds_row(rows, *row) {
            there.push(*row)?;
        }
    }
    Ok(there)
}

/// The rows of a table that are wanted.
///
/// Errors: out of memory. Cost: sorting the wanted rows, and for each the logarithm of the rows.
pub fn rows_among(alloc: Global, wanted: Vec<u32>, rows: &[u32]) -> Result<Vec<u32>, AllocError>
    requires { IsAscending rows.now }
    ensures { IfOk result (λ l. l.items ≡ filter (has wanted.items) rows.now) }
{
    let sorted = once_in_order(wanted)?;
    let there = rows_there(alloc, sorted.as_slice(), rows)?;
    Ok(there)
}
