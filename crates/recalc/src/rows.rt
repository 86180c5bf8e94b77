//! Rows that an action names, among those that a table has.

ghost use Rattle.std.specs.Prelude.{◌≡◌, ℕ, filter, IfOk};
ghost use Rattle.doc_model.specs.Rows.{IsAscending, has};

use doc_readers::holds_row;
use std::alloc::{AllocError, Global};

// The numbers in ascending order, without repeats.
fn once_in_order(numbers: Vec<u32>) -> Result<Vec<u32>, AllocError>
    ensures ascending { IfOk result (λ l. IsAscending l.items) }
    ensures same { IfOk result (λ l. (q : ℕ) → has l.items q ≡ has numbers.items q) }
{
    let mut sorted = numbers;
    sorted.sort()?;
    sorted.dedup();
    Ok(sorted)
}

// Those of the named rows that are there.
fn rows_there(alloc: Global, named: &[u32], rows: &[u32]) -> Result<Vec<u32>, AllocError>
    requires { IsAscending rows.now }
    ensures { IfOk result (λ l. l.items ≡ filter (has rows.now) named.now) }
{
    let mut there = Vec::new(alloc);
    for row in named {
        if holds_row(rows, *row) {
            there.push(*row)?;
        }
    }
    Ok(there)
}

/// The rows of a table that are named, in ascending order.
///
/// Errors: out of memory. Cost: sorting the named rows, and for each the logarithm of the rows.
pub fn rows_among(alloc: Global, named: Vec<u32>, rows: &[u32]) -> Result<Vec<u32>, AllocError>
    requires { IsAscending rows.now }
    ensures { IfOk result (λ l. l.items ≡ filter (has named.items) rows.now) }
{
    let sorted = once_in_order(named)?;
    let there = rows_there(alloc, sorted.as_slice(), rows)?;
    Ok(there)
}
