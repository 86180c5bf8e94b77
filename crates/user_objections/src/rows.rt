//! Row ids as they were written.

ghost use Rattle.std.specs.Prelude.{◌≡◌, ◌<◌, ◌+◌, ◌-◌, ◌∷◌, ℤ, true, cond, not, drop, length, IfOk, OnOk};
ghost use Rattle.std.specs.BTreeSet.{contains_by};
ghost use Rattle.std.specs.Ordering.{int_cmp, is_eq};
ghost use Rattle.std.specs.List.{list_all};
ghost use Rattle.doc_model.specs.Rows.{IsAscending};
ghost use Rattle.user_actions.specs.Given.{have_no_duplicates, is_row};

use doc_readers::holds_row;
use std::alloc::{AllocError, Global};
use std::collections::BTreeSet;
use user_actions::row_number;

// Notes a number, and answers whether it is new.
fn note(seen: &mut BTreeSet<i64>, number: &i64) -> Result<bool, AllocError>
    ensures new { IfOk result (λ new. new ≡ not (contains_by (int_cmp number.now) seen.old)) }
    ensures noted { OnOk result ((q : ℤ) → contains_by (int_cmp q) seen.new
        ≡ cond (is_eq (int_cmp number.now q)) true (contains_by (int_cmp q) seen.old)) }
{
    Ok(seen.insert(*number)?)
}

// The number that stands so many indexes before the end.
fn number_before(numbers: &[i64], taken: usize) -> &i64
    requires { taken < length numbers.now }
    ensures { drop (length numbers.now - (taken + 1)) numbers.now ≡ result.now
        ∷ drop (length numbers.now - taken) numbers.now }
{
    &numbers[numbers.len() - 1 - taken]
}

/// Whether no number stands twice.
///
/// Memory: a sorted copy. Cost: that of a sorted set.
pub(crate) fn have_no_duplicates(alloc: Global, numbers: &[i64]) -> Result<bool, AllocError>
    ensures { IfOk result (λ once. once ≡ have_no_duplicates numbers.now) }
{
    let mut later = BTreeSet::new(alloc);
    for taken in 0..numbers.len() {
        if !note(&mut later, number_before(numbers, taken))? {
            return Ok(false);
        }
    }
    Ok(true)
}

fn is_row(rows: &[u32], number: i64) -> bool
    requires { IsAscending rows.now }
    ensures { result ≡ is_row rows.now number }
{
    match row_number(number) {
        Some(row) => holds_row(rows, row),
        None => false,
    }
}

/// Whether each number is one of the rows, which ascend.
///
/// Memory: none. Cost: the numbers, times the logarithm of the rows.
pub(crate) fn are_rows(rows: &[u32], numbers: &[i64]) -> bool
    requires { IsAscending rows.now }
    ensures { result ≡ list_all (is_row rows.now) numbers.now }
{
    for number in numbers {
        if !is_row(rows, *number) {
            return false;
        }
    }
    true
}
