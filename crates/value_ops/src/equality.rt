//! Equality of values.

ghost use Rattle.std.specs.Prelude.{◌≡◌};
ghost use Rattle.std.specs.Cmp.Lexicographic.{pointwise};
ghost use Rattle.cell_types.specs.Item.{value_of_item};
ghost use Rattle.value_ops.specs.Equality.{EqualityLaw, is_equal, is_equal_item, are_equal_numbers, are_equal_rows, are_equal_row_sets};
ghost use Rattle.value_ops.specs.Kind.{is_same_kind, is_same};
ghost use Rattle.value_ops.specs.Numbers.{number_of};

use crate::numbers::number;
use cell_types::{CellItem, CellValue, RowRef, RowSet, Same};

/// `left == right`. Numbers are equal across their kinds, and so are lists whose items are:
/// `True == 1` and `[True] == [1]`. Values of any other two kinds are unequal.
///
/// Memory: none. Cost: linear in the smaller of the two.
pub fn equal(left: &CellValue, right: &CellValue) -> bool
    ensures { result ≡ is_equal left.now right.now }
{
    match (left, right) {
        (CellValue::Null, CellValue::Null) => true,
        (CellValue::Text(left), CellValue::Text(right)) => left.same_as(right),
        (CellValue::Date(left), CellValue::Date(right)) => *left == *right,
        (CellValue::Rec(left), CellValue::Rec(right)) => equal_rows(left, right),
        (CellValue::RecSet(left), CellValue::RecSet(right)) => equal_row_sets(left, right),
        (CellValue::List(left), CellValue::List(right)) => {
            equal_items(left.as_slice(), right.as_slice())
        }
        _ => equal_numbers(number(left), number(right)),
    }
}

/// `left is right`: of one kind and equal, so `True is 1` is false and `[True] is [1]` is true.
///
/// Memory: none. Cost: linear in the smaller of the two.
pub fn same(left: &CellValue, right: &CellValue) -> bool
    ensures { result ≡ is_same left.now right.now }
{
    same_kind(left, right) && equal(left, right)
}

/// Which of two values stands left makes no difference to `equal`.
#[tactic(auto, using(crate::proofs::Equalities::equal_turned))]
pub fn equality_law()
    ensures { EqualityLaw }
{}

/// Whether an item of a list equals a value.
///
/// Memory: none.
pub fn item_equals(item: &CellItem, value: &CellValue) -> bool
    ensures { result ≡ is_equal value.now (value_of_item item.now) }
{
    match (item, value) {
        (CellItem::Null, CellValue::Null) => true,
        (CellItem::Text(item), CellValue::Text(text)) => text.same_as(item),
        (CellItem::Date(item), CellValue::Date(seconds)) => *seconds == *item,
        (CellItem::Rec(item), CellValue::Rec(row)) => equal_rows(row, item),
        _ => equal_numbers(number(value), item_number(item)),
    }
}

fn equal_items(left: &[CellItem], right: &[CellItem]) -> bool
    ensures { result ≡ pointwise is_equal_item left.now right.now }
{
    if left.len() != right.len() {
        return false;
    }
    for index in 0..left.len() {
        if !equal_item(&left[index], &right[index]) {
            return false;
        }
    }
    true
}

fn equal_item(left: &CellItem, right: &CellItem) -> bool
    ensures { result ≡ is_equal_item left.now right.now }
{
    match (left, right) {
        (CellItem::Null, CellItem::Null) => true,
        (CellItem::Text(left), CellItem::Text(right)) => left.same_as(right),
        (CellItem::Date(left), CellItem::Date(right)) => *left == *right,
        (CellItem::Rec(left), CellItem::Rec(right)) => equal_rows(left, right),
        _ => equal_numbers(item_number(left), item_number(right)),
    }
}

fn equal_rows(left: &RowRef, right: &RowRef) -> bool
    ensures { result ≡ are_equal_rows left.now right.now }
{
    left.row == right.row && left.table.same_as(&right.table)
}

fn equal_row_sets(left: &RowSet, right: &RowSet) -> bool
    ensures { result ≡ are_equal_row_sets left.now right.now }
{
    left.table.same_as(&right.table) && left.rows.same_as(&right.rows)
}

fn equal_numbers(left: Option<i64>, right: Option<i64>) -> bool
    ensures { result ≡ are_equal_numbers left right }
{
    match (left, right) {
        (Some(left), Some(right)) => left == right,
        _ => false,
    }
}

// The number that an item of a list is, where it is one.
fn item_number(item: &CellItem) -> Option<i64>
    ensures { result ≡ number_of (value_of_item item.now) }
{
    match item {
        CellItem::Int(number) => Some(*number),
        CellItem::Bool(truth) => Some(i64::from(*truth)),
        _ => None,
    }
}

fn same_kind(left: &CellValue, right: &CellValue) -> bool
    ensures { result ≡ is_same_kind left.now right.now }
{
    matches!(
        (left, right),
        (CellValue::Null, CellValue::Null)
            | (CellValue::Int(_), CellValue::Int(_))
            | (CellValue::Bool(_), CellValue::Bool(_))
            | (CellValue::Text(_), CellValue::Text(_))
            | (CellValue::Date(_), CellValue::Date(_))
            | (CellValue::Rec(_), CellValue::Rec(_))
            | (CellValue::RecSet(_), CellValue::RecSet(_))
            | (CellValue::List(_), CellValue::List(_))
            | (CellValue::Err(_), CellValue::Err(_))
            | (CellValue::Censored, CellValue::Censored)
    )
}
