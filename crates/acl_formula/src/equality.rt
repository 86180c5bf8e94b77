//! Equality and kinds of values where they lie.

ghost use Rattle.std.specs.Prelude.{◌≡◌, MatchOption, Option, bytes_eq};
ghost use Rattle.std.specs.Cmp.Lexicographic.{pointwise};
ghost use Rattle.value_ops.specs.Equality.{is_equal, is_equal_item, is_equal_but_lists, are_equal_numbers, are_equal_rows, are_equal_row_sets};
ghost use Rattle.value_ops.specs.Kind.{is_same_kind, is_same};
ghost use Rattle.acl_formula.specs.Desk.{seen};
ghost use Rattle.acl_formula.specs.DeskRules.{IsGood};
ghost use Rattle.acl_formula.specs.DeskText.{text_in, list_in};

use crate::items::equal_items;
use crate::operand::{Operand, Part, list_parts, number, single, text_parts};
use crate::pieces::are_same;
use cell_types::{RowRef, RowSet, Same};

// Whether two texts are one.
fn equal_texts(desk: &[Part<'_>], left: Operand<'_>, right: Operand<'_>) -> bool
    requires left { IsGood desk.now left }
    requires right { IsGood desk.now right }
    ensures { MatchOption (text_in desk.now left.entry) (Unit {0})
        (λ t. MatchOption (text_in desk.now right.entry) (Unit {0})
        (λ u. result ≡ bytes_eq t u)) }
{
    let (own_left, own_right) = ([single(left)], [single(right)]);
    let Some(a) = text_parts(desk, &own_left, left) else {
        return false;
    };
    let Some(b) = text_parts(desk, &own_right, right) else {
        return false;
    };
    are_same(a.parts, a.len, b.parts, b.len)
}

// Whether two lists are equal.
fn equal_lists(desk: &[Part<'_>], left: Operand<'_>, right: Operand<'_>) -> bool
    requires left { IsGood desk.now left }
    requires right { IsGood desk.now right }
    ensures { MatchOption (list_in desk.now left.entry) (Unit {0})
        (λ is. MatchOption (list_in desk.now right.entry) (Unit {0})
        (λ js. result ≡ pointwise is_equal_item is js)) }
{
    let (own_left, own_right) = ([single(left)], [single(right)]);
    let Some(a) = list_parts(desk, &own_left, left) else {
        return false;
    };
    let Some(b) = list_parts(desk, &own_right, right) else {
        return false;
    };
    a.len == b.len && equal_items(desk, a.parts, b.parts, a.len)
}

fn equal_rows(left: &RowRef, right: &RowRef) -> bool
    ensures { result ≡ are_equal_rows left.now right.now }
{
    left.row == right.row && left.table.same_as(&right.table)
}

fn equal_row_sets(left: &RowSet, right: &RowSet) -> bool
    ensures { result ≡ are_equal_row_sets left.now right.now }
{
    left.table.same_as(&right.table) && left.rows.same_as(&right.rows)
}

fn equal_numbers(left: Option<i64>, right: Option<i64>) -> bool
    ensures { result ≡ are_equal_numbers left right }
{
    match (left, right) {
        (Some(left), Some(right)) => left == right,
        _ => false,
    }
}

// Whether two values are equal that are not both lists.
pub(crate) fn equal_but_lists(desk: &[Part<'_>], left: Operand<'_>, right: Operand<'_>) -> bool
    requires left { IsGood desk.now left }
    requires right { IsGood desk.now right }
    ensures { result ≡ is_equal_but_lists (seen desk.now left.entry) (seen desk.now right.entry) }
{
    match (left, right) {
        (Operand::Null, Operand::Null) => true,
        (Operand::Text(left), Operand::Text(right)) => left == right,
        (Operand::Text(_) | Operand::Joined(..), Operand::Text(_) | Operand::Joined(..)) => {
            equal_texts(desk, left, right)
        }
        (Operand::Date(left), Operand::Date(right)) => left == right,
        (Operand::Rec(left), Operand::Rec(right)) => equal_rows(left, right),
        (Operand::Set(left), Operand::Set(right)) => equal_row_sets(left, right),
        _ => equal_numbers(number(desk, left), number(desk, right)),
    }
}

/// `left == right`
pub(crate) fn equal(desk: &[Part<'_>], left: Operand<'_>, right: Operand<'_>) -> bool
    requires left { IsGood desk.now left }
    requires right { IsGood desk.now right }
    ensures { result ≡ is_equal (seen desk.now left.entry) (seen desk.now right.entry) }
{
    match (left, right) {
        (Operand::List(_) | Operand::Listed(..), Operand::List(_) | Operand::Listed(..)) => {
            equal_lists(desk, left, right)
        }
        _ => equal_but_lists(desk, left, right),
    }
}

// The desk is there for what the clause says.
fn same_kind(desk: &[Part<'_>], left: Operand<'_>, right: Operand<'_>) -> bool
    ensures { result ≡ is_same_kind (seen desk.now left.entry) (seen desk.now right.entry) }
{
    matches!(
        (left, right),
        (Operand::Null, Operand::Null)
            | (Operand::Int(_), Operand::Int(_))
            | (Operand::Bool(_), Operand::Bool(_))
            | (Operand::Date(_), Operand::Date(_))
            | (Operand::Rec(_), Operand::Rec(_))
            | (Operand::Set(_), Operand::Set(_))
            | (
                Operand::Text(_) | Operand::Joined(..),
                Operand::Text(_) | Operand::Joined(..)
            )
            | (
                Operand::List(_) | Operand::Listed(..),
                Operand::List(_) | Operand::Listed(..)
            )
            | (Operand::Censored, Operand::Censored)
    )
}

/// `left is right`
pub(crate) fn same(desk: &[Part<'_>], left: Operand<'_>, right: Operand<'_>) -> bool
    requires left { IsGood desk.now left }
    requires right { IsGood desk.now right }
    ensures { result ≡ is_same (seen desk.now left.entry) (seen desk.now right.entry) }
{
    same_kind(desk, left, right) && equal(desk, left, right)
}
