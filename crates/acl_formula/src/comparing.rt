//! The order of values, and membership, where they lie.

ghost use Rattle.std.specs.Prelude.{◌≡◌, ◌==◌, Some, MatchOption, Option};
ghost use Rattle.std.specs.List.{list_any};
ghost use Rattle.value_ops.specs.Order.{is_less_text, less_number};
ghost use Rattle.value_ops.specs.Containment.{is_part, is_among, is_row_id, is_in_row_set};
ghost use Rattle.acl_formula.specs.Desk.{seen};
ghost use Rattle.acl_formula.specs.DeskRules.{IsGood};
ghost use Rattle.acl_formula.specs.DeskText.{text_in, list_in};
ghost use Rattle.acl_formula.specs.RuleValue.{less, within, kept};

use crate::items::is_among;
use crate::operand::{Operand, Part, list_parts, number, single, text_parts};
use crate::pieces::{is_less, is_within};
use cell_types::{RowSet, Same};

// Whether the left text is less than the right one, where both are texts.
fn less_texts(desk: &[Part<'_>], left: Operand<'_>, right: Operand<'_>) -> Option<bool>
    requires left { IsGood desk.now left }
    requires right { IsGood desk.now right }
    ensures { MatchOption (text_in desk.now left.entry) (Unit {0})
        (λ t. MatchOption (text_in desk.now right.entry) (Unit {0})
        (λ u. result ≡ Some (is_less_text t u))) }
{
    let (own_left, own_right) = ([single(left)], [single(right)]);
    let Some(a) = text_parts(desk, &own_left, left) else {
        return None;
    };
    let Some(b) = text_parts(desk, &own_right, right) else {
        return None;
    };
    Some(is_less(a.parts, a.len, b.parts, b.len))
}

fn less_numbers(left: Option<i64>, right: Option<i64>) -> Option<bool>
    ensures { result ≡ kept (less_number left right) }
{
    Some(left? < right?)
}

/// `left < right`, or nothing where the two are not ordered.
pub(crate) fn less(desk: &[Part<'_>], left: Operand<'_>, right: Operand<'_>) -> Option<bool>
    requires left { IsGood desk.now left }
    requires right { IsGood desk.now right }
    ensures { result ≡ less (seen desk.now left.entry) (seen desk.now right.entry) }
{
    match (left, right) {
        (Operand::Text(left), Operand::Text(right)) => Some(left < right),
        (Operand::Text(_) | Operand::Joined(..), Operand::Text(_) | Operand::Joined(..)) => {
            less_texts(desk, left, right)
        }
        (Operand::Date(left), Operand::Date(right)) => Some(left < right),
        _ => less_numbers(number(desk, left), number(desk, right)),
    }
}

// Whether the left text stands in the right one, where both are texts.
fn within_text(desk: &[Part<'_>], left: Operand<'_>, right: Operand<'_>) -> Option<bool>
    requires left { IsGood desk.now left }
    requires right { IsGood desk.now right }
    ensures { MatchOption (text_in desk.now left.entry) (Unit {0})
        (λ t. MatchOption (text_in desk.now right.entry) (Unit {0})
        (λ u. result ≡ Some (is_part t u))) }
{
    let (own_left, own_right) = ([single(left)], [single(right)]);
    let Some(a) = text_parts(desk, &own_left, left) else {
        return None;
    };
    let Some(b) = text_parts(desk, &own_right, right) else {
        return None;
    };
    Some(is_within(a.parts, a.len, b.parts, b.len))
}

// Whether a value is in a list, where the right one is a list.
fn within_list(desk: &[Part<'_>], left: Operand<'_>, right: Operand<'_>) -> Option<bool>
    requires left { IsGood desk.now left }
    requires right { IsGood desk.now right }
    ensures { MatchOption (list_in desk.now right.entry) (Unit {0})
        (λ is. result ≡ Some (is_among (seen desk.now left.entry) is)) }
{
    let own = [single(right)];
    let Some(list) = list_parts(desk, &own, right) else {
        return None;
    };
    Some(is_among(desk, left, list.parts))
}

fn has_row(row: u32, rows: &[u32]) -> bool
    ensures { result ≡ list_any (λ r. row == r) rows.now }
{
    rows.iter().any(|other| row == *other)
}

fn has_row_id(number: i64, rows: &[u32]) -> bool
    ensures { result ≡ is_row_id (Some number) rows.now }
{
    rows.iter().any(|row| number == i64::from(*row))
}

// Whether a value stands for a row of the set.
fn is_in_row_set(desk: &[Part<'_>], value: Operand<'_>, set: &RowSet) -> bool
    ensures { result ≡ is_in_row_set (seen desk.now value.entry) set.now }
{
    match value {
        Operand::Rec(row) => {
            row.table.same_as(&set.table) && has_row(row.row, set.rows.as_slice())
        }
        _ => match number(desk, value) {
            Some(number) => has_row_id(number, set.rows.as_slice()),
            None => false,
        },
    }
}

/// `left in right`, or nothing where the right one holds nothing.
pub(crate) fn within(desk: &[Part<'_>], left: Operand<'_>, right: Operand<'_>) -> Option<bool>
    requires left { IsGood desk.now left }
    requires right { IsGood desk.now right }
    ensures { result ≡ within (seen desk.now left.entry) (seen desk.now right.entry) }
{
    match (left, right) {
        (_, Operand::List(_) | Operand::Listed(..)) => within_list(desk, left, right),
        (_, Operand::Set(set)) => Some(is_in_row_set(desk, left, set)),
        (Operand::Text(_) | Operand::Joined(..), Operand::Text(_) | Operand::Joined(..)) => {
            within_text(desk, left, right)
        }
        _ => None,
    }
}
