//! Sums of values that were put down one after the other.

ghost use Rattle.std.specs.Prelude.{◌≡◌, ◌≤◌, IfSome, MatchOption, option_map, length};
ghost use Rattle.value_ops.specs.Joined.{sum_of};
ghost use Rattle.acl_formula.specs.Desk.{seen};
ghost use Rattle.acl_formula.specs.DeskRules.{IsGood, StartsAt, IsDown, end_of};
ghost use Rattle.acl_formula.specs.DeskText.{text_in, list_in, IsText, IsListed};
ghost use Rattle.acl_formula.specs.RuleValue.{kept};

use crate::arithmetic::sum;
use crate::evaluation::beside;
use crate::operand::{Operand, Part, number};
use cell_types::MAX_TEXT_BYTES;
use value_ops::MAX_JOINED_ITEMS;

fn text_len(desk: &[Part<'_>], value: Operand<'_>) -> usize
    requires { IsGood desk.now value }
    ensures { MatchOption (text_in desk.now value.entry) (result ≡ 0) (λ t. result ≡ length t) }
{
    match value {
        Operand::Text(text) => text.len(),
        Operand::Joined(_, _, len) => len,
        _ => 0,
    }
}

fn list_len(desk: &[Part<'_>], value: Operand<'_>) -> usize
    requires { IsGood desk.now value }
    ensures { MatchOption (list_in desk.now value.entry) (result ≡ 0) (λ is. result ≡ length is) }
{
    match value {
        Operand::List(items) => items.len(),
        Operand::Listed(_, _, len) => len,
        _ => 0,
    }
}

// Two texts that are put down one after the other are one.
fn joined_texts<'a>(
    desk: &[Part<'a>],
    left: Operand<'a>,
    right: Operand<'a>,
    at: usize,
    middle: usize,
    end: usize,
) -> Option<Operand<'a>>
    requires good { IsGood desk.now left × IsGood desk.now right }
    requires down { IsDown desk.now at middle left × IsDown desk.now middle end right }
    requires order { (at ≤ middle) × (middle ≤ end) × (end ≤ length desk.now) }
    requires texts { IsText left × IsText right }
    ensures value { option_map (seen desk.now) result
        ≡ kept (sum_of (seen desk.now left.entry) (seen desk.now right.entry)) }
    ensures good { IfSome result (λ v. IsGood desk.now v × StartsAt at v) }
    ensures end { IfSome result (λ v. end_of at v ≤ end) }
{
    let len = text_len(desk, left) + text_len(desk, right);
    if len > MAX_TEXT_BYTES {
        return None;
    }
    Some(Operand::Joined(at, end, len))
}

// And so are two lists.
fn joined_lists<'a>(
    desk: &[Part<'a>],
    left: Operand<'a>,
    right: Operand<'a>,
    at: usize,
    middle: usize,
    end: usize,
) -> Option<Operand<'a>>
    requires good { IsGood desk.now left × IsGood desk.now right }
    requires down { IsDown desk.now at middle left × IsDown desk.now middle end right }
    requires order { (at ≤ middle) × (middle ≤ end) × (end ≤ length desk.now) }
    requires lists { IsListed left × IsListed right }
    ensures value { option_map (seen desk.now) result
        ≡ kept (sum_of (seen desk.now left.entry) (seen desk.now right.entry)) }
    ensures good { IfSome result (λ v. IsGood desk.now v × StartsAt at v) }
    ensures end { IfSome result (λ v. end_of at v ≤ end) }
{
    let len = list_len(desk, left) + list_len(desk, right);
    if len > MAX_JOINED_ITEMS {
        return None;
    }
    Some(Operand::Listed(at, end, len))
}

// The sum of two values that are put down, where they are texts or lists.
pub(crate) fn total<'a>(
    desk: &[Part<'a>],
    left: Operand<'a>,
    right: Operand<'a>,
    at: usize,
    middle: usize,
    end: usize,
) -> Option<Operand<'a>>
    requires good { IsGood desk.now left × IsGood desk.now right }
    requires down { IsDown desk.now at middle left × IsDown desk.now middle end right }
    requires order { (at ≤ middle) × (middle ≤ end) × (end ≤ length desk.now) }
    ensures value { option_map (seen desk.now) result
        ≡ kept (sum_of (seen desk.now left.entry) (seen desk.now right.entry)) }
    ensures good { IfSome result (λ v. IsGood desk.now v × StartsAt at v) }
    ensures end { IfSome result (λ v. end_of at v ≤ end) }
{
    match (left, right) {
        (Operand::Text(_) | Operand::Joined(..), Operand::Text(_) | Operand::Joined(..)) => {
            joined_texts(desk, left, right, at, middle, end)
        }
        (Operand::List(_) | Operand::Listed(..), Operand::List(_) | Operand::Listed(..)) => {
            joined_lists(desk, left, right, at, middle, end)
        }
        _ => beside(desk, at, sum(number(desk, left), number(desk, right))),
    }
}
