//! What a rule comes to.

ghost use Rattle.std.specs.Prelude.{◌≡◌, ◌≤◌, length, IfSome, option_map};
ghost use Rattle.acl_formula.specs.Asked.{asked_by};
ghost use Rattle.acl_formula.specs.Desk.{seen};
ghost use Rattle.acl_formula.specs.DeskRules.{IsGood};
ghost use Rattle.acl_formula.specs.Room.{room, whole_room, most_room};
ghost use Rattle.acl_formula.specs.RuleTruths.{rule_truth, truth_from, is_kept};
ghost use Rattle.acl_formula.specs.RuleValue.{value_of};

use crate::evaluation::value_of;
use crate::operand::{Operand, Part, truth};
use crate::room::MOST_ROOM;
use crate::rule_tree::RuleTree;
use crate::user_info::{RowReader, UserInfo};
use formula_parse::Formula;

/// What a rule's formula comes to.
#[derive(Clone, Copy, Debug, PartialEq, Eq)]
pub enum RuleTruth {
    True,
    False,
    /// Something that was evaluated is not there or raises an error, or the whole is too long.
    Fails,
}

/// How many items or rows the value of a whole formula has at most.
const MAX_WHOLE_ITEMS: usize = 10_000;

/// How many places a small desk has.
const SMALL_ROOM: usize = 16;

/// What a rule's formula comes to, for a user and the rows before and after a change.
///
/// Memory: none. Cost: each part is evaluated once; a comparison of joined texts or lists takes
/// their length times their parts.
/// Source: docs/FORMULAS.md, "Rules".
pub fn eval_rule<W: RowReader>(
    rule: &RuleTree,
    user: &UserInfo,
    rec: Option<&W>,
    new_rec: Option<&W>,
) -> RuleTruth
    ensures { result ≡ rule_truth (asked_by W.told user.now rec.entry new_rec.entry) rule.now }
{
    match rule.formula() {
        None => RuleTruth::True,
        Some(formula) => match rule.room() {
            0 => on_no_desk(formula, user, rec, new_rec),
            1..=SMALL_ROOM => on_small_desk(formula, user, rec, new_rec),
            _ => on_large_desk(formula, user, rec, new_rec),
        },
    }
}

// Most rules join nothing.
fn on_no_desk<'a, W: RowReader>(
    formula: &'a Formula,
    user: &'a UserInfo,
    before: Option<&'a W>,
    after: Option<&'a W>,
) -> RuleTruth
    requires { room formula.now ≤ 0 }
    ensures { result ≡ truth_from
        (value_of (asked_by W.told user.now before.entry after.entry) formula.now) }
{
    truth_on(formula, user, before, after, &mut [])
}

fn on_small_desk<'a, W: RowReader>(
    formula: &'a Formula,
    user: &'a UserInfo,
    before: Option<&'a W>,
    after: Option<&'a W>,
) -> RuleTruth
    requires { room formula.now ≤ SMALL_ROOM }
    ensures { result ≡ truth_from
        (value_of (asked_by W.told user.now before.entry after.entry) formula.now) }
{
    truth_on(
        formula,
        user,
        before,
        after,
        &mut [Part::Piece(""); SMALL_ROOM],
    )
}

fn on_large_desk<'a, W: RowReader>(
    formula: &'a Formula,
    user: &'a UserInfo,
    before: Option<&'a W>,
    after: Option<&'a W>,
) -> RuleTruth
    requires { room formula.now ≤ most_room }
    ensures { result ≡ truth_from
        (value_of (asked_by W.told user.now before.entry after.entry) formula.now) }
{
    truth_on(
        formula,
        user,
        before,
        after,
        &mut [Part::Piece(""); MOST_ROOM],
    )
}

fn truth_on<'a, W: RowReader>(
    formula: &'a Formula,
    user: &'a UserInfo,
    before: Option<&'a W>,
    after: Option<&'a W>,
    desk: &mut [Part<'a>],
) -> RuleTruth
    requires room { room formula.now ≤ length desk.old }
    requires short { length desk.old ≤ most_room }
    ensures { result ≡ truth_from
        (value_of (asked_by W.told user.now before.entry after.entry) formula.now) }
{
    let value = value_of(formula, user, before, after, desk, 0);
    truth_from(desk, value)
}

fn truth_from(desk: &[Part<'_>], value: Option<Operand<'_>>) -> RuleTruth
    requires { IfSome value (IsGood desk.now) }
    ensures { result ≡ truth_from (option_map (seen desk.now) value.entry) }
{
    match value {
        Some(value) if is_kept(desk, value) => {
            if truth(desk, value) {
                RuleTruth::True
            } else {
                RuleTruth::False
            }
        }
        _ => RuleTruth::Fails,
    }
}

fn is_kept(desk: &[Part<'_>], value: Operand<'_>) -> bool
    requires { IsGood desk.now value }
    ensures { result ≡ is_kept (seen desk.now value.entry) }
{
    match value {
        Operand::List(items) => items.len() <= MAX_WHOLE_ITEMS,
        Operand::Listed(_, _, len) => len <= MAX_WHOLE_ITEMS,
        Operand::Set(set) => set.rows.len() <= MAX_WHOLE_ITEMS,
        _ => true,
    }
}
