//! The value of a rule's formula, without memory.

ghost use Rattle.std.specs.Prelude.{◌≡◌, ◌≤◌, ◌<◌, ◌+◌, ◌∷◌, [], pos, IfSome, option_map, take, length};
ghost use Rattle.formula_parse.specs.Tree.{from_list};
ghost use Rattle.formula_parse.specs.declared.operator.BinaryOp.TheVariants as ops;
ghost use Rattle.value_ops.specs.Joined.{sum_of};
ghost use Rattle.value_ops.specs.Numbers.{in_64_bits};
ghost use Rattle.acl_formula.specs.Asked.{asked_by};
ghost use Rattle.acl_formula.specs.Desk.{between, items_in, seen, lent};
ghost use Rattle.acl_formula.specs.DeskRules.{IsGood, IsLent, StartsAt, IsDown, AreGood, end_of};
ghost use Rattle.acl_formula.specs.DeskText.{text_in, list_in, IsText, IsListed};
ghost use Rattle.acl_formula.specs.Operators.{IsOfValues};
ghost use Rattle.acl_formula.specs.Room.{room, items_room, HasRoom};
ghost use Rattle.acl_formula.specs.RuleValue.{value_of, items_of, constant_value, combined, turned, kept, as_value, item_list};

use crate::arithmetic::{negated, operated, sum};
use crate::desk::{put_down, put_item};
use crate::fields::atom_value;
use crate::joining::total;
use crate::operand::{Operand, Part, end_of, truth};
use crate::user_info::{RowReader, UserInfo};
use formula_parse::{ArgumentList, BinaryOp, Constant, Formula, Node, PrefixOp};

fn number_value(number: u64) -> Option<Operand<'static>>
    ensures value { option_map lent result ≡ kept (in_64_bits (pos number)) }
    ensures lent { IfSome result IsLent }
{
    match i64::try_from(number) {
        Ok(number) => Some(Operand::Int(number)),
        Err(_) => None,
    }
}

fn constant_value(constant: Constant) -> Option<Operand<'static>>
    ensures value { option_map lent result ≡ constant_value constant }
    ensures lent { IfSome result IsLent }
{
    match constant {
        Constant::True => Some(Operand::Bool(true)),
        Constant::False => Some(Operand::Bool(false)),
        Constant::None => Some(Operand::Null),
        Constant::Rec => None,
    }
}

// A value that lies on no desk, seen beside one: the clauses change, the value does not.
pub(crate) fn beside<'a>(
    desk: &[Part<'a>],
    at: usize,
    value: Option<Operand<'a>>,
) -> Option<Operand<'a>>
    requires { IfSome value IsLent }
    ensures value { option_map (seen desk.now) result ≡ option_map lent value.entry }
    ensures good { IfSome result (λ v. IsGood desk.now v × StartsAt at v) }
    ensures end { IfSome result (λ v. end_of at v ≤ at) }
{
    value
}

/// The value of a part, with what it joins from a place of the desk on.
#[cycle(value)]
pub(crate) fn value_of<'a, W: RowReader>(
    tree: &'a Formula,
    user: &'a UserInfo,
    before: Option<&'a W>,
    after: Option<&'a W>,
    desk: &mut [Part<'a>],
    at: usize,
) -> Option<Operand<'a>>
    requires room { HasRoom at (room tree.now) desk.old }
    ensures kept { take at desk.new ≡ take at desk.old }
    ensures length { length desk.new ≡ length desk.old }
    ensures value { option_map (seen desk.new) result
        ≡ value_of (asked_by W.told user.now before.entry after.entry) tree.now }
    ensures good { IfSome result (λ v. IsGood desk.new v × StartsAt at v) }
    ensures end { IfSome result (λ v. end_of at v ≤ at + room tree.now) }
{
    match tree.node() {
        Node::Number(number) => beside(desk, at, number_value(*number)),
        Node::Text(text) => beside(desk, at, Some(Operand::Text(text.as_str()))),
        Node::Constant(constant) => beside(desk, at, constant_value(*constant)),
        Node::Binary(BinaryOp::Or, left, right) => {
            either(left, right, user, before, after, desk, at)
        }
        Node::Binary(BinaryOp::And, left, right) => both(
            left, right, user, before, after, desk, at,
        ),
        Node::Binary(BinaryOp::Add, left, right) => {
            joined(left, right, user, before, after, desk, at)
        }
        Node::Binary(op, left, right) => {
            of_values(*op, left, right, user, before, after, desk, at)
        }
        Node::Prefix(op, inner) => behind(*op, inner, user, before, after, desk, at),
        Node::Parentheses(inner) => value_of(inner, user, before, after, desk, at),
        Node::List(items) => listed(items, user, before, after, desk, at),
        Node::Rule(atom) => beside(desk, at, atom_value(atom, user, before, after)),
        _ => None,
    }
}

// `or`: the first operand where it is true, or else the second.
#[cycle(value)]
fn either<'a, W: RowReader>(
    left: &'a Formula,
    right: &'a Formula,
    user: &'a UserInfo,
    before: Option<&'a W>,
    after: Option<&'a W>,
    desk: &mut [Part<'a>],
    at: usize,
) -> Option<Operand<'a>>
    requires room { HasRoom at (room left.now + room right.now) desk.old }
    ensures kept { take at desk.new ≡ take at desk.old }
    ensures length { length desk.new ≡ length desk.old }
    ensures value { option_map (seen desk.new) result ≡ combined ops.Or
        (value_of (asked_by W.told user.now before.entry after.entry) left.now)
        (value_of (asked_by W.told user.now before.entry after.entry) right.now) }
    ensures good { IfSome result (λ v. IsGood desk.new v × StartsAt at v) }
    ensures end { IfSome result (λ v. end_of at v ≤ at + (room left.now + room right.now)) }
{
    let Some(value) = value_of(left, user, before, after, desk, at) else {
        return None;
    };
    if truth(desk, value) {
        return Some(value);
    }
    value_of(right, user, before, after, desk, at)
}

// `and`: the second operand where the first is true, or else the first.
#[cycle(value)]
fn both<'a, W: RowReader>(
    left: &'a Formula,
    right: &'a Formula,
    user: &'a UserInfo,
    before: Option<&'a W>,
    after: Option<&'a W>,
    desk: &mut [Part<'a>],
    at: usize,
) -> Option<Operand<'a>>
    requires room { HasRoom at (room left.now + room right.now) desk.old }
    ensures kept { take at desk.new ≡ take at desk.old }
    ensures length { length desk.new ≡ length desk.old }
    ensures value { option_map (seen desk.new) result ≡ combined ops.And
        (value_of (asked_by W.told user.now before.entry after.entry) left.now)
        (value_of (asked_by W.told user.now before.entry after.entry) right.now) }
    ensures good { IfSome result (λ v. IsGood desk.new v × StartsAt at v) }
    ensures end { IfSome result (λ v. end_of at v ≤ at + (room left.now + room right.now)) }
{
    let Some(value) = value_of(left, user, before, after, desk, at) else {
        return None;
    };
    if !truth(desk, value) {
        return Some(value);
    }
    value_of(right, user, before, after, desk, at)
}

// `+`: both operands are put down, one after the other.
#[cycle(value)]
fn joined<'a, W: RowReader>(
    left: &'a Formula,
    right: &'a Formula,
    user: &'a UserInfo,
    before: Option<&'a W>,
    after: Option<&'a W>,
    desk: &mut [Part<'a>],
    at: usize,
) -> Option<Operand<'a>>
    requires room { HasRoom at (room left.now + room right.now + 2) desk.old }
    ensures kept { take at desk.new ≡ take at desk.old }
    ensures length { length desk.new ≡ length desk.old }
    ensures value { option_map (seen desk.new) result ≡ combined ops.Add
        (value_of (asked_by W.told user.now before.entry after.entry) left.now)
        (value_of (asked_by W.told user.now before.entry after.entry) right.now) }
    ensures good { IfSome result (λ v. IsGood desk.new v × StartsAt at v) }
    ensures end { IfSome result (λ v. end_of at v ≤ at + (room left.now + room right.now + 2)) }
{
    let Some(first) = value_of(left, user, before, after, desk, at) else {
        return None;
    };
    let middle = put_down(desk, first, at);
    let Some(second) = value_of(right, user, before, after, desk, middle) else {
        return None;
    };
    let end = put_down(desk, second, middle);
    total(desk, first, second, at, middle, end)
}

// An operator that has both values, the second behind what the first has joined.
#[cycle(value)]
fn of_values<'a, W: RowReader>(
    op: BinaryOp,
    left: &'a Formula,
    right: &'a Formula,
    user: &'a UserInfo,
    before: Option<&'a W>,
    after: Option<&'a W>,
    desk: &mut [Part<'a>],
    at: usize,
) -> Option<Operand<'a>>
    requires op { IsOfValues op }
    requires room { HasRoom at (room left.now + room right.now) desk.old }
    ensures kept { take at desk.new ≡ take at desk.old }
    ensures length { length desk.new ≡ length desk.old }
    ensures value { option_map (seen desk.new) result ≡ combined op
        (value_of (asked_by W.told user.now before.entry after.entry) left.now)
        (value_of (asked_by W.told user.now before.entry after.entry) right.now) }
    ensures good { IfSome result (λ v. IsGood desk.new v × StartsAt at v) }
    ensures end { IfSome result (λ v. end_of at v ≤ at) }
{
    let Some(first) = value_of(left, user, before, after, desk, at) else {
        return None;
    };
    let Some(second) = value_of(right, user, before, after, desk, end_of(at, first)) else {
        return None;
    };
    beside(desk, at, operated(op, desk, first, second))
}

// An operator in front of an operand.
#[cycle(value)]
fn behind<'a, W: RowReader>(
    op: PrefixOp,
    inner: &'a Formula,
    user: &'a UserInfo,
    before: Option<&'a W>,
    after: Option<&'a W>,
    desk: &mut [Part<'a>],
    at: usize,
) -> Option<Operand<'a>>
    requires room { HasRoom at (room inner.now) desk.old }
    ensures kept { take at desk.new ≡ take at desk.old }
    ensures length { length desk.new ≡ length desk.old }
    ensures value { option_map (seen desk.new) result ≡ turned op
        (value_of (asked_by W.told user.now before.entry after.entry) inner.now) }
    ensures good { IfSome result (λ v. IsGood desk.new v × StartsAt at v) }
    ensures end { IfSome result (λ v. end_of at v ≤ at) }
{
    let Some(value) = value_of(inner, user, before, after, desk, at) else {
        return None;
    };
    beside(desk, at, negated(op, desk, value))
}

// A list that is written: its items are put down, one after the other.
#[cycle(value)]
fn listed<'a, W: RowReader>(
    items: &'a ArgumentList,
    user: &'a UserInfo,
    before: Option<&'a W>,
    after: Option<&'a W>,
    desk: &mut [Part<'a>],
    at: usize,
) -> Option<Operand<'a>>
    requires room { HasRoom at (items_room (from_list items.now)) desk.old }
    ensures kept { take at desk.new ≡ take at desk.old }
    ensures length { length desk.new ≡ length desk.old }
    ensures value { option_map (seen desk.new) result ≡ as_value
        (items_of (asked_by W.told user.now before.entry after.entry) (from_list items.now)) }
    ensures good { IfSome result (λ v. IsGood desk.new v × StartsAt at v) }
    ensures end { IfSome result (λ v. end_of at v ≤ at + items_room (from_list items.now)) }
{
    let mut end = at;
    let mut len = 0;
    for item in items.as_slice() {
        let Some(next) = item_put(item, user, before, after, desk, end) else {
            return None;
        };
        end = next;
        len += 1;
    }
    Some(Operand::Listed(at, end, len))
}

// One item of a list that is written. Says where it ends.
#[cycle(value)]
fn item_put<'a, W: RowReader>(
    item: &'a Formula,
    user: &'a UserInfo,
    before: Option<&'a W>,
    after: Option<&'a W>,
    desk: &mut [Part<'a>],
    at: usize,
) -> Option<usize>
    requires room { HasRoom at (room item.now + 1) desk.old }
    ensures kept { take at desk.new ≡ take at desk.old }
    ensures length { length desk.new ≡ length desk.old }
    ensures item { option_map (λ end. items_in desk.new (between at end desk.new)) result
        ≡ item_list (value_of (asked_by W.told user.now before.entry after.entry) item.now) }
    ensures good { IfSome result (λ end. AreGood desk.new end (between at end desk.new)) }
    ensures end { IfSome result (λ end. (at < end) × (end ≤ at + (room item.now + 1))) }
{
    let Some(value) = value_of(item, user, before, after, desk, at) else {
        return None;
    };
    put_item(desk, value, at)
}
