//! Arithmetic and comparisons on values where they lie.

ghost use Rattle.std.specs.Prelude.{◌≡◌, ◌+ℤ◌, ◌-ℤ◌, ◌*ℤ◌, ℤ, SomeIff, FitsSigned, IfSome, option_map, pos};
ghost use Rattle.std.specs.Int.{w64};
ghost use Rattle.value_ops.specs.Division.{floored_remainder};
ghost use Rattle.value_ops.specs.Numbers.{in_64_bits, on_numbers, divided};
ghost use Rattle.acl_formula.specs.Desk.{seen, lent};
ghost use Rattle.acl_formula.specs.DeskRules.{IsGood, IsLent};
ghost use Rattle.acl_formula.specs.Operators.{IsOfValues, int_in};
ghost use Rattle.acl_formula.specs.RuleValue.{operated, negated, kept, said, denied};

use crate::comparing::{less, within};
use crate::equality::{equal, same};
use crate::operand::{Operand, Part, number, truth};
use cell_types::CellValue;
use formula_parse::{BinaryOp, PrefixOp};
use value_ops::{OpFault, modulo};

fn said(answer: Option<bool>) -> Option<Operand<'static>>
    ensures value { option_map lent result ≡ said answer }
    ensures lent { IfSome result IsLent }
{
    Some(Operand::Bool(answer?))
}

fn denied(answer: Option<bool>) -> Option<bool>
    ensures { result ≡ denied answer }
{
    Some(!answer?)
}

// The result of arithmetic as a value, where 64 bits hold it.
fn within_64_bits(number: Option<i64>) -> Option<Operand<'static>>
    ensures value { (exact : ℤ)
        → SomeIff number (FitsSigned w64 exact) exact
        → option_map lent result ≡ kept (in_64_bits exact) }
    ensures lent { IfSome result IsLent }
{
    Some(Operand::Int(number?))
}

pub(crate) fn sum(left: Option<i64>, right: Option<i64>) -> Option<Operand<'static>>
    ensures value { option_map lent result
        ≡ kept (on_numbers (λ a b. in_64_bits (a +ℤ b)) left right) }
    ensures lent { IfSome result IsLent }
{
    within_64_bits(left?.checked_add(right?))
}

fn difference(left: Option<i64>, right: Option<i64>) -> Option<Operand<'static>>
    ensures value { option_map lent result
        ≡ kept (on_numbers (λ a b. in_64_bits (a -ℤ b)) left right) }
    ensures lent { IfSome result IsLent }
{
    within_64_bits(left?.checked_sub(right?))
}

fn product(left: Option<i64>, right: Option<i64>) -> Option<Operand<'static>>
    ensures value { option_map lent result
        ≡ kept (on_numbers (λ a b. in_64_bits (a *ℤ b)) left right) }
    ensures lent { IfSome result IsLent }
{
    within_64_bits(left?.checked_mul(right?))
}

// A number that an operator gave.
fn int_of(answer: Result<CellValue, OpFault>) -> Option<Operand<'static>>
    ensures value { option_map lent result ≡ int_in answer }
    ensures lent { IfSome result IsLent }
{
    match answer {
        Ok(CellValue::Int(number)) => Some(Operand::Int(number)),
        _ => None,
    }
}

#[tactic(auto, using(crate::proofs::Operands::remainder_kept))]
fn remainder(left: Option<i64>, right: Option<i64>) -> Option<Operand<'static>>
    ensures value { option_map lent result
        ≡ kept (on_numbers (divided floored_remainder) left right) }
    ensures lent { IfSome result IsLent }
{
    int_of(modulo(&CellValue::Int(left?), &CellValue::Int(right?)))
}

// An operator on two values, but for sums; `or` and `and` have no more to do.
pub(crate) fn operated(
    op: BinaryOp,
    desk: &[Part<'_>],
    left: Operand<'_>,
    right: Operand<'_>,
) -> Option<Operand<'static>>
    requires op { IsOfValues op }
    requires left { IsGood desk.now left }
    requires right { IsGood desk.now right }
    ensures value { option_map lent result
        ≡ operated op (seen desk.now left.entry) (seen desk.now right.entry) }
    ensures lent { IfSome result IsLent }
{
    match op {
        BinaryOp::Equal => Some(Operand::Bool(equal(desk, left, right))),
        BinaryOp::NotEqual => Some(Operand::Bool(!equal(desk, left, right))),
        BinaryOp::Less => said(less(desk, left, right)),
        BinaryOp::AtMost => said(denied(less(desk, right, left))),
        BinaryOp::More => said(less(desk, right, left)),
        BinaryOp::AtLeast => said(denied(less(desk, left, right))),
        BinaryOp::In => said(within(desk, left, right)),
        BinaryOp::NotIn => said(denied(within(desk, left, right))),
        BinaryOp::Is => Some(Operand::Bool(same(desk, left, right))),
        BinaryOp::IsNot => Some(Operand::Bool(!same(desk, left, right))),
        BinaryOp::Subtract => difference(number(desk, left), number(desk, right)),
        BinaryOp::Multiply => product(number(desk, left), number(desk, right)),
        BinaryOp::Remainder => remainder(number(desk, left), number(desk, right)),
        BinaryOp::Or | BinaryOp::And | BinaryOp::Add | BinaryOp::Divide => None,
    }
}

// An operator in front of a value.
pub(crate) fn negated(
    op: PrefixOp,
    desk: &[Part<'_>],
    value: Operand<'_>,
) -> Option<Operand<'static>>
    requires { IsGood desk.now value }
    ensures value { option_map lent result ≡ negated op (seen desk.now value.entry) }
    ensures lent { IfSome result IsLent }
{
    match op {
        PrefixOp::Not => Some(Operand::Bool(!truth(desk, value))),
        PrefixOp::Negate => difference(Some(0), number(desk, value)),
    }
}
