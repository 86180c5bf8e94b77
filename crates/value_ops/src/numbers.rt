//! Arithmetic: Int and Bool values are numbers, True being 1.

ghost use Rattle.std.specs.Prelude.{◌≡◌, ℤ, SomeIff, FitsSigned};
ghost use Rattle.std.specs.Int.{w64};
ghost use Rattle.value_ops.specs.Answer.{answer};
ghost use Rattle.value_ops.specs.Numbers.{number_of, in_64_bits, difference_of, product_of, quotient_of, remainder_of, negation_of};

use crate::OpFault;
use crate::division::{quotient, remainder};
use cell_types::{CellValue, ErrKind};

/// `left - right`.
///
/// Errors: `WrongType` where one of them is no number, `Overflow` outside 64 bits.
/// Memory: none.
pub fn sub(left: &CellValue, right: &CellValue) -> Result<CellValue, OpFault>
    ensures { result ≡ answer (difference_of left.now right.now) }
{
    match (number(left), number(right)) {
        (Some(left), Some(right)) => within_64_bits(left.checked_sub(right)),
        _ => Err(OpFault::Raised(ErrKind::WrongType)),
    }
}

/// `left * right`.
///
/// Errors: `WrongType` where one of them is no number, `Overflow` outside 64 bits.
/// Memory: none.
pub fn mul(left: &CellValue, right: &CellValue) -> Result<CellValue, OpFault>
    ensures { result ≡ answer (product_of left.now right.now) }
{
    match (number(left), number(right)) {
        (Some(left), Some(right)) => within_64_bits(left.checked_mul(right)),
        _ => Err(OpFault::Raised(ErrKind::WrongType)),
    }
}

/// `left // right`, rounded down.
///
/// Errors: `WrongType` where one of them is no number, `ZeroDivision` by 0 or False, `Overflow`
/// outside 64 bits.
/// Memory: none.
pub fn floor_div(left: &CellValue, right: &CellValue) -> Result<CellValue, OpFault>
    ensures { result ≡ answer (quotient_of left.now right.now) }
{
    match (number(left), number(right)) {
        (Some(_), Some(0)) => Err(OpFault::Raised(ErrKind::ZeroDivision)),
        (Some(left), Some(right)) => within_64_bits(quotient(left, right)),
        _ => Err(OpFault::Raised(ErrKind::WrongType)),
    }
}

/// `left % right`, with the sign of the divisor.
///
/// Errors: `WrongType` where one of them is no number, `ZeroDivision` by 0 or False.
/// Memory: none.
pub fn modulo(left: &CellValue, right: &CellValue) -> Result<CellValue, OpFault>
    ensures { result ≡ answer (remainder_of left.now right.now) }
{
    match (number(left), number(right)) {
        (Some(_), Some(0)) => Err(OpFault::Raised(ErrKind::ZeroDivision)),
        (Some(left), Some(right)) => Ok(CellValue::Int(remainder(left, right))),
        _ => Err(OpFault::Raised(ErrKind::WrongType)),
    }
}

/// `-operand`.
///
/// Errors: `WrongType` where it is no number, `Overflow` outside 64 bits.
/// Memory: none.
pub fn negate(operand: &CellValue) -> Result<CellValue, OpFault>
    ensures { result ≡ answer (negation_of operand.now) }
{
    match number(operand) {
        Some(operand) => within_64_bits(operand.checked_neg()),
        None => Err(OpFault::Raised(ErrKind::WrongType)),
    }
}

/// The number that a value is, where it is one.
///
/// Memory: none.
pub(crate) fn number(value: &CellValue) -> Option<i64>
    ensures { result ≡ number_of value.now }
{
    match value {
        CellValue::Int(number) => Some(*number),
        CellValue::Bool(truth) => Some(i64::from(*truth)),
        _ => None,
    }
}

/// The result of arithmetic as a value, where 64 bits hold it.
///
/// Memory: none.
pub(crate) fn within_64_bits(number: Option<i64>) -> Result<CellValue, OpFault>
    ensures { (exact : ℤ)
        → SomeIff number (FitsSigned w64 exact) exact
        → result ≡ answer (in_64_bits exact) }
{
    match number {
        Some(number) => Ok(CellValue::Int(number)),
        None => Err(OpFault::Raised(ErrKind::Overflow)),
    }
}
