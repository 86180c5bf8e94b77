//! What operators give of their operands.

ghost use Rattle.std.specs.Prelude.{◌≡◌, Result, not};
ghost use Rattle.formula_eval.specs.Run.{out_of, gives};
ghost use Rattle.formula_eval.specs.Operator.{constant_value, is_decided, operated, prefixed, tested, untested};
ghost use Rattle.value_ops.specs.Containment.{contains_of};
ghost use Rattle.formula_eval.specs.Halted.{IsOut};

use crate::halt::Halt;
use cell_types::{CellValue, ErrKind, RowRef};
use formula_parse::{BinaryOp, Constant, PrefixOp};
use std::alloc::Global;
use value_ops::{add, contains, equal, floor_div, less, modulo, mul, negate, same, sub, truth};

/// The value of a word.
pub(crate) fn constant_value(at: &RowRef, constant: Constant) -> Result<CellValue, Halt>
    ensures { IsOut result (gives (constant_value at.now constant)) }
{
    match constant {
        Constant::True => Ok(CellValue::Bool(true)),
        Constant::False => Ok(CellValue::Bool(false)),
        Constant::None => Ok(CellValue::Null),
        Constant::Rec => Ok(CellValue::Rec(at.clone()?)),
    }
}

/// Whether the left operand is what the operator gives, so that the right one is not evaluated.
pub(crate) fn is_decided(op: BinaryOp, left: &CellValue) -> bool
    ensures { result ≡ is_decided op left.now }
{
    match op {
        BinaryOp::Or => truth(left),
        BinaryOp::And => !truth(left),
        _ => false,
    }
}

/// What an operator gives of both operands.
pub(crate) fn operated(
    alloc: Global,
    op: BinaryOp,
    left: &CellValue,
    right: &CellValue,
) -> Result<CellValue, Halt>
    ensures { IsOut result (operated op left.now right.now) }
{
    match op {
        // An owned operand is handed over before; a lent one is copied.
        BinaryOp::Or | BinaryOp::And => Ok(right.clone()?),
        BinaryOp::Equal => Ok(CellValue::Bool(equal(left, right))),
        BinaryOp::NotEqual => Ok(CellValue::Bool(!equal(left, right))),
        BinaryOp::Less => tested(less(left, right)),
        BinaryOp::AtMost => untested(less(right, left)),
        BinaryOp::More => tested(less(right, left)),
        BinaryOp::AtLeast => untested(less(left, right)),
        BinaryOp::In => Ok(contains(left, right)?),
        BinaryOp::NotIn => not_in(left, right),
        BinaryOp::Is => Ok(CellValue::Bool(same(left, right))),
        BinaryOp::IsNot => Ok(CellValue::Bool(!same(left, right))),
        BinaryOp::Add => Ok(add(alloc, left, right)?),
        BinaryOp::Subtract => Ok(sub(left, right)?),
        BinaryOp::Multiply => Ok(mul(left, right)?),
        BinaryOp::Divide => Ok(floor_div(left, right)?),
        BinaryOp::Remainder => Ok(modulo(left, right)?),
    }
}

fn tested(found: Result<bool, ErrKind>) -> Result<CellValue, Halt>
    ensures { IsOut result (tested (out_of found)) }
{
    match found {
        Ok(truth) => Ok(CellValue::Bool(truth)),
        Err(kind) => Err(Halt::Raised(kind)),
    }
}

fn untested(found: Result<bool, ErrKind>) -> Result<CellValue, Halt>
    ensures { IsOut result (untested (out_of found)) }
{
    match found {
        Ok(truth) => Ok(CellValue::Bool(!truth)),
        Err(kind) => Err(Halt::Raised(kind)),
    }
}

fn not_in(left: &CellValue, right: &CellValue) -> Result<CellValue, Halt>
    ensures { IsOut result (untested (out_of (contains_of left.now right.now))) }
{
    let found = contains(left, right)?;
    Ok(CellValue::Bool(!truth(&found)))
}

/// What an operator in front gives of its operand.
pub(crate) fn prefixed(op: PrefixOp, operand: &CellValue) -> Result<CellValue, Halt>
    ensures { IsOut result (prefixed op operand.now) }
{
    match op {
        PrefixOp::Not => Ok(CellValue::Bool(!truth(operand))),
        PrefixOp::Negate => Ok(negate(operand)?),
    }
}
