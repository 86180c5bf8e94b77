//! What functions give of their arguments.

ghost use Rattle.std.specs.Prelude.{◌≡◌, pos, length};
ghost use Rattle.std.specs.Str.{chars};
ghost use Rattle.value_ops.specs.Numbers.{in_64_bits, number_of};
ghost use Rattle.cell_types.specs.ValueText.{text_within_bound};
ghost use Rattle.formula_eval.specs.Run.{out_of};
ghost use Rattle.formula_eval.specs.Function.{applied, applied_to_one, count_value, length_of, size_of, text_or_overflow};
ghost use Rattle.formula_eval.specs.Call.{takes};
ghost use Rattle.formula_eval.specs.Halted.{IsOut};

use crate::extremes::extreme;
use crate::function::Function;
use crate::halt::Halt;
use crate::sums::total;
use cell_types::{CellValue, ErrKind, text_of};
use std::alloc::Global;
use value_ops::{negate, truth};

/// Whether the function takes so many arguments.
pub(crate) fn takes(function: Function, count: usize) -> bool
    ensures { result ≡ takes function count }
{
    match function {
        Function::If => count == 3,
        Function::IfError => 1 <= count && count <= 2,
        Function::Sum | Function::Min | Function::Max => 1 <= count,
        _ => count == 1,
    }
}

/// What a function gives of its arguments' values.
pub(crate) fn applied(
    alloc: Global,
    function: Function,
    values: &[CellValue],
) -> Result<CellValue, Halt>
    ensures { IsOut result (out_of (applied function values.now)) }
{
    match function {
        Function::If | Function::IfError => Err(Halt::Raised(ErrKind::WrongType)),
        Function::Sum => total(values),
        Function::Min => extreme(values, false),
        Function::Max => extreme(values, true),
        _ => match values.first() {
            Some(value) => of_one(alloc, function, value),
            None => of_one(alloc, function, &CellValue::Null),
        },
    }
}

// What a function of one argument gives.
fn of_one(alloc: Global, function: Function, value: &CellValue) -> Result<CellValue, Halt>
    ensures { IsOut result (out_of (applied_to_one function value.now)) }
{
    match function {
        Function::Len => length_of(value),
        Function::Abs => size_of(value),
        Function::Str => shown(alloc, value),
        Function::Bool => Ok(CellValue::Bool(truth(value))),
        _ => Err(Halt::Raised(ErrKind::WrongType)),
    }
}

fn count_value(count: usize) -> Result<CellValue, Halt>
    ensures { IsOut result (out_of (count_value count)) }
{
    match i64::try_from(count) {
        Ok(count) => Ok(CellValue::Int(count)),
        Err(_) => Err(Halt::Raised(ErrKind::Overflow)),
    }
}

fn length_of(value: &CellValue) -> Result<CellValue, Halt>
    ensures { IsOut result (out_of (length_of value.now)) }
{
    match value {
        CellValue::Text(text) => count_value(character_count(text.as_str())),
        CellValue::List(items) => count_value(items.len()),
        CellValue::RecSet(set) => count_value(set.rows.len()),
        _ => Err(Halt::Raised(ErrKind::WrongType)),
    }
}

fn character_count(text: &str) -> usize
    ensures { result ≡ length (chars text.now) }
{
    text.chars().count()
}

fn size_of(value: &CellValue) -> Result<CellValue, Halt>
    ensures { IsOut result (out_of (size_of (number_of value.now))) }
{
    match value {
        CellValue::Int(number) => {
            if *number < 0 {
                Ok(negate(value)?)
            } else {
                Ok(CellValue::Int(*number))
            }
        }
        CellValue::Bool(truth) => Ok(CellValue::Int(i64::from(*truth))),
        _ => Err(Halt::Raised(ErrKind::WrongType)),
    }
}

fn shown(alloc: Global, value: &CellValue) -> Result<CellValue, Halt>
    ensures { IsOut result (out_of (text_or_overflow (text_within_bound value.now))) }
{
    match text_of(alloc, value)? {
        Some(text) => Ok(CellValue::Text(text)),
        None => Err(Halt::Raised(ErrKind::Overflow)),
    }
}
