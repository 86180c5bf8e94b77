//! Sums of values.

ghost use Rattle.std.specs.Prelude.{◌≡◌, ◌∷◌, [], pos, ◌+ℤ◌, IfSome};
ghost use Rattle.formula_eval.specs.Run.{out_of};
ghost use Rattle.formula_eval.specs.Function.{folded, item_numbers, numbers_in, total_of};
ghost use Rattle.formula_eval.specs.Halted.{IsOut};

use crate::halt::Halt;
use cell_types::{CellItem, CellValue, ErrKind};

/// SUM.
pub(crate) fn total(values: &[CellValue]) -> Result<CellValue, Halt>
    ensures { IsOut result (out_of (total_of values.now)) }
{
    let Some(sum) = sum_of_values(values) else {
        return Err(Halt::NoMemory);
    };
    match i64::try_from(sum) {
        Ok(sum) => Ok(CellValue::Int(sum)),
        Err(_) => Err(Halt::Raised(ErrKind::Overflow)),
    }
}

// The exact sum; nothing where it passes 128 bits, which takes more numbers than there is memory
// for.
#[tactic(auto, using(crate::proofs::SumLemmas::folded_step))]
fn sum_of_values(values: &[CellValue]) -> Option<i128>
    ensures { IfSome result (λ s. s ≡ folded ◌+ℤ◌ (pos 0) (numbers_in values.now)) }
{
    let mut sum = 0;
    for value in values {
        sum = with_value(sum, value)?;
    }
    Some(sum)
}

#[tactic(auto, using(crate::proofs::SumLemmas::folded_items))]
fn with_value(sum: i128, value: &CellValue) -> Option<i128>
    ensures { IfSome result (λ s. s ≡ folded ◌+ℤ◌ sum (numbers_in (value.now ∷ []))) }
{
    match value {
        CellValue::Int(number) => sum.checked_add(i128::from(*number)),
        CellValue::List(items) => with_items(sum, items.as_slice()),
        _ => Some(sum),
    }
}

fn with_items(sum: i128, items: &[CellItem]) -> Option<i128>
    ensures { IfSome result (λ s. s ≡ folded ◌+ℤ◌ sum (item_numbers items.now)) }
{
    let mut sum = sum;
    for item in items {
        if let CellItem::Int(number) = item {
            sum = sum.checked_add(i128::from(*number))?;
        }
    }
    Some(sum)
}
