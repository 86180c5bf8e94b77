//! Sums: numbers are added, texts and lists are joined.

ghost use Rattle.std.specs.Prelude.{◌≡◌, ◌+◌, ◌++◌, ◌≤◌, length, IfOk};
ghost use Rattle.cell_types.specs.TextBound.{text_bound};
ghost use Rattle.value_ops.specs.Answer.{AnswersWithMemory};
ghost use Rattle.value_ops.specs.Joined.{sum_of, bounded_text, bounded_list};

use crate::OpFault;
use crate::numbers::{number, within_64_bits};
use cell_types::{CellItem, CellList, CellText, CellValue, ErrKind, MAX_TEXT_BYTES};
use std::alloc::{AllocError, Global};

/// How many items a list that `+` makes has at most.
pub const MAX_JOINED_ITEMS: usize = 1_000_000;

/// `left + right`: the sum of two numbers, or two texts or two lists one after the other.
///
/// Errors: `WrongType` for every other pair; `Overflow` for a sum outside 64 bits, a text of more
/// than 65,536 bytes or a list of more than 1,000,000 items, before any memory is taken.
/// Memory: the joined text or list, made in one piece. Cost: linear in it.
pub fn add(alloc: Global, left: &CellValue, right: &CellValue) -> Result<CellValue, OpFault>
    ensures { AnswersWithMemory result (sum_of left.now right.now) }
{
    match (left, right) {
        (CellValue::Text(left), CellValue::Text(right)) => join_texts(
            alloc,
            left.as_str(),
            right.as_str(),
        ),
        (CellValue::List(left), CellValue::List(right)) => join_lists(
            alloc,
            left.as_slice(),
            right.as_slice(),
        ),
        _ => match (number(left), number(right)) {
            (Some(left), Some(right)) => within_64_bits(left.checked_add(right)),
            _ => Err(OpFault::Raised(ErrKind::WrongType)),
        },
    }
}

fn join_texts(alloc: Global, left: &str, right: &str) -> Result<CellValue, OpFault>
    ensures { AnswersWithMemory result (bounded_text (left.now ++ right.now)) }
{
    if left.len() > MAX_TEXT_BYTES || right.len() > MAX_TEXT_BYTES - left.len() {
        return Err(OpFault::Raised(ErrKind::Overflow));
    }
    let mut text = String::with_capacity(alloc, left.len() + right.len())?;
    text.push_str(left)?;
    text.push_str(right)?;
    Ok(CellValue::Text(CellText::from_string(text)?))
}

fn join_lists(alloc: Global, left: &[CellItem], right: &[CellItem]) -> Result<CellValue, OpFault>
    ensures { AnswersWithMemory result (bounded_list (left.now ++ right.now)) }
{
    if left.len() > MAX_JOINED_ITEMS || right.len() > MAX_JOINED_ITEMS - left.len() {
        return Err(OpFault::Raised(ErrKind::Overflow));
    }
    Ok(CellValue::List(CellList::from(copies(alloc, left, right)?)))
}

fn copies(alloc: Global, left: &[CellItem], right: &[CellItem]) -> Result<Vec<CellItem>, AllocError>
    requires { length left.now + length right.now ≤ MAX_JOINED_ITEMS }
    ensures { IfOk result (λ v. v.items ≡ left.now ++ right.now) }
{
    let mut items = Vec::with_capacity(alloc, left.len() + right.len())?;
    for item in left {
        items.push(item.clone()?)?;
    }
    for item in right {
        items.push(item.clone()?)?;
    }
    Ok(items)
}
