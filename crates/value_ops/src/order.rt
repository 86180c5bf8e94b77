//! The order of values.

ghost use Rattle.std.specs.Prelude.{◌≡◌};
ghost use Rattle.value_ops.specs.Order.{less_of};

use crate::numbers::number;
use cell_types::{CellValue, ErrKind};

/// `left < right`, of two numbers, two dates or two texts. Texts go by their characters: the order
/// of the bytes of UTF-8 is that of the characters.
///
/// Errors: `WrongType` for every other pair.
/// Memory: none. Cost: linear in the shorter text.
pub fn less(left: &CellValue, right: &CellValue) -> Result<bool, ErrKind>
    ensures { result ≡ less_of left.now right.now }
{
    match (left, right) {
        (CellValue::Text(left), CellValue::Text(right)) => Ok(left.as_str() < right.as_str()),
        (CellValue::Date(left), CellValue::Date(right)) => Ok(*left < *right),
        _ => match (number(left), number(right)) {
            (Some(left), Some(right)) => Ok(left < right),
            _ => Err(ErrKind::WrongType),
        },
    }
}
