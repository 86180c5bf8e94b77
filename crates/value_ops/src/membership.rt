//! Membership.

ghost use Rattle.std.specs.Prelude.{◌≡◌, ◌==◌};
ghost use Rattle.std.specs.List.{list_any};
ghost use Rattle.value_ops.specs.Answer.{answer, bool_value};
ghost use Rattle.value_ops.specs.Containment.{is_among, is_part, is_row_id, is_in_row_set, contains_of};

use crate::OpFault;
use crate::equality::item_equals;
use crate::numbers::number;
use cell_types::{CellItem, CellValue, ErrKind, RowSet, Same};

/// `left in right`: any value in a list, by `==`; a text in a text; in a set of records, a record
/// of its table or a number, which is a row id. No other value is in a set of records.
///
/// Errors: `WrongType` for every other pair.
/// Memory: none. Cost: linear in the list or set.
pub fn contains(left: &CellValue, right: &CellValue) -> Result<CellValue, OpFault>
    ensures { result ≡ answer (bool_value (contains_of left.now right.now)) }
{
    let found = match (left, right) {
        (_, CellValue::List(items)) => is_among(left, items.as_slice()),
        (_, CellValue::RecSet(set)) => is_in_row_set(left, set),
        (CellValue::Text(part), CellValue::Text(text)) => is_part(part.as_str(), text.as_str()),
        _ => return Err(OpFault::Raised(ErrKind::WrongType)),
    };
    Ok(CellValue::Bool(found))
}

fn is_among(value: &CellValue, items: &[CellItem]) -> bool
    ensures { result ≡ is_among value.now items.now }
{
    items.iter().any(|item| item_equals(item, value))
}

fn is_part(part: &str, text: &str) -> bool
    ensures { result ≡ is_part part.now text.now }
{
    text.contains(part)
}

fn is_in_row_set(value: &CellValue, set: &RowSet) -> bool
    ensures { result ≡ is_in_row_set value.now set.now }
{
    match value {
        CellValue::Rec(row) => row.table.same_as(&set.table)
            && has_row(row.row, set.rows.as_slice()),
        _ => match number(value) {
            Some(number) => has_row_id(number, set.rows.as_slice()),
            None => false,
        },
    }
}

fn has_row(row: u32, rows: &[u32]) -> bool
    ensures { result ≡ list_any (λ r. row == r) rows.now }
{
    rows.iter().any(|other| row == *other)
}

fn has_row_id(number: i64, rows: &[u32]) -> bool
    ensures { result ≡ is_row_id (Some number) rows.now }
{
    rows.iter().any(|row| number == i64::from(*row))
}
