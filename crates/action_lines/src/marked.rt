//! What stands behind the marks of values.
ghost use Rattle.std.specs.Prelude.{◌≡◌, IfOk};
ghost use Rattle.serde_json.specs.View.{items_view};
ghost use Rattle.action_lines.specs.ReadValues.{name_from, date_from, ref_from, set_from, error_value_from};

use crate::items::Items;
use crate::marks::error_of;
use crate::numbers::{int_of, row_of};
use crate::spelled::read_given;
use cell_types::{CellText, CellValue, Name, RowList, RowRef, RowSet};
use std::alloc::{AllocError, Global};

// The name of a table, where the text has the length of one.
fn name_of(alloc: Global, text: &str) -> Result<Option<Name>, AllocError>
    ensures { IfOk result (λ o. o ≡ name_from text.now) }
{
    Ok(Name::try_new(CellText::copy_of(alloc, text)?))
}

// The seconds behind the mark of a date.
#[tactic(auto, unfolding(crate::specs::ReadValues::date_from))]
pub(crate) fn date_of(items: Items<'_>) -> Option<i64>
    ensures { result ≡ date_from (items_view items.entry.left.now) }
{
    match items.only() {
        Some(seconds) => int_of(seconds),
        None => None,
    }
}

// The row behind its mark.
#[tactic(auto, unfolding(crate::specs::ReadValues::ref_from))]
pub(crate) fn ref_of(alloc: Global, items: Items<'_>) -> Result<Option<RowRef>, AllocError>
    ensures { IfOk result (λ o. o ≡ ref_from (items_view items.entry.left.now)) }
{
    let Some((table, row)) = items.text_beside() else {
        return Ok(None);
    };
    let Some(row) = row_of(row) else {
        return Ok(None);
    };
    match name_of(alloc, table)? {
        Some(table) => Ok(Some(RowRef { table, row })),
        None => Ok(None),
    }
}

// The set of rows behind its mark.
#[tactic(auto, unfolding(crate::specs::ReadValues::set_from))]
pub(crate) fn set_of(alloc: Global, items: Items<'_>) -> Result<Option<RowSet>, AllocError>
    ensures { IfOk result (λ o. o ≡ set_from (items_view items.entry.left.now)) }
{
    let Some((table, rows)) = items.text_beside() else {
        return Ok(None);
    };
    let Some(table) = name_of(alloc, table)? else {
        return Ok(None);
    };
    match read_given::<u32>(alloc, false, rows)? {
        Some(rows) => Ok(Some(RowSet {
            table,
            rows: RowList::from(rows),
        })),
        None => Ok(None),
    }
}

// The error behind its mark.
#[tactic(auto, unfolding(crate::specs::ReadValues::error_value_from))]
pub(crate) fn error_value_of(items: Items<'_>) -> Option<CellValue>
    ensures { result ≡ error_value_from (items_view items.entry.left.now) }
{
    let Some(name) = items.only_text() else {
        return None;
    };
    match error_of(name) {
        Some(kind) => Some(CellValue::Err(kind)),
        None => None,
    }
}
