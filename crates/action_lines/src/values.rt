//! Values of cells, as lines spell them.
ghost use Rattle.std.specs.Prelude.{◌≡◌, IfOk, option_map};
ghost use Rattle.serde_json.specs.View.{view, items_view};
ghost use Rattle.action_lines.specs.Items.{all_from};
ghost use Rattle.action_lines.specs.Numbers.{int_from};
ghost use Rattle.action_lines.specs.ReadValues.{date_from, ref_from, set_from, item_from, value_from, array_value_from, marked_value_from};

use crate::items::Items;
use crate::marked::{date_of, error_value_of, ref_of, set_of};
use crate::marks::{Mark, mark_of};
use crate::numbers::int_of;
use crate::spelled::{Spelled, read_all};
use cell_types::{CellItem, CellList, CellText, CellValue};
use serde_json::Value;
use std::alloc::{AllocError, Global};

// A date as a value.
fn date_value(items: Items<'_>) -> Option<CellValue>
    ensures { result ≡ option_map CellValue.Date (date_from (items_view items.entry.left.now)) }
{
    match date_of(items) {
        Some(seconds) => Some(CellValue::Date(seconds)),
        None => None,
    }
}

// A row as a value.
fn ref_value(alloc: Global, items: Items<'_>) -> Result<Option<CellValue>, AllocError>
    ensures { IfOk result (λ o.
        o ≡ option_map CellValue.Rec (ref_from (items_view items.entry.left.now))) }
{
    match ref_of(alloc, items)? {
        Some(row) => Ok(Some(CellValue::Rec(row))),
        None => Ok(None),
    }
}

// A set of rows as a value.
fn set_value(alloc: Global, items: Items<'_>) -> Result<Option<CellValue>, AllocError>
    ensures { IfOk result (λ o.
        o ≡ option_map CellValue.RecSet (set_from (items_view items.entry.left.now))) }
{
    match set_of(alloc, items)? {
        Some(rows) => Ok(Some(CellValue::RecSet(rows))),
        None => Ok(None),
    }
}

// A list as a value.
fn list_value(alloc: Global, items: Items<'_>) -> Result<Option<CellValue>, AllocError>
    ensures { IfOk result (λ o.
        o ≡ option_map CellValue.List (all_from item_from (items_view items.entry.left.now))) }
{
    match read_all::<CellItem>(alloc, items)? {
        Some(list) => Ok(Some(CellValue::List(CellList::from(list)))),
        None => Ok(None),
    }
}

// The value behind a mark.
fn marked_value(
    alloc: Global,
    mark: Mark,
    items: Items<'_>,
) -> Result<Option<CellValue>, AllocError>
    ensures { IfOk result (λ o. o ≡ marked_value_from mark (items_view items.entry.left.now)) }
{
    match mark {
        Mark::List => list_value(alloc, items),
        Mark::Date => Ok(date_value(items)),
        Mark::Rec => ref_value(alloc, items),
        Mark::Rows => set_value(alloc, items),
        Mark::Err => Ok(error_value_of(items)),
        Mark::Censored => Ok(censored_of(items)),
    }
}

fn censored_of(items: Items<'_>) -> Option<CellValue>
    ensures { result ≡ marked_value_from Mark.Censored (items_view items.entry.left.now) }
{
    if items.is_done() {
        Some(CellValue::Censored)
    } else {
        None
    }
}

// A value that is an array.
fn array_value(alloc: Global, mut items: Items<'_>) -> Result<Option<CellValue>, AllocError>
    ensures { IfOk result (λ o. o ≡ array_value_from (items_view items.entry.left.now)) }
{
    let Some(mark) = items.take_text() else {
        return Ok(None);
    };
    match mark_of(mark) {
        Some(mark) => marked_value(alloc, mark, items),
        None => Ok(None),
    }
}

fn int_value(value: &Value) -> Option<CellValue>
    ensures { result ≡ option_map CellValue.Int (int_from (view value.now)) }
{
    match int_of(value) {
        Some(number) => Some(CellValue::Int(number)),
        None => None,
    }
}

#[tactic(auto, unfolding(crate::specs::ReadValues::value_from))]
fn value_of(alloc: Global, value: &Value) -> Result<Option<CellValue>, AllocError>
    ensures { IfOk result (λ o. o ≡ value_from (view value.now)) }
{
    match value {
        Value::Null => Ok(Some(CellValue::Null)),
        Value::Bool(truth) => Ok(Some(CellValue::Bool(*truth))),
        Value::Number(_) => Ok(int_value(value)),
        Value::String(text) => Ok(Some(CellValue::Text(CellText::copy_of(alloc, text.as_str())?))),
        Value::Array(_) => match Items::of(value) {
            Some(items) => array_value(alloc, items),
            None => Ok(None),
        },
        Value::Object(_) => Ok(None),
    }
}

impl Spelled for CellValue {
    ghost use Rattle.action_lines.specs.ReadValues.{value_from};

    ghost from = { value_from };

    fn read(alloc: Global, value: &Value) -> Result<Option<CellValue>, AllocError> {
        value_of(alloc, value)
    }
}
