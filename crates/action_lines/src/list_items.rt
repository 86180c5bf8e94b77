//! Items of list values, as lines spell them.
ghost use Rattle.std.specs.Prelude.{◌≡◌, IfOk, option_map};
ghost use Rattle.serde_json.specs.View.{view, items_view};
ghost use Rattle.action_lines.specs.Numbers.{int_from};
ghost use Rattle.action_lines.specs.ReadValues.{date_from, ref_from, item_from, array_item_from};

use crate::items::Items;
use crate::marked::{date_of, ref_of};
use crate::marks::{Mark, mark_of};
use crate::numbers::int_of;
use crate::spelled::Spelled;
use cell_types::{CellItem, CellText};
use serde_json::Value;
use std::alloc::{AllocError, Global};

// A date as an item of a list.
fn date_item(items: Items<'_>) -> Option<CellItem>
    ensures { result ≡ option_map CellItem.Date (date_from (items_view items.entry.left.now)) }
{
    match date_of(items) {
        Some(seconds) => Some(CellItem::Date(seconds)),
        None => None,
    }
}

// A row as an item of a list.
fn ref_item(alloc: Global, items: Items<'_>) -> Result<Option<CellItem>, AllocError>
    ensures { IfOk result (λ o.
        o ≡ option_map CellItem.Rec (ref_from (items_view items.entry.left.now))) }
{
    match ref_of(alloc, items)? {
        Some(row) => Ok(Some(CellItem::Rec(row))),
        None => Ok(None),
    }
}

// An item of a list that is an array.
fn array_item(alloc: Global, mut items: Items<'_>) -> Result<Option<CellItem>, AllocError>
    ensures { IfOk result (λ o. o ≡ array_item_from (items_view items.entry.left.now)) }
{
    let Some(mark) = items.take_text() else {
        return Ok(None);
    };
    match mark_of(mark) {
        Some(Mark::Date) => Ok(date_item(items)),
        Some(Mark::Rec) => ref_item(alloc, items),
        _ => Ok(None),
    }
}

#[tactic(auto, unfolding(crate::specs::ReadValues::item_from))]
fn item_of(alloc: Global, value: &Value) -> Result<Option<CellItem>, AllocError>
    ensures { IfOk result (λ o. o ≡ item_from (view value.now)) }
{
    match value {
        Value::Null => Ok(Some(CellItem::Null)),
        Value::Bool(truth) => Ok(Some(CellItem::Bool(*truth))),
        Value::Number(_) => Ok(int_item(value)),
        Value::String(text) => Ok(Some(CellItem::Text(CellText::copy_of(alloc, text.as_str())?))),
        Value::Array(_) => match Items::of(value) {
            Some(items) => array_item(alloc, items),
            None => Ok(None),
        },
        Value::Object(_) => Ok(None),
    }
}

fn int_item(value: &Value) -> Option<CellItem>
    ensures { result ≡ option_map CellItem.Int (int_from (view value.now)) }
{
    match int_of(value) {
        Some(number) => Some(CellItem::Int(number)),
        None => None,
    }
}

impl Spelled for CellItem {
    ghost use Rattle.action_lines.specs.ReadValues.{item_from};

    ghost from = { item_from };

    fn read(alloc: Global, value: &Value) -> Result<Option<CellItem>, AllocError> {
        item_of(alloc, value)
    }
}
