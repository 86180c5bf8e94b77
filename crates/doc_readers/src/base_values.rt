//! What base cells may hold.

ghost use Rattle.std.specs.Prelude.{◌≡◌};
ghost use Rattle.std.specs.List.{list_all};
ghost use Rattle.doc_model.specs.Column.{is_base, is_base_item, is_short};

use cell_types::{CellItem, CellText, CellValue, MAX_TEXT_BYTES};

/// How many items a list in a cell has at most.
const MAX_LIST_ITEMS: usize = 10_000;

/// Whether the text is no longer than texts may be.
pub fn is_short(text: &CellText) -> bool
    ensures { result ≡ is_short text.now }
{
    text.len() <= MAX_TEXT_BYTES
}

// Whether a list in a base cell may hold the item.
fn is_base_item(item: &CellItem) -> bool
    ensures { result ≡ is_base_item item.now }
{
    match item {
        CellItem::Text(text) => is_short(text),
        CellItem::Rec(_) => false,
        _ => true,
    }
}

fn are_base_items(items: &[CellItem]) -> bool
    ensures { result ≡ list_all is_base_item items.now }
{
    items.iter().all(|item| is_base_item(item))
}

/// Whether a base cell may hold the value.
pub fn is_base(value: &CellValue) -> bool
    ensures { result ≡ is_base value.now }
{
    match value {
        CellValue::Text(text) => is_short(text),
        CellValue::List(items) => {
            items.len() <= MAX_LIST_ITEMS && are_base_items(items.as_slice())
        }
        CellValue::Rec(_) | CellValue::RecSet(_) | CellValue::Err(_) | CellValue::Censored => false,
        CellValue::Null | CellValue::Int(_) | CellValue::Bool(_) | CellValue::Date(_) => true,
    }
}

/// Whether base cells may hold the values.
pub fn are_base(values: &[CellValue]) -> bool
    ensures { result ≡ list_all is_base values.now }
{
    values.iter().all(|value| is_base(value))
}
