//! Values of cells as JSON.
ghost use Rattle.std.specs.Prelude.{◌≡◌, IfOk};
ghost use Rattle.serde_json.specs.View.{view};
ghost use Rattle.cell_types.specs.ValueText.{err_text};
ghost use Rattle.grist_json.specs.Values.{date_data, ref_data, set_data, error_data, item_data, value_data, list_data, rows_data, values_data};

use crate::json_parts::{array_with, texts_of_one, texts_of_two};
use cell_types::{CellItem, CellValue, ErrKind, RowRef, RowSet, error_name};
use serde_json::Value;
use std::alloc::{AllocError, Global};

// An error: ["E",name].
fn error_value(alloc: Global, kind: ErrKind) -> Result<Value, AllocError>
    ensures { IfOk result (λ v. view v ≡ error_data (err_text kind)) }
{
    let mark = texts_of_one(alloc, "E")?;
    array_with(mark, Value::try_from_str(alloc, error_name(kind))?)
}

// A date: ["d",seconds].
fn date_value(alloc: Global, seconds: i64) -> Result<Value, AllocError>
    ensures { IfOk result (λ v. view v ≡ date_data seconds) }
{
    array_with(texts_of_one(alloc, "d")?, Value::from(seconds))
}

// A record: ["R",table,row].
fn ref_value(alloc: Global, at: &RowRef) -> Result<Value, AllocError>
    ensures { IfOk result (λ v. view v ≡ ref_data at.now) }
{
    let head = texts_of_two(alloc, "R", at.table.as_str())?;
    array_with(head, Value::from(at.row))
}

// A set of rows: ["r",table,[row,..]].
fn set_value(alloc: Global, set: &RowSet) -> Result<Value, AllocError>
    ensures { IfOk result (λ v. view v ≡ set_data set.now) }
{
    let head = texts_of_two(alloc, "r", set.table.as_str())?;
    array_with(head, rows_value(alloc, set.rows.as_slice())?)
}

// Row ids as an array.
pub(crate) fn rows_value(alloc: Global, rows: &[u32]) -> Result<Value, AllocError>
    ensures { IfOk result (λ v. view v ≡ rows_data rows.now) }
{
    let mut values = Vec::new(alloc);
    for row in rows {
        values.push(Value::from(*row))?;
    }
    Ok(Value::Array(values))
}

fn item_value(alloc: Global, item: &CellItem) -> Result<Value, AllocError>
    ensures { IfOk result (λ v. view v ≡ item_data item.now) }
{
    match item {
        CellItem::Null => Ok(Value::Null),
        CellItem::Int(number) => Ok(Value::from(*number)),
        CellItem::Bool(truth) => Ok(Value::Bool(*truth)),
        CellItem::Text(text) => Value::try_from_str(alloc, text.as_str()),
        CellItem::Date(seconds) => date_value(alloc, *seconds),
        CellItem::Rec(at) => ref_value(alloc, at),
    }
}

// A list value: its mark, and then its items.
fn list_value(alloc: Global, items: &[CellItem]) -> Result<Value, AllocError>
    ensures { IfOk result (λ v. view v ≡ list_data items.now) }
{
    let mut values = texts_of_one(alloc, "L")?;
    for item in items {
        values.push(item_value(alloc, item)?)?;
    }
    Ok(Value::Array(values))
}

fn value_value(alloc: Global, value: &CellValue) -> Result<Value, AllocError>
    ensures { IfOk result (λ v. view v ≡ value_data value.now) }
{
    match value {
        CellValue::Null => Ok(Value::Null),
        CellValue::Int(number) => Ok(Value::from(*number)),
        CellValue::Bool(truth) => Ok(Value::Bool(*truth)),
        CellValue::Text(text) => Value::try_from_str(alloc, text.as_str()),
        CellValue::Date(seconds) => date_value(alloc, *seconds),
        CellValue::Rec(at) => ref_value(alloc, at),
        CellValue::RecSet(set) => set_value(alloc, set),
        CellValue::List(items) => list_value(alloc, items.as_slice()),
        CellValue::Err(kind) => error_value(alloc, *kind),
        CellValue::Censored => Ok(Value::Array(texts_of_one(alloc, "C")?)),
    }
}

// Values as an array.
pub(crate) fn values_value(alloc: Global, values: &[CellValue]) -> Result<Value, AllocError>
    ensures { IfOk result (λ v. view v ≡ values_data values.now) }
{
    let mut shown = Vec::new(alloc);
    for value in values {
        shown.push(value_value(alloc, value)?)?;
    }
    Ok(Value::Array(shown))
}
