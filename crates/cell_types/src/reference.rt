//! Conversion to references: which rows of a table a value names.

ghost use Rattle.std.specs.Prelude.{◌≡◌, pos, IfOk, option_map};
ghost use Rattle.cell_types.specs.Conversion.{fit_ref, fit_ref_list, list_of_rows, single_or, as_text};
ghost use Rattle.cell_types.specs.Reference.{row_number, no_zero, row_in, rows_in, row_items};

use crate::conversion::shown;
use crate::{CellItem, CellList, CellValue, ColType, Name, Same, decimal_value};
use std::alloc::{AllocError, Global};

/// What the value becomes in a column of references to the table.
pub(crate) fn to_ref(
    alloc: Global,
    ty: &ColType,
    table: &Name,
    value: &CellValue,
) -> Result<CellValue, AllocError>
    requires { ty.now ≡ ColType.Ref table.now }
    ensures { IfOk result (λ v. v ≡ fit_ref table.now value.now) }
{
    match value {
        CellValue::Null => Ok(CellValue::Int(0)),
        CellValue::Int(number) => match row_number(*number) {
            Some(_) => value.clone(),
            None => shown(alloc, ty, value),
        },
        CellValue::Text(text) => {
            if text.is_empty() {
                return Ok(CellValue::Int(0));
            }
            match decimal_value(text.as_str()) {
                Some(number) => match row_number(number) {
                    Some(_) => Ok(CellValue::Int(number)),
                    None => value.clone(),
                },
                None => value.clone(),
            }
        }
        CellValue::Rec(row) => {
            if row.table.same_as(table) {
                return Ok(CellValue::Int(i64::from(row.row)));
            }
            shown(alloc, ty, value)
        }
        CellValue::Err(_) | CellValue::Censored => value.clone(),
        _ => shown(alloc, ty, value),
    }
}

/// What the value becomes in a column of lists of references to the table.
pub(crate) fn to_ref_list(
    alloc: Global,
    ty: &ColType,
    table: &Name,
    value: &CellValue,
) -> Result<CellValue, AllocError>
    requires { ty.now ≡ ColType.RefList table.now }
    ensures { IfOk result (λ v. v ≡ fit_ref_list table.now value.now) }
{
    match value {
        CellValue::Null | CellValue::Err(_) | CellValue::Censored => value.clone(),
        CellValue::Int(number) => match row_number(*number) {
            Some(row) => single(alloc, row),
            None => shown(alloc, ty, value),
        },
        CellValue::Text(text) => {
            if text.is_empty() {
                return Ok(CellValue::Null);
            }
            value.clone()
        }
        CellValue::Rec(row) => {
            if row.table.same_as(table) {
                return single(alloc, row.row);
            }
            shown(alloc, ty, value)
        }
        CellValue::RecSet(set) => {
            if set.table.same_as(table) {
                return list_of(alloc, set.rows.as_slice());
            }
            shown(alloc, ty, value)
        }
        CellValue::List(items) => match rows_of(alloc, table, items.as_slice())? {
            Some(rows) => list_of(alloc, &rows),
            None => shown(alloc, ty, value),
        },
        _ => shown(alloc, ty, value),
    }
}

fn row_number(number: i64) -> Option<u32>
    ensures { result ≡ row_number number }
{
    u32::try_from(number).ok()
}

// One row as a list; row 0 is none.
fn single(alloc: Global, row: u32) -> Result<CellValue, AllocError>
    ensures { IfOk result (λ v. v ≡ single_or CellValue.Null (Some row)) }
{
    if row == 0 {
        return Ok(CellValue::Null);
    }
    list_of(alloc, &[row])
}

// Rows as a list; no rows are null.
fn list_of(alloc: Global, rows: &[u32]) -> Result<CellValue, AllocError>
    ensures { IfOk result (λ v. v ≡ list_of_rows rows.now) }
{
    if rows.is_empty() {
        return Ok(CellValue::Null);
    }
    Ok(CellValue::List(items_of(alloc, rows)?))
}

fn items_of(alloc: Global, rows: &[u32]) -> Result<CellList, AllocError>
    ensures { IfOk result (λ l. l ≡ row_items rows.now) }
{
    Ok(CellList::from(numbers(alloc, rows)?))
}

fn numbers(alloc: Global, rows: &[u32]) -> Result<Vec<CellItem>, AllocError>
    ensures { IfOk result (λ v. v.items ≡ row_items rows.now) }
{
    rows.iter()
        .map(|row| CellItem::Int(i64::from(*row)))
        .collect(alloc)
}

// The row of the table that an item names.
fn row_of(table: &Name, item: &CellItem) -> Option<u32>
    ensures { result ≡ row_in table.now item.now }
{
    let row = match item {
        CellItem::Int(number) => row_number(*number)?,
        CellItem::Rec(row) if row.table.same_as(table) => row.row,
        _ => return None,
    };
    if row == 0 { None } else { Some(row) }
}

// The rows that the items name, where each of them names one.
fn rows_of(alloc: Global, table: &Name, items: &[CellItem]) -> Result<Option<Vec<u32>>, AllocError>
    ensures { IfOk result (λ o. option_map (λ v. v.items) o ≡ rows_in table.now items.now) }
{
    let mut rows = Vec::with_capacity(alloc, items.len())?;
    for item in items {
        match row_of(table, item) {
            Some(row) => rows.push(row)?,
            None => return Ok(None),
        }
    }
    Ok(Some(rows))
}
