//! The steps that clear references to rows that go.

ghost use Rattle.std.specs.Prelude.{◌≡◌, ◌++◌, not, filter, IfOk};
ghost use Rattle.std.specs.List.{list_all, list_any};
ghost use Rattle.doc_model.specs.DocumentLaws.{IsWhole};
ghost use Rattle.doc_model.specs.Rows.{without};
ghost use Rattle.doc_readers.specs.Parts.{grid_at};
ghost use Rattle.user_actions.specs.CellUpdates.{update_changed};
ghost use Rattle.user_actions.specs.Given.{is_row};
ghost use Rattle.user_actions.specs.References.{cleared, cleared_list, cleared_reference, clearings, is_gone, is_row_item, list_or_null, name_gone, rows_staying};

use crate::cell_updates::add_update;
use crate::gone_rows::GoneRows;
use crate::referrers::Referrer;
use crate::rows::row_number;
use cell_types::{CellItem, CellList, CellValue, ColType, Name, copy_of};
use doc_model::{DocTables, StepList};
use doc_readers::rows_in;
use std::alloc::{AllocError, Global};

fn is_row_gone(gone: &GoneRows, number: i64) -> bool
    ensures { result ≡ is_row gone.now number }
{
    match row_number(number) {
        Some(row) => gone.has(row),
        None => false,
    }
}

// Whether the item is a row number from 1.
fn is_row_item(item: &CellItem) -> bool
    ensures { result ≡ is_row_item item.now }
{
    match item {
        CellItem::Int(number) => match row_number(*number) {
            Some(row) => 0 < row,
            None => false,
        },
        _ => false,
    }
}

fn is_gone(gone: &GoneRows, item: &CellItem) -> bool
    ensures { result ≡ is_gone gone.now item.now }
{
    match item {
        CellItem::Int(number) => is_row_gone(gone, *number),
        _ => false,
    }
}

fn are_row_items(items: &[CellItem]) -> bool
    ensures { result ≡ list_all is_row_item items.now }
{
    items.iter().all(|item| is_row_item(item))
}

fn is_any_gone(gone: &GoneRows, items: &[CellItem]) -> bool
    ensures { result ≡ list_any (is_gone gone.now) items.now }
{
    items.iter().any(|item| is_gone(gone, item))
}

// Whether the items are row numbers from 1, and one of them goes.
fn name_gone(gone: &GoneRows, items: &[CellItem]) -> bool
    ensures { result ≡ name_gone gone.now items.now }
{
    are_row_items(items) && is_any_gone(gone, items)
}

// The items that are no row that goes.
fn items_left(alloc: Global, gone: &GoneRows, items: &[CellItem]) -> Result<CellList, AllocError>
    ensures { IfOk result (λ l. l ≡ filter (λ i. not (is_gone gone.now i)) items.now) }
{
    let mut left = Vec::new(alloc);
    for item in items {
        if !is_gone(gone, item) {
            left.push(item.clone()?)?;
        }
    }
    Ok(CellList::from(left))
}

// The items as a list, null where there is none.
fn list_or_null(items: CellList) -> CellValue
    ensures { result ≡ list_or_null items }
{
    if items.is_empty() {
        return CellValue::Null;
    }
    CellValue::List(items)
}

fn cleared_reference(gone: &GoneRows, value: &CellValue) -> Result<CellValue, AllocError>
    ensures { IfOk result (λ v. v ≡ cleared_reference gone.now value.now) }
{
    match value {
        CellValue::Int(number) if is_row_gone(gone, *number) => Ok(CellValue::Int(0)),
        _ => copy_of(value),
    }
}

fn cleared_list(alloc: Global, gone: &GoneRows, value: &CellValue) -> Result<CellValue, AllocError>
    ensures { IfOk result (λ v. v ≡ cleared_list gone.now value.now) }
{
    match value {
        CellValue::List(items) if name_gone(gone, items.as_slice()) => {
            Ok(list_or_null(items_left(alloc, gone, items.as_slice())?))
        }
        _ => copy_of(value),
    }
}

// The cell of a column of the type without the rows that go.
fn cleared(
    alloc: Global,
    gone: &GoneRows,
    ty: &ColType,
    value: &CellValue,
) -> Result<CellValue, AllocError>
    ensures { IfOk result (λ v. v ≡ cleared gone.now ty.now value.now) }
{
    match ty {
        ColType::Ref(_) => cleared_reference(gone, value),
        ColType::RefList(_) => cleared_list(alloc, gone, value),
        _ => copy_of(value),
    }
}

// The rows without those that go.
fn rows_without(alloc: Global, gone: &GoneRows, rows: &[u32]) -> Result<Vec<u32>, AllocError>
    ensures { IfOk result (λ v. v.items ≡ without gone.now rows.now) }
{
    let mut left = Vec::new(alloc);
    for row in rows {
        if !gone.has(*row) {
            left.push(*row)?;
        }
    }
    Ok(left)
}

// The rows of a table that stay where rows of one table go.
fn rows_staying<D: DocTables>(
    alloc: Global,
    tables: &D,
    table: &Name,
    gone: &GoneRows,
    id: &Name,
) -> Result<Vec<u32>, AllocError>
    requires { IsWhole (D.document tables.now) }
    ensures { IfOk result
        (λ v. v.items ≡ rows_staying (D.document tables.now) table.now gone.now id.now) }
{
    let rows = rows_in(tables, id);
    if id.as_str() == table.as_str() {
        return rows_without(alloc, gone, rows);
    }
    Vec::from_slice(alloc, rows)
}

// Adds the update that clears a column, where it clears a cell.
fn add_clearing<D: DocTables>(
    alloc: Global,
    tables: &D,
    table: &Name,
    gone: &GoneRows,
    one: &Referrer,
    steps: &mut StepList,
) -> Result<(), AllocError>
    requires { IsWhole (D.document tables.now) }
    ensures { IfOk result
        (λ _. steps.new
        ≡ steps.old ++ update_changed one.now.table
        (grid_at (D.document tables.now) one.now.table) one.now.column.id
        (cleared gone.now one.now.column.info.ty)
        (rows_staying (D.document tables.now) table.now gone.now one.now.table)) }
{
    let rows = rows_staying(alloc, tables, table, gone, &one.table)?;
    let ty = &one.column.info.ty;
    add_update(
        alloc,
        tables,
        &one.table,
        &one.column.id,
        &rows,
        |value| cleared(alloc, gone, ty, value),
        steps,
    )
}

/// Adds the updates that clear columns of the rows that go from a table.
pub(crate) fn add_clearings<D: DocTables>(
    alloc: Global,
    tables: &D,
    table: &Name,
    gone: &GoneRows,
    referrers: &[Referrer],
    steps: &mut StepList,
) -> Result<(), AllocError>
    requires { IsWhole (D.document tables.now) }
    ensures { IfOk result
        (λ _. steps.new
        ≡ steps.old ++ clearings (D.document tables.now) table.now gone.now referrers.now) }
{
    for one in referrers {
        add_clearing(alloc, tables, table, gone, one, steps)?;
    }
    Ok(())
}
