//! The rows that attributes find.

ghost use Rattle.std.specs.Prelude.{◌≡◌, IfOk, option_copied};
ghost use Rattle.user_attrs.specs.UserInfos.{cell_of, cells_of, first_with, found_in, holds, kept_row, property_value, row_with};

use crate::attribute_rule::{AttributeRule, UserProperty};
use acl_formula::{AttributeRow, NamedCell, NamedCellList};
use cell_types::{CellValue, Name};
use doc_model::{ColDef, DocReader, User};
use doc_readers::{cell_in, rows_in};
use std::alloc::{AllocError, Global};
use value_ops::equal;

// A property of a user as a value.
fn property_value(user: &User, property: UserProperty) -> Result<CellValue, AllocError>
    ensures { IfOk result (λ v. v ≡ property_value user.now property) }
{
    match property {
        UserProperty::Email => Ok(CellValue::Text(user.email.clone()?)),
        UserProperty::Name => Ok(CellValue::Text(user.name.clone()?)),
        UserProperty::UserId => Ok(CellValue::Int(user.id)),
    }
}

// Whether a cell is there and equals the value.
fn holds(value: &CellValue, cell: Option<&CellValue>) -> bool
    ensures { result ≡ holds value.now (option_copied cell.entry) }
{
    match cell {
        Some(cell) => equal(cell, value),
        None => false,
    }
}

// The first of these rows whose cell in the column equals the value.
fn first_with<C: DocReader>(
    doc: &C,
    table: &Name,
    column: &Name,
    value: &CellValue,
    rows: &[u32],
) -> Option<u32>
    ensures { result ≡ first_with (C.document doc.now) table.now column.now value.now rows.now }
{
    for row in rows {
        if holds(value, doc.cell(table, column, *row)) {
            return Some(*row);
        }
    }
    None
}

fn row_with<C: DocReader>(doc: &C, table: &Name, column: &Name, value: &CellValue) -> Option<u32>
    ensures { result ≡ row_with (C.document doc.now) table.now column.now value.now }
{
    first_with(doc, table, column, value, rows_in(doc, table))
}

// The cell of a column in a row, beside the column's id.
fn cell_of<C: DocReader>(
    doc: &C,
    table: &Name,
    row: u32,
    column: &ColDef,
) -> Result<NamedCell, AllocError>
    ensures { IfOk result (λ c. c ≡ cell_of (C.document doc.now) table.now row column.now) }
{
    let id = column.id.clone()?;
    match cell_in(doc, table, &column.id, row) {
        Ok(value) => Ok(NamedCell { column: id, value }),
        Err(error) => {
            drop(id);
            Err(error)
        }
    }
}

// All cells of a row, in the order of the columns.
fn cells_of<C: DocReader>(
    alloc: Global,
    doc: &C,
    table: &Name,
    row: u32,
) -> Result<NamedCellList, AllocError>
    ensures { IfOk result (λ cells. cells ≡ cells_of (C.document doc.now) table.now row) }
{
    let mut cells = NamedCellList::new(alloc);
    let mut index = 0;
    while let Some(column) = doc.column(table, index) {
        cells.push(cell_of(doc, table, row, column)?)?;
        index += 1;
    }
    Ok(cells)
}

fn kept_row<C: DocReader>(
    alloc: Global,
    doc: &C,
    table: &Name,
    row: Option<u32>,
) -> Result<Option<AttributeRow>, AllocError>
    ensures { IfOk result (λ o. o ≡ kept_row (C.document doc.now) table.now row) }
{
    let Some(row) = row else {
        return Ok(None);
    };
    let cells = cells_of(alloc, doc, table, row)?;
    Ok(Some(AttributeRow { row, cells }))
}

/// The row that an attribute finds for a user, with its cells.
///
/// Errors: out of memory.
pub(crate) fn found_in<C: DocReader>(
    alloc: Global,
    doc: &C,
    user: &User,
    attribute: &AttributeRule,
) -> Result<Option<AttributeRow>, AllocError>
    ensures { IfOk result (λ o. o ≡ found_in (C.document doc.now) user.now attribute.now) }
{
    let value = property_value(user, attribute.property)?;
    let row = row_with(doc, &attribute.table, &attribute.column, &value);
    kept_row(alloc, doc, &attribute.table, row)
}
