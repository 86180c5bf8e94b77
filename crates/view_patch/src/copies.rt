//! Copies of tables with their cells.

ghost use Rattle.std.specs.Prelude.{◌≡◌, IfOk};

use cell_types::{RowList, ValueList, copy_of};
use doc_model::{CellRowList, ViewTable};
use list_ops::all_copied;
use plain_view::copies::{head_copy, rows_copy};
use std::alloc::{AllocError, Global};

// Copies of the cells of a row.
fn values_copy(alloc: Global, values: &ValueList) -> Result<ValueList, AllocError>
    ensures { IfOk result (λ l. l ≡ values.now) }
{
    let copies = all_copied(alloc, values.as_slice(), |value| copy_of(value))?;
    Ok(ValueList::from(copies))
}

// Copies of the cells of rows.
fn cells_copy(alloc: Global, cells: &CellRowList) -> Result<CellRowList, AllocError>
    ensures { IfOk result (λ l. l ≡ cells.now) }
{
    let rows = all_copied(alloc, cells.as_slice(), |values| {
        values_copy(alloc, values)
    })?;
    Ok(CellRowList::from(rows))
}

// Copies of a table's rows and cells.
fn body_copy(alloc: Global, table: &ViewTable) -> Result<(RowList, CellRowList), AllocError>
    ensures { IfOk result (λ b. b ≡ (table.now.rows, table.now.cells)) }
{
    let rows = rows_copy(&table.rows)?;
    Ok((rows, cells_copy(alloc, &table.cells)?))
}

/// A copy of a table.
pub(crate) fn table_copy(alloc: Global, table: &ViewTable) -> Result<ViewTable, AllocError>
    ensures { IfOk result (λ t. t ≡ table.now) }
{
    let (id, columns) = head_copy(table)?;
    let (rows, cells) = body_copy(alloc, table)?;
    Ok(ViewTable {
        id,
        columns,
        rows,
        cells,
    })
}

/// Copies of tables.
pub(crate) fn tables_copy(alloc: Global, tables: &[ViewTable]) -> Result<Vec<ViewTable>, AllocError>
    ensures { IfOk result (λ v. v.items ≡ tables.now) }
{
    all_copied(alloc, tables, |table| table_copy(alloc, table))
}
