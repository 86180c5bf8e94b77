//! The cells that an inverse gives back.

ghost use Rattle.std.specs.Prelude.{◌≡◌, IfOk};
ghost use Rattle.action_inverse.specs.Parts.{cells_in, data_cells, old_cells};
ghost use Rattle.doc_readers.specs.Parts.{grid_at};

use crate::order::by_id;
use cell_types::{Name, ValueList};
use doc_model::{CellColumn, ColDef, ColumnList, DocTables};
use doc_readers::cell_in;
use list_ops::all_made;
use std::alloc::{AllocError, Global};

/// The cells of a column in these rows.
pub(crate) fn column_cells<D: DocTables>(
    alloc: Global,
    tables: &D,
    table: &Name,
    column: &Name,
    rows: &[u32],
) -> Result<CellColumn, AllocError>
    ensures { IfOk result (λ k.
        k ≡ cells_in (D.document tables.now) table.now rows.now column.now) }
{
    let values = all_made(alloc, rows, |row| cell_in(tables, table, column, *row))?;
    let id = column.clone()?;
    let values = ValueList::from(values);
    Ok(CellColumn { id, values })
}

/// The cells that stand where an update of these columns writes.
pub(crate) fn old_columns<D: DocTables>(
    alloc: Global,
    tables: &D,
    table: &Name,
    rows: &[u32],
    columns: &[CellColumn],
) -> Result<ColumnList, AllocError>
    ensures { IfOk result (λ l.
        l ≡ old_cells (D.document tables.now) table.now rows.now columns.now) }
{
    let old = all_made(alloc, columns, |column| {
        column_cells(alloc, tables, table, &column.id, rows)
    })?;
    Ok(ColumnList::from(by_id(alloc, old)?))
}

/// The cells of the data columns in these rows; `columns` are those of the table.
pub(crate) fn data_columns<D: DocTables>(
    alloc: Global,
    tables: &D,
    table: &Name,
    columns: &[ColDef],
    rows: &[u32],
) -> Result<ColumnList, AllocError>
    requires { columns.now ≡ (grid_at (D.document tables.now) table.now).columns }
    ensures { IfOk result (λ l. l ≡ data_cells (D.document tables.now) table.now rows.now) }
{
    let mut data = Vec::with_capacity(alloc, columns.len())?;
    for column in columns {
        if !column.info.is_formula {
            data.push(column_cells(alloc, tables, table, &column.id, rows)?)?;
        }
    }
    Ok(ColumnList::from(by_id(alloc, data)?))
}
