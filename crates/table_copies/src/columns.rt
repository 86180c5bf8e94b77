//! Copies of the columns of a table.

ghost use Rattle.std.specs.Prelude.{◌≡◌, map, unwrap_or, IfOk};
ghost use Rattle.std.specs.Option.{option_copied};
ghost use Rattle.cell_types.specs.declared.value.CellValue.TheVariants.{Null};
ghost use Rattle.doc_model.specs.declared.column.ColDef.{ColDef};
ghost use Rattle.doc_model.specs.Column.{column_id};
ghost use Rattle.doc_model.specs.Grid.{cell};
ghost use Rattle.doc_readers.specs.Parts.{grid_at};
ghost use Rattle.table_copies.specs.declared.columns.CopiedColumn.{CopiedColumn};

use cell_types::{CellValue, Name, copy_of};
use doc_model::{ColDef, DocReader};
use list_ops::all_made;
use std::alloc::{AllocError, Global};

/// A column, and its cells beside the rows of the table.
#[derive(Drop)]
pub struct CopiedColumn {
    pub(crate) column: ColDef,
    pub(crate) cells: Vec<CellValue>,
}

// A copy of a cell, null where there is none.
fn copied_cell(cell: Option<&CellValue>) -> Result<CellValue, AllocError>
    ensures { IfOk result (λ v. v ≡ unwrap_or (option_copied cell.entry) Null) }
{
    match cell {
        Some(value) => copy_of(value),
        None => Ok(CellValue::Null),
    }
}

// Copies of the cells of a column in these rows.
fn copied_cells<D: DocReader>(
    alloc: Global,
    tables: &D,
    table: &Name,
    column: &Name,
    rows: &[u32],
) -> Result<Vec<CellValue>, AllocError>
    ensures { IfOk result (λ cells. cells.items
        ≡ map (cell column_id (grid_at (D.document tables.now) table.now) column.now) rows.now) }
{
    let told = tables.cells(alloc, table, column, rows)?;
    all_made(alloc, told.as_slice(), |cell| copied_cell(*cell))
}

// A copy of a column with its cells in these rows.
fn copied_column<D: DocReader>(
    alloc: Global,
    tables: &D,
    table: &Name,
    column: &ColDef,
    rows: &[u32],
) -> Result<CopiedColumn, AllocError>
    ensures column { IfOk result (λ c. c.column ≡ column.now) }
    ensures cells { IfOk result (λ c. c.cells.items ≡ map (cell column_id
        (grid_at (D.document tables.now) table.now) (column_id column.now)) rows.now) }
{
    let cells = copied_cells(alloc, tables, table, &column.id, rows)?;
    let column = column.clone()?;
    Ok(CopiedColumn { column, cells })
}

/// Copies of all columns of a table, with their cells in these rows.
///
/// Errors: out of memory.
pub(crate) fn copied_columns<D: DocReader>(
    alloc: Global,
    tables: &D,
    table: &Name,
    rows: &[u32],
) -> Result<Vec<CopiedColumn>, AllocError>
    ensures columns { IfOk result (λ l. map (λ (c : CopiedColumn). c.column) l.items
        ≡ (grid_at (D.document tables.now) table.now).columns) }
    ensures cells { IfOk result (λ l. map (λ (c : CopiedColumn). c.cells.items) l.items
        ≡ map (λ (d : ColDef). map (cell column_id (grid_at (D.document tables.now) table.now)
        (column_id d)) rows.now) (grid_at (D.document tables.now) table.now).columns) }
{
    let mut columns = Vec::new(alloc);
    let mut index = 0;
    while let Some(column) = tables.column(table, index) {
        columns.push(copied_column(alloc, tables, table, column, rows)?)?;
        index += 1;
    }
    Ok(columns)
}
