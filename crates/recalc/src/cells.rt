//! Cells with what they hold, and those of them that an action changed.

ghost use Rattle.std.specs.Prelude.{◌≡◌, ◌++◌, filter, IfOk, OnOk};
ghost use Rattle.doc_model.specs.Column.{column_id};
ghost use Rattle.doc_model.specs.Grid.{cell};
ghost use Rattle.doc_model.specs.Same.{same_value};
ghost use Rattle.doc_readers.specs.Parts.{grid_at};
ghost use Rattle.recalc.specs.Cells.{cell_of};
ghost use Rattle.recalc.specs.Lost.{cells_at, column_after, is_lost, table_after};
ghost use Rattle.recalc.specs.Sheet.{row_of};

use cell_types::{CellId, CellOld, CellValue, Name, RowRef, Same};
use doc_model::{DocAction, DocReader};
use doc_readers::cell_in;
use std::alloc::AllocError;

/// The cell of these names and this row.
pub fn cell_id(table: &Name, column: &Name, row: u32) -> Result<CellId, AllocError>
    ensures { IfOk result (λ c. c ≡ cell_of table.now column.now row) }
{
    Ok(CellId {
        table: table.clone()?,
        column: column.clone()?,
        row,
    })
}

/// The row in which a cell stands.
pub fn row_of(cell: &CellId) -> Result<RowRef, AllocError>
    ensures { IfOk result (λ at. at ≡ row_of cell.now) }
{
    Ok(RowRef {
        table: cell.table.clone()?,
        row: cell.row,
    })
}

// The cell with what it holds.
fn cell_old<R: DocReader>(
    doc: &R,
    table: &Name,
    column: &Name,
    row: u32,
) -> Result<CellOld, AllocError>
    ensures { IfOk result (λ o. o ≡ record {
      cell = cell_of table.now column.now row;
      old = cell column_id (grid_at (R.document doc.now) table.now) column.now row;
    }) }
{
    let old = cell_in(doc, table, column, row)?;
    let cell = cell_id(table, column, row)?;
    Ok(CellOld { cell, old })
}

/// The cells of a column in these rows.
pub fn push_cells<R: DocReader>(
    doc: &R,
    table: &Name,
    column: &Name,
    rows: &[u32],
    cells: &mut Vec<CellOld>,
) -> Result<(), AllocError>
    ensures { OnOk result (cells.new.items ≡ cells.old.items
        ++ cells_at table.now (grid_at (R.document doc.now) table.now) column.now rows.now) }
{
    for row in rows {
        cells.push(cell_old(doc, table, column, *row)?)?;
    }
    Ok(())
}

fn table_after<'a>(action: &'a DocAction, table: &'a Name) -> &'a Name
    ensures { result.now ≡ table_after action.now table.now }
{
    if let DocAction::RenameTable { table: old, new } = action {
        if table.as_str() == old.as_str() {
            return new;
        }
    }
    table
}

fn column_after<'a>(action: &'a DocAction, table: &Name, column: &'a Name) -> &'a Name
    ensures { result.now ≡ column_after action.now table.now column.now }
{
    if let DocAction::RenameColumn {
        table: of,
        column: old,
        new,
    } = action
    {
        if table.as_str() == of.as_str() && column.as_str() == old.as_str() {
            return new;
        }
    }
    column
}

fn is_same_value(left: &CellValue, right: &CellValue) -> bool
    ensures { result ≡ same_value left.now right.now }
{
    left.same_as(right)
}

fn is_lost<R: DocReader>(doc: &R, action: &DocAction, cell: &CellOld) -> bool
    ensures { result ≡ is_lost (R.document doc.now) action.now cell.now }
{
    let table = table_after(action, &cell.cell.table);
    let column = column_after(action, &cell.cell.table, &cell.cell.column);
    match doc.cell(table, column, cell.cell.row) {
        Some(new) => !is_same_value(&cell.old, new),
        None => true,
    }
}

/// Keeps of the cells before an action those that differ after it or are gone.
pub fn keep_lost<R: DocReader>(doc: &R, action: &DocAction, cells: &mut Vec<CellOld>)
    ensures { cells.new.items ≡ filter (is_lost (R.document doc.now) action.now) cells.old.items }
{
    cells.retain(|cell| is_lost(doc, action, cell));
}
