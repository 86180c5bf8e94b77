//! The formula cells of rows.

ghost use Rattle.std.specs.Prelude.{◌≡◌, ◌&&◌, ◌++◌, true, false, map, reverse, OnOk};
ghost use Rattle.std.specs.Str.{bytes_eq};
ghost use Rattle.cell_types.specs.declared.cell.CellId.{CellId};
ghost use Rattle.doc_model.specs.Rows.{has};
ghost use Rattle.doc_readers.specs.Parts.{grid_at};
ghost use Rattle.recalc.specs.Cells.{cell_of};
ghost use Rattle.recalc.specs.Stack.{on};
ghost use Rattle.affected_values.specs.Carried.{HasCellsOf, HasCellsOfColumn, HasCellsWith};

use cell_types::{CellId, Name};
use doc_model::{ColDef, DocTables};
use recalc::cell_id;
use std::alloc::AllocError;

// Puts the cells of a column in these rows last, the last row first: whoever takes cells from the
// end takes them in the order of their rows.
fn push_column_cells(
    table: &Name,
    column: &Name,
    rows: &[u32],
    cells: &mut Vec<CellId>,
) -> Result<(), AllocError>
    ensures { OnOk result (cells.new.items
        ≡ cells.old.items ++ map (cell_of table.now column.now) (reverse rows.now)) }
{
    let mut index = rows.len();
    while index > 0 {
        index -= 1;
        cells.push(cell_id(table, column, rows[index])?)?;
    }
    Ok(())
}

/// Puts the cells of a column in these rows last, the last row first, where it is a formula column.
pub(crate) fn push_where(
    table: &Name,
    column: &ColDef,
    rows: &[u32],
    cells: &mut Vec<CellId>,
) -> Result<(), AllocError>
    ensures stays { OnOk result
        ((c : CellId) → on cells.old.items c ≡ true → on cells.new.items c ≡ true) }
    ensures pushed { OnOk result (HasCellsOfColumn table.now rows.now cells.new.items column.now) }
    ensures only { OnOk result
        ((c : CellId) → on cells.new.items c ≡ true → on cells.old.items c ≡ false
        → (bytes_eq c.table table.now && bytes_eq c.column column.now.id) ≡ true) }
    ensures rows { OnOk result
        ((c : CellId) → on cells.new.items c ≡ true → on cells.old.items c ≡ false
        → has rows.now c.row ≡ true) }
{
    if !column.info.is_formula {
        return Ok(());
    }
    push_column_cells(table, &column.id, rows, cells)
}

/// Puts the cells of the formula columns of a table in these rows last, and no others, whether the
/// rows are there or not: of each column the last row first.
///
/// Errors: out of memory; some are then there. Memory: the cells.
/// Cost: linear in the columns of the table and in the cells.
pub fn push_row_cells<D: DocTables>(
    tables: &D,
    table: &Name,
    rows: &[u32],
    cells: &mut Vec<CellId>,
) -> Result<(), AllocError>
    ensures stays { OnOk result
        ((c : CellId) → on cells.old.items c ≡ true → on cells.new.items c ≡ true) }
    ensures pushed { OnOk result
        (HasCellsOf (D.document tables.now) table.now rows.now cells.new.items) }
    ensures alike { OnOk result
        (HasCellsWith (grid_at (D.document tables.now) table.now).columns table.now rows.now
        cells.new.items) }
    ensures only { OnOk result
        ((c : CellId) → on cells.new.items c ≡ true → on cells.old.items c ≡ false
        → bytes_eq c.table table.now ≡ true) }
    ensures rows { OnOk result
        ((c : CellId) → on cells.new.items c ≡ true → on cells.old.items c ≡ false
        → has rows.now c.row ≡ true) }
{
    let mut index = 0;
    while let Some(column) = tables.column(table, index) {
        push_where(table, column, rows, cells)?;
        index += 1;
    }
    Ok(())
}
