//! Rows as they were before steps.

ghost use Rattle.std.specs.Prelude.{◌≡◌, ◌++◌, ◌∷◌, [], cond, filter, map, None, Some, unwrap_or, IfOk, MatchOption, OnOk};
ghost use Rattle.doc_model.specs.Column.{column_id};
ghost use Rattle.doc_model.specs.Grid.{cell};
ghost use Rattle.doc_model.specs.LaidOut.{IsLaidOut};
ghost use Rattle.doc_model.specs.Rows.{has};
ghost use Rattle.doc_readers.specs.Parts.{grid_at};
ghost use Rattle.acl_formula.specs.RuleFields.{cell_in};
ghost use Rattle.censored_view.specs.Readable.{row_of};
ghost use Rattle.action_censor.specs.Back.{grid_back};
ghost use Rattle.action_censor.specs.Step.{step_of};
ghost use Rattle.action_censor.specs.ToldCells.{old_cell};
ghost use Rattle.action_censor.specs.TouchedTables.{kept_row, old_row};

use crate::cells_by_row::{cells_of, told_cells};
use crate::steps::StepTrace;
use crate::there_before::{there_before, was_there};
use acl_formula::{AttributeRow, NamedCell, NamedCellList};
use cell_types::{CellValue, Name, copy_of};
use doc_model::{ColDef, DocReader};
use doc_readers::{cell_in, holds_row, rows_in};
use std::alloc::{AllocError, Global};

// The first of these cells that is of the column.
fn find_told<'a>(told: &'a [NamedCell], column: &Name) -> Option<&'a CellValue>
    ensures { MatchOption result (cell_in told.now column.now ≡ None)
        (λ value. cell_in told.now column.now ≡ Some value.now) }
{
    for cell in told {
        if cell.column.as_str() == column.as_str() {
            return Some(&cell.value);
        }
    }
    None
}

// What a row held in a column: what these cells of the row tell, or else what it holds now.
fn old_value<D: DocReader>(
    tables: &D,
    told: &[NamedCell],
    table: &Name,
    column: &Name,
    row: u32,
) -> Result<CellValue, AllocError>
    ensures { IfOk result (λ v. v ≡ unwrap_or (cell_in told.now column.now)
        (cell column_id (grid_at (D.document tables.now) table.now) column.now row)) }
{
    match find_told(told, column) {
        Some(value) => copy_of(value),
        None => cell_in(tables, table, column, row),
    }
}

fn old_cell<D: DocReader>(
    tables: &D,
    told: &[NamedCell],
    table: &Name,
    column: &ColDef,
    row: u32,
) -> Result<NamedCell, AllocError>
    ensures { IfOk result (λ c. c ≡ old_cell told.now
        (grid_at (D.document tables.now) table.now) row column.now) }
{
    let value = old_value(tables, told, table, &column.id, row)?;
    let column = column.id.clone()?;
    Ok(NamedCell { column, value })
}

// All cells of a row as they were.
fn old_cells<D: DocReader>(
    alloc: Global,
    tables: &D,
    told: &[NamedCell],
    table: &Name,
    row: u32,
) -> Result<NamedCellList, AllocError>
    ensures { IfOk result (λ l. l ≡ map (old_cell told.now
        (grid_at (D.document tables.now) table.now) row)
        (grid_at (D.document tables.now) table.now).columns) }
{
    let mut cells = NamedCellList::new(alloc);
    let mut index = 0;
    while let Some(column) = tables.column(table, index) {
        cells.push(old_cell(tables, told, table, column, row)?)?;
        index += 1;
    }
    Ok(cells)
}

// Adds a row as it was, where it was there.
fn add_old_row<D: DocReader>(
    alloc: Global,
    tables: &D,
    was_there: bool,
    told: &[NamedCell],
    table: &Name,
    row: u32,
    rows: &mut Vec<AttributeRow>,
) -> Result<(), AllocError>
    ensures rows { OnOk result (map kept_row rows.new.items ≡ map kept_row rows.old.items
        ++ cond was_there (old_row told.now (grid_at (D.document tables.now) table.now) row ∷ [])
        []) }
{
    if !was_there {
        return Ok(());
    }
    let cells = old_cells(alloc, tables, told, table, row)?;
    rows.push(AttributeRow { row, cells })?;
    Ok(())
}

/// Those of the rows that were there before the steps, as they were.
///
/// Errors: out of memory. Cost: the steps' cells and the rows that their actions add and remove;
/// for each row its cells, and the logarithm of the table's rows.
pub(crate) fn old_rows<D: DocReader>(
    alloc: Global,
    tables: &D,
    steps: &[StepTrace<'_>],
    table: &Name,
    touched: &[u32],
) -> Result<Vec<AttributeRow>, AllocError>
    requires laid_out { IsLaidOut (D.document tables.now) }
    ensures { IfOk result (λ l. map kept_row l.items ≡ map
        (row_of (grid_back (map step_of steps.now) table.now
        (grid_at (D.document tables.now) table.now)))
        (filter (has (grid_back (map step_of steps.now) table.now
        (grid_at (D.document tables.now) table.now)).rows) touched.now)) }
{
    let told = told_cells(alloc, steps, table)?;
    let before = there_before(alloc, steps, table)?;
    let mut rows = Vec::new(alloc);
    for row in touched {
        let is_there = holds_row(rows_in(tables, table), *row);
        let there = was_there(&before, *row, is_there);
        let cells = cells_of(&told, *row);
        add_old_row(alloc, tables, there, cells, table, *row, &mut rows)?;
    }
    Ok(rows)
}
