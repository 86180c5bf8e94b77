//! Cells noted in changes, one after another.

ghost use Rattle.std.specs.Prelude.{◌≡◌, [], ◌∷◌, cond, map, OnOk};
ghost use Rattle.std.specs.List.{flat_map};
ghost use Rattle.recalc.specs.Cells.{cell_of};
ghost use Rattle.action_censor.specs.Step.{step_of};
ghost use Rattle.shot_changes.specs.NotedCells.{Adds, added_cells, column_cells, lost_cell, row_cells, step_cells};

use action_censor::StepTrace;
use cell_types::{CellId, CellOld, Name, copy_of};
use doc_model::{ColDef, DocAction, DocReader};
use shot_cells::{CellChanges, is_formula};
use std::alloc::AllocError;

// Notes what a cell holds, or that it is gone.
fn note_cell<E: DocReader>(
    evaluated: &E,
    table: &Name,
    column: &Name,
    row: u32,
    changes: &mut CellChanges,
) -> Result<(), AllocError>
    ensures { OnOk result (Adds (E.document evaluated.now)
        (cell_of table.now column.now row ∷ []) changes.old changes.new) }
{
    let table_id = table.clone()?;
    let column_id = column.clone()?;
    let cell = CellId {
        table: table_id,
        column: column_id,
        row,
    };
    match evaluated.cell(table, column, row) {
        Some(value) => {
            changes.values.push(copy_of(value)?)?;
            changes.cells.push(cell)?;
        }
        None => changes.gone.push(cell)?,
    }
    Ok(())
}

// Notes the cells of a column.
fn note_cells<E: DocReader>(
    evaluated: &E,
    table: &Name,
    column: &Name,
    rows: &[u32],
    changes: &mut CellChanges,
) -> Result<(), AllocError>
    ensures { OnOk result (Adds (E.document evaluated.now)
        (map (cell_of table.now column.now) rows.now) changes.old changes.new) }
{
    for row in rows {
        note_cell(evaluated, table, column, *row, changes)?;
    }
    Ok(())
}

// The same where the column has a formula.
fn note_column<E: DocReader>(
    evaluated: &E,
    table: &Name,
    column: &ColDef,
    rows: &[u32],
    changes: &mut CellChanges,
) -> Result<(), AllocError>
    ensures { OnOk result (Adds (E.document evaluated.now)
        (column_cells table.now rows.now column.now) changes.old changes.new) }
{
    if !column.info.is_formula {
        return Ok(());
    }
    note_cells(evaluated, table, &column.id, rows, changes)
}

/// Notes the formula cells of a table in these rows.
///
/// Errors: out of memory. Cost: the columns of the table, and the cells that are noted.
pub(crate) fn note_rows<E: DocReader>(
    evaluated: &E,
    table: &Name,
    rows: &[u32],
    changes: &mut CellChanges,
) -> Result<(), AllocError>
    ensures { OnOk result (Adds (E.document evaluated.now)
        (row_cells (E.document evaluated.now) table.now rows.now) changes.old changes.new) }
{
    let mut index = 0;
    while let Some(column) = evaluated.column(table, index) {
        note_column(evaluated, table, column, rows, changes)?;
        index += 1;
    }
    Ok(())
}

// Notes the formula cells of rows that an action adds.
fn note_added<E: DocReader>(
    evaluated: &E,
    action: &DocAction,
    changes: &mut CellChanges,
) -> Result<(), AllocError>
    ensures { OnOk result (Adds (E.document evaluated.now)
        (added_cells (E.document evaluated.now) action.now) changes.old changes.new) }
{
    match action {
        DocAction::BulkAdd { table, rows, .. } => {
            note_rows(evaluated, table, rows.as_slice(), changes)
        }
        _ => Ok(()),
    }
}

// Notes a cell that a step lost, where its column has a formula.
fn note_lost_cell<E: DocReader>(
    evaluated: &E,
    lost: &CellOld,
    changes: &mut CellChanges,
) -> Result<(), AllocError>
    ensures { OnOk result (Adds (E.document evaluated.now)
        (lost_cell (E.document evaluated.now) lost.now) changes.old changes.new) }
{
    let cell = &lost.cell;
    if !is_formula(evaluated, &cell.table, &cell.column) {
        return Ok(());
    }
    note_cell(evaluated, &cell.table, &cell.column, cell.row, changes)
}

fn note_lost<E: DocReader>(
    evaluated: &E,
    lost: &[CellOld],
    changes: &mut CellChanges,
) -> Result<(), AllocError>
    ensures { OnOk result (Adds (E.document evaluated.now)
        (flat_map (lost_cell (E.document evaluated.now)) lost.now) changes.old changes.new) }
{
    for cell in lost {
        note_lost_cell(evaluated, cell, changes)?;
    }
    Ok(())
}

// Notes the formula cells that a step tells of.
fn note_step<E: DocReader>(
    evaluated: &E,
    step: &StepTrace<'_>,
    changes: &mut CellChanges,
) -> Result<(), AllocError>
    ensures { OnOk result (Adds (E.document evaluated.now)
        (step_cells (E.document evaluated.now) (step_of step.now)) changes.old changes.new) }
{
    note_added(evaluated, step.action, changes)?;
    note_lost(evaluated, step.cells, changes)
}

/// Notes the formula cells that steps tell of.
///
/// Errors: out of memory. Cost: the cells that the steps lost, each with its table's columns, and
/// the formula cells of the rows that they added.
pub(crate) fn note_steps<E: DocReader>(
    evaluated: &E,
    steps: &[StepTrace<'_>],
    changes: &mut CellChanges,
) -> Result<(), AllocError>
    ensures { OnOk result (Adds (E.document evaluated.now)
        (flat_map (step_cells (E.document evaluated.now)) (map step_of steps.now))
        changes.old changes.new) }
{
    for step in steps {
        note_step(evaluated, step, changes)?;
    }
    Ok(())
}
