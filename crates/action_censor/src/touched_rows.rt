//! The rows of a table that steps are about.

ghost use Rattle.std.specs.Prelude.{◌≡◌, ◌++◌, ℕ, map, IfOk, OnOk};
ghost use Rattle.doc_model.specs.Rows.{IsAscending, has};
ghost use Rattle.doc_model.specs.Touched.{names_table};
ghost use Rattle.action_censor.specs.Step.{step_of};
ghost use Rattle.action_censor.specs.Touched.{cell_rows, rows_in, rows_named, rows_told};

use crate::steps::StepTrace;
use cell_types::{CellOld, Name};
use censored_view::once_in_order;
use doc_model::DocAction;
use std::alloc::{AllocError, Global};

fn names_table(action: &DocAction, id: &Name) -> bool
    ensures { result ≡ names_table action.now id.now }
{
    match action {
        DocAction::BulkAdd { table, .. }
        | DocAction::BulkUpdate { table, .. }
        | DocAction::BulkRemove { table, .. }
        | DocAction::AddTable { table, .. }
        | DocAction::RemoveTable { table }
        | DocAction::AddColumn { table, .. }
        | DocAction::RemoveColumn { table, .. }
        | DocAction::RenameColumn { table, .. }
        | DocAction::ModifyColumn { table, .. } => table.as_str() == id.as_str(),
        DocAction::RenameTable { table, new } => {
            table.as_str() == id.as_str() || new.as_str() == id.as_str()
        }
    }
}

// The rows that a record action names.
fn rows_named(action: &DocAction) -> &[u32]
    ensures { result.now ≡ rows_named action.now }
{
    match action {
        DocAction::BulkAdd { rows, .. }
        | DocAction::BulkUpdate { rows, .. }
        | DocAction::BulkRemove { rows, .. } => rows.as_slice(),
        _ => &[],
    }
}

fn add_cell_rows(cells: &[CellOld], id: &Name, rows: &mut Vec<u32>) -> Result<(), AllocError>
    ensures { OnOk result (rows.new.items ≡ rows.old.items ++ cell_rows cells.now id.now) }
{
    for old in cells {
        if old.cell.table.as_str() == id.as_str() {
            rows.push(old.cell.row)?;
        }
    }
    Ok(())
}

fn add_rows(step: &StepTrace<'_>, id: &Name, rows: &mut Vec<u32>) -> Result<(), AllocError>
    ensures { OnOk result (rows.new.items ≡ rows.old.items ++ rows_in (step_of step.now) id.now) }
{
    if names_table(step.action, id) {
        rows.extend_from_slice(rows_named(step.action))?;
    }
    add_cell_rows(step.cells, id, rows)
}

// The rows of the table that steps are about, in the order of the steps.
fn rows_told(alloc: Global, steps: &[StepTrace<'_>], id: &Name) -> Result<Vec<u32>, AllocError>
    ensures { IfOk result (λ l. l.items ≡ rows_told (map step_of steps.now) id.now) }
{
    let mut rows = Vec::new(alloc);
    for step in steps {
        add_rows(step, id, &mut rows)?;
    }
    Ok(rows)
}

/// The rows of the table that steps are about, in ascending order and once.
///
/// Errors: out of memory. Cost: the rows of the steps' actions and cells, and sorting them.
pub(crate) fn rows_touched(
    alloc: Global,
    steps: &[StepTrace<'_>],
    id: &Name,
) -> Result<Vec<u32>, AllocError>
    ensures ascending { IfOk result (λ l. IsAscending l.items) }
    ensures same { IfOk result
        (λ l. (q : ℕ) → has l.items q ≡ has (rows_told (map step_of steps.now) id.now) q) }
{
    let told = rows_told(alloc, steps, id)?;
    let touched = once_in_order(told)?;
    Ok(touched)
}
