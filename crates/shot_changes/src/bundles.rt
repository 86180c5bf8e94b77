//! The changes of a bundle.

ghost use Rattle.std.specs.Prelude.{◌≡◌, [], length, map, false, true, IfOk, OnOk};
ghost use Rattle.doc_model.specs.Document.{Document, table_id};
ghost use Rattle.doc_model.specs.DocumentLaws.{IsWhole};
ghost use Rattle.recalc.specs.Evaluated.{filled};
ghost use Rattle.action_censor.specs.Step.{are_records, step_of};
ghost use Rattle.shot_changes.specs.Leading.{LeadOn, LeadThrough, TellGone};
ghost use Rattle.shot_changes.specs.NotedCells.{Adds, document_cells};

use crate::noting::{note_rows, note_steps};
use action_censor::StepTrace;
use bundle_traces::trace_law;
use doc_model::DocReader;
use doc_readers::rows_in;
use shot_cells::CellChanges;
use std::alloc::{AllocError, Global};

// Changes of no cell.
fn no_changes(alloc: Global, anew: bool) -> CellChanges
    ensures anew { result.anew ≡ anew }
    ensures cells { result.cells.items ≡ [] }
    ensures values { result.values.items ≡ [] }
    ensures gone { result.gone.items ≡ [] }
{
    CellChanges {
        anew,
        cells: Vec::new(alloc),
        values: Vec::new(alloc),
        gone: Vec::new(alloc),
    }
}

/// The changes of formula cells by a bundle of record actions, from its steps and the evaluated
/// document after it. A cell may stand several times, each time with the same value.
///
/// Errors: out of memory.
/// Memory: a copy of the name and the value of each formula cell that a step lost or whose row it
/// added.
/// Cost: the cells that the steps lost, each with the columns of its table, and the formula cells
/// of the rows that they added, each with what the document takes to tell it.
pub fn changes_of_rows<E: DocReader>(
    alloc: Global,
    evaluated: &E,
    steps: &[StepTrace<'_>],
) -> Result<CellChanges, AllocError>
    requires records { are_records (map step_of steps.now) ≡ true }
    ensures anew { IfOk result (λ c. c.anew ≡ false) }
    ensures lead { IfOk result
        (λ c. LeadThrough (map step_of steps.now) (E.document evaluated.now) c) }
    ensures gone { IfOk result
        (λ c. TellGone (map step_of steps.now) (E.document evaluated.now) c) }
    ensures beside { IfOk result (λ c. length c.values.items ≡ length c.cells.items) }
{
    trace_law();
    let mut changes = no_changes(alloc, false);
    note_steps(evaluated, steps, &mut changes)?;
    Ok(changes)
}

// Notes all formula cells.
fn note_all<E: DocReader>(evaluated: &E, changes: &mut CellChanges) -> Result<(), AllocError>
    ensures { OnOk result (Adds (E.document evaluated.now)
        (document_cells (E.document evaluated.now)) changes.old changes.new) }
{
    let mut index = 0;
    while let Some(table) = evaluated.table(index) {
        note_rows(evaluated, table, rows_in(evaluated, table), changes)?;
        index += 1;
    }
    Ok(())
}

/// The changes of formula cells where all are made anew, from the evaluated document alone.
///
/// Errors: out of memory. Memory: a copy of the name and the value of each formula cell.
/// Cost: all formula cells, each with what the document takes to tell it.
pub fn changes_anew<E: DocReader>(alloc: Global, evaluated: &E) -> Result<CellChanges, AllocError>
    ensures anew { IfOk result (λ c. c.anew ≡ true) }
    ensures lead { IfOk result (λ c. (s : Document) (t : Document) → IsWhole t
        → E.document evaluated.now ≡ filled t → LeadOn s t c) }
    ensures beside { IfOk result (λ c. length c.values.items ≡ length c.cells.items) }
{
    let mut changes = no_changes(alloc, true);
    note_all(evaluated, &mut changes)?;
    Ok(changes)
}
