//! The reads of a cell, recorded in a graph.

ghost use Rattle.std.specs.Prelude.{◌≡◌, ◌+◌, ◌≤◌, IfOk, OnOk, OnErr};
ghost use Rattle.std.specs.Option.{option_copied};
ghost use Rattle.dep_graph.specs.Graph.{IsKept, IsSet};
ghost use Rattle.formula_eval.specs.OfText.{evaluated_some};
ghost use Rattle.recalc.specs.Sheet.{row_of};
ghost use Rattle.affected_search.specs.NotedUpkeep.{RecordsNotes};
ghost use Rattle.affected_search.specs.Recording.{NeedsNone, RecordsCell};

use cell_types::{CellId, RowRef};
use dep_graph::DepGraph;
use formula_eval::{Attempt, CellReader, NoteList, Steps, attempt};
use formula_parse::Formula;
use std::alloc::{AllocError, Global};
use std::sync::ledger::Ledger;

// The notes of a formula's run, where no cell is needed; without a formula there are none.
fn notes_of<R: CellReader, L: Ledger>(
    alloc: Global,
    reader: &R,
    at: &RowRef,
    tree: Option<&Formula>,
    steps: &mut Steps<L>,
) -> Result<NoteList, AllocError>
    requires { NeedsNone (R.told reader.now) }
    ensures notes { IfOk result (λ notes.
        (evaluated_some (R.told reader.now) at.now (option_copied tree.entry)).notes ≡ notes) }
    ensures steps { steps.new ≤ steps.old + 1 }
{
    let Some(formula) = tree else {
        return Ok(NoteList::new(alloc));
    };
    match attempt(alloc, formula, at, reader, steps)? {
        Attempt::Value { value, notes } => {
            drop(value);
            Ok(notes)
        }
        Attempt::Need(_) => unreachable!(),
    }
}

/// Records in a graph what the formula of a cell reads, all values of formula cells known: by one
/// attempt at most, whatever comes of it. Hands out the notes of the attempt, which tell by which
/// columns it looked rows up.
///
/// Errors: out of memory; each cell then reads what it read.
/// Memory: a note for each read and each lookup, and what the graph takes of them.
pub fn record_cell<R: CellReader, L: Ledger>(
    alloc: Global,
    reader: &R,
    graph: &mut DepGraph,
    cell: &CellId,
    at: &RowRef,
    tree: Option<&Formula>,
    steps: &mut Steps<L>,
) -> Result<NoteList, AllocError>
    requires here { at.now ≡ row_of cell.now }
    requires known { NeedsNone (R.told reader.now) }
    ensures ok { OnOk result (RecordsCell (R.told reader.now) (option_copied tree.entry)
        graph.old graph.new cell.now) }
    ensures noted { OnOk result (RecordsNotes (R.told reader.now) (option_copied tree.entry)
        graph.old graph.new cell.now) }
    ensures notes { IfOk result (λ notes.
        (evaluated_some (R.told reader.now) at.now (option_copied tree.entry)).notes ≡ notes) }
    ensures set { IfOk result (λ notes. IsSet graph.old graph.new cell.now notes) }
    ensures err { OnErr result (IsKept graph.old graph.new) }
    ensures steps { steps.new ≤ steps.old + 1 }
{
    let notes = notes_of(alloc, reader, at, tree, steps)?;
    graph.set(cell, &notes)?;
    Ok(notes)
}
