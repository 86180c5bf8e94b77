//! The search for the cells that any action affects, by the reads of formula cells that it touches.

ghost use Rattle.std.specs.Prelude.{IfOk};
ghost use Rattle.doc_model.specs.DocumentLaws.{IsWhole};
ghost use Rattle.recalc.specs.Evaluated.{sheet_of};
ghost use Rattle.affected_search.specs.Actions.{KeepsOthers};
ghost use Rattle.affected_search.specs.ByAction.{FindsAffected};
ghost use Rattle.affected_search.specs.ExactNotes.{HasNotes};

use crate::affected::AffectedCells;
use crate::search::affected_by;
use crate::touched_reads::reads_touched;
use crate::touching::touches_of;
use dep_graph::DepGraph;
use doc_model::{DocAction, DocReader};
use std::alloc::{AllocError, Global};

/// Finds the cells that an action affects, by the reads of formula cells that it touches, over a
/// graph of just what cells note. A lookup reads its key columns, and which rows there are, so it
/// is found wherever a cell of one of these columns is touched, whatever it looks up.
///
/// Errors: out of memory. Memory: the rows that the action names, the touched reads, and what
/// `affected_by` takes of them.
/// Cost: each formula cell of the document, with each of its recorded reads against each table and
/// column that the action touches; then that of `affected_by`.
pub fn affected_by_action<R: DocReader>(
    alloc: Global,
    graph: &DepGraph,
    tables: &R,
    action: &DocAction,
) -> Result<AffectedCells, AllocError>
    ensures others { IfOk result (λ cells. IsWhole (R.document tables.now)
        → HasNotes graph.now (sheet_of (R.document tables.now))
        → KeepsOthers (R.document tables.now) graph.now action.now cells) }
    ensures only { IfOk result (λ cells. IsWhole (R.document tables.now)
        → HasNotes graph.now (sheet_of (R.document tables.now))
        → FindsAffected (R.document tables.now) graph.now action.now cells) }
{
    let touches = touches_of(alloc, graph, tables, action)?;
    let reads = reads_touched(alloc, graph, tables, &touches)?;
    affected_by(alloc, graph, &reads)
}
