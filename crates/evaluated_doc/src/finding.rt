//! What an action on records affects.

ghost use Rattle.std.specs.Prelude.{◌≡◌, true, IfOk};
ghost use Rattle.doc_model.specs.Valid.{valid};
ghost use Rattle.recalc.specs.Evaluated.{sheet_of};
ghost use Rattle.recalc.specs.MayLose.{is_record};
ghost use Rattle.affected_search.specs.Actions.{KeepsOthers};
ghost use Rattle.affected_search.specs.ByAction.{FindsAffected};
ghost use Rattle.affected_search.specs.ExactNotes.{HasNotes};
ghost use Rattle.affected_search.specs.Noted.{HoldsNotes};

use affected_search::{AffectedCells, affected_by_records, exact_notes_law, record_reads};
use dep_graph::DepGraph;
use doc_model::{DocAction, DocTables};
use std::alloc::{AllocError, Global};

/// Finds what an action on records affects, by a graph of what formula cells note. The values by
/// which lookups find its rows are told by the tables before the action and after it, so it is done
/// on them and taken back.
///
/// Errors: out of memory. Memory and cost: what is listed before and after, the search from that,
/// and the action done once.
pub(crate) fn found_by_records<D: DocTables>(
    alloc: Global,
    tables: &mut D,
    graph: &DepGraph,
    action: &DocAction,
) -> Result<AffectedCells, AllocError>
    requires valid { valid (D.document tables.old) action.now ≡ true }
    requires record { is_record action.now ≡ true }
    ensures same { D.document tables.new ≡ D.document tables.old }
    ensures others { IfOk result (λ cells. HoldsNotes graph.now (sheet_of (D.document tables.old))
        → KeepsOthers (D.document tables.old) graph.now action.now cells) }
    ensures only { IfOk result (λ cells. HasNotes graph.now (sheet_of (D.document tables.old))
        → FindsAffected (D.document tables.old) graph.now action.now cells) }
{
    exact_notes_law();
    let Some(before) = record_reads(alloc, graph, &*tables, action)? else {
        unreachable!();
    };
    let undo = tables.put(action)?;
    let listed = record_reads(alloc, graph, &*tables, action);
    tables.take_back(undo);
    let Some(after) = listed? else {
        unreachable!();
    };
    affected_by_records(alloc, graph, before, after.as_slice())
}
