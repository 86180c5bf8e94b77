//! What an action on no records affects.

ghost use Rattle.std.specs.Prelude.{◌≡◌, ◌+◌, ◌≤◌, true, false, IfOk, OnErr, OnOk};
ghost use Rattle.cell_types.specs.declared.cell.CellId.{CellId};
ghost use Rattle.doc_model.specs.Document.{Document};
ghost use Rattle.doc_model.specs.DocumentLaws.{IsWhole};
ghost use Rattle.recalc.specs.Evaluated.{sheet_of};
ghost use Rattle.recalc.specs.Indexes.{AreIndexes};
ghost use Rattle.recalc.specs.Kept.{IsEvaluated};
ghost use Rattle.recalc.specs.MayLose.{is_record};
ghost use Rattle.recalc.specs.Stack.{on};
ghost use Rattle.affected_cells.specs.Bound.{bound};
ghost use Rattle.affected_search.specs.Sheets.{is_found};
ghost use Rattle.affected_values.specs.Altered.{HasAltered, is_altered};
ghost use Rattle.known_reads.specs.Beside.{KnowsExact, KnowsReads};
ghost use Rattle.evaluated_doc.specs.Altering.{IsAltered, IsAltering};
ghost use Rattle.evaluated_doc.specs.WayBack.{HasBefore};

use crate::trace::Before;
use affected_search::{AffectedCells, affected_by_action};
use affected_values::{altered_law, carry_values, named_cells, push_altered_cells};
use cell_types::CellId;
use dep_graph::DepGraph;
use doc_model::{DocAction, DocTables};
use formula_eval::Steps;
use known_reads::{KnownReads, Refreshed, refresh_recording};
use recalc::{ColumnIndex, KeptTable};
use std::alloc::{AllocError, Global};
use std::mem;
use std::sync::ledger::Ledger;

// The found cells by name, and those that the action alters.
fn named_with<D: DocTables>(
    alloc: Global,
    tables: &D,
    graph: &DepGraph,
    found: &AffectedCells,
    action: &DocAction,
) -> Result<Vec<CellId>, AllocError>
    ensures named { IfOk result (λ v. (c : CellId) → is_found graph.now found.now c ≡ true
        → on v.items c ≡ true) }
    ensures altered { IfOk result
        (λ v. HasAltered (D.document tables.now) action.now v.items) }
    ensures only { IfOk result (λ v. (c : CellId) → on v.items c ≡ true
        → is_found graph.now found.now c ≡ false → is_altered action.now c ≡ true) }
{
    let mut cells = named_cells(alloc, graph, found)?;
    push_altered_cells(tables, action, &mut cells)?;
    Ok(cells)
}

/// Finds by the graph what an action affects that is on no records, and what it alters.
///
/// Errors: out of memory.
/// Memory and cost: a look at each read that is recorded, and what is found.
pub(crate) fn find_altered<D: DocTables>(
    alloc: Global,
    tables: &D,
    reads: &KnownReads,
    action: &DocAction,
) -> Result<Vec<CellId>, AllocError>
    requires whole { IsWhole (D.document tables.now) }
    requires known { KnowsExact (D.document tables.now) reads.now }
    requires schema { is_record action.now ≡ false }
    ensures found { IfOk result
        (λ cells. IsAltered (D.document tables.now) reads.now.graph action.now cells.items) }
{
    altered_law();
    let found = affected_by_action(alloc, reads.graph(), tables, action)?;
    named_with(alloc, tables, reads.graph(), &found, action)
}

/// Carries the values over an action on no records, and evaluates the found cells and those that it
/// alters. What was kept before is handed out.
///
/// Errors: out of memory; the values are then those before, what cells read is laid aside, and the
/// indexes are as they were.
/// Memory and cost: a copy of the values, the formulas anew, and those of the cells that are
/// evaluated.
pub(crate) fn refresh_altered<D: DocTables, L: Ledger>(
    alloc: Global,
    tables: &D,
    kept: &mut Vec<KeptTable>,
    indexes: &mut Vec<ColumnIndex>,
    reads: &mut KnownReads,
    cells: Vec<CellId>,
    action: &DocAction,
    steps: &mut Steps<L>,
) -> Result<Before, AllocError>
    requires whole { IsWhole (D.document tables.now) }
    requires altering { (s : Document) × IsAltering s (D.document tables.now) action.now
        kept.old.items reads.old cells.items }
    ensures ok { OnOk result (IsEvaluated (D.document tables.now) kept.new.items) }
    ensures reads { OnOk result (KnowsReads (D.document tables.now) reads.new) }
    ensures indexed { OnOk result
        (AreIndexes (sheet_of (D.document tables.now)) indexes.new.items) }
    ensures left { OnErr result (indexes.new ≡ indexes.old) }
    ensures way { IfOk result (λ before. (s : Document)
        → IsAltering s (D.document tables.now) action.now kept.old.items reads.old cells.items
        → HasBefore s (D.document tables.now) before) }
    ensures err { OnErr result ((s : Document)
        → IsAltering s (D.document tables.now) action.now kept.old.items reads.old cells.items
        → IsEvaluated s kept.new.items × KnowsReads s reads.new) }
    ensures spent { (s : Document)
        → IsAltering s (D.document tables.now) action.now kept.old.items reads.old cells.items
        → steps.new ≤ steps.old + bound s action.now }
{
    altered_law();
    let mut cells = cells;
    push_altered_cells(tables, action, &mut cells)?;
    let mut carried = carry_values(alloc, tables, kept, action)?;
    let mut made = Vec::new(alloc);
    let known = &mut made;
    let values = &mut carried;
    let done = refresh_recording(alloc, tables, values, known, reads, cells, steps)?;
    let Refreshed { taken, before: log } = done;
    drop(taken);
    *indexes = made;
    let before = mem::replace(kept, carried);
    Ok(Before::Altered { kept: before, log })
}
