//! What an update affects.

ghost use Rattle.std.specs.Prelude.{◌≡◌, ◌+◌, ◌≤◌, true, false, IfOk, OnErr, OnOk};
ghost use Rattle.cell_types.specs.declared.cell.CellId.{CellId};
ghost use Rattle.doc_model.specs.declared.action.DocAction.{DocAction};
ghost use Rattle.doc_model.specs.Document.{Document};
ghost use Rattle.doc_model.specs.DocumentLaws.{IsWhole};
ghost use Rattle.doc_model.specs.Valid.{valid};
ghost use Rattle.recalc.specs.Evaluated.{sheet_of};
ghost use Rattle.recalc.specs.Indexes.{AreIndexes};
ghost use Rattle.recalc.specs.Kept.{IsEvaluated};
ghost use Rattle.affected_cells.specs.Bound.{bound};
ghost use Rattle.affected_values.specs.Indexing.{AreLeft};
ghost use Rattle.known_reads.specs.Beside.{KnowsExact, KnowsReads};
ghost use Rattle.evaluated_doc.specs.Update.{IsAffected, IsUpdating, is_update};
ghost use Rattle.evaluated_doc.specs.WayBack.{HasBefore};

use crate::finding::found_by_records;
use crate::indexing::leave;
use crate::trace::Before;
use affected_search::AffectedCells;
use affected_values::{leads_over_law, named_cells};
use cell_types::CellId;
use doc_model::{DocAction, DocTables};
use formula_eval::Steps;
use known_reads::{KnownReads, Refreshed, refresh_recording};
use recalc::{ColumnIndex, KeptTable};
use std::alloc::{AllocError, Global};
use std::sync::ledger::Ledger;

/// Affected cells: as they were found, and by name, to be evaluated anew.
#[derive(Drop)]
pub(crate) struct Affected {
    pub(crate) found: AffectedCells,
    pub(crate) cells: Vec<CellId>,
}

/// Whether an action is an update.
///
/// Memory: none.
pub(crate) fn is_update(action: &DocAction) -> bool
    ensures { result ≡ is_update action.now }
{
    matches!(action, DocAction::BulkUpdate { .. })
}

/// Finds by the graph what an update affects: of lookups those by values that it writes, or writes
/// over. Leaves all indexes but for the rows that the update writes. The document is as it was.
///
/// Errors: out of memory; the indexes are then to be given up.
/// Memory and cost: those of what is found. The update is put once, and taken back.
pub(crate) fn find_affected<D: DocTables>(
    alloc: Global,
    tables: &mut D,
    reads: &KnownReads,
    indexes: &mut Vec<ColumnIndex>,
    action: &DocAction,
) -> Result<Affected, AllocError>
    requires whole { IsWhole (D.document tables.old) }
    requires indexed { AreIndexes (sheet_of (D.document tables.old)) indexes.old.items }
    requires known { KnowsExact (D.document tables.old) reads.now }
    requires valid { valid (D.document tables.old) action.now ≡ true }
    requires update { is_update action.now ≡ true }
    ensures same { D.document tables.new ≡ D.document tables.old }
    ensures found { IfOk result
        (λ x. IsAffected (D.document tables.old) reads.now.graph action.now x) }
    ensures left { OnOk result (AreLeft (D.document tables.old) action.now indexes.new.items) }
{
    leave(alloc, &*tables, indexes, action);
    let found = found_by_records(alloc, tables, reads.graph(), action)?;
    let cells = named_cells(alloc, reads.graph(), &found)?;
    Ok(Affected { found, cells })
}

/// Evaluates what an update affects, where the values of all other cells are right.
///
/// Errors: out of memory; the values are then those before, what cells read is laid aside, and the
/// indexes are to be given up.
/// Memory and cost: as to `refresh_recording`.
pub(crate) fn refresh_updated<D: DocTables, L: Ledger>(
    alloc: Global,
    tables: &D,
    kept: &mut Vec<KeptTable>,
    indexes: &mut Vec<ColumnIndex>,
    reads: &mut KnownReads,
    cells: Vec<CellId>,
    steps: &mut Steps<L>,
) -> Result<Before, AllocError>
    requires whole { IsWhole (D.document tables.now) }
    requires indexed { AreIndexes (sheet_of (D.document tables.now)) indexes.old.items }
    requires updating { (s : Document) × (a : DocAction) × IsUpdating s (D.document tables.now) a
        kept.old.items reads.old cells.items }
    ensures ok { OnOk result (IsEvaluated (D.document tables.now) kept.new.items) }
    ensures reads { OnOk result (KnowsReads (D.document tables.now) reads.new) }
    ensures indexed { OnOk result
        (AreIndexes (sheet_of (D.document tables.now)) indexes.new.items) }
    ensures way { IfOk result (λ before. (s : Document) (a : DocAction)
        → IsUpdating s (D.document tables.now) a kept.old.items reads.old cells.items
        → HasBefore s (D.document tables.now) before) }
    ensures err { OnErr result ((s : Document) (a : DocAction)
        → IsUpdating s (D.document tables.now) a kept.old.items reads.old cells.items
        → IsEvaluated s kept.new.items × KnowsReads s reads.new) }
    ensures spent { (s : Document) (a : DocAction)
        → IsUpdating s (D.document tables.now) a kept.old.items reads.old cells.items
        → steps.new ≤ steps.old + bound s a }
{
    leads_over_law();
    let done = refresh_recording(alloc, tables, kept, indexes, reads, cells, steps)?;
    let Refreshed { taken, before } = done;
    Ok(Before::Update { taken, log: before })
}
