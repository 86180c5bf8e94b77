//! What rows that come or go affect.

ghost use Rattle.std.specs.Prelude.{◌≡◌, ◌+◌, ◌≤◌, true, false, List, None, Some, IfOk, MatchOption, OnErr, OnOk};
ghost use Rattle.std.specs.Option.{option_map};
ghost use Rattle.dep_graph.specs.Named.{Were};
ghost use Rattle.doc_model.specs.Document.{Document};
ghost use Rattle.doc_model.specs.DocumentLaws.{IsWhole};
ghost use Rattle.doc_model.specs.Valid.{valid};
ghost use Rattle.recalc.specs.Current.{IsCurrent};
ghost use Rattle.recalc.specs.Evaluated.{sheet_of};
ghost use Rattle.recalc.specs.Indexes.{AreIndexes};
ghost use Rattle.recalc.specs.Kept.{IsEvaluated};
ghost use Rattle.affected_cells.specs.Bound.{bound};
ghost use Rattle.affected_values.specs.Carried.{moved_rows, moved_table};
ghost use Rattle.affected_values.specs.Indexing.{AreLeft};
ghost use Rattle.known_reads.specs.Beside.{KnowsExact, KnowsReads};
ghost use Rattle.evaluated_doc.specs.Moved.{IsMoved, IsMoving, LeadsFromRows};
ghost use Rattle.evaluated_doc.specs.WayBack.{HasBefore};

use crate::finding::found_by_records;
use crate::indexing::leave;
use crate::trace::Before;
use affected_search::AffectedCells;
use affected_values::{
    HeldValue, LaidAside, lay_anew, lay_back, leads_over_rows_law, named_cells, push_row_cells,
    put_values_back, right_laid_law, rows_back_law, rows_left_law,
};
use cell_types::{CellId, Name};
use doc_model::{DocAction, DocTables};
use doc_readers::rows_in;
use formula_eval::Steps;
use known_reads::{KnownReads, Refreshed, reads_over_law, refresh_recording, rows_stay_law};
use recalc::{ColumnIndex, KeptTable};
use std::alloc::{AllocError, Global};
use std::sync::ledger::Ledger;

/// What is found before rows of a table come or go: the cells that this affects, also by name, to
/// be evaluated anew; and the rows that the table has.
#[derive(Drop)]
pub(crate) struct Moved {
    pub(crate) found: AffectedCells,
    pub(crate) noted: Vec<CellId>,
    pub(crate) rows: Vec<u32>,
}

/// The table of which rows come or go by an action, and these rows.
///
/// Memory: none.
pub(crate) fn moved_by(action: &DocAction) -> Option<(&Name, &[u32])>
    ensures { MatchOption result (moved_table action.now ≡ None)
        (λ m. (moved_table action.now ≡ Some m.0.now) × (moved_rows action.now ≡ m.1.now)) }
{
    match action {
        DocAction::BulkAdd { table, rows, .. } | DocAction::BulkRemove { table, rows } => {
            Some((table, rows.as_slice()))
        }
        _ => None,
    }
}

/// Finds by the graph what rows that come or go affect: of lookups those that find these rows.
/// Leaves all indexes but for these rows. The document is as it was.
///
/// Errors: out of memory; the indexes are then to be given up.
/// Memory and cost: those of what is found; a copy of the rows of the table. The action is done
/// once, and taken back.
pub(crate) fn find_moved<D: DocTables>(
    alloc: Global,
    tables: &mut D,
    reads: &KnownReads,
    indexes: &mut Vec<ColumnIndex>,
    action: &DocAction,
    table: &Name,
) -> Result<Moved, AllocError>
    requires whole { IsWhole (D.document tables.old) }
    requires indexed { AreIndexes (sheet_of (D.document tables.old)) indexes.old.items }
    requires known { KnowsExact (D.document tables.old) reads.now }
    requires valid { valid (D.document tables.old) action.now ≡ true }
    requires moved { moved_table action.now ≡ Some table.now }
    ensures same { D.document tables.new ≡ D.document tables.old }
    ensures found { IfOk result (λ x. IsMoved reads.now.graph action.now (D.document tables.old)
        table.now x) }
    ensures left { OnOk result (AreLeft (D.document tables.old) action.now indexes.new.items) }
{
    leave(alloc, &*tables, indexes, action);
    let found = found_by_records(alloc, tables, reads.graph(), action)?;
    let noted = named_cells(alloc, reads.graph(), &found)?;
    let rows = Vec::from_slice(alloc, rows_in(&*tables, table))?;
    Ok(Moved { found, noted, rows })
}

/// Lays the values of a table anew after rows of it came or went, and evaluates the found cells and
/// the formula cells of these rows.
///
/// Errors: out of memory; the values are then those before, what cells read is laid aside, and the
/// indexes are to be given up.
/// Memory and cost: a place for each formula cell of the table and a walk over its rows, and those
/// of the cells that are evaluated.
pub(crate) fn refresh_moved<D: DocTables, L: Ledger>(
    alloc: Global,
    tables: &D,
    kept: &mut Vec<KeptTable>,
    indexes: &mut Vec<ColumnIndex>,
    reads: &mut KnownReads,
    moved: Moved,
    table: &Name,
    rows: &[u32],
    steps: &mut Steps<L>,
) -> Result<Before, AllocError>
    requires whole { IsWhole (D.document tables.now) }
    requires indexed { AreIndexes (sheet_of (D.document tables.now)) indexes.old.items }
    requires moving { (s : Document) × IsMoving s (D.document tables.now) table.now rows.now
        kept.old.items reads.old moved }
    ensures ok { OnOk result (IsEvaluated (D.document tables.now) kept.new.items) }
    ensures reads { OnOk result (KnowsReads (D.document tables.now) reads.new) }
    ensures indexed { OnOk result
        (AreIndexes (sheet_of (D.document tables.now)) indexes.new.items) }
    ensures way { IfOk result (λ before. (s : Document)
        → IsMoving s (D.document tables.now) table.now rows.now kept.old.items reads.old moved
        → HasBefore s (D.document tables.now) before) }
    ensures err { OnErr result ((s : Document)
        → IsMoving s (D.document tables.now) table.now rows.now kept.old.items reads.old moved
        → IsEvaluated s kept.new.items × KnowsReads s reads.new) }
    ensures spent { (s : Document)
        → (is : IsMoving s (D.document tables.now) table.now rows.now kept.old.items reads.old
        moved)
        → steps.new ≤ steps.old + bound s is.moved.action }
{
    right_laid_law();
    leads_over_rows_law();
    rows_left_law();
    reads_over_law();
    rows_stay_law();
    let Moved {
        noted,
        rows: were,
        ..
    } = moved;
    let mut cells = noted;
    push_row_cells(tables, table, rows, &mut cells)?;
    let aside = lay_anew(alloc, tables, kept, table, were)?;
    match refresh_recording(alloc, tables, kept, indexes, reads, cells, steps) {
        Ok(done) => {
            let Refreshed { taken, before } = done;
            Ok(Before::Rows {
                taken,
                aside,
                log: before,
            })
        }
        Err(_) => {
            lay_back(tables, kept, aside);
            Err(AllocError)
        }
    }
}

/// Puts back the values of a table of which rows came or went, and of the cells that this evaluated
/// anew, before the store is taken back.
///
/// Memory: none.
pub(crate) fn go_back_over<D: DocTables>(
    tables: &D,
    kept: &mut Option<Vec<KeptTable>>,
    taken: Vec<HeldValue>,
    aside: LaidAside,
)
    requires whole { IsWhole (D.document tables.now) }
    requires before { (s : Document) × (log : List Were)
        × IsCurrent (D.document tables.now) (option_map (λ v. v.items) kept.old)
        × LeadsFromRows s (D.document tables.now) taken.items aside log }
    ensures { (s : Document) (log : List Were)
        → LeadsFromRows s (D.document tables.now) taken.items aside log
        → IsCurrent s (option_map (λ v. v.items) kept.new) }
{
    rows_back_law();
    if let Some(kept) = kept {
        put_values_back(tables, kept, taken);
        lay_back(tables, kept, aside);
    }
}
