//! The reads of cells recorded anew.

ghost use Rattle.std.specs.Prelude.{◌≡◌, ◌≤◌, ◌+◌, length, true, OnErr, OnOk};
ghost use Rattle.std.specs.Option.{is_some};
ghost use Rattle.doc_model.specs.DocumentLaws.{IsWhole};
ghost use Rattle.recalc.specs.Evaluated.{formula_at, sheet_of};
ghost use Rattle.recalc.specs.Indexes.{AreIndexes};
ghost use Rattle.recalc.specs.Kept.{IsEvaluated};
ghost use Rattle.affected_search.specs.NotedUpkeep.{NotesRecordedOf};
ghost use Rattle.known_reads.specs.Known.{AreRead, IsRead, KeepsReads};
ghost use Rattle.known_reads.specs.Watched.{KeepsAllBut, KeepsOthersOf};

use affected_search::record_cell;
use affected_values::is_formula_cell;
use cell_types::CellId;
use dep_graph::DepGraph;
use doc_model::DocTables;
use formula_eval::Steps;
use recalc::{ColumnIndex, KeptTable, KnownReader, column_at, index_lookups, row_of};
use std::alloc::{AllocError, Global};
use std::sync::ledger::Ledger;

// Records what a formula cell reads, of an evaluated document.
fn record_formula<D: DocTables, L: Ledger>(
    alloc: Global,
    tables: &D,
    kept: &[KeptTable],
    indexes: &mut Vec<ColumnIndex>,
    graph: &mut DepGraph,
    cell: &CellId,
    steps: &mut Steps<L>,
) -> Result<(), AllocError>
    requires whole { IsWhole (D.document tables.now) }
    requires indexed { AreIndexes (sheet_of (D.document tables.now)) indexes.old.items }
    requires evaluated { IsEvaluated (D.document tables.now) kept.now }
    requires there { is_some (formula_at (D.document tables.now) cell.now) ≡ true }
    ensures ok { OnOk result
        (NotesRecordedOf graph.new graph.old (sheet_of (D.document tables.now)) cell.now) }
    ensures err { OnErr result
        (KeepsReads (sheet_of (D.document tables.now)) graph.old graph.new) }
    ensures same { KeepsOthersOf graph.old graph.new cell.now }
    ensures indexed { OnOk result
        (AreIndexes (sheet_of (D.document tables.now)) indexes.new.items) }
    ensures steps { steps.new ≤ steps.old + 1 }
{
    let Some(column) = column_at(kept, &cell.table, &cell.column) else {
        unreachable!();
    };
    let at = row_of(cell)?;
    let reader = KnownReader {
        tables,
        kept,
        indexes: &*indexes,
        last: &None,
    };
    let tree = column.tree.as_ref();
    let notes = record_cell(alloc, &reader, graph, cell, &at, tree, steps)?;
    // So that the lookups of other cells need not scan.
    index_lookups(alloc, tables, indexes, notes.as_slice())?;
    Ok(())
}

// Records what a cell reads: nothing where it is no formula cell.
fn record_where<D: DocTables, L: Ledger>(
    alloc: Global,
    tables: &D,
    kept: &[KeptTable],
    indexes: &mut Vec<ColumnIndex>,
    graph: &mut DepGraph,
    cell: &CellId,
    steps: &mut Steps<L>,
) -> Result<(), AllocError>
    requires whole { IsWhole (D.document tables.now) }
    requires indexed { AreIndexes (sheet_of (D.document tables.now)) indexes.old.items }
    requires evaluated { IsEvaluated (D.document tables.now) kept.now }
    ensures ok { OnOk result (IsRead (D.document tables.now) graph.new cell.now) }
    ensures keeps { KeepsReads (sheet_of (D.document tables.now)) graph.old graph.new }
    ensures same { KeepsOthersOf graph.old graph.new cell.now }
    ensures indexed { OnOk result
        (AreIndexes (sheet_of (D.document tables.now)) indexes.new.items) }
    ensures steps { steps.new ≤ steps.old + 1 }
{
    if !is_formula_cell(tables, cell) {
        graph.drop_reader(cell);
        return Ok(());
    }
    record_formula(alloc, tables, kept, indexes, graph, cell, steps)
}

/// Records what these cells read, of an evaluated document: nothing of those that are no formula
/// cells. What the graph had of the reads of other cells it has still. Makes the indexes of the
/// data columns by which they look rows up, where they have none.
///
/// Errors: out of memory; what it had of reads that are made it has still, and the indexes are then
/// to be given up.
/// Memory: notes, what the graph takes of them, and the indexes. Cost: one attempt a cell, and the
/// making of the indexes.
pub(crate) fn record_cells<D: DocTables, L: Ledger>(
    alloc: Global,
    tables: &D,
    kept: &[KeptTable],
    indexes: &mut Vec<ColumnIndex>,
    graph: &mut DepGraph,
    cells: &[CellId],
    steps: &mut Steps<L>,
) -> Result<(), AllocError>
    requires whole { IsWhole (D.document tables.now) }
    requires indexed { AreIndexes (sheet_of (D.document tables.now)) indexes.old.items }
    requires evaluated { IsEvaluated (D.document tables.now) kept.now }
    ensures ok { OnOk result (AreRead (D.document tables.now) graph.new cells.now) }
    ensures keeps { KeepsReads (sheet_of (D.document tables.now)) graph.old graph.new }
    ensures same { KeepsAllBut graph.old graph.new cells.now }
    ensures indexed { OnOk result
        (AreIndexes (sheet_of (D.document tables.now)) indexes.new.items) }
    ensures steps { steps.new ≤ steps.old + length cells.now }
{
    for cell in cells {
        record_where(alloc, tables, kept, indexes, graph, cell, steps)?;
    }
    Ok(())
}
