//! All formula cells of a document evaluated, each recorded by the attempt that finds its value:
//! table by table, column by column, row by row.

ghost use Rattle.std.specs.Prelude.{◌≡◌, ◌+◌, ◌≤◌, List, [], length, map, IfOk, OnOk};
ghost use Rattle.cell_types.specs.declared.cell.CellId.{CellId};
ghost use Rattle.doc_model.specs.DocumentLaws.{IsWhole};
ghost use Rattle.doc_readers.specs.Parts.{grid_at};
ghost use Rattle.recalc.specs.Evaluated.{cells_of_column, cells_of_columns, formula_cells, sheet_of};
ghost use Rattle.recalc.specs.Indexes.{AreIndexes};
ghost use Rattle.recalc.specs.Kept.{IsEvaluated, IsSettled, blank_table, held_at, table_part};
ghost use Rattle.recalc.specs.Remembered.{IsRemembered};
ghost use Rattle.affected_cells.specs.Bound.{attempt_bound};
ghost use Rattle.affected_search.specs.ExactNotes.{HasNoReads};
ghost use Rattle.affected_values.specs.Taken.{IsHeldWhere};
ghost use Rattle.known_reads.specs.Attempts.{HasFormulas, IsWithin, due, most_attempts};
ghost use Rattle.known_reads.specs.Beside.{KnowsOthers, KnowsReads};
ghost use Rattle.known_reads.specs.Walked.{AreHeld, IsWalked};

use crate::beside::KnownReads;
use crate::levels::settle_levels;
use crate::settling::settle_cell;
use cell_types::{CellId, Name};
use doc_model::{ColDef, DocTables};
use doc_readers::rows_in;
use formula_eval::Steps;
use recalc::{ColumnIndex, KeptTable, LastLookup, blank_tables, cell_id};
use std::alloc::{AllocError, Global};
use std::sync::ledger::Ledger;
use std::thread::Threads;

/// The values of the formula cells of a document, with what they read, and the indexes of the data
/// columns by which they look rows up.
#[derive(Drop)]
pub struct Evaluated {
    pub kept: Vec<KeptTable>,
    pub reads: KnownReads,
    pub indexes: Vec<ColumnIndex>,
}

// Makes the value of a cell known. What cells read before is not asked for: there was nothing.
fn settle_unwatched<D: DocTables, L: Ledger>(
    alloc: Global,
    tables: &D,
    kept: &mut Vec<KeptTable>,
    indexes: &mut Vec<ColumnIndex>,
    last: &mut Option<LastLookup>,
    reads: &mut KnownReads,
    cell: &CellId,
    steps: &mut Steps<L>,
) -> Result<(), AllocError>
    requires whole { IsWhole (D.document tables.now) }
    requires indexed { AreIndexes (sheet_of (D.document tables.now)) indexes.old.items }
    requires remembered { IsRemembered (sheet_of (D.document tables.now)) last.old }
    requires settled { IsSettled (D.document tables.now) kept.old.items }
    ensures walked { OnOk result (IsWalked (D.document tables.now) kept.old.items reads.old
        steps.old kept.new.items reads.new steps.new) }
    ensures known { OnOk result (IsHeldWhere (D.document tables.now) kept.new.items cell.now) }
    ensures indexed { OnOk result
        (AreIndexes (sheet_of (D.document tables.now)) indexes.new.items) }
    ensures remembered { OnOk result
        (IsRemembered (sheet_of (D.document tables.now)) last.new) }
    ensures owed { reads.new.owed ≡ reads.old.owed }
    ensures within { IsWithin (sheet_of (D.document tables.now))
        (held_at (D.document tables.now) kept.old.items) (due steps.old reads.old) steps.new }
{
    let done = settle_cell(alloc, tables, kept, indexes, last, reads, cell, steps);
    reads.watch(alloc);
    done
}

// Evaluates the cells of a column whose values are not known, where it is a formula column.
fn settle_column<D: DocTables, L: Ledger>(
    alloc: Global,
    tables: &D,
    kept: &mut Vec<KeptTable>,
    indexes: &mut Vec<ColumnIndex>,
    last: &mut Option<LastLookup>,
    reads: &mut KnownReads,
    table: &Name,
    column: &ColDef,
    steps: &mut Steps<L>,
) -> Result<(), AllocError>
    requires whole { IsWhole (D.document tables.now) }
    requires indexed { AreIndexes (sheet_of (D.document tables.now)) indexes.old.items }
    requires remembered { IsRemembered (sheet_of (D.document tables.now)) last.old }
    requires settled { IsSettled (D.document tables.now) kept.old.items }
    ensures walked { OnOk result (IsWalked (D.document tables.now) kept.old.items reads.old
        steps.old kept.new.items reads.new steps.new) }
    ensures known { OnOk result (AreHeld (D.document tables.now) kept.new.items
        (cells_of_column table.now (grid_at (D.document tables.now) table.now) column.now)) }
    ensures indexed { OnOk result
        (AreIndexes (sheet_of (D.document tables.now)) indexes.new.items) }
    ensures remembered { OnOk result
        (IsRemembered (sheet_of (D.document tables.now)) last.new) }
    ensures owed { reads.new.owed ≡ reads.old.owed }
    ensures within { IsWithin (sheet_of (D.document tables.now))
        (held_at (D.document tables.now) kept.old.items) (due steps.old reads.old) steps.new }
{
    if !column.info.is_formula {
        return Ok(());
    }
    // The ids are copied once.
    let mut cell = cell_id(table, &column.id, 0)?;
    for row in rows_in(tables, table) {
        cell.row = *row;
        settle_unwatched(alloc, tables, kept, indexes, last, reads, &cell, steps)?;
    }
    Ok(())
}

// Evaluates the cells of a table whose values are not known.
fn settle_table<D: DocTables, L: Ledger>(
    alloc: Global,
    tables: &D,
    kept: &mut Vec<KeptTable>,
    indexes: &mut Vec<ColumnIndex>,
    last: &mut Option<LastLookup>,
    reads: &mut KnownReads,
    table: &Name,
    steps: &mut Steps<L>,
) -> Result<(), AllocError>
    requires whole { IsWhole (D.document tables.now) }
    requires indexed { AreIndexes (sheet_of (D.document tables.now)) indexes.old.items }
    requires remembered { IsRemembered (sheet_of (D.document tables.now)) last.old }
    requires settled { IsSettled (D.document tables.now) kept.old.items }
    ensures walked { OnOk result (IsWalked (D.document tables.now) kept.old.items reads.old
        steps.old kept.new.items reads.new steps.new) }
    ensures known { OnOk result (AreHeld (D.document tables.now) kept.new.items
        (cells_of_columns table.now (grid_at (D.document tables.now) table.now)
        (grid_at (D.document tables.now) table.now).columns)) }
    ensures indexed { OnOk result
        (AreIndexes (sheet_of (D.document tables.now)) indexes.new.items) }
    ensures remembered { OnOk result
        (IsRemembered (sheet_of (D.document tables.now)) last.new) }
    ensures owed { reads.new.owed ≡ reads.old.owed }
    ensures within { IsWithin (sheet_of (D.document tables.now))
        (held_at (D.document tables.now) kept.old.items) (due steps.old reads.old) steps.new }
{
    let mut index = 0;
    while let Some(column) = tables.column(table, index) {
        settle_column(
            alloc, tables, kept, indexes, last, reads, table, column, steps,
        )?;
        index += 1;
    }
    Ok(())
}

// Evaluates all cells whose values are not known, from a lookup that is remembered.
fn settle_tables<D: DocTables, L: Ledger>(
    alloc: Global,
    tables: &D,
    kept: &mut Vec<KeptTable>,
    indexes: &mut Vec<ColumnIndex>,
    last: &mut Option<LastLookup>,
    reads: &mut KnownReads,
    steps: &mut Steps<L>,
) -> Result<(), AllocError>
    requires whole { IsWhole (D.document tables.now) }
    requires indexed { AreIndexes (sheet_of (D.document tables.now)) indexes.old.items }
    requires remembered { IsRemembered (sheet_of (D.document tables.now)) last.old }
    requires settled { IsSettled (D.document tables.now) kept.old.items }
    ensures walked { OnOk result (IsWalked (D.document tables.now) kept.old.items reads.old
        steps.old kept.new.items reads.new steps.new) }
    ensures evaluated { OnOk result (IsEvaluated (D.document tables.now) kept.new.items) }
    ensures indexed { OnOk result
        (AreIndexes (sheet_of (D.document tables.now)) indexes.new.items) }
    ensures owed { reads.new.owed ≡ reads.old.owed }
    ensures within { IsWithin (sheet_of (D.document tables.now))
        (held_at (D.document tables.now) kept.old.items) (due steps.old reads.old) steps.new }
{
    let mut index = 0;
    while let Some(table) = tables.table(index) {
        settle_table(alloc, tables, kept, indexes, last, reads, table, steps)?;
        index += 1;
    }
    Ok(())
}

// Nothing is known of any cell.
fn blank_evaluated<D: DocTables>(alloc: Global, tables: &D) -> Result<Evaluated, AllocError>
    requires { IsWhole (D.document tables.now) }
    ensures blank { IfOk result (λ x. map table_part x.kept.items
        ≡ map blank_table (D.document tables.now)) }
    ensures none { IfOk result (λ x. HasNoReads x.reads.graph) }
    ensures stale { IfOk result (λ x. x.reads.stale ≡ []) }
    ensures owed { IfOk result (λ x. x.reads.owed ≡ []) }
    ensures indexed { IfOk result
        (λ x. AreIndexes (sheet_of (D.document tables.now)) x.indexes.items) }
{
    let kept = blank_tables(alloc, tables)?;
    Ok(Evaluated {
        kept,
        reads: KnownReads::new(alloc),
        indexes: Vec::new(alloc),
    })
}

// Evaluates all cells whose values are not known.
fn settle_rest<D: DocTables, L: Ledger>(
    alloc: Global,
    tables: &D,
    evaluated: &mut Evaluated,
    steps: &mut Steps<L>,
) -> Result<(), AllocError>
    requires whole { IsWhole (D.document tables.now) }
    requires indexed { AreIndexes (sheet_of (D.document tables.now)) evaluated.old.indexes.items }
    requires settled { IsSettled (D.document tables.now) evaluated.old.kept.items }
    ensures walked { OnOk result (IsWalked (D.document tables.now) evaluated.old.kept.items
        evaluated.old.reads steps.old evaluated.new.kept.items evaluated.new.reads steps.new) }
    ensures evaluated { OnOk result
        (IsEvaluated (D.document tables.now) evaluated.new.kept.items) }
    ensures indexed { OnOk result
        (AreIndexes (sheet_of (D.document tables.now)) evaluated.new.indexes.items) }
    ensures within { IsWithin (sheet_of (D.document tables.now))
        (held_at (D.document tables.now) evaluated.old.kept.items)
        (due steps.old evaluated.old.reads) steps.new }
{
    let Evaluated {
        kept,
        reads,
        indexes,
    } = evaluated;
    let mut last = None;
    settle_tables(alloc, tables, kept, indexes, &mut last, reads, steps)
}

// Records what the cells read that are still stale once all are evaluated.
fn record_rest<D: DocTables, L: Ledger>(
    alloc: Global,
    tables: &D,
    evaluated: &mut Evaluated,
    steps: &mut Steps<L>,
) -> Result<(), AllocError>
    requires whole { IsWhole (D.document tables.now) }
    requires indexed { AreIndexes (sheet_of (D.document tables.now)) evaluated.old.indexes.items }
    requires evaluated { IsEvaluated (D.document tables.now) evaluated.old.kept.items }
    requires others { KnowsOthers (D.document tables.now) evaluated.old.reads }
    requires owed { evaluated.old.reads.owed ≡ [] }
    ensures kept { evaluated.new.kept ≡ evaluated.old.kept }
    ensures reads { OnOk result (KnowsReads (D.document tables.now) evaluated.new.reads) }
    ensures indexed { OnOk result
        (AreIndexes (sheet_of (D.document tables.now)) evaluated.new.indexes.items) }
    ensures steps { steps.new ≤ steps.old + length evaluated.old.reads.stale }
{
    let Evaluated {
        kept,
        reads,
        indexes,
    } = evaluated;
    reads.record_stale(alloc, tables, kept, indexes, steps)
}

/// Evaluates the formula cells of a document, and records what they read by the same attempts, of
/// circular cells by one more. It makes two attempts a cell at most, three a circular one, and no
/// more than one for each cell and one for each that its reads name.
///
/// Errors: out of memory.
/// Memory: the values, a stack as deep as the chains of cells, what the graph takes, and an index
/// of each data column by which lookups are made.
/// Cost: linear in the formula cells and what they read; none for cells of data columns. A lookup
/// whose keys are `id` and data columns reads the rows under the value of one key that is not
/// CONTAINS, from the first on that was made by the columns; any other reads its whole table.
pub fn evaluate_recording<D: DocTables, L: Ledger>(
    alloc: Global,
    tables: &D,
    steps: &mut Steps<L>,
) -> Result<Evaluated, AllocError>
    requires { IsWhole (D.document tables.now) }
    ensures evaluated { IfOk result (λ x. IsEvaluated (D.document tables.now) x.kept.items) }
    ensures reads { IfOk result (λ x. KnowsReads (D.document tables.now) x.reads) }
    ensures indexed { IfOk result
        (λ x. AreIndexes (sheet_of (D.document tables.now)) x.indexes.items) }
    ensures attempts { steps.new ≤ steps.old
        + most_attempts (sheet_of (D.document tables.now)) (formula_cells (D.document tables.now)) }
    ensures named { (all : List CellId)
        → HasFormulas (D.document tables.now) (formula_cells (D.document tables.now)) all
        → steps.new ≤ steps.old + attempt_bound (sheet_of (D.document tables.now)) all }
{
    let mut evaluated = blank_evaluated(alloc, tables)?;
    settle_rest(alloc, tables, &mut evaluated, steps)?;
    record_rest(alloc, tables, &mut evaluated, steps)?;
    Ok(evaluated)
}

/// The same by levels: the cells of a column are attempted in as many threads as serve, once all
/// columns that its formula names are evaluated. What comes of it is what one thread finds. Of the
/// attempts of threads those are counted that find a value.
///
/// Errors: out of memory.
/// Memory and cost: as to one thread, and what some thousand attempts found beside; an index of
/// each data column by which a formula may look rows up, also where none does.
pub fn evaluate_in_levels<T: Threads + Sync, D: DocTables<Back: Send> + Sync, L: Ledger>(
    rt: &T,
    alloc: Global,
    tables: &D,
    steps: &mut Steps<L>,
) -> Result<Evaluated, AllocError>
    requires { IsWhole (D.document tables.now) }
    ensures evaluated { IfOk result (λ x. IsEvaluated (D.document tables.now) x.kept.items) }
    ensures reads { IfOk result (λ x. KnowsReads (D.document tables.now) x.reads) }
    ensures indexed { IfOk result
        (λ x. AreIndexes (sheet_of (D.document tables.now)) x.indexes.items) }
    ensures attempts { OnOk result (steps.new ≤ steps.old
        + most_attempts (sheet_of (D.document tables.now))
        (formula_cells (D.document tables.now))) }
    ensures named { OnOk result ((all : List CellId)
        → HasFormulas (D.document tables.now) (formula_cells (D.document tables.now)) all
        → steps.new ≤ steps.old + attempt_bound (sheet_of (D.document tables.now)) all) }
{
    let mut evaluated = blank_evaluated(alloc, tables)?;
    settle_levels(rt, alloc, tables, &mut evaluated, steps)?;
    settle_rest(alloc, tables, &mut evaluated, steps)?;
    record_rest(alloc, tables, &mut evaluated, steps)?;
    Ok(evaluated)
}
