//! One attempt at a cell, with what its run notes.

ghost use Rattle.std.specs.Prelude.{◌≡◌, ◌+◌, ◌≤◌, [], IfOk, OnOk};
ghost use Rattle.std.specs.Option.{option_copied};
ghost use Rattle.doc_model.specs.DocumentLaws.{IsWhole};
ghost use Rattle.formula_eval.specs.Attempted.{HasNoted, IsTried};
ghost use Rattle.formula_eval.specs.OfText.{evaluated_some};
ghost use Rattle.recalc.specs.Evaluated.{sheet_of};
ghost use Rattle.recalc.specs.Indexes.{AreIndexes};
ghost use Rattle.recalc.specs.Kept.{IsKeptOf, IsSettled, held_at};
ghost use Rattle.recalc.specs.Remembered.{IsRemembered};
ghost use Rattle.recalc.specs.Stack.{IsOpen};
ghost use Rattle.known_reads.specs.Recorded.{IsFitted, IsTold};

use cell_types::{CellId, CellValue, ColType, ErrKind, RowRef, convert};
use dep_graph::{NoteRun, NoteRuns};
use doc_model::DocTables;
use formula_eval::{CellReader, Steps, Tried, attempt_noting};
use formula_parse::Formula;
use par_recalc::Found;
use recalc::{
    ColumnIndex, KeptTable, KnownReader, LastLookup, column_at, index_lookup, remember, row_of,
};
use std::alloc::{AllocError, Global};
use std::sync::ledger::Ledger;

// One attempt at a formula; without one the value is a syntax error.
fn attempt_tree<R: CellReader, L: Ledger>(
    alloc: Global,
    reader: &R,
    at: &RowRef,
    tree: Option<&Formula>,
    notes: &mut NoteRuns,
    steps: &mut Steps<L>,
) -> Result<Tried, AllocError>
    requires { notes.old ≡ [] }
    ensures tried { IfOk result
        (λ t. IsTried t (evaluated_some (R.told reader.now) at.now (option_copied tree.entry))) }
    ensures noted { IfOk result (λ t. HasNoted t [] notes.new
        (evaluated_some (R.told reader.now) at.now (option_copied tree.entry))) }
    ensures steps { steps.new ≤ steps.old + 1 }
{
    let Some(formula) = tree else {
        return Ok(Tried::Value(CellValue::Err(ErrKind::Syntax)));
    };
    attempt_noting(alloc, formula, at, reader, notes, steps)
}

fn found_of(alloc: Global, ty: &ColType, tried: Tried, notes: NoteRuns) -> Result<Found, AllocError>
    ensures { IfOk result (λ x. IsFitted x ty.now tried notes) }
{
    match tried {
        Tried::Value(value) => {
            let value = convert(alloc, ty, &value)?;
            Ok(Found::Value { value, notes })
        }
        Tried::Need(cell) => Ok(Found::Need(cell)),
    }
}

// Makes the indexes of the data columns by which the lookups of a run were made.
fn index_runs<D: DocTables>(
    alloc: Global,
    tables: &D,
    indexes: &mut Vec<ColumnIndex>,
    runs: &[NoteRun],
) -> Result<(), AllocError>
    requires { AreIndexes (sheet_of (D.document tables.now)) indexes.old.items }
    ensures { OnOk result (AreIndexes (sheet_of (D.document tables.now)) indexes.new.items) }
{
    for run in runs {
        index_lookup(alloc, tables, indexes, &run.note)?;
    }
    Ok(())
}

// Remembers the last lookup of a run by one data column.
fn remember_runs<D: DocTables>(
    alloc: Global,
    tables: &D,
    kept: &[KeptTable],
    indexes: &[ColumnIndex],
    last: &mut Option<LastLookup>,
    runs: &[NoteRun],
) -> Result<(), AllocError>
    requires whole { IsWhole (D.document tables.now) }
    requires of_document { IsKeptOf (D.document tables.now) kept.now }
    requires indexed { AreIndexes (sheet_of (D.document tables.now)) indexes.now }
    requires remembered { IsRemembered (sheet_of (D.document tables.now)) last.old }
    ensures { OnOk result (IsRemembered (sheet_of (D.document tables.now)) last.new) }
{
    for run in runs {
        remember(alloc, tables, kept, indexes, last, &run.note)?;
    }
    Ok(())
}

/// One attempt at a formula cell whose value is not known.
///
/// Errors: out of memory; the indexes are then to be given up.
/// Memory: the value, a note for each read and each lookup, and the indexes of the data columns by
/// which it looks rows up.
pub(crate) fn try_cell<D: DocTables, L: Ledger>(
    alloc: Global,
    tables: &D,
    kept: &[KeptTable],
    indexes: &mut Vec<ColumnIndex>,
    last: &mut Option<LastLookup>,
    cell: &CellId,
    steps: &mut Steps<L>,
) -> Result<Found, AllocError>
    requires whole { IsWhole (D.document tables.now) }
    requires settled { IsSettled (D.document tables.now) kept.now }
    requires indexed { AreIndexes (sheet_of (D.document tables.now)) indexes.old.items }
    requires remembered { IsRemembered (sheet_of (D.document tables.now)) last.old }
    requires opened { IsOpen (sheet_of (D.document tables.now))
        (held_at (D.document tables.now) kept.now) cell.now }
    ensures told { IfOk result (IsTold (sheet_of (D.document tables.now))
        (held_at (D.document tables.now) kept.now) cell.now) }
    ensures indexed { OnOk result
        (AreIndexes (sheet_of (D.document tables.now)) indexes.new.items) }
    ensures remembered { OnOk result
        (IsRemembered (sheet_of (D.document tables.now)) last.new) }
    ensures steps { steps.new ≤ steps.old + 1 }
{
    let Some(column) = column_at(kept, &cell.table, &cell.column) else {
        unreachable!();
    };
    let at = row_of(cell)?;
    let reader = KnownReader {
        tables,
        kept,
        indexes: &*indexes,
        last: &*last,
    };
    let mut notes = NoteRuns::new(alloc);
    let tried = attempt_tree(alloc, &reader, &at, column.tree.as_ref(), &mut notes, steps)?;
    // So that the lookups of other cells need not scan.
    index_runs(alloc, tables, indexes, notes.as_slice())?;
    remember_runs(alloc, tables, kept, &*indexes, last, notes.as_slice())?;
    found_of(alloc, &column.ty, tried, notes)
}
