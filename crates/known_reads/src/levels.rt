//! Formula cells evaluated level by level: attempts at the cells of a column in as many threads as
//! serve, over what is known before, then what they found put and recorded in the order of rows.

ghost use Rattle.std.specs.Prelude.{◌≡◌, Some, OnOk, IfOk};
ghost use Rattle.std.specs.List.{AllByRecursion};
ghost use Rattle.doc_model.specs.DocumentLaws.{IsWhole};
ghost use Rattle.recalc.specs.Evaluated.{sheet_of};
ghost use Rattle.recalc.specs.Indexes.{AreIndexes};
ghost use Rattle.recalc.specs.Kept.{IsSettled};
ghost use Rattle.known_reads.specs.Listed.{AreListed, IsListed, IsListedAs, WasTried};
ghost use Rattle.known_reads.specs.Walked.{IsWalked};

use crate::beside::KnownReads;
use crate::level_indexes::index_formula;
use crate::listing::formula_list;
use crate::settling::{is_open, put_value};
use crate::starting::Evaluated;
use cell_types::{ColType, convert};
use doc_model::DocTables;
use doc_readers::{find_column, rows_in};
use formula_eval::Steps;
use par_recalc::{CellAttempt, ColumnFormula, Found, LevelPlan, attempt_rows, levels};
use recalc::{ColumnIndex, KeptTable, KnownReader};
use std::alloc::{AllocError, Global};
use std::sync::ledger::Ledger;
use std::thread::Threads;

// How many attempts are held at once: one takes some 400 bytes until its value is put.
const SLICE: usize = 16_384;

// Attempts at the cells of a column in some rows, over what is known.
fn try_rows<T: Threads + Sync, D: DocTables<Back: Send> + Sync>(
    rt: &T,
    alloc: Global,
    tables: &D,
    kept: &[KeptTable],
    indexes: &[ColumnIndex],
    column: &ColumnFormula,
    ty: &ColType,
    rows: &[u32],
) -> Result<Vec<CellAttempt>, AllocError>
    requires whole { IsWhole (D.document tables.now) }
    requires settled { IsSettled (D.document tables.now) kept.now }
    requires indexed { AreIndexes (sheet_of (D.document tables.now)) indexes.now }
    requires listed { IsListedAs (D.document tables.now) ty.now column.now }
    ensures { IfOk result
        (λ v. AllByRecursion (WasTried (D.document tables.now) ty.now) v.items) }
{
    let reader = KnownReader {
        tables,
        kept,
        indexes,
        last: &None,
    };
    attempt_rows(rt, alloc, column, rows, &reader)
}

// Puts what an attempt found, where its cell has no value yet, and records it: nothing where it
// needs another cell. A step for each value that is put.
fn keep_attempt<D: DocTables, L: Ledger>(
    alloc: Global,
    tables: &D,
    kept: &mut Vec<KeptTable>,
    reads: &mut KnownReads,
    ty: &ColType,
    attempt: CellAttempt,
    steps: &mut Steps<L>,
) -> Result<(), AllocError>
    requires whole { IsWhole (D.document tables.now) }
    requires settled { IsSettled (D.document tables.now) kept.old.items }
    requires tried { WasTried (D.document tables.now) ty.now attempt }
    ensures walked { OnOk result (IsWalked (D.document tables.now) kept.old.items reads.old
        steps.old kept.new.items reads.new steps.new) }
{
    let CellAttempt { cell, found } = attempt;
    let Found::Value { value, notes } = found else {
        return Ok(());
    };
    if !is_open(tables, kept, &cell) {
        return Ok(());
    }
    let value = convert(alloc, ty, &value)?;
    // What cells read before is not asked for: there was nothing.
    let done = reads.keep_notes(&cell, &notes);
    reads.watch(alloc);
    done?;
    put_value(tables, kept, &cell, value);
    steps.tick();
    Ok(())
}

// Evaluates the cells of a column in some rows, where they need nothing that is not known.
fn settle_slice<T: Threads + Sync, D: DocTables<Back: Send> + Sync, L: Ledger>(
    rt: &T,
    alloc: Global,
    tables: &D,
    evaluated: &mut Evaluated,
    column: &ColumnFormula,
    ty: &ColType,
    rows: &[u32],
    steps: &mut Steps<L>,
) -> Result<(), AllocError>
    requires whole { IsWhole (D.document tables.now) }
    requires indexed { AreIndexes (sheet_of (D.document tables.now)) evaluated.old.indexes.items }
    requires settled { IsSettled (D.document tables.now) evaluated.old.kept.items }
    requires listed { IsListedAs (D.document tables.now) ty.now column.now }
    ensures walked { OnOk result (IsWalked (D.document tables.now) evaluated.old.kept.items
        evaluated.old.reads steps.old evaluated.new.kept.items evaluated.new.reads steps.new) }
    ensures indexes { evaluated.new.indexes ≡ evaluated.old.indexes }
{
    let Evaluated {
        kept,
        reads,
        indexes,
    } = evaluated;
    let attempts = try_rows(rt, alloc, tables, kept, indexes, column, ty, rows)?;
    for attempt in attempts {
        keep_attempt(alloc, tables, kept, reads, ty, attempt, steps)?;
    }
    Ok(())
}

// The same in all these rows, slice by slice.
fn settle_rows<T: Threads + Sync, D: DocTables<Back: Send> + Sync, L: Ledger>(
    rt: &T,
    alloc: Global,
    tables: &D,
    evaluated: &mut Evaluated,
    column: &ColumnFormula,
    ty: &ColType,
    rows: &[u32],
    steps: &mut Steps<L>,
) -> Result<(), AllocError>
    requires whole { IsWhole (D.document tables.now) }
    requires indexed { AreIndexes (sheet_of (D.document tables.now)) evaluated.old.indexes.items }
    requires settled { IsSettled (D.document tables.now) evaluated.old.kept.items }
    requires listed { IsListedAs (D.document tables.now) ty.now column.now }
    ensures walked { OnOk result (IsWalked (D.document tables.now) evaluated.old.kept.items
        evaluated.old.reads steps.old evaluated.new.kept.items evaluated.new.reads steps.new) }
    ensures indexes { evaluated.new.indexes ≡ evaluated.old.indexes }
{
    for slice in rows.chunks(SLICE) {
        settle_slice(rt, alloc, tables, evaluated, column, ty, slice, steps)?;
    }
    Ok(())
}

// The same in all rows of its table.
fn settle_listed<T: Threads + Sync, D: DocTables<Back: Send> + Sync, L: Ledger>(
    rt: &T,
    alloc: Global,
    tables: &D,
    evaluated: &mut Evaluated,
    column: &ColumnFormula,
    steps: &mut Steps<L>,
) -> Result<(), AllocError>
    requires whole { IsWhole (D.document tables.now) }
    requires indexed { AreIndexes (sheet_of (D.document tables.now)) evaluated.old.indexes.items }
    requires settled { IsSettled (D.document tables.now) evaluated.old.kept.items }
    requires listed { IsListed (D.document tables.now) column.now }
    ensures walked { OnOk result (IsWalked (D.document tables.now) evaluated.old.kept.items
        evaluated.old.reads steps.old evaluated.new.kept.items evaluated.new.reads steps.new) }
    ensures indexed { OnOk result
        (AreIndexes (sheet_of (D.document tables.now)) evaluated.new.indexes.items) }
{
    let Some(found) = find_column(tables, &column.table, &column.column) else {
        return Ok(());
    };
    index_formula(alloc, tables, &mut evaluated.indexes, &column.formula)?;
    let rows = rows_in(tables, &column.table);
    settle_rows(
        rt,
        alloc,
        tables,
        evaluated,
        column,
        &found.info.ty,
        rows,
        steps,
    )
}

// Evaluates the cells of the columns of a level.
fn settle_level<T: Threads + Sync, D: DocTables<Back: Send> + Sync, L: Ledger>(
    rt: &T,
    alloc: Global,
    tables: &D,
    evaluated: &mut Evaluated,
    columns: &[ColumnFormula],
    places: &[usize],
    steps: &mut Steps<L>,
) -> Result<(), AllocError>
    requires whole { IsWhole (D.document tables.now) }
    requires indexed { AreIndexes (sheet_of (D.document tables.now)) evaluated.old.indexes.items }
    requires settled { IsSettled (D.document tables.now) evaluated.old.kept.items }
    requires listed { AreListed (D.document tables.now) columns.now }
    ensures walked { OnOk result (IsWalked (D.document tables.now) evaluated.old.kept.items
        evaluated.old.reads steps.old evaluated.new.kept.items evaluated.new.reads steps.new) }
    ensures indexed { OnOk result
        (AreIndexes (sheet_of (D.document tables.now)) evaluated.new.indexes.items) }
{
    for place in places {
        let Some(column) = columns.get(*place) else {
            return Ok(());
        };
        settle_listed(rt, alloc, tables, evaluated, column, steps)?;
    }
    Ok(())
}

/// Evaluates formula cells level by level. What it leaves open is a cell of a column that has no
/// level, or whose text has no tree, or that needs a cell of such a column.
///
/// Errors: out of memory; the indexes are then to be given up.
/// Memory: what the attempts at some thousand cells found, beside the values, the graph, and an
/// index of each data column by which a formula may look rows up.
pub(crate) fn settle_levels<T: Threads + Sync, D: DocTables<Back: Send> + Sync, L: Ledger>(
    rt: &T,
    alloc: Global,
    tables: &D,
    evaluated: &mut Evaluated,
    steps: &mut Steps<L>,
) -> Result<(), AllocError>
    requires whole { IsWhole (D.document tables.now) }
    requires indexed { AreIndexes (sheet_of (D.document tables.now)) evaluated.old.indexes.items }
    requires settled { IsSettled (D.document tables.now) evaluated.old.kept.items }
    ensures walked { OnOk result (IsWalked (D.document tables.now) evaluated.old.kept.items
        evaluated.old.reads steps.old evaluated.new.kept.items evaluated.new.reads steps.new) }
    ensures indexed { OnOk result
        (AreIndexes (sheet_of (D.document tables.now)) evaluated.new.indexes.items) }
{
    let formulas = formula_list(alloc, tables)?;
    let plan: LevelPlan<'_> = levels(alloc, &formulas)?;
    for level in 0..plan.count() {
        settle_level(
            rt,
            alloc,
            tables,
            evaluated,
            plan.formulas(),
            plan.places(level),
            steps,
        )?;
    }
    Ok(())
}
