//! One attempt at each cell of a level, in as many threads as serve.

ghost use Rattle.std.specs.Prelude.{◌≡◌, ◌<◌, IfOk, length, slice_get};
ghost use Rattle.std.specs.List.{AllZip};
ghost use Rattle.std.specs.Option.{option_copied};
ghost use Rattle.formula_eval.specs.Eval.{evaluated};
ghost use Rattle.par_recalc.specs.Attempts.{AreAttempts, IsAt, IsCellAttempt, IsFound, IsFoundOf, cells_of, cells_of_some, places_cells};

use crate::plan::{ColumnFormula, LevelPlan};
use cell_types::{CellId, CellValue, RowRef, Sequence};
use dep_graph::NoteRuns;
use formula_eval::{CellReader, Steps, Tried, attempt_noting};
use formula_parse::Formula;
use rayon::prelude::*;
use std::alloc::{AllocError, Global};
use std::marker::Brand;
use std::sync::ledger::{Blank, Ledger};
use std::thread::Threads;

// How many attempts a thread is started for, at least.
const LEAST_PIECE: usize = 512;

/// What is found of a cell.
#[derive(Drop)]
pub enum Found {
    /// The value, and what its run noted.
    Value { value: CellValue, notes: NoteRuns },
    /// A cell whose value is needed first.
    Need(CellId),
}

/// A cell and what an attempt at it comes to: its value is not yet fitted to its column.
#[derive(Drop)]
pub struct CellAttempt {
    pub cell: CellId,
    pub found: Found,
}

/// Attempts in order.
pub type AttemptList = Sequence<CellAttempt>;

fn found_of(tried: Tried, notes: NoteRuns) -> Found
    ensures { IsFoundOf result tried notes }
{
    match tried {
        Tried::Value(value) => Found::Value { value, notes },
        Tried::Need(cell) => Found::Need(cell),
    }
}

// One attempt at a formula in a row.
fn attempt_found<R: CellReader, L: Ledger>(
    alloc: Global,
    formula: &Formula,
    at: &RowRef,
    reader: &R,
    steps: &mut Steps<L>,
) -> Result<Found, AllocError>
    ensures { IfOk result (IsFound (R.told reader.now)
        (evaluated (R.told reader.now) at.now formula.now)) }
{
    let mut notes = NoteRuns::new(alloc);
    let tried = attempt_noting(alloc, formula, at, reader, &mut notes, steps)?;
    Ok(found_of(tried, notes))
}

// One attempt at a cell, in a count of its own.
fn attempt_counted<R: CellReader, L: Ledger>(
    alloc: Global,
    column: &ColumnFormula,
    row: u32,
    reader: &R,
    blank: Blank,
) -> Result<CellAttempt, AllocError>
    requires name { blank.name ≡ L.name }
    requires parts { blank.parts ≡ L.parts }
    requires some { 0 < L.parts }
    ensures { IfOk result (IsCellAttempt (R.told reader.now) column.now row) }
{
    let mut steps = Steps::<L>::new(blank);
    let at = RowRef {
        table: column.table.clone()?,
        row,
    };
    let cell = CellId {
        table: column.table.clone()?,
        column: column.column.clone()?,
        row,
    };
    let found = attempt_found(alloc, &column.formula, &at, reader, &mut steps)?;
    Ok(CellAttempt { cell, found })
}

// One attempt at a cell.
fn attempt_cell<R: CellReader>(
    alloc: Global,
    column: &ColumnFormula,
    row: u32,
    reader: &R,
) -> Result<CellAttempt, AllocError>
    ensures { IfOk result (IsCellAttempt (R.told reader.now) column.now row) }
{
    attempt_counted::<R, Brand>(alloc, column, row, reader, Blank::new(1))
}

/// An attempt at the cell of a column in each of these rows, in order, by several threads where
/// there are more than a thousand.
///
/// Errors: out of memory.
/// Memory: of each attempt its value and a note for each read and each lookup.
pub fn attempt_rows<T: Threads + Sync, R: CellReader + Sync>(
    rt: &T,
    alloc: Global,
    column: &ColumnFormula,
    rows: &[u32],
    reader: &R,
) -> Result<Vec<CellAttempt>, AllocError>
    ensures { IfOk result
        (λ v. AllZip (IsCellAttempt (R.told reader.now) column.now) rows.now v.items) }
{
    rows.par_iter()
        .map(
            |row: &u32| -> Result<CellAttempt, AllocError>
                ensures { IfOk result
                    (IsCellAttempt (R.told reader.entry.now) column.entry.now row.now) }
            { attempt_cell(alloc, column, *row, reader) },
        )
        .with_min_len(LEAST_PIECE)
        .collect::<Result<Vec<CellAttempt>, AllocError>>(rt, alloc)?
}

// At each cell of a column, by rows.
fn attempt_column<T: Threads + Sync, R: CellReader + Sync>(
    rt: &T,
    alloc: Global,
    column: &ColumnFormula,
    reader: &R,
) -> Result<Vec<CellAttempt>, AllocError>
    ensures { IfOk result
        (λ v. AllZip (IsAt (R.told reader.now)) (cells_of (R.told reader.now) column.now) v.items) }
{
    match reader.rows(&column.table) {
        Some(rows) => attempt_rows(rt, alloc, column, rows, reader),
        None => Ok(Vec::new(alloc)),
    }
}

// At each cell of a column, where there is one.
fn attempt_some<T: Threads + Sync, R: CellReader + Sync>(
    rt: &T,
    alloc: Global,
    column: Option<&ColumnFormula>,
    reader: &R,
) -> Result<Vec<CellAttempt>, AllocError>
    ensures { IfOk result (λ v. AllZip (IsAt (R.told reader.now))
        (cells_of_some (R.told reader.now) (option_copied column.entry)) v.items) }
{
    match column {
        Some(column) => attempt_column(rt, alloc, column, reader),
        None => Ok(Vec::new(alloc)),
    }
}

fn column_at(columns: &[ColumnFormula], place: usize) -> Option<&ColumnFormula>
    ensures { option_copied result ≡ slice_get columns.now place }
{
    columns.get(place)
}

// At each cell of the columns at some places, one place after the other.
fn run_places<T: Threads + Sync, R: CellReader + Sync>(
    rt: &T,
    alloc: Global,
    columns: &[ColumnFormula],
    places: &[usize],
    reader: &R,
) -> Result<Vec<CellAttempt>, AllocError>
    ensures { IfOk result (λ v. AllZip (IsAt (R.told reader.now))
        (places_cells (R.told reader.now) columns.now places.now) v.items) }
{
    let mut all = Vec::new(alloc);
    for place in places {
        let mut found = attempt_some(rt, alloc, column_at(columns, *place), reader)?;
        all.append(&mut found)?;
    }
    Ok(all)
}

/// An attempt at each cell of a level, over what the reader tells: column after column in the
/// order of the plan, and by rows. The list is the one that attempts one after the other give.
///
/// Errors: out of memory.
/// Memory: that of all attempts.
pub fn run_level<T: Threads + Sync, R: CellReader + Sync>(
    rt: &T,
    alloc: Global,
    plan: &LevelPlan<'_>,
    level: usize,
    reader: &R,
) -> Result<AttemptList, AllocError>
    requires { level < length plan.now.levels }
    ensures { IfOk result (AreAttempts (R.told reader.now) plan.now level) }
{
    let all = run_places(rt, alloc, plan.formulas(), plan.places(level), reader)?;
    Ok(AttemptList::from(all))
}
