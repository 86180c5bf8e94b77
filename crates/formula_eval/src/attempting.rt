//! One attempt at a formula.

ghost use Rattle.std.specs.Prelude.{◌≡◌, ◌+◌, IfOk};
ghost use Rattle.formula_eval.specs.Names.{IsNeeded};
ghost use Rattle.formula_eval.specs.Run.{reads_of};
ghost use Rattle.formula_eval.specs.Eval.{as_result, evaluated, is_too_long};
ghost use Rattle.formula_eval.specs.Attempted.{HasNoted, IsAttempt, IfNeed, IsTried};
ghost use Rattle.formula_eval.specs.Halted.{Comes, IsOut};

use crate::evaluate::value_of;
use crate::halt::Halt;
use crate::{Attempt, CellReader, NoteKeeper, NoteList, Steps, Tried};
use cell_types::{CellValue, ErrKind, RowRef};
use formula_parse::Formula;
use std::alloc::{AllocError, Global};
use std::sync::ledger::Ledger;

/// How many items or rows the value of a formula has at most.
pub const MAX_RESULT_ITEMS: usize = 10_000;

/// One attempt at a formula in a row of a table.
///
/// Errors: want of memory. What a formula raises is its value, an error.
/// Memory: the value, a note for each read and each lookup, and what is made on the way.
/// Cost: linear in the formula and in the rows and items that it works on, beside the reader's
/// calls.
/// Source: docs/FORMULAS.md, "Values".
pub fn attempt<R: CellReader, L: Ledger>(
    alloc: Global,
    formula: &Formula,
    at: &RowRef,
    reader: &R,
    steps: &mut Steps<L>,
) -> Result<Attempt, AllocError>
    // One step, whatever comes of it.
    ensures steps { steps.new ≡ steps.old + 1 }
    ensures value { IfOk result
        (λ a. IsAttempt a (evaluated (R.told reader.now) at.now formula.now)) }
    ensures need { IfOk result (λ a. IfNeed a (IsNeeded (R.told reader.now)
        (reads_of (evaluated (R.told reader.now) at.now formula.now).notes))) }
{
    let mut notes = NoteList::new(alloc);
    match attempt_noting(alloc, formula, at, reader, &mut notes, steps)? {
        Tried::Value(value) => Ok(Attempt::Value { value, notes }),
        Tried::Need(cell) => {
            drop(notes);
            Ok(Attempt::Need(cell))
        }
    }
}

/// One attempt at a formula, noted by a keeper of the caller's.
///
/// Errors: want of memory. What a formula raises is its value, an error.
/// Memory: the value, what the keeper takes, and what is made on the way.
/// Cost: as to `attempt`, beside the keeper's calls.
pub fn attempt_noting<R: CellReader, N: NoteKeeper, L: Ledger>(
    alloc: Global,
    formula: &Formula,
    at: &RowRef,
    reader: &R,
    notes: &mut N,
    steps: &mut Steps<L>,
) -> Result<Tried, AllocError>
    // One step, whatever comes of it.
    ensures steps { steps.new ≡ steps.old + 1 }
    ensures tried { IfOk result
        (λ t. IsTried t (evaluated (R.told reader.now) at.now formula.now)) }
    ensures noted { IfOk result (λ t. HasNoted t (N.noted notes.old) (N.noted notes.new)
        (evaluated (R.told reader.now) at.now formula.now)) }
{
    steps.tick();
    match result_of(alloc, reader, at, formula, notes) {
        Ok(value) => Ok(Tried::Value(value)),
        Err(Halt::Raised(kind)) => Ok(Tried::Value(CellValue::Err(kind))),
        Err(Halt::Circular) => Ok(Tried::Value(CellValue::Err(ErrKind::Circular))),
        Err(Halt::Need(cell)) => Ok(Tried::Need(cell)),
        Err(Halt::NoMemory) => Err(AllocError),
    }
}

fn result_of<R: CellReader, N: NoteKeeper>(
    alloc: Global,
    reader: &R,
    at: &RowRef,
    formula: &Formula,
    notes: &mut N,
) -> Result<CellValue, Halt>
    ensures { Comes result (N.noted notes.old) (N.noted notes.new)
        (evaluated (R.told reader.now) at.now formula.now) }
{
    as_result(value_of(alloc, reader, at, formula, notes)?)
}

fn as_result(value: CellValue) -> Result<CellValue, Halt>
    ensures { IsOut result (as_result value) }
{
    if is_too_long(&value) {
        drop(value);
        return Err(Halt::Raised(ErrKind::Overflow));
    }
    Ok(value)
}

#[tactic(auto, unfolding(crate::specs::Eval::result_bound))]
fn is_too_long(value: &CellValue) -> bool
    ensures { result ≡ is_too_long value.now }
{
    match value {
        CellValue::List(items) => items.len() > MAX_RESULT_ITEMS,
        CellValue::RecSet(set) => set.rows.len() > MAX_RESULT_ITEMS,
        _ => false,
    }
}
