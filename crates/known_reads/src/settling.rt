//! Cells evaluated with a stack in memory, each recorded by the attempt that finds its value.

ghost use Rattle.std.specs.Prelude.{◌≡◌, ◌+◌, ◌<◌, ◌≤◌, ◌++◌, ◌∷◌, [], cond, true, false, Some, OnErr, OnOk, vec_len};
ghost use Rattle.cell_types.specs.declared.cell.CellId.{CellId};
ghost use Rattle.doc_model.specs.DocumentLaws.{IsWhole};
ghost use Rattle.recalc.specs.Cells.{same_cell};
ghost use Rattle.recalc.specs.Evaluated.{sheet_of};
ghost use Rattle.recalc.specs.Indexes.{AreIndexes};
ghost use Rattle.recalc.specs.Kept.{IsFurther, IsKeptOf, IsSettled, held_at};
ghost use Rattle.recalc.specs.Remembered.{IsRemembered};
ghost use Rattle.recalc.specs.Stack.{IsOpen, IsWorking, on};
ghost use Rattle.recalc.specs.Turn.{IsTurn, StaysKnown};
ghost use Rattle.affected_values.specs.Taken.{IsHeldWhere};
ghost use Rattle.known_reads.specs.Attempts.{IsNaming, IsSpent, IsWithin, due};
ghost use Rattle.known_reads.specs.Recorded.{IsRecording};
ghost use Rattle.known_reads.specs.Watched.{IsWatched};

use crate::attempting::try_cell;
use crate::beside::KnownReads;
use cell_types::{CellId, CellValue, ErrKind};
use doc_model::DocTables;
use formula_eval::{Reading, Steps};
use par_recalc::Found;
use recalc::{ColumnIndex, KeptTable, LastLookup, cell_id, cell_told, exchange_value};
use std::alloc::{AllocError, Global};
use std::sync::ledger::Ledger;

fn is_same(left: &CellId, right: &CellId) -> bool
    ensures { result ≡ same_cell left.now right.now }
{
    // Rows first: most cells differ in them, and they cost least.
    left.row == right.row
        && left.column.as_str() == right.column.as_str()
        && left.table.as_str() == right.table.as_str()
}

fn holds(stack: &[CellId], cell: &CellId) -> bool
    ensures { result ≡ on stack.now cell.now }
{
    stack.iter().any(|held| is_same(held, cell))
}

fn is_on(stack: &[CellId], top: &CellId, cell: &CellId) -> bool
    ensures { result ≡ on (stack.now ++ top.now ∷ []) cell.now }
{
    holds(stack, cell) || is_same(top, cell)
}

/// Whether a cell is a formula cell whose value is not known.
pub(crate) fn is_open<D: DocTables>(tables: &D, kept: &[KeptTable], cell: &CellId) -> bool
    requires whole { IsWhole (D.document tables.now) }
    requires of_document { IsKeptOf (D.document tables.now) kept.now }
    ensures opened { result ≡ true → IsOpen (sheet_of (D.document tables.now))
        (held_at (D.document tables.now) kept.now) cell.now }
    ensures held { result ≡ false → IsHeldWhere (D.document tables.now) kept.now cell.now }
{
    match cell_told(tables, kept, &cell.table, &cell.column, cell.row) {
        Reading::Need => true,
        _ => false,
    }
}

/// Puts the value of a formula cell in its place.
pub(crate) fn put_value<D: DocTables>(
    tables: &D,
    kept: &mut Vec<KeptTable>,
    cell: &CellId,
    value: CellValue,
)
    requires whole { IsWhole (D.document tables.now) }
    requires of_document { IsKeptOf (D.document tables.now) kept.old.items }
    requires opened { IsOpen (sheet_of (D.document tables.now))
        (held_at (D.document tables.now) kept.old.items) cell.now }
    ensures of_document { IsKeptOf (D.document tables.now) kept.new.items }
    ensures put { (c : CellId) → held_at (D.document tables.now) kept.new.items c
        ≡ cond (same_cell cell.now c) (Some value)
        (held_at (D.document tables.now) kept.old.items c) }
{
    let before = exchange_value(tables, kept, cell, Some(value));
    drop(before);
}

// One attempt at the cell on top of the stack. A cell that waits for itself is given its value
// without a whole run: it is stale until it is attempted once more, for what it reads.
fn turn<D: DocTables, L: Ledger>(
    alloc: Global,
    tables: &D,
    kept: &mut Vec<KeptTable>,
    indexes: &mut Vec<ColumnIndex>,
    last: &mut Option<LastLookup>,
    reads: &mut KnownReads,
    stack: &mut Vec<CellId>,
    steps: &mut Steps<L>,
) -> Result<(), AllocError>
    requires whole { IsWhole (D.document tables.now) }
    requires indexed { AreIndexes (sheet_of (D.document tables.now)) indexes.old.items }
    requires remembered { IsRemembered (sheet_of (D.document tables.now)) last.old }
    requires of_document { IsKeptOf (D.document tables.now) kept.old.items }
    requires working { IsWorking (sheet_of (D.document tables.now))
        (held_at (D.document tables.now) kept.old.items) stack.old.items }
    requires naming { IsNaming (sheet_of (D.document tables.now)) stack.old.items }
    requires some { 0 < vec_len stack.old }
    ensures of_document { OnOk result (IsKeptOf (D.document tables.now) kept.new.items) }
    ensures indexed { OnOk result
        (AreIndexes (sheet_of (D.document tables.now)) indexes.new.items) }
    ensures remembered { OnOk result
        (IsRemembered (sheet_of (D.document tables.now)) last.new) }
    ensures err { OnErr result (kept.new ≡ kept.old) }
    ensures stays { StaysKnown (held_at (D.document tables.now) kept.old.items)
        (held_at (D.document tables.now) kept.new.items) }
    ensures turn { OnOk result (IsTurn (sheet_of (D.document tables.now))
        (held_at (D.document tables.now) kept.old.items) stack.old.items
        (held_at (D.document tables.now) kept.new.items) stack.new.items) }
    ensures recording { IsRecording (D.document tables.now)
        (held_at (D.document tables.now) kept.old.items) reads.old
        (held_at (D.document tables.now) kept.new.items) reads.new }
    ensures watched { IsWatched reads.old reads.new }
    ensures naming { OnOk result (IsNaming (sheet_of (D.document tables.now)) stack.new.items) }
    ensures steps { steps.new ≤ steps.old + 1 }
    ensures attempts { OnOk result (IsSpent (sheet_of (D.document tables.now))
        (held_at (D.document tables.now) kept.old.items) stack.old.items (due steps.old reads.old)
        (held_at (D.document tables.now) kept.new.items) stack.new.items
        (due steps.new reads.new)) }
{
    let Some(top) = stack.pop() else {
        unreachable!();
    };
    match try_cell(alloc, tables, kept, indexes, last, &top, steps)? {
        Found::Value { value, notes } => {
            reads.keep_notes(&top, &notes)?;
            put_value(tables, kept, &top, value);
        }
        Found::Need(cell) => {
            if is_on(&*stack, &top, &cell) {
                reads.add_stale(&top)?;
                put_value(tables, kept, &top, CellValue::Err(ErrKind::Circular));
                return Ok(());
            }
            stack.push(top)?;
            stack.push(cell)?;
        }
    }
    Ok(())
}

/// Makes the value of a cell known, where it is a formula cell, and records what it reads, and each
/// cell that it needs and whose value was not known. A cell that waits for itself is stale then.
///
/// Errors: out of memory; what was known is then known still, and what is known is right.
/// Memory: a stack as deep as the chain of cells that it needs, the values, and what the graph
/// takes.
pub(crate) fn settle_cell<D: DocTables, L: Ledger>(
    alloc: Global,
    tables: &D,
    kept: &mut Vec<KeptTable>,
    indexes: &mut Vec<ColumnIndex>,
    last: &mut Option<LastLookup>,
    reads: &mut KnownReads,
    cell: &CellId,
    steps: &mut Steps<L>,
) -> Result<(), AllocError>
    requires whole { IsWhole (D.document tables.now) }
    requires settled { IsSettled (D.document tables.now) kept.old.items }
    requires indexed { AreIndexes (sheet_of (D.document tables.now)) indexes.old.items }
    requires remembered { IsRemembered (sheet_of (D.document tables.now)) last.old }
    ensures further { IsFurther (D.document tables.now) kept.old.items kept.new.items }
    ensures known { OnOk result (IsHeldWhere (D.document tables.now) kept.new.items cell.now) }
    ensures indexed { OnOk result
        (AreIndexes (sheet_of (D.document tables.now)) indexes.new.items) }
    ensures remembered { OnOk result
        (IsRemembered (sheet_of (D.document tables.now)) last.new) }
    ensures recording { IsRecording (D.document tables.now)
        (held_at (D.document tables.now) kept.old.items) reads.old
        (held_at (D.document tables.now) kept.new.items) reads.new }
    ensures watched { IsWatched reads.old reads.new }
    ensures attempts { OnOk result (IsSpent (sheet_of (D.document tables.now))
        (held_at (D.document tables.now) kept.old.items) [] (due steps.old reads.old)
        (held_at (D.document tables.now) kept.new.items) [] (due steps.new reads.new)) }
    ensures most { IsWithin (sheet_of (D.document tables.now))
        (held_at (D.document tables.now) kept.old.items) (due steps.old reads.old) steps.new }
{
    if !is_open(tables, kept, cell) {
        return Ok(());
    }
    let mut stack = Vec::new(alloc);
    stack.push(cell_id(&cell.table, &cell.column, cell.row)?)?;
    'settling: while !stack.is_empty() {
        turn(alloc, tables, kept, indexes, last, reads, &mut stack, steps)?;
    }
    Ok(())
}
