//! Cells evaluated anew, with what they read, where the values of all others are known.

ghost use Rattle.std.specs.Prelude.{◌≡◌, ◌+◌, ◌≤◌, List, [], true, IfOk, OnErr, OnOk};
ghost use Rattle.std.specs.Option.{is_some};
ghost use Rattle.cell_types.specs.declared.cell.CellId.{CellId};
ghost use Rattle.doc_model.specs.Document.{Document};
ghost use Rattle.doc_model.specs.DocumentLaws.{IsWhole};
ghost use Rattle.recalc.specs.Evaluated.{sheet_of};
ghost use Rattle.recalc.specs.Indexes.{AreIndexes};
ghost use Rattle.recalc.specs.Kept.{IsEvaluated, IsFurther, IsKeptOf, IsSettled, held_at};
ghost use Rattle.recalc.specs.Remembered.{IsRemembered};
ghost use Rattle.recalc.specs.Stack.{on};
ghost use Rattle.affected_cells.specs.Bound.{attempt_bound};
ghost use Rattle.affected_search.specs.ExactNotes.{HasNotes};
ghost use Rattle.affected_values.specs.Taken.{IsHeldWhere, IsRightBut, LeadsBack, taken_of};
ghost use Rattle.known_reads.specs.Attempts.{HasFormulas, IsWithin, due, most_attempts};
ghost use Rattle.known_reads.specs.Beside.{KnowsExact, KnowsReads};
ghost use Rattle.known_reads.specs.Recorded.{IsRecording, KnowsBut};
ghost use Rattle.known_reads.specs.Watched.{AreBefore, IsGoneNoted, IsWatched};

use crate::beside::KnownReads;
use crate::laid::{LaidReads, ReadsBefore};
use crate::settling::settle_cell;
use affected_values::{HeldValue, put_values_back, take_values};
use cell_types::CellId;
use doc_model::DocTables;
use formula_eval::Steps;
use recalc::{ColumnIndex, KeptTable, LastLookup};
use std::alloc::{AllocError, Global};
use std::sync::ledger::Ledger;

// Evaluates the cells whose values were taken out, where all values that are known are right, from
// a lookup that is remembered.
fn settle_each<D: DocTables, L: Ledger>(
    alloc: Global,
    tables: &D,
    kept: &mut Vec<KeptTable>,
    indexes: &mut Vec<ColumnIndex>,
    last: &mut Option<LastLookup>,
    reads: &mut KnownReads,
    taken: &[HeldValue],
    steps: &mut Steps<L>,
) -> Result<(), AllocError>
    requires whole { IsWhole (D.document tables.now) }
    requires indexed { AreIndexes (sheet_of (D.document tables.now)) indexes.old.items }
    requires remembered { IsRemembered (sheet_of (D.document tables.now)) last.old }
    requires settled { IsSettled (D.document tables.now) kept.old.items }
    ensures known { OnOk result ((c : CellId) → is_some (taken_of taken.now c) ≡ true
        → IsHeldWhere (D.document tables.now) kept.new.items c) }
    ensures further { IsFurther (D.document tables.now) kept.old.items kept.new.items }
    ensures recording { IsRecording (D.document tables.now)
        (held_at (D.document tables.now) kept.old.items) reads.old
        (held_at (D.document tables.now) kept.new.items) reads.new }
    ensures watched { IsWatched reads.old reads.new }
    ensures attempts { IsWithin (sheet_of (D.document tables.now))
        (held_at (D.document tables.now) kept.old.items) (due steps.old reads.old) steps.new }
    ensures due { OnOk result (IsWithin (sheet_of (D.document tables.now))
        (held_at (D.document tables.now) kept.old.items) (due steps.old reads.old)
        (due steps.new reads.new)) }
    ensures indexed { OnOk result
        (AreIndexes (sheet_of (D.document tables.now)) indexes.new.items) }
{
    for held in taken {
        settle_cell(alloc, tables, kept, indexes, last, reads, &held.cell, steps)?;
    }
    Ok(())
}

// Evaluates the cells whose values were taken out, where all values that are known are right.
fn settle_taken<D: DocTables, L: Ledger>(
    alloc: Global,
    tables: &D,
    kept: &mut Vec<KeptTable>,
    indexes: &mut Vec<ColumnIndex>,
    reads: &mut KnownReads,
    taken: &[HeldValue],
    steps: &mut Steps<L>,
) -> Result<(), AllocError>
    requires whole { IsWhole (D.document tables.now) }
    requires indexed { AreIndexes (sheet_of (D.document tables.now)) indexes.old.items }
    requires settled { IsSettled (D.document tables.now) kept.old.items }
    ensures known { OnOk result ((c : CellId) → is_some (taken_of taken.now c) ≡ true
        → IsHeldWhere (D.document tables.now) kept.new.items c) }
    ensures further { IsFurther (D.document tables.now) kept.old.items kept.new.items }
    ensures recording { IsRecording (D.document tables.now)
        (held_at (D.document tables.now) kept.old.items) reads.old
        (held_at (D.document tables.now) kept.new.items) reads.new }
    ensures watched { IsWatched reads.old reads.new }
    ensures attempts { IsWithin (sheet_of (D.document tables.now))
        (held_at (D.document tables.now) kept.old.items) (due steps.old reads.old) steps.new }
    ensures due { OnOk result (IsWithin (sheet_of (D.document tables.now))
        (held_at (D.document tables.now) kept.old.items) (due steps.old reads.old)
        (due steps.new reads.new)) }
    ensures indexed { OnOk result
        (AreIndexes (sheet_of (D.document tables.now)) indexes.new.items) }
{
    let mut last = None;
    let known = &mut last;
    let done = settle_each(alloc, tables, kept, indexes, known, reads, taken, steps);
    drop(last);
    done
}

// Evaluates these cells anew and records what they read, where it is noted what they read that come
// to read something else.
//
// Errors: out of memory; each value is then as it was.
fn refresh_noting<D: DocTables, L: Ledger>(
    alloc: Global,
    tables: &D,
    kept: &mut Vec<KeptTable>,
    indexes: &mut Vec<ColumnIndex>,
    reads: &mut KnownReads,
    cells: Vec<CellId>,
    steps: &mut Steps<L>,
) -> Result<Vec<HeldValue>, AllocError>
    requires whole { IsWhole (D.document tables.now) }
    requires indexed { AreIndexes (sheet_of (D.document tables.now)) indexes.old.items }
    requires of_document { IsKeptOf (D.document tables.now) kept.old.items }
    requires others { IsRightBut (D.document tables.now) kept.old.items cells.items }
    requires reads { KnowsBut (D.document tables.now) reads.old cells.items }
    requires none { reads.old.stale ≡ [] }
    ensures of_document { IsKeptOf (D.document tables.now) kept.new.items }
    ensures ok { OnOk result (IsEvaluated (D.document tables.now) kept.new.items) }
    ensures way { IfOk result (λ taken. LeadsBack (D.document tables.now) taken.items
        kept.new.items kept.old.items) }
    ensures reads { OnOk result (HasNotes reads.new.graph (sheet_of (D.document tables.now))) }
    ensures stale { OnOk result (reads.new.stale ≡ []) }
    ensures watched { IsWatched reads.old reads.new }
    ensures gone { OnOk result ((c : CellId) → on cells.items c ≡ true
        → IsGoneNoted (D.document tables.now) reads.old reads.new c) }
    ensures err { OnErr result
        (LeadsBack (D.document tables.now) [] kept.new.items kept.old.items) }
    ensures indexed { OnOk result
        (AreIndexes (sheet_of (D.document tables.now)) indexes.new.items) }
    ensures attempts { steps.new ≤ steps.old
        + most_attempts (sheet_of (D.document tables.now)) cells.items }
    ensures named { (all : List CellId) → HasFormulas (D.document tables.now) cells.items all
        → steps.new ≤ steps.old + attempt_bound (sheet_of (D.document tables.now)) all }
{
    let mut taken = Vec::with_capacity(alloc, cells.len())?;
    reads.forget_plain(tables, cells.as_slice())?;
    take_values(tables, kept, cells, &mut taken);
    match settle_taken(alloc, tables, kept, indexes, reads, &taken, steps) {
        Ok(()) => match reads.record_stale(alloc, tables, kept, indexes, steps) {
            Ok(()) => Ok(taken),
            Err(_) => {
                put_values_back(tables, kept, taken);
                Err(AllocError)
            }
        },
        Err(_) => {
            put_values_back(tables, kept, taken);
            Err(AllocError)
        }
    }
}

/// What was known of cells that are evaluated anew, and what cells read before.
#[derive(Drop)]
pub struct Refreshed {
    pub taken: Vec<HeldValue>,
    pub before: ReadsBefore,
}

/// Evaluates these cells anew, where the values of all other formula cells are known and right, and
/// records what they read by the same attempts; of circular cells that were given their values
/// without a whole run, by one attempt more, once all values are known. What was known of them is
/// handed out, so that it can be put back, and so is what cells read that read something else.
/// Makes the indexes of the data columns by which the cells look rows up, where they have none.
///
/// Errors: out of memory; each value is then as it was, what cells read that was recorded is laid
/// aside, and the indexes are to be given up.
/// Memory: a place for each of the cells, a stack as deep as the chains of those that are
/// evaluated, what the graph takes, what cells read that read something else, and the indexes.
/// Cost: that of the cells that are evaluated, and the making of indexes.
pub fn refresh_recording<D: DocTables, L: Ledger>(
    alloc: Global,
    tables: &D,
    kept: &mut Vec<KeptTable>,
    indexes: &mut Vec<ColumnIndex>,
    reads: &mut KnownReads,
    cells: Vec<CellId>,
    steps: &mut Steps<L>,
) -> Result<Refreshed, AllocError>
    requires whole { IsWhole (D.document tables.now) }
    requires indexed { AreIndexes (sheet_of (D.document tables.now)) indexes.old.items }
    requires of_document { IsKeptOf (D.document tables.now) kept.old.items }
    requires others { IsRightBut (D.document tables.now) kept.old.items cells.items }
    requires reads { KnowsBut (D.document tables.now) reads.old cells.items }
    requires none { reads.old.stale ≡ [] }
    requires owed { reads.old.owed ≡ [] }
    ensures of_document { IsKeptOf (D.document tables.now) kept.new.items }
    ensures ok { OnOk result (IsEvaluated (D.document tables.now) kept.new.items) }
    ensures way { IfOk result (λ x. LeadsBack (D.document tables.now) x.taken.items
        kept.new.items kept.old.items) }
    ensures reads { OnOk result (KnowsReads (D.document tables.now) reads.new) }
    ensures before { IfOk result
        (λ x. AreBefore (D.document tables.now) reads.old cells.items x.before.were.items) }
    ensures err { OnErr result
        (LeadsBack (D.document tables.now) [] kept.new.items kept.old.items) }
    ensures laid { OnErr result
        ((s : Document) → KnowsExact s reads.old → KnowsReads s reads.new) }
    ensures indexed { OnOk result
        (AreIndexes (sheet_of (D.document tables.now)) indexes.new.items) }
    // Two attempts a cell at most, and a third for a circular one, whatever comes of them.
    ensures attempts { steps.new ≤ steps.old
        + most_attempts (sheet_of (D.document tables.now)) cells.items }
    // One for each cell, and one for each of them that it names.
    ensures named { (all : List CellId) → HasFormulas (D.document tables.now) cells.items all
        → steps.new ≤ steps.old + attempt_bound (sheet_of (D.document tables.now)) all }
{
    let room = Box::new(alloc, LaidReads::none())?;
    reads.watch(alloc);
    match refresh_noting(alloc, tables, kept, indexes, reads, cells, steps) {
        Ok(taken) => {
            let before = reads.take_before(alloc, room);
            Ok(Refreshed { taken, before })
        }
        Err(_) => {
            reads.lay_noted(alloc, room);
            Err(AllocError)
        }
    }
}
