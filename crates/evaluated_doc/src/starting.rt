//! What is kept of a document, from an evaluation of all of it.

ghost use Rattle.std.specs.Prelude.{◌≡◌, ◌+◌, ◌≤◌, ◌<◌, List, [], None, true, false, IfOk};
ghost use Rattle.std.specs.Option.{option_map};
ghost use Rattle.cell_types.specs.declared.cell.CellId.{CellId};
ghost use Rattle.doc_model.specs.DocumentLaws.{IsWhole};
ghost use Rattle.recalc.specs.Current.{IsCurrent, has_formulas};
ghost use Rattle.recalc.specs.Evaluated.{formula_cells, sheet_of};
ghost use Rattle.recalc.specs.Indexes.{AreIndexes};
ghost use Rattle.affected_cells.specs.Bound.{attempt_bound};
ghost use Rattle.known_reads.specs.Attempts.{HasFormulas};
ghost use Rattle.known_reads.specs.Beside.{KnowsReads};

use doc_model::DocTables;
use formula_eval::Steps;
use known_reads::{Evaluated, KnownReads, evaluate_in_levels, evaluate_recording};
use recalc::{ColumnIndex, KeptTable, has_formulas};
use std::alloc::{AllocError, Global};
use std::sync::ledger::{Blank, Ledger};
use std::thread::Threads;

/// The values of the formula cells of a document, what these read, and indexes of its data columns;
/// nothing where no column has a formula.
#[derive(Drop)]
pub(crate) struct Start {
    pub(crate) kept: Option<Vec<KeptTable>>,
    pub(crate) reads: KnownReads,
    pub(crate) indexes: Vec<ColumnIndex>,
}

// What is kept of a document without formulas.
fn plain_start<D: DocTables>(alloc: Global, _tables: &D) -> Start
    requires { has_formulas (D.document _tables.now) ≡ false }
    ensures none { result.kept ≡ None }
    ensures reads { KnowsReads (D.document _tables.now) result.reads }
    ensures empty { result.indexes.items ≡ [] }
{
    Start {
        kept: None,
        reads: KnownReads::new(alloc),
        indexes: Vec::new(alloc),
    }
}

/// Evaluates a document, of which the caller may know that no column has a formula. Makes no more
/// attempts than it takes at most for all formula cells, whatever comes of them.
///
/// Errors: out of memory. Memory and cost: none without formula columns but for a look at each
/// column, else as to `evaluate_recording`.
pub(crate) fn start_of<D: DocTables, L: Ledger>(
    alloc: Global,
    tables: &D,
    is_plain: bool,
    steps: &mut Steps<L>,
) -> Result<Start, AllocError>
    requires whole { IsWhole (D.document tables.now) }
    requires plain { is_plain ≡ true → has_formulas (D.document tables.now) ≡ false }
    ensures current { IfOk result
        (λ x. IsCurrent (D.document tables.now) (option_map (λ v. v.items) x.kept)) }
    ensures reads { IfOk result (λ x. KnowsReads (D.document tables.now) x.reads) }
    ensures indexed { IfOk result
        (λ x. AreIndexes (sheet_of (D.document tables.now)) x.indexes.items) }
    ensures named { (all : List CellId)
        → HasFormulas (D.document tables.now) (formula_cells (D.document tables.now)) all
        → steps.new ≤ steps.old + attempt_bound (sheet_of (D.document tables.now)) all }
{
    if is_plain || !has_formulas(tables) {
        return Ok(plain_start(alloc, tables));
    }
    let Evaluated {
        kept,
        reads,
        indexes,
    } = evaluate_recording(alloc, tables, steps)?;
    Ok(Start {
        kept: Some(kept),
        reads,
        indexes,
    })
}

/// Evaluates a document by levels, in as many threads as serve, in a count of its own.
///
/// Errors: out of memory. Memory and cost: none without formula columns but for a look at each
/// column, else as to `evaluate_in_levels`.
pub(crate) fn start_in_levels<T: Threads + Sync, D: DocTables<Back: Send> + Sync, L: Ledger>(
    rt: &T,
    alloc: Global,
    tables: &D,
    blank: Blank,
) -> Result<Start, AllocError>
    requires name { blank.name ≡ L.name }
    requires parts { blank.parts ≡ L.parts }
    requires some { 0 < L.parts }
    requires whole { IsWhole (D.document tables.now) }
    ensures current { IfOk result
        (λ x. IsCurrent (D.document tables.now) (option_map (λ v. v.items) x.kept)) }
    ensures reads { IfOk result (λ x. KnowsReads (D.document tables.now) x.reads) }
    ensures indexed { IfOk result
        (λ x. AreIndexes (sheet_of (D.document tables.now)) x.indexes.items) }
{
    if !has_formulas(tables) {
        return Ok(plain_start(alloc, tables));
    }
    let mut steps = Steps::<L>::new(blank);
    let Evaluated {
        kept,
        reads,
        indexes,
    } = evaluate_in_levels(rt, alloc, tables, &mut steps)?;
    Ok(Start {
        kept: Some(kept),
        reads,
        indexes,
    })
}
