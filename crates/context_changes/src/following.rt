//! What contexts are told of bundles of record actions, by the rows alone that these touched.

ghost use Rattle.std.specs.Prelude.{◌≡◌, List, map, true, IfOk};
ghost use Rattle.doc_model.specs.declared.action.DocAction.{DocAction};
ghost use Rattle.doc_model.specs.Document.{Document};
ghost use Rattle.doc_model.specs.LaidOut.{IsLaidOut};
ghost use Rattle.recalc.specs.Evaluated.{filled};
ghost use Rattle.action_censor.specs.Back.{back};
ghost use Rattle.action_censor.specs.Step.{Step, are_records, step_of};
ghost use Rattle.action_censor.specs.TouchedTables.{AreTouched, AreTouchedTables};
ghost use Rattle.context_changes.specs.Bundle.{IsBundle};
ghost use Rattle.context_changes.specs.Told.{told_of};

use crate::laws::hiding_law;
use acl_reading::RuleReading;
use acl_rules::Ctx;
use action_censor::{StepTrace, TouchedTable, follow, touched_tables};
use bundle_traces::bundle_law;
use doc_model::{DocReader, ViewActionList};
use std::alloc::{AllocError, Global};

// What a context is told, by the tables that steps touched.
fn tell_by_rows<D: DocReader>(
    alloc: Global,
    tables: &D,
    touched: &[TouchedTable],
    ctx: &Ctx,
) -> Result<ViewActionList, AllocError>
    requires laid_out { IsLaidOut (D.document tables.now) }
    requires touched { AreTouched (D.document tables.now) touched.now }
    ensures { IfOk result (λ l. (ks : List Step)
        → AreTouchedTables ks (D.document tables.now) touched.now
        → l ≡ told_of (back ks (D.document tables.now)) (D.document tables.now) ctx.now ctx.now) }
{
    hiding_law();
    Ok(follow(alloc, &RuleReading { ctx }, tables, touched)?)
}

/// What each context is told of a bundle of record actions that leaves the contexts as they are, by
/// its steps and the evaluated document after it. The touched rows are looked at once for all.
///
/// Errors: out of memory.
/// Cost: that of `touched_tables`, and for each context that of `follow`.
pub fn tell_narrow<D: DocReader>(
    alloc: Global,
    tables: &D,
    steps: &[StepTrace<'_>],
    contexts: &[Ctx],
) -> Result<Vec<ViewActionList>, AllocError>
    requires laid_out { IsLaidOut (D.document tables.now) }
    requires records { are_records (map step_of steps.now) ≡ true }
    ensures { IfOk result (λ l. (s : Document) (actions : List DocAction)
        → IsBundle s actions (map step_of steps.now) (D.document tables.now)
        → l.items ≡ map (λ x. told_of (filled s) (D.document tables.now) x x) contexts.now) }
{
    bundle_law();
    let touched = touched_tables(alloc, tables, steps)?;
    let mut told = Vec::new(alloc);
    for ctx in contexts {
        told.push(tell_by_rows(alloc, tables, touched.as_slice(), ctx)?)?;
    }
    Ok(told)
}
