//! The judgement of an undo: each step is judged where those before it are done.

ghost use Rattle.std.specs.Prelude.{◌≡◌, [], ◌<◌, ◌^◌, length, IfErr, IfOk, OnErr, None, Some};
ghost use Rattle.doc_model.specs.DocumentLaws.{IsWhole};
ghost use Rattle.action_limits.specs.Tallies.{IsTally};
ghost use Rattle.bundle_judge.specs.declared.bare_verdict.BareVerdict.TheVariants.{Refused};
ghost use Rattle.bundle_judge.specs.CarriedContexts.{MayCarry, carried_context};
ghost use Rattle.bundle_judge.specs.JudgedBundles.{IsDoneBundle, IsJudgedBundle, IsToldBundle};
ghost use Rattle.rule_contexts.specs.Context.{context};
ghost use Rattle.bundle_judge.specs.Rollback.{AllLeadBack, gone_back};
ghost use Rattle.bundle_judge.specs.Undo.{judge_own_undo, judge_undo, refusal_of, stale_at};
ghost use Rattle.bundle_judge.specs.UndoneSteps.{MayGoOn};
ghost use Rattle.undo_bundles.specs.BundleLog.{undo_of};

use crate::bare_verdict::BareVerdict;
use crate::carried_context::{CarriedContext, rename_any};
use crate::checking::do_checked;
use crate::judging::{BundlePlan, JudgedBundle, limited, settle};
use crate::rollback::Trail;
use crate::split_steps::SplitSteps;
use acl_rules::Ctx;
use action_limits::Tally;
use doc_actions::is_valid;
use doc_model::{DocAction, DocTables, Refusal, Step, StepList};
use evaluated_doc::Doc;
use std::alloc::{AllocError, Global};
use undo_bundles::{BundleLog, LogFault};

// The tally after an action of an undo, or why the action is refused.
fn judge_step<D: DocTables>(
    alloc: Global,
    tables: &D,
    tally: Tally,
    action: &DocAction,
    index: u32,
) -> Result<Tally, BareVerdict>
    requires whole { IsWhole (D.document tables.now) }
    requires tally { IsTally (D.document tables.now) tally }
    ensures ok { IfOk result (λ t. MayGoOn (D.document tables.now) index action.now t) }
    ensures err { IfErr result (λ v. stale_at (D.document tables.now) index action.now ≡ Some v) }
{
    if !is_valid(alloc, tables, action) {
        return Err(BareVerdict::Refused {
            refusal: Refusal::UndoStale,
            action: Some(index),
        });
    }
    match tally.after(tables, action) {
        Ok(tally) => Ok(tally),
        Err(kind) => Err(limited(kind, index)),
    }
}

// Judges one step after another, and does it between its checks; the traces lead back.
fn judge_each<D: DocTables>(
    alloc: Global,
    doc: &mut Doc<D>,
    tally: Tally,
    carried: &mut CarriedContext<'_>,
    number: u64,
    steps: &[Step],
    trail: &mut Trail<D>,
) -> Result<JudgedBundle, AllocError>
    requires whole { IsWhole (D.document doc.old) }
    requires tally { IsTally (D.document doc.old) tally }
    requires few { length steps.now < 2 ^ 32 }
    requires first { trail.old.traces.items ≡ [] }
    requires may_carry { MayCarry carried.old steps.now }
    ensures judged { IfOk result (λ j. IsJudgedBundle
        (judge_undo (carried_context carried.old) (D.document doc.old) 0 steps.now) (Some number)
        (D.document doc.old) j) }
    ensures led { AllLeadBack D.fits D.undone trail.new.traces.items (D.document doc.new) }
    ensures back { gone_back D.fits D.undone trail.new.traces.items (D.document doc.new)
        ≡ D.document doc.old }
    ensures told { IfOk result (IsToldBundle (D.document doc.old) (D.document doc.new)
        trail.old.traces.items trail.new.traces.items trail.old.inverse trail.new.inverse) }
{
    let mut tally = tally;
    for index in 0..steps.len() {
        let step = &steps[index];
        match judge_step(alloc, doc.tables(), tally, &step.action, index as u32) {
            Ok(next) => tally = next,
            Err(verdict) => return Ok(JudgedBundle::Refused(verdict)),
        }
        match do_checked(alloc, doc, carried, index as u32, step, trail)? {
            Some(denial) => return Ok(JudgedBundle::Refused(denial)),
            None => {}
        }
    }
    Ok(JudgedBundle::Accepted(BundlePlan {
        steps: SplitSteps::copy_of(alloc, steps)?,
        created: Vec::new(alloc),
        undone: Some(number),
        tally,
    }))
}

// Judges the steps that undo the bundle of that number under the rules in force, which are read
// once more where a step renames something: they are done while they are judged, and gone back
// over without memory where they are not accepted.
fn judge_steps<D: DocTables>(
    alloc: Global,
    doc: &mut Doc<D>,
    tally: Tally,
    ctx: &Ctx,
    number: u64,
    steps: &StepList,
) -> Result<(JudgedBundle, Trail<D>), AllocError>
    requires in_force { ctx.now ≡ context ctx.now.user.user (D.document doc.old) }
    requires whole { IsWhole (D.document doc.old) }
    requires tally { IsTally (D.document doc.old) tally }
    ensures judged { IfOk result (λ r. IsJudgedBundle
        (judge_undo ctx.now (D.document doc.old) 0 steps.now) (Some number)
        (D.document doc.old) r.0) }
    ensures done { IfOk result (λ r. IsDoneBundle (D.document doc.old) (D.document doc.new)
        r.1.traces.items r.1.inverse r.0) }
    ensures led { IfOk result
        (λ r. AllLeadBack D.fits D.undone r.1.traces.items (D.document doc.new)) }
    ensures back { IfOk result (λ r. gone_back D.fits D.undone r.1.traces.items
        (D.document doc.new) ≡ D.document doc.old) }
    ensures err { OnErr result (D.document doc.new ≡ D.document doc.old) }
{
    if steps.len() > u32::MAX as usize {
        // Never taken: no memory holds so many steps.
        return Err(AllocError);
    }
    let steps = steps.as_slice();
    let mut carried = CarriedContext::of(alloc, doc, ctx, rename_any(steps))?;
    let mut trail = Trail::new(alloc);
    let judged = judge_each(alloc, doc, tally, &mut carried, number, steps, &mut trail);
    settle(alloc, doc, judged, trail)
}

fn refusal_of(fault: LogFault) -> Refusal
    ensures { result ≡ refusal_of fault }
{
    match fault {
        LogFault::NoSuchBundle => Refusal::NoSuchBundle,
        LogFault::AlreadyUndone => Refusal::AlreadyUndone,
    }
}

fn refused(refusal: Refusal) -> BareVerdict
    ensures { result ≡ Refused refusal None }
{
    BareVerdict::Refused {
        refusal,
        action: None,
    }
}

/// Judges the undo of the bundle of that number in a user's log by what is in force for the user
/// in the document now. An accepted undo stays done, as an accepted bundle of `judge` does.
///
/// Errors: out of memory. Cost: each step is done once.
pub fn judge_own_undo<D: DocTables>(
    alloc: Global,
    doc: &mut Doc<D>,
    tally: Tally,
    ctx: &Ctx,
    log: &BundleLog,
    number: u64,
) -> Result<(JudgedBundle, Trail<D>), AllocError>
    requires in_force { ctx.now ≡ context ctx.now.user.user (D.document doc.old) }
    requires whole { IsWhole (D.document doc.old) }
    requires tally { IsTally (D.document doc.old) tally }
    ensures judged { IfOk result (λ r. IsJudgedBundle
        (judge_own_undo ctx.now.user.user (undo_of log.now.log number)
        (D.document doc.old)) (Some number) (D.document doc.old) r.0) }
    ensures done { IfOk result (λ r. IsDoneBundle (D.document doc.old) (D.document doc.new)
        r.1.traces.items r.1.inverse r.0) }
    ensures led { IfOk result
        (λ r. AllLeadBack D.fits D.undone r.1.traces.items (D.document doc.new)) }
    ensures back { IfOk result (λ r. gone_back D.fits D.undone r.1.traces.items
        (D.document doc.new) ≡ D.document doc.old) }
    ensures err { OnErr result (D.document doc.new ≡ D.document doc.old) }
{
    match log.undo_of(number) {
        Ok(steps) => judge_steps(alloc, doc, tally, ctx, number, steps),
        Err(fault) => {
            let verdict = refused(refusal_of(fault));
            Ok((JudgedBundle::Refused(verdict), Trail::new(alloc)))
        }
    }
}
