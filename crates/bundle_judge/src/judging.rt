//! The judgement of a bundle: each action is judged where those before it are done.

ghost use Rattle.std.specs.Prelude.{◌≡◌, [], ◌≤◌, true, false, map, length, IfOk, OnErr, OnOk, None, Ok, Some};
ghost use Rattle.std.specs.List.{list_all};
ghost use Rattle.doc_model.specs.DocumentLaws.{IsWhole};
ghost use Rattle.user_actions.specs.Allowed.{is_allowed};
ghost use Rattle.user_objections.specs.Objections.{objection_to};
ghost use Rattle.user_actions.specs.StepLaws.{action_of};
ghost use Rattle.acl_checks.specs.Unchecked.{are_unchecked};
ghost use Rattle.action_limits.specs.Tallies.{IsTally};
ghost use Rattle.doc_model.specs.WellFormed.{is_well_formed};
ghost use Rattle.bundle_judge.specs.declared.bare_verdict.BareVerdict.TheVariants.{Limited, Refused};
ghost use Rattle.bundle_judge.specs.Judgement.{judge, judge_from, limited};
ghost use Rattle.bundle_judge.specs.CarriedContexts.{MayCarryAll, asks_rename, carried_context, is_kept};
ghost use Rattle.bundle_judge.specs.Created.{created_of};
ghost use Rattle.bundle_judge.specs.JudgedBundles.{IsDoneBundle, IsJudgedBundle, IsToldBundle};
ghost use Rattle.bundle_judge.specs.JudgedActions.{IsDoneAction, IsJudgedAction, IsToldAction};
ghost use Rattle.bundle_judge.specs.Rollback.{AllLeadBack, gone_back};
ghost use Rattle.rule_contexts.specs.Context.{context, view_in};

use crate::bare_verdict::BareVerdict;
use crate::carried_context::{CarriedContext, ask_renames};
use crate::checking::do_all_checked;
use crate::created::{Created, created_of};
use crate::rollback::{Trail, do_all, go_back_all};
use crate::split_steps::SplitSteps;
use acl_checks::are_unchecked;
use acl_checks::laws::unchecked_law;
use acl_reading::RuleReading;
use acl_rules::Ctx;
use action_limits::{Expansion, Tally, expand};
use doc_model::{DocTables, LimitKind, MAX_ACTIONS, Refusal, StepList, UserAction};
use evaluated_doc::Doc;
use rule_contexts::seen_law;
use std::alloc::{AllocError, Global};
use user_objections::refuse;
use view_refusals::{asked_of, requested_law};

/// A bundle that is accepted: its steps, what its user actions created, which bundle it undoes, and
/// the tally of the document after it.
#[derive(Drop)]
pub struct BundlePlan {
    pub steps: SplitSteps,
    pub created: Vec<Created>,
    pub undone: Option<u64>,
    pub tally: Tally,
}

/// What a bundle comes to.
#[derive(Drop)]
pub enum JudgedBundle {
    Accepted(BundlePlan),
    Refused(BareVerdict),
}

/// What one action stands for where nothing stands against it, and the tally of the document after
/// it.
#[derive(Drop)]
pub struct ActionPlan {
    pub steps: StepList,
    pub created: Created,
    pub tally: Tally,
}

/// What one action comes to.
#[derive(Drop)]
pub enum JudgedAction {
    Accepted(ActionPlan),
    Refused(BareVerdict),
}

fn refused(refusal: Refusal, index: u32) -> BareVerdict
    ensures { result ≡ Refused refusal (Some index) }
{
    BareVerdict::Refused {
        refusal,
        action: Some(index),
    }
}

/// The limit that what stands at that index would pass.
pub fn limited(kind: LimitKind, index: u32) -> BareVerdict
    ensures { Some result ≡ limited index (Some kind) }
{
    BareVerdict::Limited {
        what: kind,
        bound: kind.bound(),
        action: Some(index),
    }
}

// What an action of these steps stands for, with the tally of the document after it.
fn plan_action<D: DocTables>(
    alloc: Global,
    tables: &D,
    tally: Tally,
    action: &UserAction,
    steps: StepList,
) -> Result<ActionPlan, AllocError>
    requires whole { IsWhole (D.document tables.now) }
    requires allowed { is_allowed (D.document tables.now) action.now ≡ true }
    ensures steps { IfOk result (λ n. n.steps ≡ steps) }
    ensures created { IfOk result (λ n. n.created ≡ created_of action.now (map action_of steps)) }
    ensures tally { IfOk result (λ n. n.tally ≡ tally) }
{
    let created = created_of(alloc, tables, action, steps.as_slice())?;
    Ok(ActionPlan {
        steps,
        created,
        tally,
    })
}

// The steps of an action that nothing stands against, or the limit that they would pass.
fn judge_steps<D: DocTables>(
    alloc: Global,
    tables: &D,
    tally: Tally,
    ctx: &Ctx,
    action: &UserAction,
    index: u32,
) -> Result<JudgedAction, AllocError>
    requires whole { IsWhole (D.document tables.now) }
    requires well_formed { is_well_formed action.now ≡ true }
    requires unopposed { objection_to (view_in ctx.now (D.document tables.now)) action.now ≡ None }
    requires tally { IsTally (D.document tables.now) tally }
    ensures { IfOk result (λ r. IsJudgedAction ctx.now (D.document tables.now) index action.now r) }
{
    seen_law();
    match expand(alloc, tables, tally, action)? {
        Expansion::Limit(kind) => Ok(JudgedAction::Refused(limited(kind, index))),
        Expansion::Steps { steps, tally } => {
            let next = plan_action(alloc, tables, tally, action, steps)?;
            Ok(JudgedAction::Accepted(next))
        }
    }
}

// What the action at that index of its bundle comes to.
#[tactic(auto, using(recalc::proofs::FilledLaws::laid_out_law))]
fn judge_action<D: DocTables>(
    alloc: Global,
    doc: &Doc<D>,
    tally: Tally,
    ctx: &Ctx,
    action: &UserAction,
    index: u32,
) -> Result<JudgedAction, AllocError>
    requires whole { IsWhole (D.document doc.now) }
    requires well_formed { is_well_formed action.now ≡ true }
    requires tally { IsTally (D.document doc.now) tally }
    ensures { IfOk result (λ r. IsJudgedAction ctx.now (D.document doc.now) index action.now r) }
{
    let asked = asked_of(alloc, &RuleReading { ctx }, doc, action)?;
    requested_law();
    match refuse(alloc, &asked, action)? {
        Some(refusal) => Ok(JudgedAction::Refused(refused(refusal, index))),
        None => judge_steps(alloc, doc.tables(), tally, ctx, action, index),
    }
}

// Judges one action after another where the rules deny nothing; those before it are done when an
// action is judged, and the traces lead back.
fn judge_unchecked<D: DocTables>(
    alloc: Global,
    doc: &mut Doc<D>,
    tally: Tally,
    ctx: &Ctx,
    requested: &[UserAction],
    trail: &mut Trail<D>,
) -> Result<JudgedBundle, AllocError>
    requires unchecked { are_unchecked ctx.now ≡ true }
    requires whole { IsWhole (D.document doc.old) }
    requires tally { IsTally (D.document doc.old) tally }
    requires well_formed { list_all is_well_formed requested.now ≡ true }
    requires few { length requested.now ≤ 2000 }
    requires first { trail.old.traces.items ≡ [] }
    ensures judged { IfOk result (λ j. IsJudgedBundle
        (judge_from ctx.now (D.document doc.old) 0 requested.now) None (D.document doc.old) j) }
    ensures led { AllLeadBack D.fits D.undone trail.new.traces.items (D.document doc.new) }
    ensures back { gone_back D.fits D.undone trail.new.traces.items (D.document doc.new)
        ≡ D.document doc.old }
    ensures told { IfOk result (IsToldBundle (D.document doc.old) (D.document doc.new)
        trail.old.traces.items trail.new.traces.items trail.old.inverse trail.new.inverse) }
{
    unchecked_law();
    let mut tally = tally;
    let mut steps = Vec::new(alloc);
    let mut created = Vec::new(alloc);
    let mut next = Vec::new(alloc);
    for index in 0..requested.len() {
        do_all(alloc, doc, &next, trail)?;
        steps.append(&mut next)?;
        match judge_action(alloc, doc, tally, ctx, &requested[index], index as u32)? {
            JudgedAction::Refused(verdict) => {
                drop((steps, created, next));
                return Ok(JudgedBundle::Refused(verdict));
            }
            JudgedAction::Accepted(plan) => {
                created.push(plan.created)?;
                next = plan.steps.into_vec();
                tally = plan.tally;
            }
        }
    }
    do_all(alloc, doc, &next, trail)?;
    steps.append(&mut next)?;
    Ok(JudgedBundle::Accepted(BundlePlan {
        steps: SplitSteps::of(alloc, steps)?,
        created,
        undone: None,
        tally,
    }))
}

// Judges an action, and does its steps between their checks.
fn judge_and_do<D: DocTables>(
    alloc: Global,
    doc: &mut Doc<D>,
    tally: Tally,
    carried: &mut CarriedContext<'_>,
    action: &UserAction,
    index: u32,
    trail: &mut Trail<D>,
) -> Result<JudgedAction, AllocError>
    requires whole { IsWhole (D.document doc.old) }
    requires well_formed { is_well_formed action.now ≡ true }
    requires tally { IsTally (D.document doc.old) tally }
    requires led { AllLeadBack D.fits D.undone trail.old.traces.items (D.document doc.old) }
    requires may_carry { is_kept carried.old ≡ true → asks_rename action.now ≡ false }
    ensures judged { IfOk result (λ r. IsDoneAction (carried_context carried.old)
        (D.document doc.old) index action.now (carried_context carried.new) (D.document doc.new)
        r) }
    ensures kept { OnOk result (is_kept carried.new ≡ is_kept carried.old) }
    ensures led { AllLeadBack D.fits D.undone trail.new.traces.items (D.document doc.new) }
    ensures back { gone_back D.fits D.undone trail.new.traces.items (D.document doc.new)
        ≡ gone_back D.fits D.undone trail.old.traces.items (D.document doc.old) }
    ensures told { IfOk result (IsToldAction (D.document doc.old)
        trail.old.traces.items trail.new.traces.items trail.old.inverse trail.new.inverse) }
{
    let plan = match judge_action(alloc, doc, tally, carried.context(), action, index)? {
        JudgedAction::Refused(verdict) => return Ok(JudgedAction::Refused(verdict)),
        JudgedAction::Accepted(plan) => plan,
    };
    let steps = plan.steps.as_slice();
    match do_all_checked(alloc, doc, carried, index, steps, trail) {
        Ok(None) => Ok(JudgedAction::Accepted(plan)),
        Ok(Some(denial)) => {
            drop(plan);
            Ok(JudgedAction::Refused(denial))
        }
        Err(error) => {
            drop(plan);
            Err(error)
        }
    }
}

// Judges one action after another and does it between its checks; the traces lead back.
fn judge_checked<D: DocTables>(
    alloc: Global,
    doc: &mut Doc<D>,
    tally: Tally,
    carried: &mut CarriedContext<'_>,
    requested: &[UserAction],
    trail: &mut Trail<D>,
) -> Result<JudgedBundle, AllocError>
    requires whole { IsWhole (D.document doc.old) }
    requires tally { IsTally (D.document doc.old) tally }
    requires well_formed { list_all is_well_formed requested.now ≡ true }
    requires few { length requested.now ≤ 2000 }
    requires first { trail.old.traces.items ≡ [] }
    requires may_carry { MayCarryAll carried.old requested.now }
    ensures judged { IfOk result (λ j. IsJudgedBundle
        (judge_from (carried_context carried.old) (D.document doc.old) 0 requested.now) None
        (D.document doc.old) j) }
    ensures led { AllLeadBack D.fits D.undone trail.new.traces.items (D.document doc.new) }
    ensures back { gone_back D.fits D.undone trail.new.traces.items (D.document doc.new)
        ≡ D.document doc.old }
    ensures told { IfOk result (IsToldBundle (D.document doc.old) (D.document doc.new)
        trail.old.traces.items trail.new.traces.items trail.old.inverse trail.new.inverse) }
{
    let mut tally = tally;
    let mut steps = Vec::new(alloc);
    let mut created = Vec::new(alloc);
    for index in 0..requested.len() {
        let action = &requested[index];
        match judge_and_do(alloc, doc, tally, carried, action, index as u32, trail)? {
            JudgedAction::Refused(verdict) => {
                drop((steps, created));
                return Ok(JudgedBundle::Refused(verdict));
            }
            JudgedAction::Accepted(plan) => {
                created.push(plan.created)?;
                steps.append(&mut plan.steps.into_vec())?;
                tally = plan.tally;
            }
        }
    }
    Ok(JudgedBundle::Accepted(BundlePlan {
        steps: SplitSteps::of(alloc, steps)?,
        created,
        undone: None,
        tally,
    }))
}

// Judges one action after another under the rules in force; the traces lead back. Rules that may
// deny something are read once more where the bundle asks for a rename, which moves them.
fn judge_in<D: DocTables>(
    alloc: Global,
    doc: &mut Doc<D>,
    tally: Tally,
    ctx: &Ctx,
    requested: &[UserAction],
    trail: &mut Trail<D>,
) -> Result<JudgedBundle, AllocError>
    requires in_force { ctx.now ≡ context ctx.now.user.user (D.document doc.old) }
    requires whole { IsWhole (D.document doc.old) }
    requires tally { IsTally (D.document doc.old) tally }
    requires well_formed { list_all is_well_formed requested.now ≡ true }
    requires few { length requested.now ≤ 2000 }
    requires first { trail.old.traces.items ≡ [] }
    ensures judged { IfOk result (λ j. IsJudgedBundle
        (judge_from ctx.now (D.document doc.old) 0 requested.now) None (D.document doc.old) j) }
    ensures led { AllLeadBack D.fits D.undone trail.new.traces.items (D.document doc.new) }
    ensures back { gone_back D.fits D.undone trail.new.traces.items (D.document doc.new)
        ≡ D.document doc.old }
    ensures told { IfOk result (IsToldBundle (D.document doc.old) (D.document doc.new)
        trail.old.traces.items trail.new.traces.items trail.old.inverse trail.new.inverse) }
{
    if are_unchecked(ctx) {
        return judge_unchecked(alloc, doc, tally, ctx, requested, trail);
    }
    let mut carried = CarriedContext::of(alloc, doc, ctx, ask_renames(requested))?;
    judge_checked(alloc, doc, tally, &mut carried, requested, trail)
}

/// Leaves a bundle done that was judged while it was done, where it is accepted, and goes back over
/// what was done of any other.
pub fn settle<D: DocTables>(
    alloc: Global,
    doc: &mut Doc<D>,
    judged: Result<JudgedBundle, AllocError>,
    trail: Trail<D>,
) -> Result<(JudgedBundle, Trail<D>), AllocError>
    requires led { AllLeadBack D.fits D.undone trail.traces.items (D.document doc.old) }
    requires told { IfOk judged (IsToldBundle
        (gone_back D.fits D.undone trail.traces.items (D.document doc.old)) (D.document doc.old)
        [] trail.traces.items [] trail.inverse) }
    ensures judged { IfOk result (λ r. judged ≡ Ok r.0) }
    ensures done { IfOk result (λ r. IsDoneBundle
        (gone_back D.fits D.undone trail.traces.items (D.document doc.old)) (D.document doc.new)
        r.1.traces.items r.1.inverse r.0) }
    ensures led { IfOk result
        (λ r. AllLeadBack D.fits D.undone r.1.traces.items (D.document doc.new)) }
    ensures back { IfOk result
        (λ r. gone_back D.fits D.undone r.1.traces.items (D.document doc.new)
        ≡ gone_back D.fits D.undone trail.traces.items (D.document doc.old)) }
    ensures err { OnErr result (D.document doc.new
        ≡ gone_back D.fits D.undone trail.traces.items (D.document doc.old)) }
{
    match judged {
        Ok(JudgedBundle::Accepted(plan)) => Ok((JudgedBundle::Accepted(plan), trail)),
        Ok(JudgedBundle::Refused(verdict)) => {
            let trail = back_at_start(alloc, doc, trail);
            Ok((JudgedBundle::Refused(verdict), trail))
        }
        Err(fault) => {
            drop(back_at_start(alloc, doc, trail));
            Err(fault)
        }
    }
}

// Goes back over what was done, and gives the trail of nothing.
fn back_at_start<D: DocTables>(alloc: Global, doc: &mut Doc<D>, trail: Trail<D>) -> Trail<D>
    requires { AllLeadBack D.fits D.undone trail.traces.items (D.document doc.old) }
    ensures document { D.document doc.new
        ≡ gone_back D.fits D.undone trail.traces.items (D.document doc.old) }
    ensures nothing { result.traces.items ≡ [] }
{
    go_back_all(doc, trail.traces);
    Trail::new(alloc)
}

/// Judges a bundle of a user by what is in force for the user in the document now: it is done while
/// it is judged. An accepted bundle stays done, and its trail leads back; where one is refused or
/// memory runs out, what was done is gone back over without memory, and the document is as before.
///
/// Errors: out of memory. Cost: each step is done once.
pub fn judge<D: DocTables>(
    alloc: Global,
    doc: &mut Doc<D>,
    tally: Tally,
    ctx: &Ctx,
    requested: &[UserAction],
) -> Result<(JudgedBundle, Trail<D>), AllocError>
    requires in_force { ctx.now ≡ context ctx.now.user.user (D.document doc.old) }
    requires whole { IsWhole (D.document doc.old) }
    requires tally { IsTally (D.document doc.old) tally }
    requires well_formed { list_all is_well_formed requested.now ≡ true }
    ensures judged { IfOk result (λ r. IsJudgedBundle
        (judge ctx.now.user.user (D.document doc.old) requested.now) None (D.document doc.old)
        r.0) }
    ensures done { IfOk result (λ r. IsDoneBundle (D.document doc.old) (D.document doc.new)
        r.1.traces.items r.1.inverse r.0) }
    ensures led { IfOk result
        (λ r. AllLeadBack D.fits D.undone r.1.traces.items (D.document doc.new)) }
    ensures back { IfOk result (λ r. gone_back D.fits D.undone r.1.traces.items
        (D.document doc.new) ≡ D.document doc.old) }
    ensures err { OnErr result (D.document doc.new ≡ D.document doc.old) }
{
    if requested.len() as u64 > MAX_ACTIONS {
        let verdict = limited(LimitKind::Actions, MAX_ACTIONS as u32);
        return Ok((JudgedBundle::Refused(verdict), Trail::new(alloc)));
    }
    let mut trail = Trail::new(alloc);
    let judged = judge_in(alloc, doc, tally, ctx, requested, &mut trail);
    settle(alloc, doc, judged, trail)
}
