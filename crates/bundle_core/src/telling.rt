//! What each known context is told of the steps of a bundle that is judged and done.

ghost use Rattle.std.specs.Prelude.{List, true, false, ◌≡◌, [], map, IfOk, OnOk, IfSome};
ghost use Rattle.std.specs.List.{AllByRecursion};
ghost use Rattle.doc_model.specs.Apply.{all_valid};
ghost use Rattle.user_actions.specs.StepLaws.{action_of};
ghost use Rattle.doc_model.specs.DocumentLaws.{IsWhole};
ghost use Rattle.doc_model.specs.Document.{Document};
ghost use Rattle.doc_model.specs.declared.action.DocAction.{DocAction};
ghost use Rattle.recalc.specs.Evaluated.{filled};
ghost use Rattle.user_attrs.specs.Attributes.{attributes_of};
ghost use Rattle.action_censor.specs.Step.{are_records, step_of};
ghost use Rattle.context_changes.specs.Known.{AreKnown};
ghost use Rattle.context_changes.specs.Differing.{IsSeenIfKept, all_told_with};
ghost use Rattle.context_changes.specs.Renewal.{IsRenewal};
ghost use Rattle.context_changes.specs.Bundle.{IsBundle};
ghost use Rattle.context_changes.specs.Told.{IsSeen, told_of as told_in, told_since, view_of};
ghost use Rattle.bundle_core.specs.Followed.{AreRowsTold, IsToldOf};
ghost use Rattle.bundle_judge.specs.JudgedBundles.{after_steps};
ghost use Rattle.bundle_judge.specs.Losses.{all_lost, cells_told};
ghost use Rattle.bundle_judge.specs.Rollback.{AllLeadBack, gone_back};

use crate::followed::{are_of_records, steps_told};
use acl_formula::UserInfo;
use acl_rules::Ctx;
use action_censor::StepTrace;
use agreeing_contexts::agreement_law;
use bundle_judge::{SplitSteps, do_again, go_back_all};
use context_changes::{
    KnownContexts, Renewal, see_all, see_differing, tell_differing, tell_narrow, tell_whole,
};
use doc_model::{DocTables, View, ViewActionList};
use evaluated_doc::{Doc, Trace};
use rule_contexts::{may_change_contexts, may_change_rules, same_context_law, same_rules_law};
use std::alloc::{AllocError, Global};
use std::mem;

/// What is told of a bundle beside each context, what it changed of what is known of the rules, and
/// whether its steps were gone back over for it and done again.
#[derive(Drop)]
pub(crate) struct ToldSteps {
    pub told: Vec<ViewActionList>,
    pub next: Renewal,
    pub again: bool,
}

/// What the rows that steps touched tell each context, and what the rules know of their users now.
#[derive(Drop)]
struct RowsTold {
    told: Vec<ViewActionList>,
    users: Vec<UserInfo>,
}

/// Works out what is told beside each known context of steps that are done. Where they may change
/// what contexts let be read, they are gone back over for it, and done again.
pub(crate) fn told_of_all<D: DocTables>(
    alloc: Global,
    doc: &mut Doc<D>,
    known: &KnownContexts,
    steps: &SplitSteps,
    traces: &mut Vec<Trace<D>>,
) -> Result<ToldSteps, AllocError>
    requires known { AreKnown
        (gone_back D.fits D.undone traces.old.items (D.document doc.old)) known.now }
    requires whole { IsWhole (gone_back D.fits D.undone traces.old.items (D.document doc.old)) }
    requires valid { all_valid
        (gone_back D.fits D.undone traces.old.items (D.document doc.old))
        (map action_of steps.now) ≡ true }
    requires led { AllLeadBack D.fits D.undone traces.old.items (D.document doc.old) }
    requires done { D.document doc.old ≡ after_steps
        (gone_back D.fits D.undone traces.old.items (D.document doc.old)) steps.now }
    requires cells { cells_told traces.old.items ≡ all_lost
        (gone_back D.fits D.undone traces.old.items (D.document doc.old))
        (map action_of steps.now) }
    ensures document { OnOk result (D.document doc.new ≡ after_steps
        (gone_back D.fits D.undone traces.old.items (D.document doc.old)) steps.now) }
    ensures led { AllLeadBack D.fits D.undone traces.new.items (D.document doc.new) }
    ensures back { gone_back D.fits D.undone traces.new.items (D.document doc.new)
        ≡ gone_back D.fits D.undone traces.old.items (D.document doc.old) }
    ensures told { IfOk result (λ d. IsToldOf
        (gone_back D.fits D.undone traces.old.items (D.document doc.old))
        (map action_of steps.now) known.now.contexts.items d.told.items) }
    ensures first { IfOk result (λ d. d.again ≡ false → traces.new.items ≡ traces.old.items) }
    ensures next { IfOk result (λ d. IsRenewal (D.document doc.new) known.now d.next) }
{
    if let Some(told) = told_of_touched(alloc, doc, known, steps, traces.as_slice())? {
        return Ok(ToldSteps {
            told,
            next: Renewal::Same,
            again: false,
        });
    }
    if let Some(rows) = rows_told(alloc, doc, known, steps, traces.as_slice())? {
        return told_of_users(alloc, doc, known, steps, traces, rows);
    }
    go_back_all(doc, mem::replace(traces, Vec::new(alloc)));
    done_and_seen(alloc, doc, known, steps, traces)
}

// Takes what the rows tell for users of whom rules know the same; where some differ, the steps are
// gone back over for what these saw, and done again.
fn told_of_users<D: DocTables>(
    alloc: Global,
    doc: &mut Doc<D>,
    known: &KnownContexts,
    steps: &SplitSteps,
    traces: &mut Vec<Trace<D>>,
    rows: RowsTold,
) -> Result<ToldSteps, AllocError>
    requires known { AreKnown
        (gone_back D.fits D.undone traces.old.items (D.document doc.old)) known.now }
    requires whole { IsWhole (gone_back D.fits D.undone traces.old.items (D.document doc.old)) }
    requires valid { all_valid
        (gone_back D.fits D.undone traces.old.items (D.document doc.old))
        (map action_of steps.now) ≡ true }
    requires led { AllLeadBack D.fits D.undone traces.old.items (D.document doc.old) }
    requires done { D.document doc.old ≡ after_steps
        (gone_back D.fits D.undone traces.old.items (D.document doc.old)) steps.now }
    requires rows { AreRowsTold
        (gone_back D.fits D.undone traces.old.items (D.document doc.old)) (D.document doc.old)
        known.now.contexts.items rows.told.items rows.users.items }
    ensures document { OnOk result (D.document doc.new ≡ after_steps
        (gone_back D.fits D.undone traces.old.items (D.document doc.old)) steps.now) }
    ensures led { AllLeadBack D.fits D.undone traces.new.items (D.document doc.new) }
    ensures back { gone_back D.fits D.undone traces.new.items (D.document doc.new)
        ≡ gone_back D.fits D.undone traces.old.items (D.document doc.old) }
    ensures told { IfOk result (λ d. IsToldOf
        (gone_back D.fits D.undone traces.old.items (D.document doc.old))
        (map action_of steps.now) known.now.contexts.items d.told.items) }
    ensures first { IfOk result (λ d. d.again ≡ false → traces.new.items ≡ traces.old.items) }
    ensures next { IfOk result (λ d. IsRenewal (D.document doc.new) known.now d.next) }
{
    agreement_law();
    if known.agrees_with(rows.users.as_slice()) {
        return Ok(ToldSteps {
            told: rows.told,
            next: Renewal::Users(rows.users),
            again: false,
        });
    }
    go_back_all(doc, mem::replace(traces, Vec::new(alloc)));
    differing_seen(alloc, doc, known, steps, traces, rows)
}

// Does the steps again, and tells those of whom rules know something else what changed of all that
// they see; the others are told what the rows tell.
fn differing_seen<D: DocTables>(
    alloc: Global,
    doc: &mut Doc<D>,
    known: &KnownContexts,
    steps: &SplitSteps,
    traces: &mut Vec<Trace<D>>,
    rows: RowsTold,
) -> Result<ToldSteps, AllocError>
    requires known { AreKnown (D.document doc.old) known.now }
    requires whole { IsWhole (D.document doc.old) }
    requires valid { all_valid (D.document doc.old) (map action_of steps.now) ≡ true }
    requires first { traces.old.items ≡ [] }
    requires rows { AreRowsTold (D.document doc.old) (after_steps (D.document doc.old) steps.now)
        known.now.contexts.items rows.told.items rows.users.items }
    ensures document { OnOk result
        (D.document doc.new ≡ after_steps (D.document doc.old) steps.now) }
    ensures led { AllLeadBack D.fits D.undone traces.new.items (D.document doc.new) }
    ensures back { gone_back D.fits D.undone traces.new.items (D.document doc.new)
        ≡ D.document doc.old }
    ensures told { IfOk result (λ d. IsToldOf (D.document doc.old) (map action_of steps.now)
        known.now.contexts.items d.told.items) }
    ensures again { IfOk result (λ d. d.again ≡ true) }
    ensures next { IfOk result (λ d. IsRenewal (D.document doc.new) known.now d.next) }
{
    agreement_law();
    let RowsTold { told, users } = rows;
    let fields = known.fields.as_slice();
    let before = see_differing(
        alloc,
        doc,
        fields,
        known.contexts.as_slice(),
        users.as_slice(),
    )?;
    do_again(alloc, doc, steps.actions(), traces)?;
    let told = told_since_seen(alloc, doc, known, before, told)?;
    Ok(ToldSteps {
        told,
        next: Renewal::Users(users),
        again: true,
    })
}

// Tells from these views whose they are; all others are told what they are already.
fn told_since_seen<D: DocTables>(
    alloc: Global,
    doc: &Doc<D>,
    known: &KnownContexts,
    before: Vec<Option<View>>,
    told: Vec<ViewActionList>,
) -> Result<Vec<ViewActionList>, AllocError>
    requires whole { IsWhole (D.document doc.now) }
    requires attributes { known.now.attributes ≡ attributes_of (D.document doc.now) }
    requires seen { AllByRecursion IsSeenIfKept before.items }
    ensures { IfOk result (λ l. l.items ≡ all_told_with (D.document doc.now)
        known.now.contexts.items before.items told.items) }
{
    let mut told = told;
    let contexts = known.contexts.as_slice();
    let attributes = known.attributes.as_slice();
    tell_differing(
        alloc,
        doc,
        attributes,
        contexts,
        before,
        told.as_mut_slice(),
    )?;
    Ok(told)
}

// Does the steps again, and tells beside each context what changed of all that its user sees.
fn done_and_seen<D: DocTables>(
    alloc: Global,
    doc: &mut Doc<D>,
    known: &KnownContexts,
    steps: &SplitSteps,
    traces: &mut Vec<Trace<D>>,
) -> Result<ToldSteps, AllocError>
    requires known { AreKnown (D.document doc.old) known.now }
    requires whole { IsWhole (D.document doc.old) }
    requires valid { all_valid (D.document doc.old) (map action_of steps.now) ≡ true }
    requires first { traces.old.items ≡ [] }
    ensures document { OnOk result
        (D.document doc.new ≡ after_steps (D.document doc.old) steps.now) }
    ensures led { AllLeadBack D.fits D.undone traces.new.items (D.document doc.new) }
    ensures back { gone_back D.fits D.undone traces.new.items (D.document doc.new)
        ≡ D.document doc.old }
    ensures told { IfOk result (λ d. IsToldOf (D.document doc.old) (map action_of steps.now)
        known.now.contexts.items d.told.items) }
    ensures again { IfOk result (λ d. d.again ≡ true) }
    ensures next { IfOk result (λ d. IsRenewal (D.document doc.new) known.now d.next) }
{
    let before = see_known(alloc, doc, known.contexts.as_slice())?;
    do_again(alloc, doc, steps.actions(), traces)?;
    let next = known.anew(alloc, doc)?;
    let told = tell_anew(alloc, doc, &before, next.contexts.as_slice())?;
    Ok(ToldSteps {
        told,
        next: Renewal::All(next),
        again: true,
    })
}

// What each context shows of the document.
#[tactic(auto, using(recalc::proofs::FilledLaws::laid_out_law))]
fn see_known<D: DocTables>(
    alloc: Global,
    doc: &Doc<D>,
    contexts: &[Ctx],
) -> Result<Vec<View>, AllocError>
    requires { IsWhole (D.document doc.now) }
    ensures value { IfOk result
        (λ l. l.items ≡ map (view_of (filled (D.document doc.now))) contexts.now) }
    ensures seen { IfOk result (λ l. AllByRecursion IsSeen l.items) }
{
    see_all(alloc, doc, contexts)
}

// What has changed since these views in what each context shows of the document.
#[tactic(auto, using(recalc::proofs::FilledLaws::laid_out_law))]
fn tell_anew<D: DocTables>(
    alloc: Global,
    doc: &Doc<D>,
    before: &[View],
    contexts: &[Ctx],
) -> Result<Vec<ViewActionList>, AllocError>
    requires whole { IsWhole (D.document doc.now) }
    requires seen { AllByRecursion IsSeen before.now }
    ensures { IfOk result (λ l. l.items
        ≡ told_since (filled (D.document doc.now)) before.now contexts.now) }
{
    tell_whole(alloc, doc, before, contexts)
}

// What is told beside each context of steps that are done, by the rows that they touched; nothing
// where they may change contexts.
fn told_of_touched<D: DocTables>(
    alloc: Global,
    doc: &Doc<D>,
    known: &KnownContexts,
    steps: &SplitSteps,
    traces: &[Trace<D>],
) -> Result<Option<Vec<ViewActionList>>, AllocError>
    requires known { AreKnown
        (gone_back D.fits D.undone traces.now (D.document doc.now)) known.now }
    requires whole { IsWhole (gone_back D.fits D.undone traces.now (D.document doc.now)) }
    requires valid { all_valid
        (gone_back D.fits D.undone traces.now (D.document doc.now)) (map action_of steps.now)
        ≡ true }
    requires done { D.document doc.now ≡ after_steps
        (gone_back D.fits D.undone traces.now (D.document doc.now)) steps.now }
    requires cells { cells_told traces.now ≡ all_lost
        (gone_back D.fits D.undone traces.now (D.document doc.now)) (map action_of steps.now) }
    ensures told { IfOk result (λ o. IfSome o (λ told. IsToldOf
        (gone_back D.fits D.undone traces.now (D.document doc.now)) (map action_of steps.now)
        known.now.contexts.items told.items)) }
    ensures known { IfOk result (λ o. IfSome o (λ _. AreKnown (D.document doc.now) known.now)) }
{
    if !are_of_records(steps.actions()) {
        return Ok(None);
    }
    same_context_law();
    same_rules_law();
    let done = steps_told(alloc, steps.actions(), traces)?;
    if may_change_contexts(known.attributes.as_slice(), done.as_slice()) {
        return Ok(None);
    }
    let told = tell_touched(alloc, doc, done.as_slice(), known.contexts.as_slice())?;
    Ok(Some(told))
}

// What the rows that steps touched tell each context, with what the rules know of the users now;
// nothing where the steps may change the rules.
fn rows_told<D: DocTables>(
    alloc: Global,
    doc: &Doc<D>,
    known: &KnownContexts,
    steps: &SplitSteps,
    traces: &[Trace<D>],
) -> Result<Option<RowsTold>, AllocError>
    requires known { AreKnown
        (gone_back D.fits D.undone traces.now (D.document doc.now)) known.now }
    requires whole { IsWhole (gone_back D.fits D.undone traces.now (D.document doc.now)) }
    requires valid { all_valid
        (gone_back D.fits D.undone traces.now (D.document doc.now)) (map action_of steps.now)
        ≡ true }
    requires done { D.document doc.now ≡ after_steps
        (gone_back D.fits D.undone traces.now (D.document doc.now)) steps.now }
    requires cells { cells_told traces.now ≡ all_lost
        (gone_back D.fits D.undone traces.now (D.document doc.now)) (map action_of steps.now) }
    ensures { IfOk result (λ o. IfSome o (λ r. AreRowsTold
        (gone_back D.fits D.undone traces.now (D.document doc.now)) (D.document doc.now)
        known.now.contexts.items r.told.items r.users.items)) }
{
    if !are_of_records(steps.actions()) {
        return Ok(None);
    }
    same_rules_law();
    let done = steps_told(alloc, steps.actions(), traces)?;
    if may_change_rules(done.as_slice()) {
        return Ok(None);
    }
    let users = known.users_now(alloc, doc)?;
    let told = tell_touched(alloc, doc, done.as_slice(), known.contexts.as_slice())?;
    Ok(Some(RowsTold { told, users }))
}

// What each context is told of the steps of records that led to the document, by the rows that they
// touched.
#[tactic(auto, using(recalc::proofs::FilledLaws::laid_out_law))]
fn tell_touched<D: DocTables>(
    alloc: Global,
    doc: &Doc<D>,
    steps: &[StepTrace<'_>],
    contexts: &[Ctx],
) -> Result<Vec<ViewActionList>, AllocError>
    requires whole { IsWhole (D.document doc.now) }
    requires records { are_records (map step_of steps.now) ≡ true }
    ensures { IfOk result (λ l. (s : Document) (actions : List DocAction)
        → IsBundle s actions (map step_of steps.now) (filled (D.document doc.now))
        → l.items ≡ map (λ x. told_in (filled s) (filled (D.document doc.now)) x x)
        contexts.now) }
{
    tell_narrow(alloc, doc, steps, contexts)
}
