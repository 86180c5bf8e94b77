//! An accepted bundle: its actions are done, and each open session is told of them.

ghost use Rattle.std.specs.Prelude.{List, true, false, ◌≡◌, ◌+◌, ◌<◌, ◌^◌, [], ◌∷◌, ◌++◌, ◌≤◌, length, map, get_or, IfOk, OnOk, OnErr, vec_len, vec_capacity, IfSome, None};
ghost use Rattle.std.specs.List.{AllByRecursion, insert};
ghost use Rattle.doc_model.specs.Apply.{all_valid, apply_all};
ghost use Rattle.user_actions.specs.StepLaws.{action_of};
ghost use Rattle.undo_bundles.specs.BundleLog.{count};
ghost use Rattle.doc_model.specs.DocumentLaws.{IsWhole};
ghost use Rattle.doc_model.specs.Document.{Document};
ghost use Rattle.doc_model.specs.declared.action.DocAction.{DocAction};
ghost use Rattle.recalc.specs.Evaluated.{filled};
ghost use Rattle.context_changes.specs.Known.{AreKnown, told_by};
ghost use Rattle.context_changes.specs.Renewal.{IsRenewal};
ghost use Rattle.bundle_core.specs.Followed.{AreAllKnown};
ghost use Rattle.bundle_records.specs.Ledger.{IsNextRecord};
ghost use Rattle.bundle_core.specs.Replies.{reply_of};
ghost use Rattle.bundle_core.specs.Dispatch.{AreSame, Posts, bundle_number, bundle_reply};
ghost use Rattle.bundle_judge.specs.Created.{told_of};
ghost use Rattle.bundle_judge.specs.JudgedBundles.{AreDone, after_steps, told_changes};
ghost use Rattle.bundle_core.specs.Noting.{HasBundleRoom, MayBeUndone, note_of};
ghost use Rattle.bundle_core.specs.State.{accepted_as, refusal};
ghost use Rattle.bundle_core.specs.LastChange.{HasRoomFor};
ghost use Rattle.bundle_core.specs.Turns.{IsAcceptance, TellsLost};
ghost use Rattle.bundle_core.specs.SessionState.{SessionState, IsReady, MayPost, posted_state};
ghost use Rattle.rule_contexts.specs.Context.{view, view_in};
ghost use Rattle.bundle_judge.specs.Rollback.{AllLeadBack, gone_back};

use crate::last_change::lost_by;
use crate::session::{BundleNote, OpenSession};
use crate::telling::told_of_all;
use crate::turns::{post_all, prepare_all, reply_with, stay_ready};
use acl_reading::RuleReading;
use acl_rules::Ctx;
use bundle_judge::{BareVerdict, BundlePlan, Created, Trail, all_told, go_back_all};
use bundle_records::RecordLedger;
use cell_types::CellOld;
use context_changes::{KnownContexts, Renewal};
use doc_keeper::{KeepFault, Keeper};
use doc_model::{DocTables, Refusal, RetValueList, StepList, User, ViewActionList};
use evaluated_doc::Doc;
use grist_json::Line;
use std::alloc::{AllocError, Global};
use std::mem;
use undo_bundles::BundleInverse;

/// What is ready of an accepted bundle: its reply, and what is noted of it.
#[derive(Drop)]
pub(crate) struct ReadyBundle {
    pub reply: Line,
    pub note: BundleNote,
}

/// What is ready of an accepted bundle, what is known of the rules after it, and room for what its
/// traces tell, where they are those of its judgement.
#[derive(Drop)]
struct PreparedBundle {
    ready: ReadyBundle,
    next: Renewal,
    room: Option<Vec<Vec<CellOld>>>,
}

/// What is ready of an accepted bundle before it is kept: its record, and the reply where the
/// keeper fails.
#[derive(Drop)]
struct KeepReady {
    bundle: PreparedBundle,
    record: Line,
    refusal: Line,
}

/// What became of an accepted bundle, and the lines that its session is given.
#[derive(Drop)]
pub(crate) enum Acceptance {
    /// It is done and kept. What its steps lost is told where they were done once.
    Done {
        lines: Vec<Line>,
        lost: Option<Vec<Vec<CellOld>>>,
    },
    /// The keeper failed, and nothing is done.
    Unkept(Vec<Line>),
}

/// Makes the contexts that are missing of the users who have these sessions open.
pub(crate) fn know_all<D: DocTables>(
    alloc: Global,
    doc: &Doc<D>,
    known: &mut KnownContexts,
    sessions: &[OpenSession],
) -> Result<(), AllocError>
    requires { AreKnown (D.document doc.now) known.old }
    ensures known { AreKnown (D.document doc.now) known.new }
    ensures all { OnOk result (AreAllKnown known.new.contexts.items sessions.now) }
{
    known.keep_at_most(sessions.len());
    place_all(alloc, doc, known, sessions)
}

fn place_all<D: DocTables>(
    alloc: Global,
    doc: &Doc<D>,
    known: &mut KnownContexts,
    sessions: &[OpenSession],
) -> Result<(), AllocError>
    requires { AreKnown (D.document doc.now) known.old }
    ensures known { AreKnown (D.document doc.now) known.new }
    ensures all { OnOk result (AreAllKnown known.new.contexts.items sessions.now) }
{
    for session in sessions {
        known.place_for(alloc, doc, session.user())?;
    }
    Ok(())
}

/// Gives the record of a bundle of the session of that index, which is done, to the keeper, and
/// posts every other open session the line that tells its steps. The context of each session's user
/// in the document before it is known; what is known of the rules is made anew where the bundle may
/// change it. All memory is taken before the keeper is called; where it fails or memory runs out,
/// what was done is gone back over, and where it fails the session is told so.
pub(crate) fn accept<D: DocTables, K: Keeper>(
    alloc: Global,
    doc: &mut Doc<D>,
    known: &mut KnownContexts,
    sessions: &mut Vec<OpenSession>,
    records: &mut RecordLedger<K>,
    index: usize,
    plan: &BundlePlan,
    trail: Trail<D>,
) -> Result<Acceptance, AllocError>
    requires known { AreKnown
        (gone_back D.fits D.undone trail.traces.items (D.document doc.old)) known.old }
    requires all { AreAllKnown known.old.contexts.items sessions.old.items }
    requires within { index < length sessions.old.items }
    requires whole { IsWhole
        (gone_back D.fits D.undone trail.traces.items (D.document doc.old)) }
    requires valid { all_valid (gone_back D.fits D.undone trail.traces.items (D.document doc.old))
        (map action_of plan.now.steps) ≡ true }
    requires led { AllLeadBack D.fits D.undone trail.traces.items (D.document doc.old) }
    requires done { AreDone (gone_back D.fits D.undone trail.traces.items (D.document doc.old))
        (D.document doc.old) plan.now.steps [] trail.traces.items [] trail.inverse }
    requires few { AllByRecursion (λ x. x.made < 2 ^ 62) sessions.old.items }
    requires few_bundles { AllByRecursion (λ x. count x.holder.log < 2 ^ 62) sessions.old.items }
    requires own { (d : SessionState)
        → MayBeUndone plan.now.undone (get_or sessions.old.items index d).holder.log }
    ensures ok { IfOk result (λ a. IsAcceptance
        (gone_back D.fits D.undone trail.traces.items (D.document doc.old)) (D.document doc.new)
        sessions.old.items sessions.new.items records.old records.new index plan.now a) }
    ensures lost { IfOk result (TellsLost
        (gone_back D.fits D.undone trail.traces.items (D.document doc.old)) plan.now) }
    ensures later { records.old.faults ≤ records.new.faults }
    ensures err_document { OnErr result (D.document doc.new
        ≡ gone_back D.fits D.undone trail.traces.items (D.document doc.old)) }
    ensures err { OnErr result (AreSame sessions.old.items sessions.new.items) }
    ensures err_told { OnErr result (records.new.told ≡ records.old.told) }
    ensures err_count { OnErr result (records.new.count ≡ records.old.count) }
    ensures err_faults { OnErr result (records.new.faults ≡ records.old.faults) }
    ensures known { AreKnown (D.document doc.new) known.new }
{
    let mut trail = trail;
    let ready = match ready_to_keep(
        alloc, doc, known, sessions, records, index, plan, &mut trail,
    ) {
        Ok(ready) => ready,
        Err(fault) => {
            go_back_all(doc, trail.traces);
            return Err(fault);
        }
    };
    let KeepReady {
        bundle,
        record,
        refusal,
    } = ready;
    match records.keep(&record) {
        Ok(()) => {
            known.renew(bundle.next);
            let lost = lost_by(trail.traces, bundle.room);
            let lines = post(alloc, sessions, index, bundle.ready);
            Ok(Acceptance::Done { lines, lost })
        }
        Err(KeepFault::Failed) => {
            go_back_all(doc, trail.traces);
            Ok(Acceptance::Unkept(stay_ready(alloc, sessions, index, refusal)))
        }
        Err(KeepFault::NoMemory) => {
            go_back_all(doc, trail.traces);
            Err(AllocError)
        }
    }
}

// Makes ready the record of the steps, the replies to a bundle that is kept and to one that is not,
// the note, and each session's line.
fn ready_to_keep<D: DocTables, K: Keeper>(
    alloc: Global,
    doc: &mut Doc<D>,
    known: &KnownContexts,
    sessions: &mut Vec<OpenSession>,
    records: &RecordLedger<K>,
    index: usize,
    plan: &BundlePlan,
    trail: &mut Trail<D>,
) -> Result<KeepReady, AllocError>
    requires known { AreKnown
        (gone_back D.fits D.undone trail.old.traces.items (D.document doc.old)) known.now }
    requires all { AreAllKnown known.now.contexts.items sessions.old.items }
    requires within { index < length sessions.old.items }
    requires whole { IsWhole
        (gone_back D.fits D.undone trail.old.traces.items (D.document doc.old)) }
    requires valid { all_valid
        (gone_back D.fits D.undone trail.old.traces.items (D.document doc.old))
        (map action_of plan.now.steps) ≡ true }
    requires led { AllLeadBack D.fits D.undone trail.old.traces.items (D.document doc.old) }
    requires done { AreDone
        (gone_back D.fits D.undone trail.old.traces.items (D.document doc.old))
        (D.document doc.old) plan.now.steps [] trail.old.traces.items [] trail.old.inverse }
    requires few { AllByRecursion (λ x. x.made < 2 ^ 63) sessions.old.items }
    requires few_bundles { AllByRecursion (λ x. count x.holder.log < 2 ^ 62) sessions.old.items }
    ensures document { OnOk result (D.document doc.new ≡ after_steps
        (gone_back D.fits D.undone trail.old.traces.items (D.document doc.old))
        plan.now.steps) }
    ensures led { AllLeadBack D.fits D.undone trail.new.traces.items (D.document doc.new) }
    ensures back { gone_back D.fits D.undone trail.new.traces.items (D.document doc.new)
        ≡ gone_back D.fits D.undone trail.old.traces.items (D.document doc.old) }
    ensures reply { IfOk result (λ r. r.bundle.ready.reply ≡ bundle_reply sessions.old.items index
        plan.now.undone (after_steps
        (gone_back D.fits D.undone trail.old.traces.items (D.document doc.old)) plan.now.steps)
        plan.now.created.items) }
    ensures note { IfOk result (λ r. r.bundle.ready.note ≡ note_of
        (gone_back D.fits D.undone trail.old.traces.items (D.document doc.old)) plan.now) }
    ensures next { IfOk result (λ r.
        IsRenewal (D.document doc.new) known.now r.bundle.next) }
    ensures lost { IfOk result (λ r. IfSome r.bundle.room (λ room.
        HasRoomFor (length trail.new.traces.items) room
        × (trail.new.traces.items ≡ trail.old.traces.items))) }
    ensures record { IfOk result (λ r.
        IsNextRecord records.now.told (map action_of plan.now.steps) r.record) }
    ensures refusal { IfOk result (λ r. r.refusal ≡ reply_of (refusal Refusal.StoreFault)) }
    ensures same { AreSame sessions.old.items sessions.new.items }
    ensures ready { OnOk result (AllByRecursion (IsReady (told_changes
        (gone_back D.fits D.undone trail.old.traces.items (D.document doc.old))
        (map action_of plan.now.steps))) sessions.new.items) }
    ensures room { IfOk result (λ _. (d : SessionState)
        → HasBundleRoom (get_or sessions.new.items index d)) }
    ensures length { length sessions.new.items ≡ length sessions.old.items }
{
    let record = records.record_of(alloc, plan.steps.action_list())?;
    let refusal = reply_with(alloc, unkept())?;
    let bundle = ready_bundle(alloc, doc, known, sessions, index, plan, trail)?;
    Ok(KeepReady {
        bundle,
        record,
        refusal,
    })
}

// The verdict of a bundle that the keeper failed to keep.
fn unkept() -> BareVerdict
    ensures { result ≡ refusal Refusal.StoreFault }
{
    BareVerdict::Refused {
        refusal: Refusal::StoreFault,
        action: None,
    }
}

// Makes ready the reply, the note, and each session's line.
fn ready_bundle<D: DocTables>(
    alloc: Global,
    doc: &mut Doc<D>,
    known: &KnownContexts,
    sessions: &mut Vec<OpenSession>,
    index: usize,
    plan: &BundlePlan,
    trail: &mut Trail<D>,
) -> Result<PreparedBundle, AllocError>
    requires known { AreKnown
        (gone_back D.fits D.undone trail.old.traces.items (D.document doc.old)) known.now }
    requires all { AreAllKnown known.now.contexts.items sessions.old.items }
    requires within { index < length sessions.old.items }
    requires whole { IsWhole
        (gone_back D.fits D.undone trail.old.traces.items (D.document doc.old)) }
    requires valid { all_valid
        (gone_back D.fits D.undone trail.old.traces.items (D.document doc.old))
        (map action_of plan.now.steps) ≡ true }
    requires led { AllLeadBack D.fits D.undone trail.old.traces.items (D.document doc.old) }
    requires done { AreDone
        (gone_back D.fits D.undone trail.old.traces.items (D.document doc.old))
        (D.document doc.old) plan.now.steps [] trail.old.traces.items [] trail.old.inverse }
    requires few { AllByRecursion (λ x. x.made < 2 ^ 63) sessions.old.items }
    requires few_bundles { AllByRecursion (λ x. count x.holder.log < 2 ^ 62) sessions.old.items }
    ensures document { OnOk result (D.document doc.new ≡ after_steps
        (gone_back D.fits D.undone trail.old.traces.items (D.document doc.old))
        plan.now.steps) }
    ensures led { AllLeadBack D.fits D.undone trail.new.traces.items (D.document doc.new) }
    ensures back { gone_back D.fits D.undone trail.new.traces.items (D.document doc.new)
        ≡ gone_back D.fits D.undone trail.old.traces.items (D.document doc.old) }
    ensures reply { IfOk result (λ r. r.ready.reply ≡ bundle_reply sessions.old.items index
        plan.now.undone (after_steps
        (gone_back D.fits D.undone trail.old.traces.items (D.document doc.old)) plan.now.steps)
        plan.now.created.items) }
    ensures note { IfOk result (λ r. r.ready.note ≡ note_of
        (gone_back D.fits D.undone trail.old.traces.items (D.document doc.old)) plan.now) }
    ensures next { IfOk result (λ r. IsRenewal (D.document doc.new) known.now r.next) }
    ensures lost { IfOk result (λ r. IfSome r.room (λ room.
        HasRoomFor (length trail.new.traces.items) room
        × (trail.new.traces.items ≡ trail.old.traces.items))) }
    ensures same { AreSame sessions.old.items sessions.new.items }
    ensures ready { OnOk result (AllByRecursion (IsReady (told_changes
        (gone_back D.fits D.undone trail.old.traces.items (D.document doc.old))
        (map action_of plan.now.steps))) sessions.new.items) }
    ensures room { IfOk result (λ _. (d : SessionState)
        → HasBundleRoom (get_or sessions.new.items index d)) }
    ensures length { length sessions.new.items ≡ length sessions.old.items }
{
    let all = told_of_all(alloc, doc, known, &plan.steps, &mut trail.traces)?;
    let reply = reply_to(alloc, doc, known, &all.next, &sessions[index], plan)?;
    ready_all(alloc, sessions, index, known.contexts.as_slice(), &all.told)?;
    let room = room_for(alloc, all.again, trail.traces.len())?;
    let note = BundleNote {
        inverse: taken_inverse(alloc, &mut trail.inverse),
        undone: plan.undone,
    };
    Ok(PreparedBundle {
        ready: ReadyBundle { reply, note },
        next: all.next,
        room,
    })
}

// Room for what so many traces tell; none where they are not those of the judgement.
fn room_for(
    alloc: Global,
    again: bool,
    traces: usize,
) -> Result<Option<Vec<Vec<CellOld>>>, AllocError>
    ensures { IfOk result (λ o. IfSome o (λ room. (again ≡ false) × HasRoomFor traces room)) }
{
    if again {
        return Ok(None);
    }
    Ok(Some(Vec::with_capacity(alloc, traces)?))
}

fn taken_inverse(alloc: Global, inverse: &mut BundleInverse) -> StepList
    ensures { result ≡ inverse.old }
{
    mem::replace(inverse, BundleInverse::new(alloc)).into_steps()
}

// The verdict of an accepted bundle: where it is an undo, it has no values.
fn accepted_as(undone: Option<u64>, number: u64, values: RetValueList) -> BareVerdict
    ensures { result ≡ accepted_as undone number values }
{
    match undone {
        Some(_) => BareVerdict::Undone { number },
        None => BareVerdict::Bundle { number, values },
    }
}

// The reply to a bundle of the session.
fn reply_to<D: DocTables>(
    alloc: Global,
    doc: &Doc<D>,
    known: &KnownContexts,
    next: &Renewal,
    session: &OpenSession,
    plan: &BundlePlan,
) -> Result<Line, AllocError>
    requires known { IsRenewal (D.document doc.now) known.now next.now }
    requires whole { IsWhole (D.document doc.now) }
    requires few { count session.now.holder.log < 2 ^ 62 }
    ensures { IfOk result (λ l. l
        ≡ reply_of (accepted_as plan.now.undone (count session.now.holder.log + 1)
        (map (told_of (view session.now.holder.user (D.document doc.now)))
        plan.now.created.items))) }
{
    let values = values_of(alloc, doc, known, next, session.user(), &plan.created)?;
    let number = session.bundles() + 1;
    reply_with(alloc, accepted_as(plan.undone, number, values))
}

// What is told of what was created, by what the user sees now. Where there is nothing of it, no
// context is asked for.
fn values_of<D: DocTables>(
    alloc: Global,
    doc: &Doc<D>,
    known: &KnownContexts,
    next: &Renewal,
    user: &User,
    created: &[Created],
) -> Result<RetValueList, AllocError>
    requires known { IsRenewal (D.document doc.now) known.now next.now }
    requires whole { IsWhole (D.document doc.now) }
    ensures { IfOk result
        (λ l. l ≡ map (told_of (view user.now (D.document doc.now))) created.now) }
{
    if created.is_empty() {
        return Ok(RetValueList::new(alloc));
    }
    let found = known.found_after(alloc, doc, next, user)?;
    values_in(alloc, doc, found.context(), created)
}

// What is told of what was created, by what a context shows of the document.
#[tactic(auto, using(recalc::proofs::FilledLaws::laid_out_law))]
fn values_in<D: DocTables>(
    alloc: Global,
    doc: &Doc<D>,
    ctx: &Ctx,
    created: &[Created],
) -> Result<RetValueList, AllocError>
    requires { IsWhole (D.document doc.now) }
    ensures { IfOk result
        (λ l. l ≡ map (told_of (view_in ctx.now (D.document doc.now))) created.now) }
{
    all_told(alloc, &RuleReading { ctx }, doc, created)
}

// Makes ready each session's line, and room for the two that the session of the bundle is given
// and for the note of it.
fn ready_all(
    alloc: Global,
    sessions: &mut Vec<OpenSession>,
    index: usize,
    contexts: &[Ctx],
    told: &[ViewActionList],
) -> Result<(), AllocError>
    requires within { index < length sessions.old.items }
    requires few { AllByRecursion (λ x. x.made < 2 ^ 63) sessions.old.items }
    ensures same { AreSame sessions.old.items sessions.new.items }
    ensures ready { OnOk result
        (AllByRecursion (IsReady (told_by contexts.now told.now)) sessions.new.items) }
    ensures room { IfOk result (λ _. (d : SessionState)
        → HasBundleRoom (get_or sessions.new.items index d)) }
    ensures length { length sessions.new.items ≡ length sessions.old.items }
{
    prepare_vec(alloc, sessions, contexts, told)?;
    let session = &mut sessions[index];
    session.make_bundle_room()
}

fn prepare_vec(
    alloc: Global,
    sessions: &mut Vec<OpenSession>,
    contexts: &[Ctx],
    told: &[ViewActionList],
) -> Result<(), AllocError>
    requires { AllByRecursion (λ x. x.made < 2 ^ 63) sessions.old.items }
    ensures same { AreSame sessions.old.items sessions.new.items }
    ensures ready { OnOk result
        (AllByRecursion (IsReady (told_by contexts.now told.now)) sessions.new.items) }
    ensures length { length sessions.new.items ≡ length sessions.old.items }
{
    prepare_all(alloc, sessions.as_mut_slice(), contexts, told)
}

// Gives the session its own lines and notes its bundle, and posts the others theirs.
fn post(
    alloc: Global,
    sessions: &mut Vec<OpenSession>,
    index: usize,
    ready: ReadyBundle,
) -> Vec<Line>
    requires within { index < length sessions.old.items }
    requires room { (d : SessionState) → HasBundleRoom (get_or sessions.old.items index d) }
    requires own { (d : SessionState)
        → MayBeUndone ready.note.undone (get_or sessions.old.items index d).holder.log }
    requires may { AllByRecursion MayPost sessions.old.items }
    requires few_bundles { AllByRecursion (λ x. count x.holder.log < 2 ^ 63) sessions.old.items }
    ensures { Posts sessions.old.items sessions.new.items index ready.note ready.reply
        result.items }
{
    let mut own = sessions.remove(index);
    post_rest(sessions);
    let lines = own.give_bundle(alloc, ready.reply, ready.note);
    put_back(sessions, index, own);
    lines
}

fn post_rest(sessions: &mut Vec<OpenSession>)
    requires { AllByRecursion MayPost sessions.old.items }
    ensures items { sessions.new.items ≡ map posted_state sessions.old.items }
    ensures len { vec_len sessions.new ≡ vec_len sessions.old }
    ensures capacity { vec_capacity sessions.new ≡ vec_capacity sessions.old }
{
    post_all(sessions.as_mut_slice());
}

/// Puts the session in at that index, where there is room.
pub(crate) fn put_back(sessions: &mut Vec<OpenSession>, index: usize, own: OpenSession)
    requires within { index ≤ vec_len sessions.old }
    requires room { vec_len sessions.old < vec_capacity sessions.old }
    ensures { sessions.new.items ≡ insert sessions.old.items index own }
{
    drop(sessions.insert(index, own));
}
