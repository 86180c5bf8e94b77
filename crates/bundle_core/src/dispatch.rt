//! How an entry is answered: which verdict it comes to, and what that makes of the document and the
//! sessions.

ghost use Rattle.std.specs.Prelude.{◌≡◌, ◌+◌, ◌<◌, ◌≤◌, ◌^◌, [], ◌∷◌, find, get_or, true, false, Ok, Err, IfOk, OnErr, MatchResult, None, Some};
ghost use Rattle.std.specs.List.{AllByRecursion, list_all};
ghost use Rattle.std.specs.Option.{option_copied};
ghost use Rattle.std.specs.Str.{bytes_eq};
ghost use Rattle.doc_model.specs.ByIds.{IsByIds};
ghost use Rattle.doc_model.specs.Changes.{IsView, changes};
ghost use Rattle.doc_model.specs.DocumentLaws.{IsWhole};
ghost use Rattle.doc_model.specs.WellFormed.{asks_well_formed, is_well_formed};
ghost use Rattle.doc_model.specs.declared.request.Request.TheVariants.{Open, Fetch, Undo};
ghost use Rattle.grist_json.specs.Lines.{reply_text};
ghost use Rattle.action_limits.specs.Tallies.{IsTally};
ghost use Rattle.undo_bundles.specs.BundleLog.{count};
ghost use Rattle.bundle_judge.specs.Judgement.{judge};
ghost use Rattle.bundle_judge.specs.JudgedBundles.{IsDoneBundle};
ghost use Rattle.bundle_judge.specs.Rollback.{AllLeadBack, gone_back};
ghost use Rattle.context_changes.specs.Known.{AreKnown};
ghost use Rattle.bundle_core.specs.Followed.{AreAllKnown};
ghost use Rattle.bundle_core.specs.Core.{is_gone, marked};
ghost use Rattle.bundle_core.specs.Dispatch.{AreSame, Answers, Misses, Finds, kept_name};
ghost use Rattle.bundle_core.specs.Judged.{Asks, IsJudgedFor};
ghost use Rattle.bundle_core.specs.LastChange.{TellsChange};
ghost use Rattle.bundle_core.specs.Renaming.{judge_plan, planned};
ghost use Rattle.bundle_core.specs.Requests.{refusal_closed, refusal_open};
ghost use Rattle.bundle_core.specs.SessionState.{SessionState};
ghost use Rattle.bundle_core.specs.Mailbox.{asked_table, replies};
ghost use Rattle.bundle_core.specs.State.{shown_if_any, user_of};
ghost use Rattle.bundle_core.specs.Turns.{IsTurn};
ghost use Rattle.rule_contexts.specs.Context.{view};

use crate::bundle::{Acceptance, accept, know_all, put_back};
use crate::last_change::LastChange;
use crate::ruled_document::{RuledDocument, judge_for, judge_undo_for};
use crate::session::OpenSession;
use crate::session_index::index_of;
use crate::turns::{give, leave, line_alone, reply_alone, reply_with, stay};
use action_limits::Tally;
use bundle_judge::{BareVerdict, JudgedBundle, Trail};
use bundle_records::RecordLedger;
use cell_types::CellText;
use context_changes::KnownContexts;
use doc_keeper::Keeper;
use doc_model::{
    DocTables, Entry, LimitKind, MAX_SESSIONS, Refusal, Request, User, UserActionList, Verdict,
    View, ViewTableList,
};
use evaluated_doc::Doc;
use grist_json::{Line, write_reply};
use plain_view::changes;
use rename_flow::{RenamePlan, plan_rename};
use std::alloc::{AllocError, Global};

/// The lines that are given at an entry, whether the entry is kept, and the bundle that was
/// accepted.
#[derive(Drop)]
pub(crate) struct Turn {
    pub lines: Vec<Line>,
    pub kept: bool,
    pub change: Option<LastChange>,
}

// Why a request of a session that is not open is refused, where it does not ask for the document.
fn refusal_closed(request: &Request) -> Refusal
    ensures { result ≡ refusal_closed request.now }
{
    match request {
        Request::TooLong => Refusal::LineTooLong,
        Request::Apply { .. }
        | Request::Undo { .. }
        | Request::Sync
        | Request::Fetch { .. }
        | Request::Rename { .. }
        | Request::Close => { Refusal::NotOpen }
        _ => Refusal::BadLine,
    }
}

// Why a request of an open session is refused, whatever the document holds.
fn refusal_open(request: &Request) -> Option<Refusal>
    ensures { result ≡ refusal_open request.now }
{
    match request {
        Request::Bad => Some(Refusal::BadLine),
        Request::TooLong => Some(Refusal::LineTooLong),
        Request::Open { .. } => Some(Refusal::AlreadyOpen),
        Request::Apply { .. }
        | Request::Undo { .. }
        | Request::Sync
        | Request::Fetch { .. }
        | Request::Rename { .. }
        | Request::Close
        | Request::Gone => None,
    }
}

fn refused(refusal: Refusal) -> BareVerdict
    ensures { result ≡ BareVerdict.Refused refusal None }
{
    BareVerdict::Refused {
        refusal,
        action: None,
    }
}

fn user_of<'a>(users: &'a [User], token: &str) -> Option<&'a User>
    ensures { option_copied result ≡ find (λ user. bytes_eq user.token token.now) users.now }
{
    users.iter().find(|user| user.token.as_str() == token)
}

// The turn of an entry that asks for nothing that is kept.
fn quiet(lines: Result<Vec<Line>, AllocError>) -> Result<Turn, AllocError>
    ensures { MatchResult lines
        (λ v. result ≡ Ok (record { lines = v; kept = true; change = None }))
        (λ fault. result ≡ Err fault) }
{
    match lines {
        Ok(lines) => Ok(Turn {
            lines,
            kept: true,
            change: None,
        }),
        Err(fault) => Err(fault),
    }
}

/// Answers an entry of a session that does not go away: the lines that it is given, with the
/// document, the sessions and what is told of the keeper as they are after it. When out of memory,
/// nothing that can be seen has changed, and the keeper has not failed.
pub(crate) fn answer<D: DocTables, K: Keeper>(
    alloc: Global,
    users: &[User],
    doc: &mut RuledDocument<D>,
    tally: &mut Tally,
    sessions: &mut Vec<OpenSession>,
    records: &mut RecordLedger<K>,
    entry: &Entry,
) -> Result<Turn, AllocError>
    requires whole { IsWhole (D.document doc.old) }
    requires tally { IsTally (D.document doc.old) tally.old }
    requires by_name { IsByIds kept_name sessions.old.items }
    requires stays { is_gone entry.now.request ≡ false }
    requires few { AllByRecursion (λ x. x.made < 2 ^ 62) sessions.old.items }
    requires few_bundles { AllByRecursion (λ x. count x.holder.log < 2 ^ 62) sessions.old.items }
    requires kept { entry.now.kept ≡ true }
    requires well_formed { asks_well_formed entry.now.request ≡ true }
    ensures ok { IfOk result (λ t. IsTurn users.now (D.document doc.old) (D.document doc.new)
        sessions.old.items sessions.new.items records.old records.new (marked entry.now t.kept)
        t.lines.items) }
    ensures change { IfOk result (λ t. TellsChange (D.document doc.old) (D.document doc.new)
        records.old records.new t.change) }
    ensures whole { IsWhole (D.document doc.new) }
    ensures tally { IsTally (D.document doc.new) tally.new }
    ensures err_document { OnErr result (D.document doc.new ≡ D.document doc.old) }
    ensures err { OnErr result (AreSame sessions.old.items sessions.new.items) }
    ensures err_told { OnErr result (records.new.told ≡ records.old.told) }
    ensures err_count { OnErr result (records.new.count ≡ records.old.count) }
    ensures err_faults { OnErr result (records.new.faults ≡ records.old.faults) }
    ensures later { records.old.faults ≤ records.new.faults }
{
    match index_of(sessions, &entry.session) {
        Err(index) => quiet(answer_closed(alloc, users, doc, sessions, index, entry)),
        Ok(index) => answer_open(alloc, users, doc, tally, sessions, records, index, entry),
    }
}

// The entry is of a session that is not open.
fn answer_closed<D: DocTables>(
    alloc: Global,
    users: &[User],
    doc: &RuledDocument<D>,
    sessions: &mut Vec<OpenSession>,
    index: usize,
    entry: &Entry,
) -> Result<Vec<Line>, AllocError>
    requires misses { Misses entry.now.session sessions.old.items index }
    requires stays { is_gone entry.now.request ≡ false }
    requires whole { IsWhole (D.document doc.now) }
    ensures ok { IfOk result (λ v. Answers users.now (D.document doc.now)
        (D.document doc.now) sessions.old.items sessions.new.items entry.now v.items) }
    ensures err { OnErr result (AreSame sessions.old.items sessions.new.items) }
{
    match &entry.request {
        Request::Open { token } => {
            open(alloc, users, doc, sessions, index, entry, token.as_str())
        }
        request => reply_alone(alloc, refused(refusal_closed(request))),
    }
}

// Opens the session for the user of the token.
fn open<D: DocTables>(
    alloc: Global,
    users: &[User],
    doc: &RuledDocument<D>,
    sessions: &mut Vec<OpenSession>,
    index: usize,
    entry: &Entry,
    token: &str,
) -> Result<Vec<Line>, AllocError>
    requires misses { Misses entry.now.session sessions.old.items index }
    requires asks { entry.now.request ≡ Open token.now }
    requires whole { IsWhole (D.document doc.now) }
    ensures ok { IfOk result (λ v. Answers users.now (D.document doc.now)
        (D.document doc.now) sessions.old.items sessions.new.items entry.now v.items) }
    ensures err { OnErr result (AreSame sessions.old.items sessions.new.items) }
{
    match user_of(users, token) {
        None => reply_alone(alloc, refused(Refusal::UnknownToken)),
        Some(user) => open_for(alloc, users, doc, sessions, index, entry, token, user),
    }
}

// Opens the session for that user, where there is room for one more.
fn open_for<D: DocTables>(
    alloc: Global,
    users: &[User],
    doc: &RuledDocument<D>,
    sessions: &mut Vec<OpenSession>,
    index: usize,
    entry: &Entry,
    token: &str,
    user: &User,
) -> Result<Vec<Line>, AllocError>
    requires misses { Misses entry.now.session sessions.old.items index }
    requires asks { entry.now.request ≡ Open token.now }
    requires known { user_of users.now token.now ≡ Some user.now }
    requires whole { IsWhole (D.document doc.now) }
    ensures ok { IfOk result (λ v. Answers users.now (D.document doc.now)
        (D.document doc.now) sessions.old.items sessions.new.items entry.now v.items) }
    ensures err { OnErr result (AreSame sessions.old.items sessions.new.items) }
{
    if sessions.len() >= MAX_SESSIONS as usize {
        return reply_alone(alloc, too_many());
    }
    sessions.reserve(1)?;
    let lines = show_all(alloc, doc, user)?;
    let session = OpenSession::of(alloc, &entry.session, user)?;
    put_back(sessions, index, session);
    Ok(lines)
}

// The reply that shows a user all that the user sees of the document.
fn show_all<D: DocTables>(
    alloc: Global,
    doc: &RuledDocument<D>,
    user: &User,
) -> Result<Vec<Line>, AllocError>
    requires { IsWhole (D.document doc.now) }
    ensures { IfOk result (λ v. v.items
        ≡ reply_text (Verdict.Changes (changes [] (view user.now (D.document doc.now)))) ∷ []) }
{
    let seen = doc.view_seen(alloc, user)?;
    line_alone(alloc, reply_showing(alloc, &seen)?)
}

// The reply that shows these tables to one who saw nothing.
fn reply_showing(alloc: Global, seen: &View) -> Result<Line, AllocError>
    requires { IsView seen.now.tables }
    ensures { IfOk result (λ l. l ≡ reply_text (Verdict.Changes (changes [] seen.now.tables))) }
{
    let nothing = View {
        tables: ViewTableList::new(alloc),
    };
    let actions = changes(alloc, &nothing, seen)?;
    let line = write_reply(alloc, &Verdict::Changes(actions))?;
    Ok(line)
}

fn too_many() -> BareVerdict
    ensures { result ≡ BareVerdict.Limited LimitKind.Sessions 1024 None }
{
    BareVerdict::Limited {
        what: LimitKind::Sessions,
        bound: MAX_SESSIONS,
        action: None,
    }
}

// The entry is of the open session of that index.
fn answer_open<D: DocTables, K: Keeper>(
    alloc: Global,
    users: &[User],
    doc: &mut RuledDocument<D>,
    tally: &mut Tally,
    sessions: &mut Vec<OpenSession>,
    records: &mut RecordLedger<K>,
    index: usize,
    entry: &Entry,
) -> Result<Turn, AllocError>
    requires finds { Finds entry.now.session sessions.old.items index }
    requires stays { is_gone entry.now.request ≡ false }
    requires whole { IsWhole (D.document doc.old) }
    requires tally { IsTally (D.document doc.old) tally.old }
    requires few { AllByRecursion (λ x. x.made < 2 ^ 62) sessions.old.items }
    requires few_bundles { AllByRecursion (λ x. count x.holder.log < 2 ^ 62) sessions.old.items }
    requires kept { entry.now.kept ≡ true }
    requires well_formed { asks_well_formed entry.now.request ≡ true }
    ensures ok { IfOk result (λ t. IsTurn users.now (D.document doc.old) (D.document doc.new)
        sessions.old.items sessions.new.items records.old records.new (marked entry.now t.kept)
        t.lines.items) }
    ensures change { IfOk result (λ t. TellsChange (D.document doc.old) (D.document doc.new)
        records.old records.new t.change) }
    ensures whole { IsWhole (D.document doc.new) }
    ensures tally { IsTally (D.document doc.new) tally.new }
    ensures err_document { OnErr result (D.document doc.new ≡ D.document doc.old) }
    ensures err { OnErr result (AreSame sessions.old.items sessions.new.items) }
    ensures err_told { OnErr result (records.new.told ≡ records.old.told) }
    ensures err_count { OnErr result (records.new.count ≡ records.old.count) }
    ensures err_faults { OnErr result (records.new.faults ≡ records.old.faults) }
    ensures later { records.old.faults ≤ records.new.faults }
{
    if sessions[index].is_lagging() {
        return quiet(leave(alloc, sessions, index, refused(Refusal::Lagged)));
    }
    if let Some(refusal) = refusal_open(&entry.request) {
        return quiet(stay(alloc, sessions, index, refused(refusal)));
    }
    match &entry.request {
        Request::Apply { actions } => {
            answer_bundle(
                alloc, users, doc, tally, sessions, records, index, entry, actions,
            )
        }
        Request::Undo { bundle } => {
            answer_undo(
                alloc, users, doc, tally, sessions, records, index, entry, *bundle,
            )
        }
        Request::Rename { table, column, new } => {
            let user = sessions[index].user();
            let plan = plan_for(alloc, doc, user, table, column, new)?;
            answer_renaming(
                alloc, users, doc, tally, sessions, records, index, entry, &plan,
            )
        }
        Request::Fetch { table } => {
            quiet(answer_fetch(alloc, users, doc, sessions, index, entry, table.as_str()))
        }
        Request::Close => quiet(leave(alloc, sessions, index, BareVerdict::Done)),
        _ => quiet(stay(alloc, sessions, index, BareVerdict::Done)),
    }
}

// Gives the open session of that index, which does not lag, the table that it asks for.
fn answer_fetch<D: DocTables>(
    alloc: Global,
    users: &[User],
    doc: &RuledDocument<D>,
    sessions: &mut Vec<OpenSession>,
    index: usize,
    entry: &Entry,
    table: &str,
) -> Result<Vec<Line>, AllocError>
    requires finds { Finds entry.now.session sessions.old.items index }
    requires quick { (d : SessionState) → (get_or sessions.old.items index d).lagging ≡ false }
    requires asks { entry.now.request ≡ Fetch table.now }
    requires kept { entry.now.kept ≡ true }
    requires whole { IsWhole (D.document doc.now) }
    ensures ok { IfOk result (λ v. Answers users.now (D.document doc.now)
        (D.document doc.now) sessions.old.items sessions.new.items entry.now v.items) }
    ensures err { OnErr result (AreSame sessions.old.items sessions.new.items) }
{
    let reply = fetch_reply(alloc, doc, sessions[index].user(), table)?;
    give(alloc, sessions, index, reply)
}

// The reply to a user who asks for a table.
fn fetch_reply<D: DocTables>(
    alloc: Global,
    doc: &RuledDocument<D>,
    user: &User,
    table: &str,
) -> Result<Line, AllocError>
    requires { IsWhole (D.document doc.now) }
    ensures { IfOk result (λ l. replies (Fetch table.now)
        (shown_if_any (asked_table table.now (view user.now (D.document doc.now))))
        (view user.now (D.document doc.now)) ≡ l ∷ []) }
{
    let asked = doc.table_seen(alloc, user, table)?;
    if asked.tables.is_empty() {
        return reply_with(alloc, refused(Refusal::NoSuchTable));
    }
    reply_showing(alloc, &asked)
}

// Judges a bundle of the open session of that index, which does not lag, and does it where it is
// accepted.
fn answer_bundle<D: DocTables, K: Keeper>(
    alloc: Global,
    users: &[User],
    doc: &mut RuledDocument<D>,
    tally: &mut Tally,
    sessions: &mut Vec<OpenSession>,
    records: &mut RecordLedger<K>,
    index: usize,
    entry: &Entry,
    actions: &UserActionList,
) -> Result<Turn, AllocError>
    requires finds { Finds entry.now.session sessions.old.items index }
    requires quick { (d : SessionState) → (get_or sessions.old.items index d).lagging ≡ false }
    requires asks { (d : SessionState) → Asks (get_or sessions.old.items index d).holder
        (D.document doc.old) entry.now.request None
        (judge (get_or sessions.old.items index d).holder.user (D.document doc.old) actions.now) }
    requires whole { IsWhole (D.document doc.old) }
    requires tally { IsTally (D.document doc.old) tally.old }
    requires few { AllByRecursion (λ x. x.made < 2 ^ 62) sessions.old.items }
    requires few_bundles { AllByRecursion (λ x. count x.holder.log < 2 ^ 62) sessions.old.items }
    requires kept { entry.now.kept ≡ true }
    requires well_formed { list_all is_well_formed actions.now ≡ true }
    ensures ok { IfOk result (λ t. IsTurn users.now (D.document doc.old) (D.document doc.new)
        sessions.old.items sessions.new.items records.old records.new (marked entry.now t.kept)
        t.lines.items) }
    ensures change { IfOk result (λ t. TellsChange (D.document doc.old) (D.document doc.new)
        records.old records.new t.change) }
    ensures whole { IsWhole (D.document doc.new) }
    ensures tally { IsTally (D.document doc.new) tally.new }
    ensures err_document { OnErr result (D.document doc.new ≡ D.document doc.old) }
    ensures err { OnErr result (AreSame sessions.old.items sessions.new.items) }
    ensures err_told { OnErr result (records.new.told ≡ records.old.told) }
    ensures err_count { OnErr result (records.new.count ≡ records.old.count) }
    ensures err_faults { OnErr result (records.new.faults ≡ records.old.faults) }
    ensures later { records.old.faults ≤ records.new.faults }
{
    let known = &mut doc.known;
    know_all(alloc, &doc.doc, known, sessions)?;
    let user = sessions[index].user();
    let (judged, trail) = judge_for(alloc, &mut doc.doc, known, *tally, user, actions.as_slice())?;
    answer_judged(
        alloc,
        users,
        &mut doc.doc,
        known,
        tally,
        sessions,
        records,
        index,
        entry,
        judged,
        trail,
    )
}

// What a user asks for by the rename of a column through formulas and rules.
fn plan_for<D: DocTables>(
    alloc: Global,
    doc: &RuledDocument<D>,
    user: &User,
    table: &CellText,
    column: &CellText,
    new: &CellText,
) -> Result<RenamePlan, AllocError>
    requires { IsWhole (D.document doc.now) }
    ensures plan { IfOk result
        (λ p. p ≡ planned user.now (D.document doc.now) table.now column.now new.now) }
    ensures well_formed { IfOk result (λ p. list_all is_well_formed p.actions ≡ true) }
{
    let seen = doc.columns_seen(alloc, user)?;
    plan_rename(alloc, &seen, table, column, new)
}

// Judges a renaming of the open session of that index, which does not lag, by its plan, and does it
// where it is accepted.
fn answer_renaming<D: DocTables, K: Keeper>(
    alloc: Global,
    users: &[User],
    doc: &mut RuledDocument<D>,
    tally: &mut Tally,
    sessions: &mut Vec<OpenSession>,
    records: &mut RecordLedger<K>,
    index: usize,
    entry: &Entry,
    plan: &RenamePlan,
) -> Result<Turn, AllocError>
    requires finds { Finds entry.now.session sessions.old.items index }
    requires quick { (d : SessionState) → (get_or sessions.old.items index d).lagging ≡ false }
    requires asks { (d : SessionState) → Asks (get_or sessions.old.items index d).holder
        (D.document doc.old) entry.now.request None
        (judge_plan (get_or sessions.old.items index d).holder.user (D.document doc.old)
        plan.now) }
    requires whole { IsWhole (D.document doc.old) }
    requires tally { IsTally (D.document doc.old) tally.old }
    requires few { AllByRecursion (λ x. x.made < 2 ^ 62) sessions.old.items }
    requires few_bundles { AllByRecursion (λ x. count x.holder.log < 2 ^ 62) sessions.old.items }
    requires kept { entry.now.kept ≡ true }
    requires well_formed { list_all is_well_formed plan.now.actions ≡ true }
    ensures ok { IfOk result (λ t. IsTurn users.now (D.document doc.old) (D.document doc.new)
        sessions.old.items sessions.new.items records.old records.new (marked entry.now t.kept)
        t.lines.items) }
    ensures change { IfOk result (λ t. TellsChange (D.document doc.old) (D.document doc.new)
        records.old records.new t.change) }
    ensures whole { IsWhole (D.document doc.new) }
    ensures tally { IsTally (D.document doc.new) tally.new }
    ensures err_document { OnErr result (D.document doc.new ≡ D.document doc.old) }
    ensures err { OnErr result (AreSame sessions.old.items sessions.new.items) }
    ensures err_told { OnErr result (records.new.told ≡ records.old.told) }
    ensures err_count { OnErr result (records.new.count ≡ records.old.count) }
    ensures err_faults { OnErr result (records.new.faults ≡ records.old.faults) }
    ensures later { records.old.faults ≤ records.new.faults }
{
    if plan.unresolved > 0 {
        let verdict = BareVerdict::Unresolved {
            count: plan.unresolved,
        };
        return quiet(stay(alloc, sessions, index, verdict));
    }
    answer_bundle(
        alloc,
        users,
        doc,
        tally,
        sessions,
        records,
        index,
        entry,
        &plan.actions,
    )
}

// Judges the undo of a bundle of the open session of that index, which does not lag, and does it
// where it is accepted.
fn answer_undo<D: DocTables, K: Keeper>(
    alloc: Global,
    users: &[User],
    doc: &mut RuledDocument<D>,
    tally: &mut Tally,
    sessions: &mut Vec<OpenSession>,
    records: &mut RecordLedger<K>,
    index: usize,
    entry: &Entry,
    number: u64,
) -> Result<Turn, AllocError>
    requires finds { Finds entry.now.session sessions.old.items index }
    requires quick { (d : SessionState) → (get_or sessions.old.items index d).lagging ≡ false }
    requires asks { entry.now.request ≡ Undo number }
    requires whole { IsWhole (D.document doc.old) }
    requires tally { IsTally (D.document doc.old) tally.old }
    requires few { AllByRecursion (λ x. x.made < 2 ^ 62) sessions.old.items }
    requires few_bundles { AllByRecursion (λ x. count x.holder.log < 2 ^ 62) sessions.old.items }
    requires kept { entry.now.kept ≡ true }
    ensures ok { IfOk result (λ t. IsTurn users.now (D.document doc.old) (D.document doc.new)
        sessions.old.items sessions.new.items records.old records.new (marked entry.now t.kept)
        t.lines.items) }
    ensures change { IfOk result (λ t. TellsChange (D.document doc.old) (D.document doc.new)
        records.old records.new t.change) }
    ensures whole { IsWhole (D.document doc.new) }
    ensures tally { IsTally (D.document doc.new) tally.new }
    ensures err_document { OnErr result (D.document doc.new ≡ D.document doc.old) }
    ensures err { OnErr result (AreSame sessions.old.items sessions.new.items) }
    ensures err_told { OnErr result (records.new.told ≡ records.old.told) }
    ensures err_count { OnErr result (records.new.count ≡ records.old.count) }
    ensures err_faults { OnErr result (records.new.faults ≡ records.old.faults) }
    ensures later { records.old.faults ≤ records.new.faults }
{
    let known = &mut doc.known;
    know_all(alloc, &doc.doc, known, sessions)?;
    let session = &sessions[index];
    let (judged, trail) = judge_undo_for(
        alloc,
        &mut doc.doc,
        known,
        *tally,
        session.user(),
        session.log(),
        number,
    )?;
    answer_judged(
        alloc,
        users,
        &mut doc.doc,
        known,
        tally,
        sessions,
        records,
        index,
        entry,
        judged,
        trail,
    )
}

// Answers a bundle of the open session of that index, or an undo, that was judged: it is done where
// it was accepted.
fn answer_judged<D: DocTables, K: Keeper>(
    alloc: Global,
    users: &[User],
    doc: &mut Doc<D>,
    known: &mut KnownContexts,
    tally: &mut Tally,
    sessions: &mut Vec<OpenSession>,
    records: &mut RecordLedger<K>,
    index: usize,
    entry: &Entry,
    judged: JudgedBundle,
    trail: Trail<D>,
) -> Result<Turn, AllocError>
    requires finds { Finds entry.now.session sessions.old.items index }
    requires quick { (d : SessionState) → (get_or sessions.old.items index d).lagging ≡ false }
    requires judged { (d : SessionState) → IsJudgedFor (get_or sessions.old.items index d).holder
        (gone_back D.fits D.undone trail.traces.items (D.document doc.old)) entry.now.request
        judged }
    requires led { AllLeadBack D.fits D.undone trail.traces.items (D.document doc.old) }
    requires done { IsDoneBundle
        (gone_back D.fits D.undone trail.traces.items (D.document doc.old)) (D.document doc.old)
        trail.traces.items trail.inverse judged }
    requires known { AreKnown
        (gone_back D.fits D.undone trail.traces.items (D.document doc.old)) known.old }
    requires all { AreAllKnown known.old.contexts.items sessions.old.items }
    requires whole { IsWhole
        (gone_back D.fits D.undone trail.traces.items (D.document doc.old)) }
    requires tally { IsTally
        (gone_back D.fits D.undone trail.traces.items (D.document doc.old)) tally.old }
    requires few { AllByRecursion (λ x. x.made < 2 ^ 62) sessions.old.items }
    requires few_bundles { AllByRecursion (λ x. count x.holder.log < 2 ^ 62) sessions.old.items }
    requires kept { entry.now.kept ≡ true }
    ensures ok { IfOk result (λ t. IsTurn users.now
        (gone_back D.fits D.undone trail.traces.items (D.document doc.old)) (D.document doc.new)
        sessions.old.items sessions.new.items records.old records.new (marked entry.now t.kept)
        t.lines.items) }
    ensures change { IfOk result (λ t. TellsChange
        (gone_back D.fits D.undone trail.traces.items (D.document doc.old)) (D.document doc.new)
        records.old records.new t.change) }
    ensures whole { IsWhole (D.document doc.new) }
    ensures tally { IsTally (D.document doc.new) tally.new }
    ensures known { AreKnown (D.document doc.new) known.new }
    ensures err_document { OnErr result (D.document doc.new
        ≡ gone_back D.fits D.undone trail.traces.items (D.document doc.old)) }
    ensures err { OnErr result (AreSame sessions.old.items sessions.new.items) }
    ensures err_told { OnErr result (records.new.told ≡ records.old.told) }
    ensures err_count { OnErr result (records.new.count ≡ records.old.count) }
    ensures err_faults { OnErr result (records.new.faults ≡ records.old.faults) }
    ensures later { records.old.faults ≤ records.new.faults }
{
    match judged {
        JudgedBundle::Refused(verdict) => {
            drop(trail);
            quiet(stay(alloc, sessions, index, verdict))
        }
        JudgedBundle::Accepted(plan) => {
            match accept(alloc, doc, known, sessions, records, index, &plan, trail)? {
                Acceptance::Done { lines, lost } => {
                    *tally = plan.tally;
                    let steps = plan.steps;
                    Ok(Turn {
                        lines,
                        kept: true,
                        change: Some(LastChange { steps, lost }),
                    })
                }
                Acceptance::Unkept(lines) => Ok(Turn {
                    lines,
                    kept: false,
                    change: None,
                }),
            }
        }
    }
}
