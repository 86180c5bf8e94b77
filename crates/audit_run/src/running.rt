//! A run of the command: the users, the document, and then the lines.

ghost use Rattle.std.specs.Prelude.{ℕ, ◌≡◌, ◌≤◌, [], IfErr, IfOk, IsUtf8, string_bytes};
ghost use Rattle.io_edges.specs.Causes.{Rose};
ghost use Rattle.doc_model.specs.NewDocument.{new_document};
ghost use Rattle.doc_opening.specs.Opening.{FirstBad};
ghost use Rattle.doc_opening.specs.declared.opening.StartCause.TheVariants.{BadStore, NoMemory, StoreFault};
ghost use Rattle.grist_run.specs.Words.{place_of};
ghost use Rattle.audit_run.specs.AuditRuns.{IsAudit, TellsAudits, TellsText};
ghost use Rattle.audit_run.specs.AuditLines.{lines_for};

use crate::lines::lines_of;
use crate::opening::{OpenedDocument, open_document};
use doc_keeper::Keeper;
use doc_model::User;
use doc_opening::StartCause;
use grist_run::{Outcome, Status, send, start_status, without_history};
use io_edges::{LineReader, Outbox, Sink, Source};
use std::alloc::Global;
use std::thread::Threads;
use users_alone::read_users_alone;

// The lines of these users in a document that was opened.
fn lines_in(alloc: Global, opened: &OpenedDocument, users: &[User]) -> Result<String, StartCause>
    ensures ok { IfOk result (λ t. string_bytes t ≡ lines_for opened.now.doc users.now) }
    ensures err { IfErr result (λ cause. cause ≡ NoMemory) }
{
    match lines_of(alloc, &opened.doc, users) {
        Ok(text) => Ok(text),
        Err(_) => Err(StartCause::NoMemory),
    }
}

// The lines of these users in the document that the keeper's records lead to.
#[tactic(auto, using(crate::proofs::RunLemmas::tells))]
fn lines_told<R: Threads + Sync, K: Keeper>(
    rt: &R,
    alloc: Global,
    keeper: &mut K,
    users: &[User],
) -> Result<String, StartCause>
    ensures same { K.records keeper.new ≡ K.records keeper.old }
    ensures later { K.failures keeper.old ≤ K.failures keeper.new }
    ensures fault { IfErr result (λ cause. cause ≡ StoreFault
        → Rose (K.failures keeper.old) (K.failures keeper.new)) }
    ensures ok { IfOk result
        (λ t. TellsAudits (K.records keeper.old) users.now (string_bytes t)) }
    ensures bad { IfErr result (λ cause. (n : ℕ) → cause ≡ BadStore n
        → FirstBad (K.records keeper.old) new_document n) }
{
    match open_document(rt, alloc, keeper) {
        Ok(opened) => lines_in(alloc, &opened, users),
        Err(cause) => Err(cause),
    }
}

// Sends the lines.
fn tell<O: Sink, K: Keeper>(
    alloc: Global,
    keeper: K,
    outbox: Outbox,
    text: &str,
    out: &mut O,
) -> Outcome<K>
    requires empty { outbox ≡ [] }
    ensures told { TellsText result.status text.now (O.written out.old) (O.written out.new) }
    ensures at { result.at ≡ place_of result.status }
    ensures history { result.history ≡ [] }
    ensures records { K.records result.keeper ≡ K.records keeper }
    ensures faults { K.failures result.keeper ≡ K.failures keeper }
    ensures write_fault { result.status ≡ Status.WriteFault
        → Rose (O.faults out.old) (O.faults out.new) }
{
    let mut outbox = outbox;
    match send(&mut outbox, out, text.as_bytes()) {
        Ok(()) => without_history(alloc, Status::Done, keeper),
        Err(_) => without_history(alloc, Status::WriteFault, keeper),
    }
}

/// An audit: hears the users, opens the document that the keeper's records lead to, and writes a
/// line for each user that tells whether verdicts on what the user writes tell no more than the
/// user's view, or else the first thing by which they may.
///
/// The input is user lines alone. Nothing is asked of the document, and the keeper is handed back
/// with its records as they were. It waits for nobody.
/// Errors: the status says which event came first. It is never `Usage`, `PortFault` nor
/// `HistoryFull`. Memory: all lines together are made before the first is written.
/// Source: docs/PROTOCOL.md, "the program".
pub fn audit_users<R: Threads + Sync, S: Source, O: Sink, K: Keeper>(
    rt: &R,
    alloc: Global,
    input: &mut S,
    out: &mut O,
    keeper: K,
) -> Outcome<K>
    ensures usage { result.status ≡ Status.Usage → ⊥ }
    ensures at { result.at ≡ place_of result.status }
    ensures audit { IsAudit result.status (S.left input.old) (S.left input.new) result.history
        (O.written out.old) (O.written out.new) (K.records keeper) (K.records result.keeper)
        (K.failures keeper) (K.failures result.keeper) }
    ensures bad_store { (n : ℕ) → result.status ≡ Status.BadStore n
        → FirstBad (K.records keeper) new_document n }
    ensures read_fault { result.status ≡ Status.ReadFault
        → Rose (S.faults input.old) (S.faults input.new) }
    ensures write_fault { result.status ≡ Status.WriteFault
        → Rose (O.faults out.old) (O.faults out.new) }
    ensures store_fault { result.status ≡ Status.StoreFault
        → Rose (K.failures keeper) (K.failures result.keeper) }
{
    let Ok(mut reader) = LineReader::new(alloc) else {
        return without_history(alloc, Status::NoMemory, keeper);
    };
    let Ok(outbox) = Outbox::new(alloc) else {
        return without_history(alloc, Status::NoMemory, keeper);
    };
    let users = match read_users_alone(alloc, &mut reader, input) {
        Ok(users) => users,
        Err(status) => return without_history(alloc, status, keeper),
    };
    let mut keeper = keeper;
    match lines_told(rt, alloc, &mut keeper, users.as_slice()) {
        Ok(text) => tell(alloc, keeper, outbox, text.as_str(), out),
        Err(cause) => without_history(alloc, start_status(cause), keeper),
    }
}
