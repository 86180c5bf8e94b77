//! A run: its words, its users, its requests and its end.
ghost use Rattle.std.specs.Prelude.{◌≡◌, ◌≤◌, ◌<◌, ◌-◌, ◌^◌, ◌↔◌, ◌⊎◌, false, [], map, string_bytes, ℕ, List, Option, vec_len};
ghost use Rattle.doc_model.specs.NewDocument.{new_document};
ghost use Rattle.doc_opening.specs.Opening.{FirstBad};
ghost use Rattle.io_edges.specs.Causes.{Rose};
ghost use Rattle.doc_model.specs.Document.{Document};
ghost use Rattle.doc_model.specs.declared.entry.Entry.{Entry};
ghost use Rattle.doc_model.specs.declared.user.User.{User};
ghost use Rattle.run_words.specs.Words.{is_replay, plan_of};
ghost use Rattle.grist_run.specs.Hearing.{IsAt};
ghost use Rattle.grist_run.specs.Run.{IsRun};
ghost use Rattle.grist_run.specs.Serving.{EndsServing};
ghost use Rattle.grist_run.specs.Replay.{KeepsRecords, Replays};
ghost use Rattle.grist_run.specs.Starting.{start_status};
ghost use Rattle.grist_run.specs.Words.{is_early, place_of};

use crate::serving::serve;
use crate::status::{Outcome, Status};
use crate::user_lines::{Front, read_users};
use crate::watching::{WatchedSession, start_watched};
use bundle_core::{Finished, StartFault};
use doc_keeper::Keeper;
use doc_model::EntryList;
use doc_opening::StartCause;
use io_edges::{LineReader, NextLine, Outbox, Sink, Source};
use run_words::asks_for_replay;
use std::alloc::Global;
use std::thread::Threads;
use watch_box::Watcher;
use watched_core::WatchedCore;

/// Does what the words ask for, where that is a replay, by `run_alone`.
///
/// Errors: those of a replay; `Usage`, exactly where the words ask for something else.
/// Source: docs/PROTOCOL.md, "the program".
pub fn run<R: Threads + Sync, S: Source, O: Sink, K: Keeper, W: Watcher>(
    rt: &R,
    alloc: Global,
    words: &[String],
    input: &mut S,
    out: &mut O,
    keeper: K,
    watchers: Vec<WatchedSession<W>>,
) -> Outcome<K>
    requires few { vec_len watchers < 2 ^ 32 - 1 }
    ensures usage { (result.status ≡ Status.Usage)
        ↔ (is_replay (plan_of (map string_bytes words.now)) ≡ false) }
    ensures at { result.at ≡ place_of result.status }
    ensures replay { Replays result.status (S.left input.old) (S.left input.new) result.history
        (O.written out.old) (O.written out.new) (K.records keeper) (K.records result.keeper)
        (K.failures keeper) (K.failures result.keeper) }
    ensures bad_store { (n : ℕ) → result.status ≡ Status.BadStore n
        → FirstBad (K.records keeper) new_document n }
    ensures read_fault { result.status ≡ Status.ReadFault
        → Rose (S.faults input.old) (S.faults input.new) }
    ensures write_fault { result.status ≡ Status.WriteFault
        → Rose (O.faults out.old) (O.faults out.new) }
    ensures store_fault { result.status ≡ Status.StoreFault
        → Rose (K.failures keeper) (K.failures result.keeper) }
{
    if asks_for_replay(words) {
        run_alone(rt, alloc, input, out, keeper, watchers)
    } else {
        without_history(alloc, Status::Usage, keeper)
    }
}

/// A run that ended before anything was asked for.
///
/// Memory: none.
pub fn without_history<K: Keeper>(alloc: Global, status: Status, keeper: K) -> Outcome<K>
    ensures status { result.status ≡ status }
    ensures at { result.at ≡ place_of status }
    ensures history { result.history ≡ [] }
    ensures records { K.records result.keeper ≡ K.records keeper }
    ensures faults { K.failures result.keeper ≡ K.failures keeper }
{
    Outcome {
        status,
        at: status.place(),
        history: EntryList::new(alloc),
        keeper,
    }
}

/// A replay: hears the users, opens the document that the keeper's records lead to, and answers the
/// lines behind the users.
///
/// The input is lines: users first, one a line, and then requests in frames. What sessions are
/// given is written to `out`, each line in a frame, in the order of the requests. The keeper keeps
/// each bundle that is accepted before it takes effect, and is handed back. Watchers take the
/// stream lines of their sessions. It waits for nobody.
/// Errors: the status says which event came first; what waits is written before it is told, and
/// where that fails it is `WriteFault`. It is never `Usage` nor `PortFault`.
/// Source: docs/PROTOCOL.md, "the program".
pub fn run_alone<R: Threads + Sync, S: Source, O: Sink, K: Keeper, W: Watcher>(
    rt: &R,
    alloc: Global,
    input: &mut S,
    out: &mut O,
    keeper: K,
    watchers: Vec<WatchedSession<W>>,
) -> Outcome<K>
    requires few { vec_len watchers < 2 ^ 32 - 1 }
    ensures usage { result.status ≡ Status.Usage → ⊥ }
    ensures port_fault { result.status ≡ Status.PortFault → ⊥ }
    ensures at { result.at ≡ place_of result.status }
    ensures replay { Replays result.status (S.left input.old) (S.left input.new) result.history
        (O.written out.old) (O.written out.new) (K.records keeper) (K.records result.keeper)
        (K.failures keeper) (K.failures result.keeper) }
    ensures bad_store { (n : ℕ) → result.status ≡ Status.BadStore n
        → FirstBad (K.records keeper) new_document n }
    ensures read_fault { result.status ≡ Status.ReadFault
        → Rose (S.faults input.old) (S.faults input.new) }
    ensures write_fault { result.status ≡ Status.WriteFault
        → Rose (O.faults out.old) (O.faults out.new) }
    ensures store_fault { result.status ≡ Status.StoreFault
        → Rose (K.failures keeper) (K.failures result.keeper) }
{
    let Ok(mut reader) = LineReader::new(alloc) else {
        return without_history(alloc, Status::NoMemory, keeper);
    };
    let Ok(mut outbox) = Outbox::new(alloc) else {
        return without_history(alloc, Status::NoMemory, keeper);
    };
    let Front {
        users,
        next,
        number: _,
    } = match read_users(alloc, &mut reader, input) {
        Ok(front) => front,
        Err(status) => return without_history(alloc, status, keeper),
    };
    match start_watched(rt, alloc, users, keeper, watchers) {
        Ok(watched) => { replay_from(alloc, watched, next, &mut outbox, &mut reader, input, out) }
        Err(StartFault { cause, keeper }) => without_history(alloc, start_status(cause), keeper),
    }
}

/// How a run ends that opened no document.
pub fn start_status(cause: StartCause) -> Status
    ensures { result ≡ start_status cause }
{
    match cause {
        StartCause::StoreFault => Status::StoreFault,
        StartCause::BadStore { number } => Status::BadStore { number },
        StartCause::NoMemory => Status::NoMemory,
    }
}

// Answers the lines behind the users.
fn replay_from<S: Source, O: Sink, K: Keeper, W: Watcher>(
    alloc: Global,
    watched: WatchedCore<K, W>,
    next: NextLine,
    outbox: &mut Outbox,
    reader: &mut LineReader,
    input: &mut S,
    out: &mut O,
) -> Outcome<K>
    requires empty { outbox.old ≡ [] }
    requires first { watched.core.state.history ≡ [] }
    ensures late { is_early result.status ≡ false }
    ensures at { result.at ≡ place_of result.status }
    ensures run { (left : Option (List ℕ))
        → IsAt next left (S.left input.old) watched.core.state.users [] reader.old
        → IsRun watched.core.state.users watched.core.state.start result.status left
        (S.left input.new)
        result.history (O.written out.old) (O.written out.new) }
    ensures keeper { KeepsRecords watched.core.state.users watched.core.state.start result.status
        result.history
        watched.core.kept.opening (K.records result.keeper) watched.core.kept.before
        (K.failures result.keeper) }
    ensures read_later { S.faults input.old ≤ S.faults input.new }
    ensures read_fault { result.status ≡ Status.ReadFault
        → Rose (S.faults input.old) (S.faults input.new) }
    ensures write_fault { result.status ≡ Status.WriteFault
        → Rose (O.faults out.old) (O.faults out.new) }
{
    let mut watched = watched;
    let served = serve(alloc, &mut watched, outbox, reader, next, input, out);
    let status = finish(served, outbox, out);
    let Finished { history, keeper } = watched.finish();
    Outcome {
        status,
        at: status.place(),
        history,
        keeper,
    }
}

// Writes what waits, and tells how the run ended.
fn finish<O: Sink>(status: Status, outbox: &mut Outbox, out: &mut O) -> Status
    ensures ends { (users : List User) (start : Document) (left left_new written : Option (List ℕ))
        (history : List Entry)
        → EndsServing users start status left left_new history outbox.old written
        (O.written out.old)
        → IsRun users start result left left_new history written (O.written out.new) }
    ensures late { is_early status ≡ false → is_early result ≡ false }
    ensures later { O.faults out.old ≤ O.faults out.new }
    ensures same { (result ≡ status)
        ⊎ ((result ≡ Status.WriteFault) × Rose (O.faults out.old) (O.faults out.new)) }
{
    match outbox.flush(out) {
        Ok(()) => status,
        Err(_) => Status::WriteFault,
    }
}
