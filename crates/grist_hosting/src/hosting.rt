//! A run: what its words ask for, and the server among that.
ghost use Rattle.std.specs.Prelude.{◌≡◌, ◌≤◌, ◌<◌, ◌-◌, ◌^◌, ◌↔◌, ℕ, All, None, Some, false, true, [], map, string_bytes, vec_capacity, vec_len};
ghost use Rattle.doc_model.specs.NewDocument.{new_document};
ghost use Rattle.doc_opening.specs.Opening.{FirstBad};
ghost use Rattle.io_edges.specs.Causes.{Rose};
ghost use Rattle.bundle_core.specs.KeptCore.{IsKeeping};
ghost use Rattle.grist_lanes.specs.Handed.{SomeFailed};
ghost use Rattle.grist_lanes.specs.Services.{telling};
ghost use Rattle.grist_lanes.specs.Sessions.{AreOfNoLane};
ghost use Rattle.run_words.specs.Words.{is_audit, lanes_of, plan_of, rows_of};
ghost use Rattle.audit_run.specs.AuditRuns.{IsAudit};
ghost use Rattle.grist_run.specs.Generated.{IsGenerated};
ghost use Rattle.grist_run.specs.Replay.{Replays};
ghost use Rattle.grist_run.specs.Starting.{start_status};
ghost use Rattle.grist_run.specs.Words.{place_of};
ghost use Rattle.grist_hosting.specs.Hosting.{IsHosting, asks_lanes, is_done_over, is_serve};
ghost use Rattle.grist_hosting.specs.HostingParts.{HostsFrom, end_status, is_late};

use crate::summary::{SUMMARY_BYTES, Summary, append_summary};
use audit_run::audit_users;
use bundle_core::{Finished, StartFault};
use doc_keeper::Keeper;
use grist_lanes::{NoServe, Served, ServedPorts, serve_ports};
use grist_run::{
    Outcome, Status, WatchedSession, generate, run_alone, send, start_status, start_watched,
    without_history,
};
use io_edges::{Failed, LineReader, Link, Outbox, Port, Sink, Source};
use run_words::{asks_for_audit, asks_for_replay, lanes_asked, rows_asked};
use std::alloc::Global;
use std::marker::Send;
use std::sync::Wait;
use std::thread::Threads;
use users_alone::read_users_alone;
use watch_box::Watcher;
use watched_core::WatchedCore;

/// Does what the words ask for: a replay of the input's lines, a generated run, an audit, or a
/// server of as many lanes as there are ports, over the document that the keeper's records lead to.
///
/// The input of an audit and of a server is user lines alone. A server serves the connections of
/// all ports at the same time, until none will come to a port or it fails, and then writes one line
/// that tells its accepted bundles, its connections and its entries. Watchers take the stream lines
/// of their sessions. It may wait, for connections and for turns.
/// Errors: the status says which event came first. Where a port failed it is `PortFault`, and all
/// lanes have ended.
/// Source: docs/PROTOCOL.md, "the program".
pub fn run<
    R: Threads + Wait + Sync,
    S: Source,
    O: Sink,
    K: Keeper + Send,
    W: Watcher + Send,
    P: Port + Send,
>(
    rt: &R,
    alloc: Global,
    words: &[String],
    input: &mut S,
    out: &mut O,
    keeper: K,
    ports: &mut Vec<P>,
    watchers: Vec<WatchedSession<W>>,
) -> Outcome<K>
    requires few { vec_len watchers < 2 ^ 32 - 1 }
    requires home { All (λ p. (P.state p).lent ≡ false) ports.old.items }
    ensures usage { (result.status ≡ Status.Usage)
        ↔ (is_done_over (vec_len ports.old) (plan_of (map string_bytes words.now)) ≡ false) }
    ensures at { result.at ≡ place_of result.status }
    ensures replay { is_serve (plan_of (map string_bytes words.now)) ≡ false
        → rows_of (plan_of (map string_bytes words.now)) ≡ None
        → is_audit (plan_of (map string_bytes words.now)) ≡ false
        → Replays result.status (S.left input.old) (S.left input.new) result.history
        (O.written out.old) (O.written out.new) (K.records keeper) (K.records result.keeper)
        (K.failures keeper) (K.failures result.keeper) × (ports.new.items ≡ ports.old.items) }
    ensures generated { (rows : ℕ) → rows_of (plan_of (map string_bytes words.now)) ≡ Some rows
        → IsGenerated rows result.status result.history
        (O.written out.old) (O.written out.new) (K.records keeper) (K.records result.keeper)
        (K.failures keeper) (K.failures result.keeper)
        × (S.left input.new ≡ S.left input.old) × (ports.new.items ≡ ports.old.items) }
    ensures audit { is_audit (plan_of (map string_bytes words.now)) ≡ true
        → IsAudit result.status (S.left input.old) (S.left input.new) result.history
        (O.written out.old) (O.written out.new) (K.records keeper) (K.records result.keeper)
        (K.failures keeper) (K.failures result.keeper) × (ports.new.items ≡ ports.old.items) }
    ensures serve { is_serve (plan_of (map string_bytes words.now)) ≡ true
        → IsHosting (telling P.Conn.left P.Conn.written P.Conn.Source.faults P.Conn.Sink.faults)
        result.status (S.left input.old) (S.left input.new) result.history
        (O.written out.old) (O.written out.new) (O.faults out.old) (O.faults out.new)
        (K.records keeper) (K.records result.keeper)
        (K.failures keeper) (K.failures result.keeper)
        (map P.state ports.old.items) (map P.state ports.new.items) }
    ensures bad_store { (n : ℕ) → result.status ≡ Status.BadStore n
        → FirstBad (K.records keeper) new_document n }
    ensures read_fault { result.status ≡ Status.ReadFault
        → Rose (S.faults input.old) (S.faults input.new) }
    ensures write_fault { result.status ≡ Status.WriteFault
        → Rose (O.faults out.old) (O.faults out.new) }
    ensures store_fault { result.status ≡ Status.StoreFault
        → Rose (K.failures keeper) (K.failures result.keeper) }
    ensures port_fault { result.status ≡ Status.PortFault
        → SomeFailed (map P.state ports.old.items) (map P.state ports.new.items) }
{
    if asks_for_replay(words) {
        run_alone(rt, alloc, input, out, keeper, watchers)
    } else if let Some(rows) = rows_asked(words) {
        generate(rt, alloc, rows, out, keeper)
    } else if asks_for_audit(words) {
        audit_users(rt, alloc, input, out, keeper)
    } else if asks_for_lanes(words, ports.len()) {
        host(rt, alloc, input, out, keeper, ports, watchers)
    } else {
        without_history(alloc, Status::Usage, keeper)
    }
}

// Whether the words ask for a server of so many lanes.
fn asks_for_lanes(words: &[String], lanes: usize) -> bool
    ensures asked { result
        ≡ asks_lanes lanes (lanes_of (plan_of (map string_bytes words.now))) }
    ensures few { result ≡ true → (0 < lanes) × (lanes ≤ 64) }
{
    match lanes_asked(words) {
        Some(asked) => asked as usize == lanes,
        None => false,
    }
}

// The room for the line that tells what a server did.
#[derive(Drop)]
struct LineRoom {
    outbox: Outbox,
    line: Vec<u8>,
}

// Hears the users, opens the document, and serves the ports.
fn host<
    R: Threads + Wait + Sync,
    S: Source,
    O: Sink,
    K: Keeper + Send,
    W: Watcher + Send,
    P: Port + Send,
>(
    rt: &R,
    alloc: Global,
    input: &mut S,
    out: &mut O,
    keeper: K,
    ports: &mut Vec<P>,
    watchers: Vec<WatchedSession<W>>,
) -> Outcome<K>
    requires few { vec_len watchers < 2 ^ 32 - 1 }
    requires count { (0 < vec_len ports.old) × (vec_len ports.old ≤ 64) }
    requires home { All (λ p. (P.state p).lent ≡ false) ports.old.items }
    ensures usage { result.status ≡ Status.Usage → ⊥ }
    ensures at { result.at ≡ place_of result.status }
    ensures serve { IsHosting
        (telling P.Conn.left P.Conn.written P.Conn.Source.faults P.Conn.Sink.faults)
        result.status (S.left input.old) (S.left input.new) result.history
        (O.written out.old) (O.written out.new) (O.faults out.old) (O.faults out.new)
        (K.records keeper) (K.records result.keeper)
        (K.failures keeper) (K.failures result.keeper)
        (map P.state ports.old.items) (map P.state ports.new.items) }
    ensures bad_store { (n : ℕ) → result.status ≡ Status.BadStore n
        → FirstBad (K.records keeper) new_document n }
    ensures read_fault { result.status ≡ Status.ReadFault
        → Rose (S.faults input.old) (S.faults input.new) }
    ensures write_fault { result.status ≡ Status.WriteFault
        → Rose (O.faults out.old) (O.faults out.new) }
    ensures store_fault { result.status ≡ Status.StoreFault
        → Rose (K.failures keeper) (K.failures result.keeper) }
    ensures port_fault { result.status ≡ Status.PortFault
        → SomeFailed (map P.state ports.old.items) (map P.state ports.new.items) }
{
    let Ok(mut reader) = LineReader::new(alloc) else {
        return without_history(alloc, Status::NoMemory, keeper);
    };
    let Ok(outbox) = Outbox::new(alloc) else {
        return without_history(alloc, Status::NoMemory, keeper);
    };
    let Ok(line) = Vec::with_capacity(alloc, SUMMARY_BYTES) else {
        return without_history(alloc, Status::NoMemory, keeper);
    };
    let users = match read_users_alone(alloc, &mut reader, input) {
        Ok(users) => users,
        Err(status) => return without_history(alloc, status, keeper),
    };
    match start_watched(rt, alloc, users, keeper, watchers) {
        Ok(watched) => host_from(rt, alloc, watched, LineRoom { outbox, line }, out, ports),
        Err(StartFault { cause, keeper }) => without_history(alloc, start_status(cause), keeper),
    }
}

// Serves the ports, and writes the line that tells what came of it.
fn host_from<
    R: Threads + Wait + Sync,
    O: Sink,
    K: Keeper + Send,
    W: Watcher + Send,
    P: Port + Send,
>(
    rt: &R,
    alloc: Global,
    watched: WatchedCore<K, W>,
    room: LineRoom,
    out: &mut O,
    ports: &mut Vec<P>,
) -> Outcome<K>
    requires count { (0 < vec_len ports.old) × (vec_len ports.old ≤ 64) }
    requires home { All (λ p. (P.state p).lent ≡ false) ports.old.items }
    requires first { watched.core.state.history ≡ [] }
    requires empty { (room.outbox ≡ []) × (room.line.items ≡ []) }
    requires room { 192 ≤ vec_capacity room.line }
    ensures late { is_late result.status ≡ true }
    ensures at { result.at ≡ place_of result.status }
    ensures write_fault { result.status ≡ Status.WriteFault
        → Rose (O.faults out.old) (O.faults out.new) }
    ensures hosts { HostsFrom
        (telling P.Conn.left P.Conn.written P.Conn.Source.faults P.Conn.Sink.faults)
        watched.core result.status result.history (O.written out.old) (O.written out.new)
        (O.faults out.old) (O.faults out.new) (K.records result.keeper)
        (K.failures result.keeper) (map P.state ports.old.items) (map P.state ports.new.items) }
{
    let LineRoom {
        mut outbox,
        mut line,
    } = room;
    match serve_ports(rt, alloc, watched, ports) {
        Ok(ServedPorts { served, have_ended }) => {
            let Served {
                watched,
                connections,
            } = served;
            let summary = Summary {
                bundles: watched.bundles(),
                connections,
                entries: watched.history().len() as u64,
            };
            append_summary(&mut line, summary);
            let sent = send(&mut outbox, out, line.as_slice());
            finish(watched, end_status(sent, have_ended))
        }
        Err(NoServe { watched }) => finish(watched, Status::NoMemory),
    }
}

fn end_status(sent: Result<(), Failed>, have_ended: bool) -> Status
    ensures { result ≡ end_status sent have_ended }
{
    match sent {
        Ok(()) if have_ended => Status::Done,
        Err(_) if have_ended => Status::WriteFault,
        _ => Status::PortFault,
    }
}

fn finish<K: Keeper, W: Watcher>(watched: WatchedCore<K, W>, status: Status) -> Outcome<K>
    ensures status { result.status ≡ status }
    ensures at { result.at ≡ place_of status }
    ensures history { result.history ≡ watched.core.state.history }
    ensures records { K.records result.keeper ≡ watched.core.kept.records }
    ensures faults { K.failures result.keeper ≡ watched.core.kept.faults }
    ensures keeping { IsKeeping watched.core }
{
    let Finished { history, keeper } = watched.finish();
    Outcome {
        status,
        at: status.place(),
        history,
        keeper,
    }
}
