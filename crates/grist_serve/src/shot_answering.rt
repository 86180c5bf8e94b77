//! One line of a connection that may peek, answered.
ghost use Rattle.std.specs.Prelude.{◌≡◌, ◌≤◌, [], List, None, OnOk, IsErrOf};
ghost use Rattle.io_edges.specs.Causes.{Rose};
ghost use Rattle.doc_model.specs.declared.entry.Entry.{Entry};
ghost use Rattle.snap_reads.specs.declared.past.Past.{Past};
ghost use Rattle.document_shot.specs.declared.past.CoreStart.{CoreStart};
ghost use Rattle.session_gate.specs.Gate.{IsPassOf};
ghost use Rattle.grist_serve.specs.Answered.{line_asks, peeked_table};
ghost use Rattle.grist_serve.specs.Due.{IsDue, standing};
ghost use Rattle.grist_serve.specs.ShotAnswering.{AnswersLine};

use crate::answering::Buffers;
use crate::peeking::{Due, answer_peek, peeked_table};
use crate::requests::event_in;
use crate::shot_asking::answer_event;
use cell_types::Name;
use doc_keeper::Keeper;
use document_shot::PeekReader;
use io_edges::{Link, SessionEnd, Sink, Source};
use session_gate::{Gate, Pass};
use shot_core::ShotCore;
use std::alloc::Global;
use std::sync::Wait;
use std::thread::Threads;
use watch_box::Watcher;

/// The buffers of a link, and what its last turn says of shots.
#[derive(Drop)]
pub(crate) struct Progress {
    pub buffers: Buffers,
    pub due: Due,
}

/// Answers the line that was read last. Says whether that closed the session.
pub(crate) fn answer<R: Threads + Wait + Sync, K: Keeper, W: Watcher, L: Link>(
    rt: &R,
    alloc: Global,
    gate: &Gate<ShotCore<K, W>>,
    pass: &mut Pass<ShotCore<K, W>>,
    shots: &mut PeekReader,
    session: &Name,
    progress: &mut Progress,
    link: &mut L,
) -> Result<bool, SessionEnd>
    requires pass { IsPassOf gate.now pass.old }
    requires due { IsDue progress.old.due pass.old }
    requires empty { progress.old.buffers.outbox ≡ [] }
    ensures own { IsPassOf gate.now pass.new }
    ensures answers { AnswersLine result session.now
        (standing pass.old progress.old.due shots.old.known)
        (standing pass.new progress.new.due shots.new.known)
        (line_asks session.now progress.old.buffers.reader.line)
        (L.written link.old) (L.written link.new) }
    ensures due { OnOk result (IsDue progress.new.due pass.new) }
    ensures reader { progress.new.buffers.reader ≡ progress.old.buffers.reader }
    ensures empty { progress.new.buffers.outbox ≡ [] }
    ensures left { L.left link.new ≡ L.left link.old }
    ensures read_faults { L.Source.faults link.new ≡ L.Source.faults link.old }
    ensures later { L.Sink.faults link.old ≤ L.Sink.faults link.new }
    ensures fault { IsErrOf result SessionEnd.WriteFault
        → Rose (L.Sink.faults link.old) (L.Sink.faults link.new) }
{
    let due = progress.due;
    match peeked_table(alloc, progress.buffers.reader.line()) {
        Ok(Some(table)) => {
            let outbox = &mut progress.buffers.outbox;
            answer_peek(alloc, shots, session, &table, due, outbox, link)
        }
        Ok(None) => answer_request(rt, alloc, gate, pass, session, progress, link),
        Err(_) => Err(SessionEnd::NoMemory),
    }
}

// Answers a line that asks for no peek.
fn answer_request<R: Threads + Wait + Sync, K: Keeper, W: Watcher, L: Link>(
    rt: &R,
    alloc: Global,
    gate: &Gate<ShotCore<K, W>>,
    pass: &mut Pass<ShotCore<K, W>>,
    session: &Name,
    progress: &mut Progress,
    link: &mut L,
) -> Result<bool, SessionEnd>
    requires pass { IsPassOf gate.now pass.old }
    requires due { IsDue progress.old.due pass.old }
    requires empty { progress.old.buffers.outbox ≡ [] }
    requires no_peek { peeked_table progress.old.buffers.reader.line ≡ None }
    ensures own { IsPassOf gate.now pass.new }
    ensures answers { (known : List (Past CoreStart Entry)) → AnswersLine result session.now
        (standing pass.old progress.old.due known) (standing pass.new progress.new.due known)
        (line_asks session.now progress.old.buffers.reader.line)
        (L.written link.old) (L.written link.new) }
    ensures due { OnOk result (IsDue progress.new.due pass.new) }
    ensures reader { progress.new.buffers.reader ≡ progress.old.buffers.reader }
    ensures empty { progress.new.buffers.outbox ≡ [] }
    ensures left { L.left link.new ≡ L.left link.old }
    ensures read_faults { L.Source.faults link.new ≡ L.Source.faults link.old }
    ensures later { L.Sink.faults link.old ≤ L.Sink.faults link.new }
    ensures fault { IsErrOf result SessionEnd.WriteFault
        → Rose (L.Sink.faults link.old) (L.Sink.faults link.new) }
{
    match event_in(alloc, session, progress.buffers.reader.line()) {
        Ok(Some(event)) => {
            let Progress { buffers, due } = progress;
            answer_event(rt, gate, pass, event, due, &mut buffers.outbox, link)
        }
        Ok(None) => Ok(false),
        Err(_) => Err(SessionEnd::NoMemory),
    }
}
