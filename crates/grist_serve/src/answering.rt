//! One line of a connection, answered.
ghost use Rattle.std.specs.Prelude.{◌≡◌, ◌≤◌, [], ◌∷◌, true, false, IsErrOf};
ghost use Rattle.io_edges.specs.Causes.{Rose};
ghost use Rattle.doc_model.specs.WellFormed.{asks_well_formed};
ghost use Rattle.bundle_core.specs.Core.{is_gone};
ghost use Rattle.bundle_core.specs.Machine.{event_entry};
ghost use Rattle.session_gate.specs.Gate.{IsPassOf};
ghost use Rattle.grist_serve.specs.Answering.{AnswersLine};
ghost use Rattle.grist_serve.specs.Requests.{line_entries};

use crate::requests::event_in;
use crate::sending::send_lines;
use bundle_core::{Event, Given};
use cell_types::Name;
use doc_keeper::Keeper;
use io_edges::{LineReader, Link, Outbox, SessionEnd, Sink, Source};
use session_gate::{Gate, Pass};
use std::alloc::Global;
use std::sync::Wait;
use std::thread::Threads;
use watch_box::Watcher;
use watched_core::WatchedCore;

/// The two buffers of a link: what came and was not given yet, and what waits to be written.
#[derive(Drop)]
pub(crate) struct Buffers {
    pub reader: LineReader,
    pub outbox: Outbox,
}

/// Answers the line that was read last. Says whether that closed the session.
pub(crate) fn answer<R: Threads + Wait + Sync, K: Keeper, W: Watcher, L: Link>(
    rt: &R,
    alloc: Global,
    gate: &Gate<WatchedCore<K, W>>,
    pass: &mut Pass<WatchedCore<K, W>>,
    session: &Name,
    buffers: &mut Buffers,
    link: &mut L,
) -> Result<bool, SessionEnd>
    requires pass { IsPassOf gate.now pass.old }
    requires empty { buffers.old.outbox ≡ [] }
    ensures own { IsPassOf gate.now pass.new }
    ensures answers { AnswersLine result pass.old pass.new
        (line_entries session.now buffers.old.reader.line)
        (L.written link.old) (L.written link.new) }
    ensures reader { buffers.new.reader ≡ buffers.old.reader }
    ensures empty { buffers.new.outbox ≡ [] }
    ensures left { L.left link.new ≡ L.left link.old }
    ensures read_faults { L.Source.faults link.new ≡ L.Source.faults link.old }
    ensures later { L.Sink.faults link.old ≤ L.Sink.faults link.new }
    ensures fault { IsErrOf result SessionEnd.WriteFault
        → Rose (L.Sink.faults link.old) (L.Sink.faults link.new) }
{
    match event_in(alloc, session, buffers.reader.line()) {
        Ok(Some(event)) => answer_event(rt, gate, pass, event, &mut buffers.outbox, link),
        Ok(None) => Ok(false),
        Err(_) => Err(SessionEnd::NoMemory),
    }
}

// Answers a request.
fn answer_event<R: Threads + Wait + Sync, K: Keeper, W: Watcher, O: Sink>(
    rt: &R,
    gate: &Gate<WatchedCore<K, W>>,
    pass: &mut Pass<WatchedCore<K, W>>,
    event: Event,
    outbox: &mut Outbox,
    out: &mut O,
) -> Result<bool, SessionEnd>
    requires pass { IsPassOf gate.now pass.old }
    requires stays { is_gone event.request ≡ false }
    requires well_formed { asks_well_formed event.request ≡ true }
    requires empty { outbox.old ≡ [] }
    ensures own { IsPassOf gate.now pass.new }
    ensures answers { AnswersLine result pass.old pass.new (event_entry event true ∷ [])
        (O.written out.old) (O.written out.new) }
    ensures empty { outbox.new ≡ [] }
    ensures apart { O.incoming out.new ≡ O.incoming out.old }
    ensures later { O.faults out.old ≤ O.faults out.new }
    ensures fault { IsErrOf result SessionEnd.WriteFault
        → Rose (O.faults out.old) (O.faults out.new) }
{
    match gate.call(rt, pass, event) {
        Ok(Given::Full) => Err(SessionEnd::Full),
        Ok(Given::Lines { lines, closes }) => match send_lines(outbox, out, lines.as_slice()) {
            Ok(()) => Ok(closes),
            Err(_) => Err(SessionEnd::WriteFault),
        },
        Err(_) => Err(SessionEnd::NoMemory),
    }
}
