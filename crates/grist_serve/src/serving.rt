//! One connection, from its first byte to the entry of its end.
ghost use Rattle.std.specs.Prelude.{◌≡◌, ◌≤◌, ◌<◌, ◌⊎◌, [], ℕ, List, Option, OnOk, IfOk, IsErrOf};
ghost use Rattle.io_edges.specs.Causes.{Rose};
ghost use Rattle.io_edges.specs.NextLine.{Reads};
ghost use Rattle.io_edges.specs.Reading.{work_left};
ghost use Rattle.session_gate.specs.Gate.{IsPassOf};
ghost use Rattle.grist_serve.specs.Link.{DoesNothing, EndsBy, HasFewBytes, IsInner, IsServing, ServesLink, TakesTurn, TellsGone};
ghost use Rattle.grist_serve.specs.Turns.{CorePass};

use crate::answering::{Buffers, answer};
use bundle_core::Event;
use cell_types::Name;
use doc_keeper::Keeper;
use doc_model::Request;
use io_edges::{LineReader, Link, NextLine, Outbox, ReadEnd, SessionEnd, Sink, Source};
use session_gate::{Gate, Pass};
use std::alloc::{AllocError, Global};
use std::sync::Wait;
use std::thread::Threads;
use watch_box::Watcher;
use watched_core::WatchedCore;

/// Serves one connection: answers its lines as requests of the session, and then tells its end.
///
/// It may wait for turns. Memory: what it needs for itself is taken first; where there is none, the
/// end is `NoMemory`, and nothing was read, asked or written. Whatever the end else is, an open
/// session is closed by it.
pub fn serve_link<R: Threads + Wait + Sync, K: Keeper, W: Watcher, L: Link>(
    rt: &R,
    alloc: Global,
    gate: &Gate<WatchedCore<K, W>>,
    pass: &mut Pass<WatchedCore<K, W>>,
    session: &Name,
    link: &mut L,
) -> SessionEnd
    requires { IsPassOf gate.now pass.old }
    ensures own { IsPassOf gate.now pass.new }
    ensures serves { ServesLink result session.now (L.left link.old) (L.left link.new)
        pass.old pass.new (L.written link.old) (L.written link.new)
        ⊎ DoesNothing result (L.left link.old) (L.left link.new)
        pass.old pass.new (L.written link.old) (L.written link.new) }
    ensures read_later { L.Source.faults link.old ≤ L.Source.faults link.new }
    ensures write_later { L.Sink.faults link.old ≤ L.Sink.faults link.new }

    // A fault is told only where that count of this link rose.
    ensures read_fault { result ≡ SessionEnd.ReadFault
        → Rose (L.Source.faults link.old) (L.Source.faults link.new) }
    ensures write_fault { result ≡ SessionEnd.WriteFault
        → Rose (L.Sink.faults link.old) (L.Sink.faults link.new) }

    // Where no count rose and few bytes are told to be left, no other end comes.
    ensures complete { (Rose (L.Source.faults link.old) (L.Source.faults link.new) → ⊥)
        → (Rose (L.Sink.faults link.old) (L.Sink.faults link.new) → ⊥)
        → HasFewBytes (L.left link.old) → IsInner result }
{
    let Ok(name) = session.clone() else {
        return SessionEnd::NoMemory;
    };
    let Ok(mut buffers) = new_buffers(alloc) else {
        drop(name);
        return SessionEnd::NoMemory;
    };
    let end = serve_lines(rt, alloc, gate, pass, session, &mut buffers, link);
    tell_gone(rt, gate, pass, name);
    end
}

/// The buffers of a link of which nothing was read.
pub(crate) fn new_buffers(alloc: Global) -> Result<Buffers, AllocError>
    ensures ahead { IfOk result (λ b. b.reader.ahead ≡ []) }
    ensures turns { IfOk result (λ b. b.reader.turns ≡ 0) }
    ensures empty { IfOk result (λ b. b.outbox ≡ []) }
{
    let reader = LineReader::new(alloc)?;
    let outbox = Outbox::new(alloc)?;
    Ok(Buffers { reader, outbox })
}

// Tells the core that the connection ended.
fn tell_gone<R: Threads + Wait + Sync, K: Keeper, W: Watcher>(
    rt: &R,
    gate: &Gate<WatchedCore<K, W>>,
    pass: &mut Pass<WatchedCore<K, W>>,
    session: Name,
)
    requires { IsPassOf gate.now pass.old }
    ensures own { IsPassOf gate.now pass.new }
    ensures gone { TellsGone session pass.old pass.new }
{
    let event = Event {
        session,
        request: Request::Gone,
        size: 0,
    };
    let answer = gate.call(rt, pass, event);
    let Ok(_given) = answer else { unreachable!() };
}

// Answers the lines of a link.
fn serve_lines<R: Threads + Wait + Sync, K: Keeper, W: Watcher, L: Link>(
    rt: &R,
    alloc: Global,
    gate: &Gate<WatchedCore<K, W>>,
    pass: &mut Pass<WatchedCore<K, W>>,
    session: &Name,
    buffers: &mut Buffers,
    link: &mut L,
) -> SessionEnd
    requires pass { IsPassOf gate.now pass.old }
    requires ahead { buffers.old.reader.ahead ≡ [] }
    requires turns { buffers.old.reader.turns ≡ 0 }
    requires empty { buffers.old.outbox ≡ [] }
    ensures own { IsPassOf gate.now pass.new }
    ensures ends { EndsBy result session.now (L.left link.old) (L.left link.new)
        pass.old pass.new (L.written link.old) (L.written link.new) }
    ensures read_later { L.Source.faults link.old ≤ L.Source.faults link.new }
    ensures write_later { L.Sink.faults link.old ≤ L.Sink.faults link.new }
    ensures read_fault { result ≡ SessionEnd.ReadFault
        → Rose (L.Source.faults link.old) (L.Source.faults link.new) }
    ensures write_fault { result ≡ SessionEnd.WriteFault
        → Rose (L.Sink.faults link.old) (L.Sink.faults link.new) }
{
    loop {
        if let Err(end) = take_turn(rt, alloc, gate, pass, session, buffers, link) {
            return end;
        }
    }
}

// Reads the next line and answers it, or says how the link ends.
fn take_turn<R: Threads + Wait + Sync, K: Keeper, W: Watcher, L: Link>(
    rt: &R,
    alloc: Global,
    gate: &Gate<WatchedCore<K, W>>,
    pass: &mut Pass<WatchedCore<K, W>>,
    session: &Name,
    buffers: &mut Buffers,
    link: &mut L,
) -> Result<(), SessionEnd>
    requires pass { IsPassOf gate.now pass.old }
    requires empty { buffers.old.outbox ≡ [] }
    ensures own { IsPassOf gate.now pass.new }
    ensures turn { (l w : Option (List ℕ)) (old : CorePass)
        → IsServing session.now l (L.left link.old) old pass.old w (L.written link.old)
        buffers.old.reader
        → TakesTurn result session.now l (L.left link.new) old pass.new w (L.written link.new)
        buffers.new.reader }
    ensures empty { buffers.new.outbox ≡ [] }
    ensures falls { OnOk result
        (work_left buffers.new.reader < work_left buffers.old.reader) }
    ensures read_later { L.Source.faults link.old ≤ L.Source.faults link.new }
    ensures write_later { L.Sink.faults link.old ≤ L.Sink.faults link.new }
    ensures read_fault { IsErrOf result SessionEnd.ReadFault
        → Rose (L.Source.faults link.old) (L.Source.faults link.new) }
    ensures write_fault { IsErrOf result SessionEnd.WriteFault
        → Rose (L.Sink.faults link.old) (L.Sink.faults link.new) }
{
    match read_line(&mut buffers.reader, link) {
        Ok(NextLine::Line) => match answer(rt, alloc, gate, pass, session, buffers, link) {
            Ok(false) => Ok(()),
            Ok(true) => Err(SessionEnd::Closed),
            Err(end) => Err(end),
        },
        Ok(NextLine::Last) => match answer(rt, alloc, gate, pass, session, buffers, link) {
            Ok(_) => Err(SessionEnd::Closed),
            Err(end) => Err(end),
        },
        Ok(NextLine::End) => Err(SessionEnd::Closed),
        Err(ReadEnd::ReadFault) => Err(SessionEnd::ReadFault),
        Err(ReadEnd::TurnsSpent) => Err(SessionEnd::TurnsSpent),
        Err(ReadEnd::NoMemory) => Err(SessionEnd::NoMemory),
    }
}

/// Reads the next line. What went out stays as it is.
pub(crate) fn read_line<L: Link>(reader: &mut LineReader, link: &mut L) -> Result<NextLine, ReadEnd>
    ensures reads { Reads result reader.old reader.new (L.left link.old) (L.left link.new) }
    ensures written { L.written link.new ≡ L.written link.old }
    ensures write_faults { L.Sink.faults link.new ≡ L.Sink.faults link.old }
    ensures falls { IfOk result
        (λ next. next ≡ NextLine.Line → work_left reader.new < work_left reader.old) }
    ensures later { L.Source.faults link.old ≤ L.Source.faults link.new }
    ensures fault { IsErrOf result ReadEnd.ReadFault
        → Rose (L.Source.faults link.old) (L.Source.faults link.new) }
    ensures spent { IsErrOf result ReadEnd.TurnsSpent → reader.new.turns ≡ 4294967296 }
{
    reader.next_line(link)
}
