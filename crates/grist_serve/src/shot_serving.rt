//! One connection that may peek, from its first byte to the entry of its end.
ghost use Rattle.std.specs.Prelude.{◌≡◌, ◌≤◌, ◌<◌, ◌⊎◌, [], ℕ, List, Option, OnOk, IfOk, IsErrOf, false};
ghost use Rattle.io_edges.specs.Causes.{Rose};
ghost use Rattle.io_edges.specs.Reading.{work_left};
ghost use Rattle.session_gate.specs.Gate.{IsPassOf};
ghost use Rattle.grist_serve.specs.Due.{IsDue, has_turned, standing};
ghost use Rattle.grist_serve.specs.Link.{DoesNothing, HasFewBytes, IsInner, TellsGone};
ghost use Rattle.grist_serve.specs.ShotLink.{EndsBy, IsServing, ServesShotLink, TakesTurn};
ghost use Rattle.grist_serve.specs.Standing.{Standing, starts_at};

use crate::peeking::Due;
use crate::serving::{new_buffers, read_line};
use crate::shot_answering::{Progress, answer};
use bundle_core::Event;
use cell_types::Name;
use doc_keeper::Keeper;
use doc_model::Request;
use document_shot::PeekReader;
use io_edges::{Link, NextLine, ReadEnd, SessionEnd, Sink, Source};
use session_gate::{Gate, Pass};
use shot_core::ShotCore;
use std::alloc::{AllocError, Global};
use std::sync::Wait;
use std::thread::Threads;
use watch_box::Watcher;

/// Serves one connection at a core with shots: answers its lines as requests of the session, or
/// from shots where they are peeks, and then tells its end.
///
/// A peek takes no turn of the gate and adds no entry. It waits for nobody; while it is answered
/// the writer of the shots may wait for it. A session sees its own requests in it: its shot has no
/// fewer entries than the history had at the pass's last turn. Where there is no such shot, or that
/// turn gave no mark, the end is `NoMemory`. Requests may wait for turns.
/// Memory: what it needs for itself is taken first; where there is none, the end is `NoMemory`, and
/// nothing was read, asked or written. Whatever the end else is, an open session is closed by it.
pub fn serve_shot_link<R: Threads + Wait + Sync, K: Keeper, W: Watcher, L: Link>(
    rt: &R,
    alloc: Global,
    gate: &Gate<ShotCore<K, W>>,
    pass: &mut Pass<ShotCore<K, W>>,
    shots: &mut PeekReader,
    session: &Name,
    link: &mut L,
) -> SessionEnd
    requires { IsPassOf gate.now pass.old }
    ensures own { IsPassOf gate.now pass.new }
    ensures serves { ServesShotLink result session.now (L.left link.old) (L.left link.new)
        pass.old pass.new shots.old.known shots.new.known (L.written link.old) (L.written link.new)
        ⊎ (DoesNothing result (L.left link.old) (L.left link.new)
        pass.old pass.new (L.written link.old) (L.written link.new) × (shots.new ≡ shots.old)) }
    ensures read_later { L.Source.faults link.old ≤ L.Source.faults link.new }
    ensures write_later { L.Sink.faults link.old ≤ L.Sink.faults link.new }

    // A fault is told only where that count of this link rose.
    ensures read_fault { result ≡ SessionEnd.ReadFault
        → Rose (L.Source.faults link.old) (L.Source.faults link.new) }
    ensures write_fault { result ≡ SessionEnd.WriteFault
        → Rose (L.Sink.faults link.old) (L.Sink.faults link.new) }

    // Where no count rose and few bytes are told to be left, no other end comes.
    ensures complete { (Rose (L.Source.faults link.old) (L.Source.faults link.new) → ⊥)
        → (Rose (L.Sink.faults link.old) (L.Sink.faults link.new) → ⊥)
        → HasFewBytes (L.left link.old) → IsInner result }
{
    let Ok(name) = session.clone() else {
        return SessionEnd::NoMemory;
    };
    let Ok(mut progress) = new_progress(alloc) else {
        drop(name);
        return SessionEnd::NoMemory;
    };
    let end = serve_lines(rt, alloc, gate, pass, shots, session, &mut progress, link);
    tell_gone(rt, gate, pass, name);
    end
}

// The buffers of a link of which nothing was read, and no turn was taken.
fn new_progress(alloc: Global) -> Result<Progress, AllocError>
    ensures ahead { IfOk result (λ p. p.buffers.reader.ahead ≡ []) }
    ensures turns { IfOk result (λ p. p.buffers.reader.turns ≡ 0) }
    ensures empty { IfOk result (λ p. p.buffers.outbox ≡ []) }
    ensures no_turn { IfOk result (λ p. has_turned p.due ≡ false) }
{
    let buffers = new_buffers(alloc)?;
    Ok(Progress {
        buffers,
        due: Due::NoTurn,
    })
}

// Tells the core that the connection ended.
fn tell_gone<R: Threads + Wait + Sync, K: Keeper, W: Watcher>(
    rt: &R,
    gate: &Gate<ShotCore<K, W>>,
    pass: &mut Pass<ShotCore<K, W>>,
    session: Name,
)
    requires { IsPassOf gate.now pass.old }
    ensures own { IsPassOf gate.now pass.new }
    ensures gone { TellsGone session pass.old pass.new }
{
    let event = Event {
        session,
        request: Request::Gone,
        size: 0,
    };
    let answer = gate.call(rt, pass, event);
    let Ok(_out) = answer else { unreachable!() };
}

// Answers the lines of a link.
fn serve_lines<R: Threads + Wait + Sync, K: Keeper, W: Watcher, L: Link>(
    rt: &R,
    alloc: Global,
    gate: &Gate<ShotCore<K, W>>,
    pass: &mut Pass<ShotCore<K, W>>,
    shots: &mut PeekReader,
    session: &Name,
    progress: &mut Progress,
    link: &mut L,
) -> SessionEnd
    requires pass { IsPassOf gate.now pass.old }
    requires no_turn { has_turned progress.old.due ≡ false }
    requires ahead { progress.old.buffers.reader.ahead ≡ [] }
    requires turns { progress.old.buffers.reader.turns ≡ 0 }
    requires empty { progress.old.buffers.outbox ≡ [] }
    ensures own { IsPassOf gate.now pass.new }
    ensures ends { EndsBy result session.now (L.left link.old) (L.left link.new)
        (starts_at pass.old shots.old.known)
        (standing pass.new progress.new.due shots.new.known)
        (L.written link.old) (L.written link.new) }
    ensures read_later { L.Source.faults link.old ≤ L.Source.faults link.new }
    ensures write_later { L.Sink.faults link.old ≤ L.Sink.faults link.new }
    ensures read_fault { result ≡ SessionEnd.ReadFault
        → Rose (L.Source.faults link.old) (L.Source.faults link.new) }
    ensures write_fault { result ≡ SessionEnd.WriteFault
        → Rose (L.Sink.faults link.old) (L.Sink.faults link.new) }
{
    loop {
        if let Err(end) = take_turn(rt, alloc, gate, pass, shots, session, progress, link) {
            return end;
        }
    }
}

// Reads the next line and answers it, or says how the link ends.
fn take_turn<R: Threads + Wait + Sync, K: Keeper, W: Watcher, L: Link>(
    rt: &R,
    alloc: Global,
    gate: &Gate<ShotCore<K, W>>,
    pass: &mut Pass<ShotCore<K, W>>,
    shots: &mut PeekReader,
    session: &Name,
    progress: &mut Progress,
    link: &mut L,
) -> Result<(), SessionEnd>
    requires pass { IsPassOf gate.now pass.old }
    requires due { IsDue progress.old.due pass.old }
    requires empty { progress.old.buffers.outbox ≡ [] }
    ensures own { IsPassOf gate.now pass.new }
    ensures turn { (l w : Option (List ℕ)) (old : Standing)
        → IsServing session.now l (L.left link.old) old
        (standing pass.old progress.old.due shots.old.known) w (L.written link.old)
        progress.old.buffers.reader
        → TakesTurn result session.now l (L.left link.new) old
        (standing pass.new progress.new.due shots.new.known) w (L.written link.new)
        progress.new.buffers.reader }
    ensures due { OnOk result (IsDue progress.new.due pass.new) }
    ensures empty { progress.new.buffers.outbox ≡ [] }
    ensures falls { OnOk result
        (work_left progress.new.buffers.reader < work_left progress.old.buffers.reader) }
    ensures read_later { L.Source.faults link.old ≤ L.Source.faults link.new }
    ensures write_later { L.Sink.faults link.old ≤ L.Sink.faults link.new }
    ensures read_fault { IsErrOf result SessionEnd.ReadFault
        → Rose (L.Source.faults link.old) (L.Source.faults link.new) }
    ensures write_fault { IsErrOf result SessionEnd.WriteFault
        → Rose (L.Sink.faults link.old) (L.Sink.faults link.new) }
{
    match read_line(&mut progress.buffers.reader, link) {
        Ok(NextLine::Line) => {
            match answer(rt, alloc, gate, pass, shots, session, progress, link) {
                Ok(false) => Ok(()),
                Ok(true) => Err(SessionEnd::Closed),
                Err(end) => Err(end),
            }
        }
        Ok(NextLine::Last) => {
            match answer(rt, alloc, gate, pass, shots, session, progress, link) {
                Ok(_) => Err(SessionEnd::Closed),
                Err(end) => Err(end),
            }
        }
        Ok(NextLine::End) => Err(SessionEnd::Closed),
        Err(ReadEnd::ReadFault) => Err(SessionEnd::ReadFault),
        Err(ReadEnd::TurnsSpent) => Err(SessionEnd::TurnsSpent),
        Err(ReadEnd::NoMemory) => Err(SessionEnd::NoMemory),
    }
}
