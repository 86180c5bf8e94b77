//! A request asked at the gate of a core with shots, and answered.
ghost use Rattle.std.specs.Prelude.{◌≡◌, ◌≤◌, [], ◌∷◌, true, false, IfOk, OnOk, OnErr, IsErrOf};
ghost use Rattle.io_edges.specs.Causes.{Rose};
ghost use Rattle.doc_model.specs.WellFormed.{asks_well_formed};
ghost use Rattle.bundle_core.specs.Core.{is_gone};
ghost use Rattle.bundle_core.specs.Machine.{IsGiven, event_entry};
ghost use Rattle.session_gate.specs.Call.{IsCall, IsSamePass, SeesMore};
ghost use Rattle.session_gate.specs.Gate.{IsPassOf};
ghost use Rattle.grist_serve.specs.Answering.{AnswersLine};
ghost use Rattle.grist_serve.specs.Due.{IsDue, WasAnswered, has_turned};

use crate::peeking::Due;
use crate::sending::send_lines;
use bundle_core::{Event, Given};
use doc_keeper::Keeper;
use io_edges::{Outbox, SessionEnd, Sink};
use session_gate::{Gate, Pass};
use shot_core::{ShotCore, ShotOut};
use std::alloc::AllocError;
use std::sync::Wait;
use std::thread::Threads;
use watch_box::Watcher;

// Asks the core, and keeps what its turn says of the shot.
fn ask<R: Threads + Wait + Sync, K: Keeper, W: Watcher>(
    rt: &R,
    gate: &Gate<ShotCore<K, W>>,
    pass: &mut Pass<ShotCore<K, W>>,
    event: Event,
    due: &mut Due,
) -> Result<Given, AllocError>
    requires pass { IsPassOf gate.now pass.old }
    requires well_formed { asks_well_formed event.request ≡ true }
    ensures own { IsPassOf gate.now pass.new }
    ensures same { IsSamePass pass.old pass.new }
    ensures ok { IfOk result (λ given. IsCall IsGiven pass.old pass.new event given) }
    ensures turned { OnOk result (has_turned due.new ≡ true) }
    ensures due { OnOk result (IsDue due.new pass.new) }
    ensures err { OnErr result (SeesMore pass.old pass.new) }
{
    let ShotOut { given, mark } = gate.call(rt, pass, event)?;
    *due = Due::of(mark);
    Ok(given)
}

/// Answers a request.
pub(crate) fn answer_event<R: Threads + Wait + Sync, K: Keeper, W: Watcher, O: Sink>(
    rt: &R,
    gate: &Gate<ShotCore<K, W>>,
    pass: &mut Pass<ShotCore<K, W>>,
    event: Event,
    due: &mut Due,
    outbox: &mut Outbox,
    out: &mut O,
) -> Result<bool, SessionEnd>
    requires pass { IsPassOf gate.now pass.old }
    requires stays { is_gone event.request ≡ false }
    requires well_formed { asks_well_formed event.request ≡ true }
    requires empty { outbox.old ≡ [] }
    ensures own { IsPassOf gate.now pass.new }
    ensures answers { AnswersLine result pass.old pass.new (event_entry event true ∷ [])
        (O.written out.old) (O.written out.new) }
    ensures turned { WasAnswered result → has_turned due.new ≡ true }
    ensures due { OnOk result (IsDue due.new pass.new) }
    ensures empty { outbox.new ≡ [] }
    ensures apart { O.incoming out.new ≡ O.incoming out.old }
    ensures later { O.faults out.old ≤ O.faults out.new }
    ensures fault { IsErrOf result SessionEnd.WriteFault
        → Rose (O.faults out.old) (O.faults out.new) }
{
    match ask(rt, gate, pass, event, due) {
        Ok(Given::Full) => Err(SessionEnd::Full),
        Ok(Given::Lines { lines, closes }) => match send_lines(outbox, out, lines.as_slice()) {
            Ok(()) => Ok(closes),
            Err(_) => Err(SessionEnd::WriteFault),
        },
        Err(_) => Err(SessionEnd::NoMemory),
    }
}
