//! One line of the input, answered.
ghost use Rattle.std.specs.Prelude.{◌≡◌, ◌≤◌, [], ◌∷◌, true, false, IfErr, IsErrOf};
ghost use Rattle.io_edges.specs.Causes.{Rose};
ghost use Rattle.doc_model.specs.WellFormed.{asks_well_formed};
ghost use Rattle.bundle_core.specs.Core.{entry_of, is_gone};
ghost use Rattle.grist_run.specs.Answering.{Answers};
ghost use Rattle.grist_run.specs.Script.{line_entries};
ghost use Rattle.grist_run.specs.Staying.{StaysStarted};
ghost use Rattle.grist_run.specs.Words.{is_early};

use crate::line_request::{LineRequest, request_in};
use crate::sending::{SendEnd, send_lines};
use crate::status::Status;
use bundle_core::Answer;
use doc_keeper::Keeper;
use io_edges::{Outbox, Sink};
use std::alloc::Global;
use watch_box::Watcher;
use watched_core::WatchedCore;

/// Answers one line of the input, as far as the reader keeps it.
pub(crate) fn answer<O: Sink, K: Keeper, W: Watcher>(
    alloc: Global,
    watched: &mut WatchedCore<K, W>,
    outbox: &mut Outbox,
    out: &mut O,
    line: &[u8],
) -> Result<(), Status>
    ensures stays { StaysStarted watched.old.core watched.new.core }
    ensures answers { Answers result watched.old.core.state.users watched.old.core.state.start
        watched.old.core.state.history watched.new.core.state.history
        (line_entries line.now) outbox.old outbox.new (O.written out.old) (O.written out.new) }
    ensures later { O.faults out.old ≤ O.faults out.new }
    ensures late { IfErr result (λ s. is_early s ≡ false) }
    ensures read_fault { IsErrOf result Status.ReadFault → ⊥ }
    ensures fault { IsErrOf result Status.WriteFault → Rose (O.faults out.old) (O.faults out.new) }
{
    match request_in(alloc, line) {
        Ok(Some(line_request)) => answer_request(alloc, watched, outbox, out, line_request),
        Ok(None) => Ok(()),
        Err(_) => Err(Status::NoMemory),
    }
}

// Answers a request.
fn answer_request<O: Sink, K: Keeper, W: Watcher>(
    alloc: Global,
    watched: &mut WatchedCore<K, W>,
    outbox: &mut Outbox,
    out: &mut O,
    line_request: LineRequest,
) -> Result<(), Status>
    requires stays { is_gone line_request.request ≡ false }
    requires well_formed { asks_well_formed line_request.request ≡ true }
    ensures stays { StaysStarted watched.old.core watched.new.core }
    ensures answers { Answers result watched.old.core.state.users watched.old.core.state.start
        watched.old.core.state.history watched.new.core.state.history
        (entry_of line_request.session line_request.request line_request.size true ∷ [])
        outbox.old outbox.new (O.written out.old) (O.written out.new) }
    ensures later { O.faults out.old ≤ O.faults out.new }
    ensures late { IfErr result (λ s. is_early s ≡ false) }
    ensures read_fault { IsErrOf result Status.ReadFault → ⊥ }
    ensures fault { IsErrOf result Status.WriteFault → Rose (O.faults out.old) (O.faults out.new) }
{
    let LineRequest {
        session,
        request,
        size,
    } = line_request;
    match watched.step(&session, request, size) {
        Ok(Answer::Full) => Err(Status::HistoryFull),
        Ok(Answer::Lines(lines)) => {
            match send_lines(alloc, outbox, out, &session, lines.as_slice()) {
                Ok(()) => Ok(()),
                Err(SendEnd::WriteFault) => Err(Status::WriteFault),
                Err(SendEnd::NoMemory) => Err(Status::NoMemory),
            }
        }
        Err(_) => Err(Status::NoMemory),
    }
}
