//! The lines behind the users, answered one after the other.
ghost use Rattle.std.specs.Prelude.{◌≡◌, ◌≤◌, ◌<◌, ℕ, false, List, Option, Ok, IfErr, IsErrOf};
ghost use Rattle.io_edges.specs.Causes.{Rose};
ghost use Rattle.io_edges.specs.Reading.{LineState, work_left};
ghost use Rattle.grist_run.specs.Serving.{IsServing, TakesTurn, EndsServing};
ghost use Rattle.grist_run.specs.Staying.{StaysStarted};
ghost use Rattle.grist_run.specs.Words.{is_early};

use crate::answering::answer;
use crate::reading::read_next;
use crate::status::Status;
use doc_keeper::Keeper;
use io_edges::{LineReader, NextLine, Outbox, Sink, Source};
use std::alloc::Global;
use watch_box::Watcher;
use watched_core::WatchedCore;

// Answers the line that the reader gave last, and reads the next one.
fn take_turn<S: Source, O: Sink, K: Keeper, W: Watcher>(
    alloc: Global,
    watched: &mut WatchedCore<K, W>,
    outbox: &mut Outbox,
    reader: &mut LineReader,
    input: &mut S,
    out: &mut O,
) -> Result<NextLine, Status>
    ensures stays { StaysStarted watched.old.core watched.new.core }
    ensures turn { (left written : Option (List ℕ)) → IsServing NextLine.Line left
        (S.left input.old) watched.old.core.state outbox.old written (O.written out.old) reader.old
        → TakesTurn watched.old.core.state.users watched.old.core.state.start result left
        (S.left input.new) watched.new.core.state outbox.new written (O.written out.new)
        reader.new }
    ensures late { IfErr result (λ s. is_early s ≡ false) }
    ensures falls { result ≡ Ok NextLine.Line → work_left reader.new < work_left reader.old }
    ensures read_later { S.faults input.old ≤ S.faults input.new }
    ensures write_later { O.faults out.old ≤ O.faults out.new }
    ensures read_fault { IsErrOf result Status.ReadFault
        → Rose (S.faults input.old) (S.faults input.new) }
    ensures write_fault { IsErrOf result Status.WriteFault
        → Rose (O.faults out.old) (O.faults out.new) }
{
    match answer(alloc, watched, outbox, out, reader.line()) {
        Ok(()) => read_next(reader, input),
        Err(status) => Err(status),
    }
}

// Answers the last line of the input.
fn take_last<O: Sink, K: Keeper, W: Watcher>(
    alloc: Global,
    watched: &mut WatchedCore<K, W>,
    outbox: &mut Outbox,
    line: &[u8],
    out: &mut O,
) -> Status
    ensures stays { StaysStarted watched.old.core watched.new.core }
    ensures ends { (left left_new written : Option (List ℕ)) (reader : LineState) → reader.line
        ≡ line.now → IsServing NextLine.Last left left_new watched.old.core.state outbox.old written
        (O.written out.old) reader
        → EndsServing watched.old.core.state.users watched.old.core.state.start result left left_new
        watched.new.core.state.history outbox.new written (O.written out.new) }
    ensures later { O.faults out.old ≤ O.faults out.new }
    ensures late { is_early result ≡ false }
    ensures read_fault { result ≡ Status.ReadFault → ⊥ }
    ensures write_fault { result ≡ Status.WriteFault → Rose (O.faults out.old) (O.faults out.new) }
{
    match answer(alloc, watched, outbox, out, line) {
        Ok(()) => Status::Done,
        Err(status) => status,
    }
}

/// Answers the lines of the input, from the one that the reader gave last.
pub(crate) fn serve<S: Source, O: Sink, K: Keeper, W: Watcher>(
    alloc: Global,
    watched: &mut WatchedCore<K, W>,
    outbox: &mut Outbox,
    reader: &mut LineReader,
    first: NextLine,
    input: &mut S,
    out: &mut O,
) -> Status
    ensures stays { StaysStarted watched.old.core watched.new.core }
    ensures ends { (left written : Option (List ℕ))
        → IsServing first left (S.left input.old) watched.old.core.state outbox.old written
        (O.written out.old) reader.old
        → EndsServing watched.old.core.state.users watched.old.core.state.start result left
        (S.left input.new) watched.new.core.state.history outbox.new written (O.written out.new) }
    ensures late { is_early result ≡ false }
    ensures read_later { S.faults input.old ≤ S.faults input.new }
    ensures write_later { O.faults out.old ≤ O.faults out.new }
    ensures read_fault { result ≡ Status.ReadFault
        → Rose (S.faults input.old) (S.faults input.new) }
    ensures write_fault { result ≡ Status.WriteFault → Rose (O.faults out.old) (O.faults out.new) }
{
    let mut next = first;
    loop {
        match next {
            NextLine::Line => match take_turn(alloc, watched, outbox, reader, input, out) {
                Ok(then) => next = then,
                Err(status) => return status,
            },
            NextLine::Last => return take_last(alloc, watched, outbox, reader.line(), out),
            NextLine::End => return Status::Done,
        }
    }
}
