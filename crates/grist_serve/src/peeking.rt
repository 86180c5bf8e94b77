//! Peeks of a connection: what its lines ask to peek at, and how that is answered from a shot.
ghost use Rattle.std.specs.Prelude.{◌≡◌, ◌≤◌, [], ◌∷◌, IfOk, IfSome, IsErrOf, length, true};
ghost use Rattle.io_edges.specs.Causes.{Rose};
ghost use Rattle.snap_reads.specs.Views.{TakesOn};
ghost use Rattle.grist_serve.specs.Answered.{asks_peek, peeked_table};
ghost use Rattle.grist_serve.specs.Due.{IsDue, IsPeekAnswered, IsPeekReply, has_turned, standing};
ghost use Rattle.grist_serve.specs.ShotAnswering.{AnswersLine};
ghost use Rattle.grist_serve.specs.Turns.{CorePass};

use crate::sending::send_line;
use cell_types::{CellText, Name};
use document_shot::PeekReader;
use grist_json::Line;
use io_edges::{Outbox, SessionEnd, Sink, is_blank, is_long};
use peek_lines::{PeekAnswer, read_peek, write_peek};
use snap_reads::Mark;
use std::alloc::{AllocError, Global};

/// What the last turn of a connection says of the shot that its peeks are to see.
#[derive(Clone, Copy)]
pub(crate) enum Due {
    /// There was no turn yet.
    NoTurn,
    /// It gave no mark: its shot was not published.
    NoMark,
    /// A shot that is as new as this mark.
    At(Mark),
}

impl Due {
    /// What a turn says that gave this mark, or none.
    pub(crate) fn of(mark: Option<Mark>) -> Due
        ensures turned { has_turned result ≡ true }
        ensures due { (pass : CorePass) → IfSome mark (λ m. m.entries ≡ length pass.seen)
            → IsDue result pass }
    {
        match mark {
            Some(mark) => Due::At(mark),
            None => Due::NoMark,
        }
    }
}

/// The table that a line asks to peek at, where it asks for a peek.
pub(crate) fn peeked_table(alloc: Global, line: &[u8]) -> Result<Option<CellText>, AllocError>
    ensures { IfOk result (λ o. o ≡ peeked_table line.now) }
{
    if is_long(line) {
        return Ok(None);
    }
    if is_blank(line) {
        return Ok(None);
    }
    read_peek(alloc, line)
}

// What a peek is answered. Before the first turn no shot is taken: the session cannot be open.
fn peek_answer(
    shots: &mut PeekReader,
    session: &Name,
    table: &CellText,
    due: Due,
) -> Result<PeekAnswer, AllocError>
    ensures takes { TakesOn shots.old.known shots.new.known }
    ensures answer { IfOk result
        (IsPeekAnswered due session.now table.now shots.old.known shots.new.known) }
{
    match due {
        Due::NoTurn => Ok(PeekAnswer::NotOpen),
        Due::NoMark => Err(AllocError),
        Due::At(mark) => {
            shots.learn(mark);
            shots.peek(session, table)
        }
    }
}

// The line that replies to a peek.
fn peek_reply(
    alloc: Global,
    shots: &mut PeekReader,
    session: &Name,
    table: &CellText,
    due: Due,
) -> Result<Line, AllocError>
    ensures takes { TakesOn shots.old.known shots.new.known }
    ensures reply { IfOk result
        (IsPeekReply due session.now table.now shots.old.known shots.new.known) }
{
    let answer = peek_answer(shots, session, table, due)?;
    write_peek(alloc, answer)
}

/// Answers a peek, which closes no session. It takes no turn of the gate.
///
/// While a shot is read the writer of the shots may wait for it.
pub(crate) fn answer_peek<O: Sink>(
    alloc: Global,
    shots: &mut PeekReader,
    session: &Name,
    table: &CellText,
    due: Due,
    outbox: &mut Outbox,
    out: &mut O,
) -> Result<bool, SessionEnd>
    requires empty { outbox.old ≡ [] }
    ensures answers { (pass : CorePass) → IsDue due pass → AnswersLine result session.now
        (standing pass due shots.old.known) (standing pass due shots.new.known)
        (asks_peek table.now ∷ []) (O.written out.old) (O.written out.new) }
    ensures empty { outbox.new ≡ [] }
    ensures apart { O.incoming out.new ≡ O.incoming out.old }
    ensures later { O.faults out.old ≤ O.faults out.new }
    ensures fault { IsErrOf result SessionEnd.WriteFault
        → Rose (O.faults out.old) (O.faults out.new) }
{
    let Ok(line) = peek_reply(alloc, shots, session, table, due) else {
        return Err(SessionEnd::NoMemory);
    };
    match send_line(outbox, out, &line) {
        Ok(()) => Ok(false),
        Err(_) => Err(SessionEnd::WriteFault),
    }
}
