//! Readers of shots of a document.

ghost use Rattle.std.specs.Prelude.{◌≡◌, max, IfOk};
ghost use Rattle.snap_reads.specs.Views.{TakesOn};
ghost use Rattle.document_shot.specs.Looks.{looked};
ghost use Rattle.document_shot.specs.PeekAnswers.{IsPeekAnswer};

use crate::look::Look;
use crate::operation::DocumentOp;
use crate::shot::DocumentShot;
use cell_types::{CellText, Name};
use core::mem;
use peek_lines::PeekAnswer;
use snap_reads::{Mark, NoShot, Question, ShotReader};
use std::alloc::AllocError;
use std::marker::Model;

/// Asks what a session sees of a table.
#[derive(Drop)]
struct PeekTable<'a> {
    session: &'a Name,
    table: &'a CellText,
}

impl Question<DocumentShot, DocumentOp> for PeekTable<'_> {
    ghost use Rattle.std.specs.Prelude.{◌≡◌, IfOk};
    ghost use Rattle.bundle_core.specs.KeptCore.{state_now};
    ghost use Rattle.document_shot.specs.Looks.{looked};
    ghost use Rattle.document_shot.specs.PeekAnswers.{peek_answer};
    ghost use Rattle.document_shot.specs.Shots.{Stands, shown_after};

    type Answer = Result<Look, AllocError>;

    ghost answers = { λ steps q answer. Stands (shown_after steps) → IfOk answer
        (λ l. looked q.table.now l
        ≡ peek_answer (state_now (shown_after steps).past) q.session.now q.table.now) };

    fn ask(self, shot: &DocumentShot) -> Result<Look, AllocError> {
        shot.look(self.session, self.table)
    }
}

// What answers a session that asks the shot which is shown for a table.
fn looked_at(
    reader: ShotReader<DocumentShot, DocumentOp>,
    question: PeekTable<'_>,
) -> (
    ShotReader<DocumentShot, DocumentOp>,
    Result<Look, AllocError>,
)
    ensures takes { TakesOn reader.known result.0.known }
    ensures least { result.0.least ≡ reader.least }
    ensures answer { IfOk result.1 (λ l. IsPeekAnswer question.entry.session.now
        question.entry.table.now reader.known reader.least result.0.known
        (looked question.entry.table.now l)) }
{
    let (reader, answer) = reader.peek(question);
    match answer {
        Ok(look) => (reader, look),
        Err(NoShot) => (reader, Err(AllocError)),
    }
}

/// A reader of shots, as a connection has one. It waits for nobody. It is seen as the histories
/// that it took or was told of, and how many entries the one that it takes is to have.
#[derive(Drop)]
pub struct PeekReader {
    reader: ShotReader<DocumentShot, DocumentOp>,
}

impl Model for PeekReader {
    ghost use Rattle.doc_model.specs.declared.entry.Entry.{Entry};
    ghost use Rattle.snap_reads.specs.Views.{ReaderView};
    ghost use Rattle.document_shot.specs.declared.past.CoreStart.{CoreStart};

    ghost Value = { ReaderView CoreStart Entry };

    ghost view = { λ r. r.reader };
}

impl PeekReader {
    pub(crate) fn of(reader: ShotReader<DocumentShot, DocumentOp>) -> PeekReader
        ensures { result ≡ reader }
    {
        PeekReader { reader }
    }

    /// Takes no shot from now on that is older than the mark. Memory: none.
    pub fn learn(&mut self, mark: Mark)
        ensures known { self.new.known ≡ self.old.known }
        ensures least { self.new.least ≡ max self.old.least mark.entries }
    {
        self.reader.learn(mark);
    }

    /// Answers a peek of a session at a table.
    ///
    /// While it reads the rules and copies the table the writer of the shots may wait for it, and
    /// no longer.
    /// Errors: out of memory, or there is no shot that is as new as the marks ask; a shot may have
    /// been taken all the same.
    /// Cost: what is in force for the user is read anew, and the table copied and walked.
    pub fn peek(&mut self, session: &Name, table: &CellText) -> Result<PeekAnswer, AllocError>
        ensures takes { TakesOn self.old.known self.new.known }
        ensures least { self.new.least ≡ self.old.least }
        ensures answer { IfOk result (IsPeekAnswer session.now table.now self.old.known
            self.old.least self.new.known) }
    {
        let question = PeekTable { session, table };
        let look = mem::replace_with(&mut self.reader, question, looked_at)?;
        look.answer(table)
    }
}
