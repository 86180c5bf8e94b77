//! Shots of a core's document, taken by readers that wait for nobody.

ghost use Rattle.std.specs.Prelude.{◌≡◌, ◌∷◌, [], IfOk};
ghost use Rattle.doc_model.specs.DocumentLaws.{IsWhole};
ghost use Rattle.rule_contexts.specs.Context.{view};
ghost use Rattle.bundle_core.specs.KeptCore.{state_now};
ghost use Rattle.bundle_core.specs.Mailbox.{asked_table};
ghost use Rattle.document_shot.specs.Looks.{looked};
ghost use Rattle.document_shot.specs.PeekAnswers.{peek_answer, table_answer};
ghost use Rattle.document_shot.specs.Shots.{Stands, shown_after};
ghost use Rattle.document_shot.specs.declared.trail.DocumentStep.TheVariants.{First};

use crate::look::{Look, TableLook};
use crate::operation::DocumentOp;
use crate::past::CoreStart;
use crate::sessions::{ShotSession, copy_sessions, session_named};
use crate::trail::{DocumentStep, Trail};
use cell_types::{CellText, Name};
use column_store::ColumnTables;
use doc_model::{Entry, User};
use left_right::Absorb;
use peek_lines::PeekAnswer;
use rule_contexts::context_over;
use shot_cells::{ShotCells, ShotDocument};
use shot_documents::take_in;
use snap_reads::Shot;
use std::alloc::{AllocError, Global};
use std::collections::LinkedList;
use std::marker::Model;
use table_copies::{copy_table, nothing_shown_law, shown_alike_law};
use user_attrs::load_attributes;

/// A document with its evaluated cells and its open sessions, as a history led to them. It has no
/// trees of formulas. Its trail says what it shows.
#[derive(Drop)]
pub struct DocumentShot {
    alloc: Global,
    document: ShotDocument<ColumnTables>,
    sessions: Vec<ShotSession>,
    entries: u64,
    trail: Trail,
}

impl Model for DocumentShot {
    ghost use Rattle.std.specs.Prelude.{List};
    ghost use Rattle.doc_model.specs.DocumentLaws.{IsWhole};
    ghost use Rattle.shot_cells.specs.Places.{seen_at};
    ghost use Rattle.document_shot.specs.Shots.{Shows, shown_after};
    ghost use Rattle.document_shot.specs.Trails.{steps_of};
    ghost use Rattle.document_shot.specs.declared.trail.DocumentStep.{DocumentStep};

    ghost Value = { List DocumentStep };

    ghost view = { λ s. steps_of s.trail };

    ghost invariant = { λ s. IsWhole s.document.tables
        × Shows s.document.tables (seen_at s.document.cells.tables) s.sessions.items s.entries
        (shown_after (steps_of s.trail)) };
}

impl DocumentShot {
    /// A shot of tables that takes in an operation.
    ///
    /// Errors: out of memory.
    pub(crate) fn start(
        alloc: Global,
        tables: ColumnTables,
        operation: &DocumentOp,
    ) -> Result<DocumentShot, AllocError>
        requires { IsWhole tables }
        ensures { IfOk result (λ s. s ≡ First tables operation.now ∷ []) }
    {
        let trail = Trail::start(&tables, operation);
        let sessions = copy_sessions(alloc, operation.sessions.as_slice())?;
        let mut document = ShotDocument {
            tables,
            cells: ShotCells::new(alloc),
        };
        take_in(alloc, &mut document, &operation.changes)?;
        Ok(DocumentShot {
            alloc,
            document,
            sessions,
            entries: operation.entries,
            trail,
        })
    }

    // A copy of the table of that id, with what is in force for the user.
    #[tactic(auto, using(crate::proofs::SeenLaws::laid_out_by))]
    fn look_at(&self, user: &User, table: &CellText) -> Result<Look, AllocError>
        ensures { Stands (shown_after self.now) → IfOk result
            (λ l. looked table.now l ≡ table_answer (asked_table table.now
            (view user.now (shown_after self.now).document))) }
    {
        shown_alike_law();
        nothing_shown_law();
        let (alloc, tables) = (self.alloc, &self.document.tables);
        let Some(table) = copy_table(alloc, &self.document, table.as_str())? else {
            return Ok(Look::Told(PeekAnswer::NoSuchTable));
        };
        let attributes = load_attributes(alloc, tables)?;
        let attributes = attributes.as_slice();
        let ctx = context_over(alloc, tables, &self.document, attributes, user)?;
        Ok(Look::Table(TableLook { alloc, ctx, table }))
    }

    /// What answers a session that peeks at a table, when the shot is left.
    ///
    /// Errors: out of memory.
    /// Cost: reading the rules, for each attribute of users a walk over its table, and a copy of
    /// the table.
    pub(crate) fn look(&self, session: &Name, table: &CellText) -> Result<Look, AllocError>
        ensures { Stands (shown_after self.now) → IfOk result (λ l. looked table.now l
            ≡ peek_answer (state_now (shown_after self.now).past) session.now table.now) }
    {
        let Some(found) = session_named(self.sessions.as_slice(), session) else {
            return Ok(Look::Told(PeekAnswer::NotOpen));
        };
        if found.lagging {
            return Ok(Look::Told(PeekAnswer::Lagged));
        }
        self.look_at(&found.user, table)
    }
}

impl Absorb<DocumentOp> for DocumentShot {
    ghost use Rattle.std.specs.Prelude.{◌++◌, ◌∷◌, []};
    ghost use Rattle.document_shot.specs.declared.trail.DocumentStep.TheVariants.{Then};

    type State = LinkedList<DocumentStep>;

    ghost state = { λ s. s };

    ghost applied = { λ steps op. steps ++ Then op ∷ [] };

    fn absorb_first(
        &mut self,
        operation: &DocumentOp,
        _other: &DocumentShot,
    ) -> Result<(), AllocError> {
        let sessions = copy_sessions(self.alloc, operation.sessions.as_slice())?;
        take_in(self.alloc, &mut self.document, &operation.changes)?;
        self.sessions = sessions;
        self.entries = operation.entries;
        self.trail.note(operation);
        Ok(())
    }
}

impl Shot<DocumentOp> for DocumentShot {
    ghost use Rattle.document_shot.specs.Pasts.{past_of};
    ghost use Rattle.document_shot.specs.Shots.{Leads, Stands, shown_after};
    ghost use Rattle.document_shot.specs.Leading.{keeps, continues, moves};

    type Opening = CoreStart;

    type Entry = Entry;

    ghost past = { λ steps. past_of (shown_after steps).past };

    ghost stands = { λ steps. Stands (shown_after steps) };

    ghost led_to = { λ op. past_of op.past };

    ghost leads = { Leads };

    fn entries(&self) -> u64 {
        self.entries
    }

    ghost moves = { moves };

    ghost keeps = { keeps };

    ghost continues = { continues };
}
