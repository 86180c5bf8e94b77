//! What led to a shot, for clauses alone.

ghost use Rattle.std.specs.Prelude.{◌≡◌, ◌∷◌, ◌++◌, []};
ghost use Rattle.document_shot.specs.Trails.{steps_of};
ghost use Rattle.document_shot.specs.declared.trail.DocumentStep.TheVariants.{First, Then};

use crate::operation::DocumentOp;
use column_store::ColumnTables;
use std::snapshot::Snapshot;

/// The tables that a shot began with, and the operations that it took in. It keeps none of them.
#[derive(Drop)]
pub enum Trail {
    Start(Snapshot<ColumnTables>, Snapshot<DocumentOp>),
    After(Snapshot<Trail>, Snapshot<DocumentOp>),
}

/// A step of a trail. No value of it is made.
pub enum DocumentStep {
    First(ColumnTables, DocumentOp),
    Then(DocumentOp),
}

impl Trail {
    /// The trail of a shot that begins with these tables, and takes in the operation.
    pub(crate) fn start(tables: &ColumnTables, operation: &DocumentOp) -> Trail
        ensures { steps_of result ≡ First tables.now operation.now ∷ [] }
    {
        Trail::Start(Snapshot::of(tables), Snapshot::of(operation))
    }

    /// The shot takes in one operation more.
    pub(crate) fn note(&mut self, operation: &DocumentOp)
        ensures { steps_of self.new ≡ steps_of self.old ++ Then operation.now ∷ [] }
    {
        *self = Trail::After(Snapshot::of(self), Snapshot::of(operation));
    }
}
