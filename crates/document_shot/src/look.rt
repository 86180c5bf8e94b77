//! What a peek takes along from a shot, so that it is answered when the shot is left.

ghost use Rattle.std.specs.Prelude.{◌≡◌, IfOk};
ghost use Rattle.document_shot.specs.Looks.{looked, looked_at};

use crate::answers::table_answer;
use acl_rules::Ctx;
use bundle_core::shown_table;
use cell_types::CellText;
use peek_lines::PeekAnswer;
use std::alloc::{AllocError, Global};
use table_copies::TableCopy;

/// A copy of a table, and what is in force for the user who looks at it.
#[derive(Drop)]
pub(crate) struct TableLook {
    pub alloc: Global,
    pub ctx: Ctx,
    pub table: TableCopy,
}

/// What answers a peek. Nothing of it is the shot's own.
#[derive(Drop)]
pub(crate) enum Look {
    /// The answer, which shows no table.
    Told(PeekAnswer),
    /// What the answer is made of.
    Table(TableLook),
}

impl TableLook {
    // What the user sees of the table of that id.
    fn answer(&self, table: &CellText) -> Result<PeekAnswer, AllocError>
        ensures { IfOk result (λ a. a ≡ looked_at table.now self.now) }
    {
        self.table.laid_out_law();
        let seen = shown_table(self.alloc, &self.table, &self.ctx, table.as_str())?;
        table_answer(self.alloc, &seen)
    }
}

impl Look {
    /// The answer to the peek at the table.
    ///
    /// Errors: out of memory. Cost: that of what the user sees of the table.
    pub(crate) fn answer(self, table: &CellText) -> Result<PeekAnswer, AllocError>
        ensures { IfOk result (λ a. a ≡ looked table.now self) }
    {
        match self {
            Look::Told(answer) => Ok(answer),
            Look::Table(look) => look.answer(table),
        }
    }
}
