//! What a record action makes of its table, in place, and what takes that back.

ghost use Rattle.std.specs.Prelude.{◌≡◌, true, IfOk, OnErr, OnOk};
ghost use Rattle.row_tables.specs.Back.{change_back, change_fits};
ghost use Rattle.row_tables.specs.Steps.{ActsOn, is_record, table_change};

use crate::RowTable;
use crate::removed::TakenRows;
use crate::written::Write;
use doc_model::DocAction;
use std::alloc::AllocError;

/// What takes back a record action: the indexes of the rows that came, the values that were
/// written over, or the rows that went.
#[derive(Drop)]
pub(crate) enum Change {
    Added { indexes: Vec<usize> },
    Written { writes: Vec<Write> },
    Taken { back: TakenRows },
}

impl RowTable {
    /// Applies a record action to the table that it names.
    ///
    /// Errors: out of memory; the table is then as it was.
    pub(crate) fn put(&mut self, action: &DocAction) -> Result<Change, AllocError>
        requires record { is_record action.now ≡ true }
        requires fits { ActsOn action.now self.old.grid }
        ensures ok { OnOk result (self.new ≡ table_change action.now self.old) }
        ensures back { IfOk result (λ change. change_back change self.new ≡ self.old) }
        ensures fit { IfOk result (λ change. change_fits change self.new) }
        ensures err { OnErr result (self.new ≡ self.old) }
    {
        match action {
            DocAction::BulkAdd { rows, columns, .. } => {
                let indexes = self.add_rows(rows.as_slice(), columns.as_slice())?;
                Ok(Change::Added { indexes })
            }
            DocAction::BulkUpdate { rows, columns, .. } => {
                let writes = self.write_values(rows.as_slice(), columns.as_slice())?;
                Ok(Change::Written { writes })
            }
            DocAction::BulkRemove { rows, .. } => {
                let back = self.take_rows(rows.as_slice())?;
                Ok(Change::Taken { back })
            }
            _ => unreachable!(),
        }
    }

    /// Takes a record action back.
    ///
    /// Memory: none.
    pub(crate) fn take_back(&mut self, change: Change)
        requires { change_fits change self.old }
        ensures { self.new ≡ change_back change self.old }
    {
        match change {
            Change::Added { indexes } => self.take_out(indexes),
            Change::Written { writes } => self.write_back(writes),
            Change::Taken { back } => self.put_rows_again(back),
        }
    }
}
