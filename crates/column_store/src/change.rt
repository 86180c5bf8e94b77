//! What a record action makes of its table, in place, and what takes that back.

ghost use Rattle.std.specs.Prelude.{◌≡◌, true, IfOk, OnErr, OnOk};
ghost use Rattle.doc_model.specs.Document.{on_grid};
ghost use Rattle.row_tables.specs.Steps.{ActsOn, is_record, table_change};
ghost use Rattle.column_store.specs.Changes.{change_back, change_fits, told_fits, told_grid};

use crate::removed::TakenRows;
use crate::table::ColumnTable;
use crate::written::Write;
use cell_types::ValueList;
use doc_model::DocAction;
use std::alloc::AllocError;

/// What takes back a change of rows: the indexes of those that came, the values that were written
/// over, or the rows that went.
#[derive(Drop)]
pub(crate) enum Change {
    Added { indexes: Vec<usize> },
    Written { writes: Vec<Write> },
    Taken { back: TakenRows },
}

/// What is told to a table: rows that come with their cells, rows that go, or values to write.
#[derive(Drop)]
pub(crate) enum Told {
    Come {
        rows: Vec<u32>,
        lists: Vec<ValueList>,
    },
    Go {
        rows: Vec<u32>,
    },
    Values {
        writes: Vec<Write>,
    },
}

impl ColumnTable {
    /// Applies a record action to the table that it names.
    ///
    /// Errors: out of memory; the table is then as it was.
    pub(crate) fn put(&mut self, action: &DocAction) -> Result<Change, AllocError>
        requires record { is_record action.now ≡ true }
        requires fits { ActsOn action.now self.old.grid }
        ensures ok { OnOk result (self.new ≡ table_change action.now self.old) }
        ensures back { IfOk result (λ change. change_back change self.new ≡ self.old) }
        ensures fit { IfOk result (λ change. change_fits change self.new) }
        ensures err { OnErr result (self.new ≡ self.old) }
    {
        self.know_places();
        match action {
            DocAction::BulkAdd { rows, columns, .. } => {
                let indexes = self.add_rows(rows.as_slice(), columns.as_slice())?;
                Ok(Change::Added { indexes })
            }
            DocAction::BulkUpdate { rows, columns, .. } => {
                let writes = self.write_values(rows.as_slice(), columns.as_slice())?;
                Ok(Change::Written { writes })
            }
            DocAction::BulkRemove { rows, .. } => {
                let back = self.remove_rows(rows.as_slice())?;
                Ok(Change::Taken { back })
            }
            _ => unreachable!(),
        }
    }

    /// Does what the table is told.
    ///
    /// Errors: out of memory; the table is then as it was.
    pub(crate) fn put_told(&mut self, told: Told) -> Result<Change, AllocError>
        requires { told_fits told self.old.grid }
        ensures ok { OnOk result (self.new ≡ on_grid (told_grid told) self.old) }
        ensures back { IfOk result (λ change. change_back change self.new ≡ self.old) }
        ensures fit { IfOk result (λ change. change_fits change self.new) }
        ensures err { OnErr result (self.new ≡ self.old) }
    {
        match told {
            Told::Come { rows, lists } => {
                let indexes = self.add_lists(&rows, lists)?;
                Ok(Change::Added { indexes })
            }
            Told::Go { rows } => {
                let back = self.take_rows(&rows)?;
                Ok(Change::Taken { back })
            }
            Told::Values { writes } => {
                let writes = self.write_all(writes);
                Ok(Change::Written { writes })
            }
        }
    }

    /// Takes a change of rows back.
    ///
    /// Memory: none.
    pub(crate) fn take_back(&mut self, change: Change)
        requires { change_fits change self.old }
        ensures { self.new ≡ change_back change self.old }
    {
        match change {
            Change::Added { indexes } => self.take_out(indexes),
            Change::Written { writes } => self.write_back(writes),
            Change::Taken { back } => self.put_rows_again(back),
        }
    }
}
