//! Plain tables that count how often a cell is asked for.

ghost use Rattle.std.specs.Prelude.{◌≡◌, IfOk};
ghost use Rattle.doc_model.specs.NewDocument.{new_document};

use cell_types::{CellValue, Name};
use doc_model::{ColDef, DocAction, DocReader, DocTables};
use row_tables::{RowBack, RowTables};
use std::alloc::{AllocError, Global};
use std::sync::atomic::{AtomicU64, Ordering};

/// Plain tables, and how often a cell was asked for.
#[derive(Drop)]
pub(crate) struct CountedTables {
    tables: RowTables,
    asked: AtomicU64,
}

impl CountedTables {
    /// The new document.
    pub fn new_document(alloc: Global) -> Result<CountedTables, AllocError>
        ensures { IfOk result (λ s. s.tables ≡ new_document) }
    {
        let tables = RowTables::new_document(alloc)?;
        let asked = AtomicU64::new(0);
        Ok(CountedTables { tables, asked })
    }

    /// How often a cell was asked for.
    pub fn asked(&self) -> u64 {
        self.asked.load(Ordering::SeqCst)
    }
}

impl DocReader for CountedTables {
    ghost document = { λ s. s.tables };

    fn table(&self, index: usize) -> Option<&Name> {
        self.tables.table(index)
    }

    fn column(&self, table: &Name, index: usize) -> Option<&ColDef> {
        self.tables.column(table, index)
    }

    fn rows(&self, table: &Name) -> Option<&[u32]> {
        self.tables.rows(table)
    }

    fn cell(&self, table: &Name, column: &Name, row: u32) -> Option<&CellValue> {
        self.asked.fetch_add(1, Ordering::SeqCst);
        self.tables.cell(table, column, row)
    }
}

impl DocTables for CountedTables {
    ghost use Rattle.row_tables.specs.Back.{fits_back, put_back};

    type Back = RowBack;

    ghost undone = { λ back s. put_back back.replaced s };

    ghost fits = { λ back s. fits_back back.replaced s };

    fn put(&mut self, action: &DocAction) -> Result<RowBack, AllocError> {
        self.tables.put(action)
    }

    fn take_back(&mut self, back: RowBack) {
        self.tables.take_back(back);
    }
}
