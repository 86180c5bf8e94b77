//! What a document that is kept answers, and what a store of one does.

ghost use Rattle.std.specs.Prelude.{◌≡◌, ◌<◌, ◌^◌, true, None, Some, IfOk, IfSome, MatchOption, OnErr, OnOk, map};
ghost use Rattle.std.specs.Option.{option_copied};
ghost use Rattle.doc_model.specs.Rows.{IsAscending};

use crate::{ColDef, DocAction};
use cell_types::{CellValue, Name};
use std::alloc::{AllocError, Global};

/// A document that can be read, however it is kept. A store's cells are base cells; where formulas
/// are evaluated, a formula column's cells are its values.
///
/// Indexes count from 0, in the order of the document: the four metadata tables, and then the
/// others in the order of their metadata rows; columns in the order of theirs.
pub trait DocReader {
    ghost use Rattle.doc_model.specs.Document.{Document};
    ghost use Rattle.doc_model.specs.Readers.{cell_at, column_at, rows_at, table_at};

    /// The document.
    ghost document: { Self → Document };

    /// The id of the table at an index. No document has as many tables as there are indexes.
    ///
    /// Memory: none.
    fn table(&self, index: usize) -> Option<&Name>
        ensures told { MatchOption result (table_at (document self.now) index ≡ None)
            (λ name. table_at (document self.now) index ≡ Some name.now) }
        ensures few { IfSome result (λ _. index < 2 ^ 63) };

    /// The column at an index of a table. No table has as many columns as there are indexes.
    ///
    /// Memory: none.
    fn column(&self, table: &Name, index: usize) -> Option<&ColDef>
        ensures told { MatchOption result (column_at (document self.now) table.now index ≡ None)
            (λ column. column_at (document self.now) table.now index ≡ Some column.now) }
        ensures few { IfSome result (λ _. index < 2 ^ 63) };

    /// The row ids of a table; they ascend.
    ///
    /// Memory: none.
    fn rows(&self, table: &Name) -> Option<&[u32]>
        ensures told { MatchOption result (rows_at (document self.now) table.now ≡ None)
            (λ rows. rows_at (document self.now) table.now ≡ Some rows.now) }
        ensures ascending { IfSome result (λ rows. IsAscending rows.now) };

    /// The cell of a table at a column and a row.
    ///
    /// Memory: none.
    fn cell(&self, table: &Name, column: &Name, row: u32) -> Option<&CellValue>
        ensures { MatchOption result (cell_at (document self.now) table.now column.now row ≡ None)
            (λ value. cell_at (document self.now) table.now column.now row ≡ Some value.now) };

    /// The cells of a table at a column and at each of these rows.
    ///
    /// Errors: out of memory.
    /// Memory: a place for each row. Cost: a store may look the column up once for all rows.
    fn cells(
        &self,
        alloc: Global,
        table: &Name,
        column: &Name,
        rows: &[u32],
    ) -> Result<Vec<Option<&CellValue>>, AllocError>
        ensures { IfOk result (λ cells. map option_copied cells.items
            ≡ map (cell_at (document self.now) table.now column.now) rows.now) }
    {
        let mut cells = Vec::with_capacity(alloc, rows.len())?;
        for row in rows {
            cells.push(self.cell(table, column, *row))?;
        }
        Ok(cells)
    }
}

/// A store of a document with its base cells, which applies actions and takes them back.
pub trait DocTables: DocReader + Drop {
    ghost use Rattle.doc_model.specs.Document.{Document};
    ghost use Rattle.doc_model.specs.Valid.{valid};
    ghost use Rattle.doc_model.specs.Apply.{apply};

    /// What takes an action back.
    type Back: Drop;

    /// The document that taking an action back gives.
    ghost undone: { Self.Back → Document → Document };

    /// Whether an action may be taken back there.
    ghost fits: { Self.Back → Document → Type 0 };

    /// Applies a valid action.
    ///
    /// Errors: out of memory; the document is then as it was.
    fn put(&mut self, action: &DocAction) -> Result<Self::Back, AllocError>
        requires valid { valid (Self.document self.old) action.now ≡ true }
        ensures done { OnOk result
            (Self.document self.new ≡ apply (Self.document self.old) action.now) }
        ensures fit { IfOk result (λ back. fits back (Self.document self.new)) }
        ensures back { IfOk result
            (λ back. undone back (Self.document self.new) ≡ Self.document self.old) }
        ensures err { OnErr result (Self.document self.new ≡ Self.document self.old) };

    /// Takes back the action that left the present document.
    ///
    /// Memory: none.
    fn take_back(&mut self, back: Self::Back)
        requires { fits back (Self.document self.old) }
        ensures { Self.document self.new ≡ undone back (Self.document self.old) };
}
