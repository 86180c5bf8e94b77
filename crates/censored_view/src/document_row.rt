//! Rows of a document, read cell by cell.

ghost use Rattle.std.specs.Prelude.{◌≡◌, map, IfOk};
ghost use Rattle.censored_view.specs.Rows.{row_told, rows_at};

use acl_formula::RowReader;
use cell_types::{CellValue, Name};
use doc_model::DocReader;
use std::alloc::{AllocError, Global};

/// A row of a table of a document. It has no cells where it is not there.
#[derive(Drop)]
pub struct DocumentRow<'a, D> {
    pub tables: &'a D,
    pub table: &'a Name,
    pub row: u32,
}

impl<D: DocReader> RowReader for DocumentRow<'_, D> {
    ghost use Rattle.censored_view.specs.Rows.{row_told};

    ghost told = { λ w. row_told D.document w };

    fn id(&self) -> u32 {
        self.row
    }

    fn cell(&self, column: &Name) -> Option<&CellValue> {
        self.tables.cell(self.table, column, self.row)
    }
}

/// The rows of a table with these ids.
///
/// Errors: out of memory.
pub fn document_rows<'a, D: DocReader>(
    alloc: Global,
    tables: &'a D,
    table: &'a Name,
    rows: &[u32],
) -> Result<Vec<DocumentRow<'a, D>>, AllocError>
    ensures { IfOk result (λ l. map (row_told D.document) l.items
        ≡ rows_at (D.document tables.now) table.now rows.now) }
{
    let mut read = Vec::with_capacity(alloc, rows.len())?;
    for row in rows {
        read.push(DocumentRow {
            tables,
            table,
            row: *row,
        })?;
    }
    Ok(read)
}
