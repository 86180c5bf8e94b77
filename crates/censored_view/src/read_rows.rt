//! Rows of a table of which the cells of some columns are read at once, column by column.

ghost use Rattle.std.specs.Prelude.{◌≡◌, Some, map, slice_get, IfOk};
ghost use Rattle.std.specs.Option.{option_copied};
ghost use Rattle.doc_readers.specs.Parts.{grid_at};
ghost use Rattle.censored_view.specs.Readable.{row_of};
ghost use Rattle.censored_view.specs.ReadRows.{AreRead, IsRead, cell_in, read_cell, read_told};
ghost use Rattle.censored_view.specs.Rows.{row_told, rows_at};

use crate::document_row::DocumentRow;
use acl_formula::RowReader;
use cell_types::{CellValue, Name};
use doc_model::{DocReader, ViewCol};
use std::alloc::{AllocError, Global};

/// The cells of a column in some rows of a table.
#[derive(Drop)]
pub(crate) struct ReadColumn<'a> {
    pub id: Name,
    pub cells: Vec<Option<&'a CellValue>>,
}

/// One of these rows. Its cells in columns that were read stand at its place; others are asked for.
#[derive(Drop)]
pub(crate) struct ReadRow<'a, 'b, D> {
    pub row: DocumentRow<'a, D>,
    pub place: usize,
    pub columns: &'b [ReadColumn<'a>],
}

fn cell_in<'a>(column: &ReadColumn<'a>, place: usize) -> Option<&'a CellValue>
    ensures { option_copied result ≡ cell_in column.now place }
{
    match column.cells.as_slice().get(place) {
        Some(cell) => *cell,
        None => None,
    }
}

// The cell of a row in a column that was read, or as the document tells it.
fn read_cell<'a, D: DocReader>(read: &ReadRow<'a, '_, D>, column: &Name) -> Option<&'a CellValue>
    ensures { option_copied result ≡ read_cell read.now.place
        ((row_told D.document read.now.row).cell column.now) column.now read.now.columns.now }
{
    for known in read.columns {
        if known.id.as_str() == column.as_str() {
            return cell_in(known, read.place);
        }
    }
    read.row.tables.cell(read.row.table, column, read.row.row)
}

impl<D: DocReader> RowReader for ReadRow<'_, '_, D> {
    ghost use Rattle.censored_view.specs.ReadRows.{read_told};

    ghost told = { λ w. read_told D.document w };

    fn id(&self) -> u32 {
        self.row.row
    }

    fn cell(&self, column: &Name) -> Option<&CellValue> {
        read_cell(self, column)
    }
}

fn read_column<'a, D: DocReader>(
    alloc: Global,
    tables: &'a D,
    table: &Name,
    column: &Name,
    rows: &[u32],
) -> Result<ReadColumn<'a>, AllocError>
    ensures { IfOk result (IsRead (D.document tables.now) table.now rows.now) }
{
    let id = column.clone()?;
    let cells = tables.cells(alloc, table, column, rows)?;
    Ok(ReadColumn { id, cells })
}

/// The cells of these columns in these rows of a table.
///
/// Errors: out of memory. Memory: a place for each cell.
pub(crate) fn read_columns<'a, D: DocReader>(
    alloc: Global,
    tables: &'a D,
    table: &Name,
    columns: &[ViewCol],
    rows: &[u32],
) -> Result<Vec<ReadColumn<'a>>, AllocError>
    ensures { IfOk result (λ l. AreRead (D.document tables.now) table.now rows.now l.items) }
{
    let mut read = Vec::with_capacity(alloc, columns.len())?;
    for column in columns {
        read.push(read_column(alloc, tables, table, &column.id, rows)?)?;
    }
    Ok(read)
}

// The row at a place of these, of which the cells in these columns were read.
fn read_row<'a, 'b, D: DocReader>(
    tables: &'a D,
    table: &'a Name,
    columns: &'b [ReadColumn<'a>],
    rows: &[u32],
    place: usize,
    row: u32,
) -> ReadRow<'a, 'b, D>
    requires read { AreRead (D.document tables.now) table.now rows.now columns.now }
    requires there { slice_get rows.now place ≡ Some row }
    ensures { read_told D.document result ≡ row_of (grid_at (D.document tables.now) table.now) row }
{
    let row = DocumentRow { tables, table, row };
    ReadRow {
        row,
        place,
        columns,
    }
}

/// These rows of a table, of which the cells in these columns were read.
///
/// Errors: out of memory.
pub(crate) fn read_rows<'a, 'b, D: DocReader>(
    alloc: Global,
    tables: &'a D,
    table: &'a Name,
    columns: &'b [ReadColumn<'a>],
    rows: &[u32],
) -> Result<Vec<ReadRow<'a, 'b, D>>, AllocError>
    requires { AreRead (D.document tables.now) table.now rows.now columns.now }
    ensures { IfOk result (λ l. map (read_told D.document) l.items
        ≡ rows_at (D.document tables.now) table.now rows.now) }
{
    let mut read = Vec::with_capacity(alloc, rows.len())?;
    let mut place = 0;
    for row in rows {
        read.push(read_row(tables, table, columns, rows, place, *row))?;
        place += 1;
    }
    Ok(read)
}
