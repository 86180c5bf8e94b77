//! Tables filled cell by cell.

ghost use Rattle.std.specs.Prelude.{◌≡◌, true, IfOk, map};
ghost use Rattle.doc_model.specs.Grid.{grid_of};
ghost use Rattle.doc_model.specs.Rows.{IsAscending};

use crate::RowTable;
use cell_types::{CellValue, ValueList};
use doc_model::ColDef;
use list_ops::all_made;
use std::alloc::{AllocError, Global};
use std::marker::Model;

/// What a table is filled with.
pub(crate) trait CellSource {
    ghost use Rattle.std.specs.Prelude.{ℕ};
    ghost use Rattle.cell_types.specs.declared.value.CellValue.{CellValue as Cell};
    ghost use Rattle.doc_model.specs.declared.column.ColDef.{ColDef as Column};

    /// The value of a column in a row.
    ghost value_at: { Self → Column → ℕ → Cell };

    /// The value of a column in a row.
    fn value(&self, column: &ColDef, row: u32) -> Result<CellValue, AllocError>
        ensures { IfOk result (λ v. v ≡ value_at self.now column.now row) };
}

// The cells of a row, in these columns.
fn row_filled<S: CellSource>(
    alloc: Global,
    columns: &[ColDef],
    row: u32,
    source: &S,
) -> Result<ValueList, AllocError>
    ensures { IfOk result (λ l. l ≡ map (λ d. S.value_at source.now d row) columns.now) }
{
    let cells = all_made(alloc, columns, |column| source.value(column, row))?;
    Ok(ValueList::from(cells))
}

/// The cells of these columns and rows, as the source gives them.
pub(crate) fn filled<S: CellSource>(
    alloc: Global,
    columns: &[ColDef],
    rows: &[u32],
    source: &S,
) -> Result<Vec<ValueList>, AllocError>
    ensures { IfOk result
        (λ v. v.items ≡ (grid_of columns.now rows.now (S.value_at source.now)).cells) }
{
    all_made(alloc, rows, |row| row_filled(alloc, columns, *row, source))
}

// Whether the rows ascend.
fn ascend(rows: &[u32]) -> bool
    ensures { result ≡ true → IsAscending rows.now }
{
    let mut index = rows.len();
    while index > 1 {
        index -= 1;
        if rows[index - 1] >= rows[index] {
            return false;
        }
    }
    true
}

/// A table whose cells stay as they are, and whether its rows are known to ascend: then they are
/// found by search.
#[derive(Drop)]
pub(crate) struct Kept<'a> {
    table: &'a RowTable,
    ascends: bool,
}

impl<'a> Model for Kept<'a> {
    ghost use Rattle.std.specs.Prelude.{◌≡◌, true};
    ghost use Rattle.doc_model.specs.Document.{Table};
    ghost use Rattle.doc_model.specs.Rows.{IsAscending};
    ghost use Rattle.row_tables.specs.TableCode.{coded_table};

    ghost Value = { Table };

    ghost coded = { coded_table };

    ghost view = { λ a. a.table.now };

    ghost invariant = { λ a. a.ascends ≡ true → IsAscending a.table.now.grid.rows };
}

impl<'a> Kept<'a> {
    /// The cells of the table.
    pub fn of(table: &'a RowTable) -> Kept<'a>
        ensures { result ≡ table.now }
    {
        let ascends = ascend(table.rows());
        Kept { table, ascends }
    }
}

impl CellSource for Kept<'_> {
    ghost use Rattle.doc_model.specs.Grid.{cell};
    ghost use Rattle.doc_model.specs.Column.{column_id};

    ghost value_at = { λ t d r. cell column_id t.grid d.id r };

    fn value(&self, column: &ColDef, row: u32) -> Result<CellValue, AllocError> {
        self.table.stored(self.ascends, &column.id, row)
    }
}
