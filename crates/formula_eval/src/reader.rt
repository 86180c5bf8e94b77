//! What a formula asks of the cells around it.

ghost use Rattle.std.specs.Prelude.{◌≡◌, None, Some, IfOk, IfSome, MatchOption, map};
ghost use Rattle.formula_eval.specs.Reader.{Reader, cell_at};
ghost use Rattle.formula_eval.specs.Asked.{told_of, told_at, IsMatching};
ghost use Rattle.formula_eval.specs.Lookup.{matched};
ghost use Rattle.doc_model.specs.Rows.{IsAscending};

use cell_types::{CellId, CellValue, ColType, KeyList, Name, RowList};
use std::alloc::{AllocError, Global};

/// What is told of a cell.
#[derive(Drop)]
pub enum Reading<'a> {
    /// Its value; that of a circular cell is the circular error.
    Known(&'a CellValue),
    NoTable,
    NoColumn,
    NoRow,
    /// It is a formula cell whose value is not there yet.
    Need,
}

/// The rows that meet the keys of a lookup.
#[derive(Drop)]
pub enum Matching {
    Rows(RowList),
    NoTable,
    NoColumn,
    /// One of the keys' cells is circular.
    Circular,
    /// One of the keys' cells has no value yet, and none is circular.
    Need(CellId),
}

/// What is told of cells.
pub trait CellSource {
    /// All that it tells.
    ghost told: { Self → Reader };

    /// The type of a column.
    ///
    /// Memory: none.
    fn ty(&self, table: &Name, column: &Name) -> Option<&ColType>
        ensures { MatchOption result ((told self.now).kind table.now column.now ≡ None)
            (λ ty. (told self.now).kind table.now column.now ≡ Some ty.now) };

    /// The rows of a table.
    ///
    /// Memory: none.
    fn rows(&self, table: &Name) -> Option<&[u32]>
        ensures rows { MatchOption result ((told self.now).rows table.now ≡ None)
            (λ rows. (told self.now).rows table.now ≡ Some rows.now) }
        ensures ascending { IfSome result (λ rows. IsAscending rows.now) };

    /// What is told of a cell.
    ///
    /// Memory: none.
    fn cell(&self, table: &Name, column: &Name, row: u32) -> Reading<'_>
        ensures { told_of result ≡ (told self.now).cell (cell_at table.now column.now row) };

    /// What is told of the cells of a column in these rows.
    ///
    /// Errors: want of memory.
    /// Memory: a place for each row. Cost: a source may look the column up once for all rows.
    fn cells(
        &self,
        alloc: Global,
        table: &Name,
        column: &Name,
        rows: &[u32],
    ) -> Result<Vec<Reading<'_>>, AllocError>
        ensures { IfOk result (λ cells. map told_of cells.items
            ≡ map (told_at (told self.now) table.now column.now) rows.now) }
    {
        let mut cells = Vec::with_capacity(alloc, rows.len())?;
        for row in rows {
            cells.push(self.cell(table, column, *row))?;
        }
        Ok(cells)
    }
}

/// A source of cells that also answers lookups. `scan` is an answer for every source; one with an
/// index has a cheaper one.
pub trait CellReader: CellSource {
    /// The rows that meet all the keys, ascending. Where cells of key columns are needed, and none
    /// is circular, it names any of them.
    fn matching(&self, alloc: Global, table: &Name, keys: &KeyList) -> Result<Matching, AllocError>
        ensures { IfOk result
            (λ found. IsMatching found (matched (Self.told self.now) table.now keys.now)) };
}
