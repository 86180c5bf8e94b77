//! Tables with values in their formula cells, told as one document.

ghost use Rattle.std.specs.Prelude.{◌≡◌, IfOk, map, true};
ghost use Rattle.std.specs.Option.{option_copied};
ghost use Rattle.doc_model.specs.Readers.{cell_at};
ghost use Rattle.recalc.specs.Evaluated.{filled_by};
ghost use Rattle.shot_cells.specs.Places.{seen_at};
ghost use Rattle.shot_cells.specs.ShotDocument.{is_formula_at};

use crate::cells::ShotCells;
use cell_types::{CellValue, Name};
use doc_model::{ColDef, DocReader, DocTables};
use doc_readers::find_column;
use std::alloc::{AllocError, Global};

/// The tables of a shot, and what stands in the formula cells of their document.
#[derive(Drop)]
pub struct ShotDocument<D: DocTables> {
    pub tables: D,
    pub cells: ShotCells,
}

/// Whether a column of a table is there and has a formula.
///
/// Memory: none. Cost: a walk over the columns of the table.
pub fn is_formula<D: DocReader>(tables: &D, table: &Name, column: &Name) -> bool
    ensures { result ≡ is_formula_at (D.document tables.now) table.now column.now }
{
    match find_column(tables, table, column) {
        Some(found) => found.info.is_formula,
        None => false,
    }
}

impl<D: DocTables> ShotDocument<D> {
    // The value of a cell of a formula column, where the cell is there.
    fn formula_value(&self, table: &Name, column: &Name, row: u32) -> Option<&CellValue>
        requires { is_formula_at (D.document self.now.tables) table.now column.now ≡ true }
        ensures { option_copied result
            ≡ cell_at (filled_by (seen_at self.now.cells.tables) (D.document self.now.tables))
            table.now column.now row }
    {
        match self.tables.cell(table, column, row) {
            Some(_) => Some(self.cells.value(table, column, row)),
            None => None,
        }
    }

    // The same for each of these rows.
    fn formula_values(
        &self,
        alloc: Global,
        table: &Name,
        column: &Name,
        rows: &[u32],
    ) -> Result<Vec<Option<&CellValue>>, AllocError>
        requires { is_formula_at (D.document self.now.tables) table.now column.now ≡ true }
        ensures { IfOk result (λ values. map option_copied values.items
            ≡ map (cell_at (filled_by (seen_at self.now.cells.tables) (D.document self.now.tables))
            table.now column.now) rows.now) }
    {
        let mut values = Vec::with_capacity(alloc, rows.len())?;
        for row in rows {
            values.push(self.formula_value(table, column, *row))?;
        }
        Ok(values)
    }
}

/// The document of the tables, with the value that is seen of each formula cell in its place.
impl<D: DocTables> DocReader for ShotDocument<D> {
    ghost use Rattle.recalc.specs.Evaluated.{filled_by};
    ghost use Rattle.shot_cells.specs.Places.{seen_at};

    ghost document = { λ d. filled_by (seen_at d.cells.tables) (D.document d.tables) };

    fn table(&self, index: usize) -> Option<&Name> {
        self.tables.table(index)
    }

    fn column(&self, table: &Name, index: usize) -> Option<&ColDef> {
        self.tables.column(table, index)
    }

    fn rows(&self, table: &Name) -> Option<&[u32]> {
        self.tables.rows(table)
    }

    fn cell(&self, table: &Name, column: &Name, row: u32) -> Option<&CellValue> {
        if is_formula(&self.tables, table, column) {
            self.formula_value(table, column, row)
        } else {
            self.tables.cell(table, column, row)
        }
    }

    fn cells(
        &self,
        alloc: Global,
        table: &Name,
        column: &Name,
        rows: &[u32],
    ) -> Result<Vec<Option<&CellValue>>, AllocError> {
        if is_formula(&self.tables, table, column) {
            self.formula_values(alloc, table, column, rows)
        } else {
            self.tables.cells(alloc, table, column, rows)
        }
    }
}
