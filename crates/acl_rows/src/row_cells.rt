//! Rows, however they are kept.

ghost use Rattle.std.specs.Prelude.{◌≡◌, IfOk};

use cell_types::CellValue;
use std::alloc::{AllocError, Global};

/// A row that may be written into a table of access rules.
pub trait RowCells {
    ghost use Rattle.std.specs.Prelude.{ℕ, List};
    ghost use Rattle.cell_types.specs.declared.value.CellValue.{CellValue};

    /// The cell of each column, by the column's id.
    ghost told: { Self → List ℕ → CellValue };

    /// A copy of the cell of a column.
    ///
    /// Errors: out of memory.
    fn cell(&self, alloc: Global, column: &str) -> Result<CellValue, AllocError>
        ensures { IfOk result (λ v. v ≡ told self.now column.now) };
}
