//! What a context answers of a table.

use crate::row_tests::RowTests;
use acl_formula::RowReader;
use cell_types::Name;
use std::alloc::{AllocError, Global};

/// What is in force for a user: what it lets the user read of each table.
pub trait Lets {
    ghost use Rattle.std.specs.Prelude.{◌≡◌, ℕ, List, None, Some, false, option_map, unwrap_or, IfOk, IfSome};
    ghost use Rattle.censored_view.specs.Readable.{IsAsRow, Readable};
    ghost use Rattle.censored_view.specs.Tested.{AreOwnTests, AreRowTests};

    /// What may be read of each table.
    ghost lets: { Self → List ℕ → Readable };

    /// Whether the table is shown where it has no columns.
    ///
    /// Memory: none.
    fn is_bare_shown(&self, table: &Name) -> bool
        ensures { result ≡ (lets self.now table.now).bare };

    /// Whether the column is shown.
    ///
    /// Memory: none.
    fn is_column_shown(&self, table: &Name, column: &Name) -> bool
        ensures { result ≡ (lets self.now table.now).column column.now };

    /// Whether the formula of the column is shown.
    ///
    /// Memory: none.
    fn is_formula_shown(&self, table: &Name, column: &Name) -> bool
        ensures { result ≡ (lets self.now table.now).formula column.now };

    /// Whether rules of its own may decide the cells of the column. Where none may, each of them is
    /// decided as its row alone.
    ///
    /// Memory: none.
    fn has_own_rules(&self, table: &Name, column: &Name) -> bool
        ensures { result ≡ false → IsAsRow (lets self.now table.now) column.now };

    /// What rules of its own decide of the column's cell in the row; where they decide nothing, the
    /// cell is decided as the row alone.
    ///
    /// Memory: none.
    fn own_answer<W: RowReader>(&self, table: &Name, column: &Name, row: &W) -> Option<bool>
        ensures { (lets self.now table.now).cell (Some column.now) (W.told row.now)
            ≡ unwrap_or result ((lets self.now table.now).cell None (W.told row.now)) };

    /// Whether the row may be read in the column, or in a table without shown columns.
    ///
    /// Memory: none.
    fn is_cell_shown<W: RowReader>(&self, table: &Name, column: Option<&Name>, row: &W) -> bool
        ensures { result ≡ (lets self.now table.now).cell
            (option_map (λ c. c.now) column.entry) (W.told row.now) };

    /// The tests that decide whether rows of the table may be read alone, chosen once for all rows;
    /// nothing where each row has to be asked for.
    ///
    /// Errors: out of memory.
    fn row_tests<'a>(
        &'a self,
        alloc: Global,
        table: &Name,
    ) -> Result<Option<RowTests<'a>>, AllocError>
        ensures { IfOk result (λ o. IfSome o (AreRowTests (lets self.now table.now))) };

    /// The tests by which rules of its own decide the cells of the column, chosen once for all
    /// rows; nothing where each cell has to be asked for.
    ///
    /// Errors: out of memory.
    fn own_tests<'a>(
        &'a self,
        alloc: Global,
        table: &Name,
        column: &Name,
    ) -> Result<Option<RowTests<'a>>, AllocError>
        ensures { IfOk result
            (λ o. IfSome o (AreOwnTests (lets self.now table.now) column.now)) };
}
