//! Affected cells by column.

ghost use Rattle.std.specs.Prelude.{◌≡◌, IfOk};
ghost use Rattle.affected_search.specs.ByColumn.{HasRowsOf};

use crate::affected::AffectedCells;
use dep_graph::ColumnNumber;
use lookup_index::KeyIndex;
use std::alloc::{AllocError, Global};

/// The rows of affected cells under their columns, ascending.
///
/// Errors: out of memory. Memory: the rows and the columns.
/// Cost: of each cell a hash, the logarithm of the rows of its column, and those that follow it.
pub fn rows_by_column(
    alloc: Global,
    found: &AffectedCells,
) -> Result<KeyIndex<ColumnNumber>, AllocError>
    ensures { IfOk result (HasRowsOf found.now) }
{
    let mut rows = KeyIndex::new(alloc);
    let cells = found.cells();
    for cell in cells {
        rows.insert(alloc, cell.column, cell.row)?;
    }
    Ok(rows)
}
