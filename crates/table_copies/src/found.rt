//! Tables found by a text that may be no name, and cells by their rows.

ghost use Rattle.std.specs.Prelude.{◌≡◌, None, length, nat_eq, true, false, MatchOption};
ghost use Rattle.cell_types.specs.declared.value.CellValue.TheVariants.{Null};
ghost use Rattle.doc_model.specs.ByIds.{find_id};
ghost use Rattle.doc_model.specs.Document.{table_id};
ghost use Rattle.doc_model.specs.Grid.{beside};
ghost use Rattle.doc_model.specs.Rows.{IsAscending, has};

use cell_types::{CellValue, Name};
use doc_model::{DocReader, search_row};

/// The id of the table of this id, where it is there.
///
/// Memory: none. Cost: a walk over the tables.
pub(crate) fn found_id<'a, D: DocReader>(tables: &'a D, table: &str) -> Option<&'a Name>
    ensures { MatchOption result (find_id table_id table.now (D.document tables.now) ≡ None)
        (λ id. id.now ≡ table.now) }
{
    let mut index = 0;
    while let Some(id) = tables.table(index) {
        if id.as_str() == table {
            return Some(id);
        }
        index += 1;
    }
    None
}

/// The cell beside a row, where the row is there.
///
/// Memory: none. Cost: the logarithm of the rows.
pub(crate) fn cell_beside<'a>(
    rows: &[u32],
    cells: &'a [CellValue],
    row: u32,
) -> Option<&'a CellValue>
    requires ascending { IsAscending rows.now }
    requires beside { length cells.now ≡ length rows.now }
    ensures { MatchOption result (has rows.now row ≡ false)
        (λ value. (has rows.now row ≡ true)
        × (value.now ≡ beside (λ q. nat_eq q row) rows.now cells.now Null)) }
{
    match search_row(rows, row) {
        Ok(index) => cells.get(index),
        Err(_) => None,
    }
}
