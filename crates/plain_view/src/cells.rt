//! Cells of a table, by the ids of columns and rows.

ghost use Rattle.std.specs.Prelude.{◌≡◌, ◌&&◌, not, nat_eq, bytes_eq, map, IfOk, get_or};
ghost use Rattle.std.specs.List.{position};
ghost use Rattle.cell_types.specs.declared.value.CellValue.TheVariants.{Null};
ghost use Rattle.doc_model.specs.Changes.{grid};
ghost use Rattle.doc_model.specs.Grid.{beside, cell};
ghost use Rattle.doc_model.specs.Records.{column_of};
ghost use Rattle.doc_model.specs.Same.{same_value};
ghost use Rattle.doc_model.specs.ViewEdits.{IsShown, shown_id};
ghost use Rattle.plain_view.specs.Cells.{row_cells, value_in};

use crate::copies::name_copy;
use crate::named::index_of;
use crate::rows::row_index;
use cell_types::{CellValue, Name, Same, ValueList, copy_of};
use doc_model::{CellColumn, ViewTable};
use list_ops::all_made;
use std::alloc::{AllocError, Global};

/// The cells of a row; none where the row is not there.
///
/// Memory: none. Cost: the logarithm of the rows.
pub fn row_cells<'a>(table: &'a ViewTable, row: u32) -> &'a [CellValue]
    requires { IsShown (grid table.now) }
    ensures { result.now ≡ row_cells (grid table.now) row }
{
    match row_index(table.rows.as_slice(), row) {
        Some(index) => table.cells.as_slice()[index].as_slice(),
        None => &[],
    }
}

/// The value at an index of a row, or another one where there is no index or no value.
///
/// Memory: none.
pub fn value_in<'a>(
    row: &'a [CellValue],
    index: Option<usize>,
    other: &'a CellValue,
) -> &'a CellValue
    ensures { result.now ≡ value_in row.now index other.now }
{
    match index {
        Some(index) => match row.get(index) {
            Some(value) => value,
            None => other,
        },
        None => other,
    }
}

/// Whether two values are the same.
///
/// Memory: none.
pub fn is_same_value(left: &CellValue, right: &CellValue) -> bool
    ensures { result ≡ same_value left.now right.now }
{
    left.same_as(right)
}

// A copy of the value at an index of a row; Null where there is none.
fn cell_copy(table: &ViewTable, index: Option<usize>, row: u32) -> Result<CellValue, AllocError>
    requires { IsShown (grid table.now) }
    ensures { IfOk result (λ v. v ≡ value_in (row_cells (grid table.now) row) index Null) }
{
    copy_of(value_in(row_cells(table, row), index, &CellValue::Null))
}

// Such copies of rows.
fn cell_copies(
    alloc: Global,
    table: &ViewTable,
    index: Option<usize>,
    rows: &[u32],
) -> Result<ValueList, AllocError>
    requires { IsShown (grid table.now) }
    ensures { IfOk result
        (λ l. l ≡ map (λ r. value_in (row_cells (grid table.now) r) index Null) rows.now) }
{
    let values = all_made(alloc, rows, |row| cell_copy(table, index, *row))?;
    Ok(ValueList::from(values))
}

/// The cells of the column of an id in these rows; Null where there is none.
///
/// Cost: the rows, times the logarithm of the table's rows.
pub fn column_of(
    alloc: Global,
    table: &ViewTable,
    rows: &[u32],
    id: &Name,
) -> Result<CellColumn, AllocError>
    requires { IsShown (grid table.now) }
    ensures { IfOk result (λ k. k ≡ column_of shown_id (grid table.now) rows.now id.now) }
{
    let index = index_of(table.columns.as_slice(), id);
    let values = cell_copies(alloc, table, index, rows)?;
    let id = name_copy(id)?;
    Ok(CellColumn { id, values })
}
