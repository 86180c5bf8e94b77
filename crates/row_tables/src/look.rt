//! Cells found by their rows and columns.

ghost use Rattle.std.specs.Prelude.{◌≡◌, true, nat_eq, [], None, Some, List, option_and_then, slice_get, unwrap_or};
ghost use Rattle.std.specs.Option.{option_copied};
ghost use Rattle.std.specs.Str.{bytes_eq};
ghost use Rattle.cell_types.specs.declared.value.CellValue.{CellValue};
ghost use Rattle.doc_model.specs.Column.{column_id};
ghost use Rattle.doc_model.specs.Grid.{beside};
ghost use Rattle.doc_model.specs.Rows.{IsAscending};
ghost use Rattle.row_tables.specs.Kept.{found_beside};

use cell_types::{CellValue, Name, ValueList};
use doc_model::{ColDef, search_row};

/// The cells of a row; none where there is no such row.
///
/// Memory: none. Cost: linear in the rows.
pub(crate) fn cells_of_row<'a>(rows: &[u32], cells: &'a [ValueList], row: u32) -> &'a [CellValue]
    ensures { result.now ≡ beside (λ q. nat_eq q row) rows.now cells.now [] }
{
    for (index, other) in rows.iter().enumerate() {
        if *other == row {
            return match cells.get(index) {
                Some(list) => list.as_slice(),
                None => &[],
            };
        }
    }
    &[]
}

// Whether the row stands at the index.
fn stands_at(rows: &[u32], index: usize, row: u32) -> bool
    ensures { result ≡ true → slice_get rows.now index ≡ Some row }
{
    match rows.get(index) {
        Some(found) => *found == row,
        None => false,
    }
}

// The index of a row among rows from 1 on without a gap.
fn dense_index(row: u32) -> usize {
    let row = row as usize;
    if row == 0 { 0 } else { row - 1 }
}

// The cells at an index; none past the end.
fn cells_at(cells: &[ValueList], index: usize) -> &[CellValue]
    ensures { result.now ≡ unwrap_or (slice_get cells.now index) [] }
{
    match cells.get(index) {
        Some(list) => list.as_slice(),
        None => &[],
    }
}

/// The cells of a row among ascending ones; none where there is no such row.
///
/// Memory: none. Cost: the logarithm of the number of rows, and nothing where they have no gap.
pub(crate) fn search_cells<'a>(rows: &[u32], cells: &'a [ValueList], row: u32) -> &'a [CellValue]
    requires { IsAscending rows.now }
    ensures { result.now ≡ beside (λ q. nat_eq q row) rows.now cells.now [] }
{
    // Most tables have no gap.
    let dense = dense_index(row);
    if stands_at(rows, dense, row) {
        return cells_at(cells, dense);
    }
    match search_row(rows, row) {
        Ok(index) => cells_at(cells, index),
        Err(_) => &[],
    }
}

/// Whether two ids are the same.
#[tactic(auto, using(crate::proofs::Walks::lengths_first, crate::proofs::Walks::other_lengths))]
#[inline(always)]
pub(crate) fn is_same_id(left: &Name, right: &Name) -> bool
    ensures { result ≡ bytes_eq left.now right.now }
{
    // Lengths first: they differ mostly, and cost least.
    let (left, right) = (left.as_str(), right.as_str());
    left.len() == right.len() && left == right
}

/// The place of the cells of a column among the cells of each row, where there is such a column.
///
/// Memory: none. Cost: linear in the columns.
pub(crate) fn column_place(columns: &[ColDef], id: &Name) -> Option<usize>
    ensures { (cells : List CellValue) → option_and_then (slice_get cells) result
        ≡ found_beside (λ d. bytes_eq (column_id d) id.now) columns.now cells }
{
    for (index, column) in columns.iter().enumerate() {
        if is_same_id(&column.id, id) {
            return Some(index);
        }
    }
    None
}

/// The cell at a place, where there is one.
///
/// Memory: none.
pub(crate) fn cell_at_place(cells: &[CellValue], place: Option<usize>) -> Option<&CellValue>
    ensures { option_copied result ≡ option_and_then (slice_get cells.now) place }
{
    cells.get(place?)
}

/// The cell of a column among the cells of a row; nothing where there is no such column.
///
/// Memory: none. Cost: linear in the columns.
pub(crate) fn cell_in_row<'a>(
    columns: &[ColDef],
    cells: &'a [CellValue],
    id: &Name,
) -> Option<&'a CellValue>
    ensures { option_copied result
        ≡ found_beside (λ d. bytes_eq (column_id d) id.now) columns.now cells.now }
{
    cell_at_place(cells, column_place(columns, id))
}
