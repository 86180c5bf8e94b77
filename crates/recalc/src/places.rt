//! Values found and put by place.

ghost use Rattle.std.specs.Prelude.{◌≡◌, ◌<◌, true, false, None, Some, length, slice_get, cond, MatchOption};
ghost use Rattle.std.specs.List.{position};
ghost use Rattle.std.specs.Option.{is_some, option_copied};
ghost use Rattle.std.specs.Str.{bytes_eq};
ghost use Rattle.cell_types.specs.declared.cell.CellId.{CellId};
ghost use Rattle.doc_model.specs.ByIds.{find_id};
ghost use Rattle.doc_model.specs.DocumentLaws.{IsWhole};
ghost use Rattle.doc_model.specs.Rows.{IsAscending, has};
ghost use Rattle.recalc.specs.Evaluated.{formula_at};
ghost use Rattle.recalc.specs.Kept.{IsKeptOf, column_at, held_at, held_in, kept_column_id, kept_table_id};
ghost use Rattle.recalc.specs.Put.{HasPlace, HasSpot, IsPutInColumn, IsPutInTable, IsPutInTables};
ghost use Rattle.recalc.specs.Cells.{same_cell};
ghost use Rattle.recalc.specs.Seen.{joined};

use crate::kept::{KeptColumn, KeptTable};
use cell_types::{CellId, CellValue, Name};
use doc_model::DocTables;
use doc_readers::rows_in;
use std::mem;

// Whether two texts end in the same byte, where both have one.
fn ends_alike(left: &[u8], right: &[u8]) -> bool
    ensures { left.now ≡ right.now → result ≡ true }
{
    match (left.last(), right.last()) {
        (Some(left), Some(right)) => *left == *right,
        _ => true,
    }
}

/// Whether two ids are the same.
#[tactic(auto, using(crate::proofs::PlaceLemmas::other_lengths, crate::proofs::PlaceLemmas::other_ends))]
#[inline(always)]
pub(crate) fn is_same_id(left: &Name, right: &Name) -> bool
    ensures { result ≡ bytes_eq left.now right.now }
{
    // Lengths first, then the last bytes: they differ mostly, and cost least.
    let (left, right) = (left.as_str(), right.as_str());
    if left.len() != right.len() || !ends_alike(left.as_bytes(), right.as_bytes()) {
        return false;
    }
    left == right
}

// Whether the row stands at the index.
fn stands_at(rows: &[u32], index: usize, row: u32) -> bool
    ensures { result ≡ true → slice_get rows.now index ≡ Some row }
{
    match rows.get(index) {
        Some(found) => *found == row,
        None => false,
    }
}

// The index of a row among rows from 1 on without a gap.
fn dense_index(row: u32) -> usize {
    let row = row as usize;
    if row == 0 { 0 } else { row - 1 }
}

/// The index of a row among rows that ascend.
pub(crate) fn row_index(rows: &[u32], row: u32) -> Option<usize>
    requires { IsAscending rows.now }
    ensures { MatchOption result (has rows.now row ≡ false)
        (λ index. slice_get rows.now index ≡ Some row) }
{
    // Most tables have no gap.
    let dense = dense_index(row);
    if stands_at(rows, dense, row) {
        return Some(dense);
    }
    match rows.binary_search(&row) {
        Ok(index) => Some(index),
        Err(_) => None,
    }
}

/// What is kept of the table of this id.
pub(crate) fn find_table<'a>(tables: &'a [KeptTable], id: &Name) -> Option<&'a KeptTable>
    ensures { option_copied result ≡ find_id kept_table_id id.now tables.now }
{
    tables.iter().find(|table| is_same_id(&table.id, id))
}

/// What is kept of the column of this id.
pub(crate) fn find_column<'a>(columns: &'a [KeptColumn], id: &Name) -> Option<&'a KeptColumn>
    ensures { option_copied result ≡ find_id kept_column_id id.now columns.now }
{
    columns.iter().find(|column| is_same_id(&column.id, id))
}

/// What is kept of a column.
pub fn column_at<'a>(tables: &'a [KeptTable], table: &Name, column: &Name) -> Option<&'a KeptColumn>
    ensures { option_copied result ≡ column_at tables.now table.now column.now }
{
    find_column(&find_table(tables, table)?.columns, column)
}

/// The value at an index, where it is known.
pub(crate) fn value_at(values: &[Option<CellValue>], index: usize) -> Option<&CellValue>
    ensures { option_copied result ≡ joined (slice_get values.now index) }
{
    match values.get(index) {
        Some(Some(value)) => Some(value),
        _ => None,
    }
}

/// What is known of the cell of a column in a row, where its values stand beside these rows.
///
/// Memory: none. Cost: the logarithm of the rows, and nothing where they have no gap.
pub fn value_beside<'a>(column: &'a KeptColumn, rows: &[u32], row: u32) -> Option<&'a CellValue>
    requires { IsAscending rows.now }
    ensures { option_copied result ≡ held_in rows.now column.now.values.items row }
{
    match row_index(rows, row) {
        Some(index) => value_at(&column.values, index),
        None => None,
    }
}

fn table_index(tables: &[KeptTable], id: &Name) -> Option<usize>
    ensures { result ≡ position (λ k. bytes_eq (kept_table_id k) id.now) tables.now }
{
    tables.iter().position(|table| is_same_id(&table.id, id))
}

fn column_index(columns: &[KeptColumn], id: &Name) -> Option<usize>
    ensures { result ≡ position (λ k. bytes_eq (kept_column_id k) id.now) columns.now }
{
    columns.iter().position(|column| is_same_id(&column.id, id))
}

fn put_in_column(column: &mut KeptColumn, row: usize, value: Option<CellValue>) -> Option<CellValue>
    requires { row < length column.old.values.items }
    ensures { IsPutInColumn column.old column.new row value result }
{
    mem::replace(&mut column.values[row], value)
}

fn put_in_table(
    table: &mut KeptTable,
    column: usize,
    row: usize,
    value: Option<CellValue>,
) -> Option<CellValue>
    requires { HasPlace table.old.columns.items column row }
    ensures { IsPutInTable table.old table.new column row value result }
{
    put_in_column(&mut table.columns[column], row, value)
}

fn put_in_tables(
    tables: &mut Vec<KeptTable>,
    table: usize,
    column: usize,
    row: usize,
    value: Option<CellValue>,
) -> Option<CellValue>
    requires { HasSpot tables.old.items table column row }
    ensures { IsPutInTables tables.old.items tables.new.items table column row value result }
{
    put_in_table(&mut tables[table], column, row, value)
}

/// Puts what is known of a formula cell in its place, and hands out what was known before.
///
/// Memory: none. Cost: comparing ids of tables and columns; of the row the logarithm of the rows,
/// and nothing where the rows have no gap.
pub fn exchange_value<D: DocTables>(
    tables: &D,
    kept: &mut Vec<KeptTable>,
    cell: &CellId,
    value: Option<CellValue>,
) -> Option<CellValue>
    requires whole { IsWhole (D.document tables.now) }
    requires of_document { IsKeptOf (D.document tables.now) kept.old.items }
    requires there { is_some (formula_at (D.document tables.now) cell.now) ≡ true }
    ensures of_document { IsKeptOf (D.document tables.now) kept.new.items }
    ensures put { (c : CellId) → held_at (D.document tables.now) kept.new.items c
        ≡ cond (same_cell cell.now c) value (held_at (D.document tables.now) kept.old.items c) }
    ensures before { result ≡ held_at (D.document tables.now) kept.old.items cell.now }
{
    let Some(table) = table_index(kept, &cell.table) else {
        unreachable!();
    };
    let Some(column) = column_index(&kept[table].columns, &cell.column) else {
        unreachable!();
    };
    let Some(row) = row_index(rows_in(tables, &cell.table), cell.row) else {
        unreachable!();
    };
    put_in_tables(kept, table, column, row, value)
}
