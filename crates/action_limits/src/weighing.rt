//! What cells and formulas weigh, as far as 64 bits can tell.

ghost use Rattle.std.specs.Fn.{FnReturnsAt};
ghost use Rattle.std.specs.Prelude.{ℕ, ◌≡◌, ◌<◌, Some, length, map, slice_get};
ghost use Rattle.doc_model.specs.Column.{column_id};
ghost use Rattle.doc_model.specs.CountLaws.{column_weight, rows_weight};
ghost use Rattle.doc_model.specs.Counts.{formula_bytes, grid_cells, grid_weight, item_weight, row_weight, total, value_weight};
ghost use Rattle.doc_model.specs.DocumentLaws.{IsWhole};
ghost use Rattle.doc_model.specs.Grid.{cell};
ghost use Rattle.doc_readers.specs.Parts.{grid_at};
ghost use Rattle.action_limits.specs.Capped.{capped};

use cell_types::{CellItem, CellValue, Name};
use doc_model::{ColDef, DocTables};
use doc_readers::rows_in;

/// The sum of what is counted of each item, where a function tells that.
pub(crate) fn total<T, F: Fn(&T) -> u64>(items: &[T], count: F) -> u64
    requires { F.IsAlwaysCallable count }
    ensures { (f : T → ℕ)
        → ((x : T) (n : ℕ) → FnReturnsAt F.Fn count x n → n ≡ capped (f x))
        → result ≡ capped (total (map f items.now)) }
{
    let mut sum = 0u64;
    for item in items {
        sum = sum.saturating_add(count(item));
    }
    sum
}

fn item_weight(item: &CellItem) -> u64
    ensures { result ≡ capped (item_weight item.now) }
{
    match item {
        CellItem::Text(text) => 16u64.saturating_add(text.len() as u64),
        _ => 16,
    }
}

fn value_weight(value: &CellValue) -> u64
    ensures { result ≡ capped (value_weight value.now) }
{
    match value {
        CellValue::Text(text) => text.len() as u64,
        CellValue::List(items) => total(items.as_slice(), |item| item_weight(item)),
        _ => 0,
    }
}

/// The weight of values.
pub(crate) fn values_weight(values: &[CellValue]) -> u64
    ensures { result ≡ capped (row_weight values.now) }
{
    total(values, |value| value_weight(value))
}

fn cell_weight<D: DocTables>(tables: &D, table: &Name, column: &Name, row: u32) -> u64
    ensures { result ≡ capped
        (value_weight (cell column_id (grid_at (D.document tables.now) table.now) column.now row)) }
{
    match tables.cell(table, column, row) {
        Some(value) => value_weight(value),
        None => 0,
    }
}

/// The weight of a column's cells in these rows.
pub(crate) fn column_weight<D: DocTables>(
    tables: &D,
    table: &Name,
    column: &Name,
    rows: &[u32],
) -> u64
    ensures { result
        ≡ capped (column_weight (grid_at (D.document tables.now) table.now) rows.now column.now) }
{
    total(rows, |row| cell_weight(tables, table, column, *row))
}

/// How many columns a table has.
pub(crate) fn column_count<D: DocTables>(tables: &D, table: &Name) -> usize
    requires { IsWhole (D.document tables.now) }
    ensures { result ≡ length (grid_at (D.document tables.now) table.now).columns }
{
    let mut index = 0;
    while let Some(_column) = tables.column(table, index) {
        index += 1;
    }
    index
}

/// The column at an index.
pub(crate) fn column_at<'a, D: DocTables>(tables: &'a D, table: &Name, index: usize) -> &'a ColDef
    requires { index < length (grid_at (D.document tables.now) table.now).columns }
    ensures { slice_get (grid_at (D.document tables.now) table.now).columns index
        ≡ Some result.now }
{
    let Some(column) = tables.column(table, index) else {
        unreachable!()
    };
    column
}

/// The weight of all cells in these rows.
pub(crate) fn rows_weight<D: DocTables>(tables: &D, table: &Name, rows: &[u32]) -> u64
    requires { IsWhole (D.document tables.now) }
    ensures { result ≡ capped (rows_weight (grid_at (D.document tables.now) table.now) rows.now) }
{
    let mut weight = 0u64;
    for index in 0..column_count(tables, table) {
        let column = column_at(tables, table, index);
        weight = weight.saturating_add(column_weight(tables, table, &column.id, rows));
    }
    weight
}

fn formulas_weight<D: DocTables>(tables: &D, table: &Name) -> u64
    requires { IsWhole (D.document tables.now) }
    ensures { result
        ≡ capped (total (map formula_bytes (grid_at (D.document tables.now) table.now).columns)) }
{
    let mut weight = 0u64;
    for index in 0..column_count(tables, table) {
        let column = column_at(tables, table, index);
        weight = weight.saturating_add(column.info.formula.len() as u64);
    }
    weight
}

/// The weight of a table.
pub(crate) fn table_weight<D: DocTables>(tables: &D, table: &Name) -> u64
    requires { IsWhole (D.document tables.now) }
    ensures { result ≡ capped (grid_weight (grid_at (D.document tables.now) table.now)) }
{
    let cells = rows_weight(tables, table, rows_in(tables, table));
    cells.saturating_add(formulas_weight(tables, table))
}

/// How many cells a table has.
pub(crate) fn table_cells<D: DocTables>(tables: &D, table: &Name) -> u64
    requires { IsWhole (D.document tables.now) }
    ensures { result ≡ capped (grid_cells (grid_at (D.document tables.now) table.now)) }
{
    let rows = rows_in(tables, table).len() as u64;
    rows.saturating_mul(column_count(tables, table) as u64)
}
