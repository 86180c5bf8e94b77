//! A table built anew: with other columns and rows, and the values that an action gives.

ghost use Rattle.std.specs.Prelude.{◌≡◌, IfOk, map};
ghost use Rattle.std.specs.Bool.{OnTrue};
ghost use Rattle.doc_model.specs.Changes.{grid, table as table_of};
ghost use Rattle.doc_model.specs.Grid.{grid_of};
ghost use Rattle.doc_model.specs.Rows.{IsAscending};
ghost use Rattle.doc_model.specs.ViewEdits.{IsShown};
ghost use Rattle.plain_view.specs.Cells.{row_cells};
ghost use Rattle.view_patch.specs.Given.{AreFull, last_row, new_cell};
ghost use Rattle.view_patch.specs.Sources.{source_of, sourced_cell};

use crate::given::{column_at, last_index, named_index};
use crate::rows::is_ascending;
use cell_types::{CellValue, RowList, ValueList, copy_of, default_of};
use doc_model::{CellColumn, CellRowList, ViewCol, ViewColList, ViewTable};
use list_ops::all_made;
use plain_view::cells::{row_cells, value_in};
use plain_view::copies::name_copy;
use plain_view::named::index_of;
use std::alloc::{AllocError, Global};

/// Where the cells of a column come from: its index before, the index of the column that an action
/// gives, and the type's default.
#[derive(Drop)]
struct Source {
    before: Option<usize>,
    given: Option<usize>,
    start: CellValue,
}

// Where a column's cells come from.
fn source_of(before: &[ViewCol], given: &[CellColumn], column: &ViewCol) -> Source
    ensures { result ≡ source_of before.now given.now column.now }
{
    Source {
        before: index_of(before, &column.id),
        given: named_index(given, &column.id),
        start: default_of(&column.ty),
    }
}

// The same of columns.
fn sources_of(
    alloc: Global,
    before: &[ViewCol],
    given: &[CellColumn],
    columns: &[ViewCol],
) -> Result<Vec<Source>, AllocError>
    ensures { IfOk result (λ v. v.items ≡ map (source_of before.now given.now) columns.now) }
{
    all_made(
        alloc,
        columns,
        |column| Ok(source_of(before, given, column)),
    )
}

// A cell of a row: the value that is given at the index, or what was there, or else the default.
fn sourced_cell(
    row: &[CellValue],
    given: &[CellColumn],
    index: Option<usize>,
    source: &Source,
) -> Result<CellValue, AllocError>
    ensures { IfOk result (λ v. v ≡ sourced_cell row.now given.now index source.now) }
{
    match (index, column_at(given, source.given)) {
        (Some(index), Some(column)) => copy_of(value_in(
            column.values.as_slice(),
            Some(index),
            &CellValue::Null,
        )),
        _ => copy_of(value_in(row, source.before, &source.start)),
    }
}

// The rows that an action gives, whether they ascend, and its columns.
#[derive(Drop)]
struct Given<'a> {
    rows: &'a [u32],
    is_ascending: bool,
    columns: &'a [CellColumn],
}

// The cells of a row.
fn sourced_row(
    alloc: Global,
    table: &ViewTable,
    given: &Given,
    sources: &[Source],
    row: u32,
) -> Result<ValueList, AllocError>
    requires table { IsShown (grid table.now) }
    requires ascending { OnTrue given.now.is_ascending (IsAscending given.now.rows.now) }
    ensures { IfOk result
        (λ l. l ≡ map
        (sourced_cell (row_cells (grid table.now) row) given.now.columns.now
        (last_row given.now.rows.now row)) sources.now) }
{
    let before = row_cells(table, row);
    let index = last_index(given.rows, given.is_ascending, row);
    let cells = all_made(alloc, sources, |source| {
        sourced_cell(before, given.columns, index, source)
    })?;
    Ok(ValueList::from(cells))
}

// The cells of rows.
fn sourced_rows(
    alloc: Global,
    table: &ViewTable,
    given: &Given,
    sources: &[Source],
    rows: &[u32],
) -> Result<CellRowList, AllocError>
    requires table { IsShown (grid table.now) }
    requires ascending { OnTrue given.now.is_ascending (IsAscending given.now.rows.now) }
    ensures { IfOk result
        (λ l. l ≡ map
        (λ r. map (sourced_cell (row_cells (grid table.now) r) given.now.columns.now
        (last_row given.now.rows.now r)) sources.now) rows.now) }
{
    let cells = all_made(
        alloc,
        rows,
        |row| sourced_row(alloc, table, given, sources, *row),
    )?;
    Ok(CellRowList::from(cells))
}

// The cells of the table in these columns and rows.
fn cells_of(
    alloc: Global,
    table: &ViewTable,
    columns: &[ViewCol],
    rows: &[u32],
    given_rows: &[u32],
    given: &[CellColumn],
) -> Result<CellRowList, AllocError>
    requires table { IsShown (grid table.now) }
    requires given { AreFull given_rows.now given.now }
    ensures { IfOk result
        (λ l. l ≡ (grid_of columns.now rows.now
        (new_cell (grid table.now) given_rows.now given.now)).cells) }
{
    let sources = sources_of(alloc, table.columns.as_slice(), given, columns)?;
    let told = Given {
        rows: given_rows,
        is_ascending: is_ascending(given_rows),
        columns: given,
    };
    sourced_rows(alloc, table, &told, &sources, rows)
}

/// The table with these columns and rows. Its cells are the values given, or what was there, or
/// else the types' defaults.
///
/// Errors: out of memory. Cost: the cells of the table, times the logarithm of the rows, and the
/// square of the columns; rows given that do not ascend are looked through for each row.
pub(crate) fn rebuilt(
    alloc: Global,
    table: &ViewTable,
    columns: ViewColList,
    rows: RowList,
    given_rows: &[u32],
    given: &[CellColumn],
) -> Result<ViewTable, AllocError>
    requires table { IsShown (grid table.now) }
    requires given { AreFull given_rows.now given.now }
    ensures { IfOk result
        (λ t. t ≡ table_of table.now.id
        (grid_of columns rows (new_cell (grid table.now) given_rows.now given.now))) }
{
    let cells = cells_of(
        alloc,
        table,
        columns.as_slice(),
        rows.as_slice(),
        given_rows,
        given,
    )?;
    Ok(ViewTable {
        id: name_copy(&table.id)?,
        columns,
        rows,
        cells,
    })
}
