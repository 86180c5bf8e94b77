//! The cells that an action may lose: of formula columns all, of data columns those in rows that
//! the action writes or removes.

ghost use Rattle.std.specs.Prelude.{◌≡◌, ◌++◌, true, false, filter, map, IfOk, OnOk};
ghost use Rattle.doc_model.specs.Column.{column_id};
ghost use Rattle.doc_model.specs.Document.{table_id};
ghost use Rattle.doc_readers.specs.Parts.{grid_at};
ghost use Rattle.recalc.specs.Cells.{cell_of};
ghost use Rattle.recalc.specs.Current.{has_formulas};
ghost use Rattle.recalc.specs.Lost.{all_cells, cells_at, table_cells, tables_cells};
ghost use Rattle.recalc.specs.MayLose.{may_lose, may_lose_at, may_lose_in, may_lose_row};
ghost use Rattle.recalc.specs.Watched.{is_computed};

use crate::cells::push_cells;
use crate::current::has_formula;
use crate::names::{push_if, sorted};
use crate::touched::{is_record, may_lose_column, may_lose_data, rows_of_table, tables_written};
use cell_types::{CellOld, Name};
use doc_model::{ColDef, DocAction, DocReader};
use doc_readers::{find_column, rows_in};
use std::alloc::{AllocError, Global};

fn is_computed<R: DocReader>(doc: &R, table: &Name, column: &Name) -> bool
    ensures { result ≡ is_computed (R.document doc.now) (cell_of table.now column.now 0) }
{
    match find_column(doc, table, column) {
        Some(found) => found.info.is_formula,
        None => false,
    }
}

// The same, and no column looked at where none has a formula.
fn is_computed_in<R: DocReader>(doc: &R, table: &Name, column: &Name, is_plain: bool) -> bool
    requires { is_plain ≡ true → has_formulas (R.document doc.now) ≡ false }
    ensures { result ≡ is_computed (R.document doc.now) (cell_of table.now column.now 0) }
{
    !is_plain && is_computed(doc, table, column)
}

// Whether cells of the table may be lost. Where no column has a formula, its id alone tells.
fn may_lose_in<R: DocReader>(doc: &R, action: &DocAction, table: &Name, is_plain: bool) -> bool
    requires { is_plain ≡ true → has_formulas (R.document doc.now) ≡ false }
    ensures { result ≡ may_lose_in (R.document doc.now) action.now table.now }
{
    may_lose_data(action, table) || !is_plain && has_formula(doc, table)
}

// The tables of which cells may be lost, in the order of the document.
fn tables_to_lose<R: DocReader>(
    alloc: Global,
    doc: &R,
    action: &DocAction,
    is_plain: bool,
) -> Result<Vec<Name>, AllocError>
    requires { is_plain ≡ true → has_formulas (R.document doc.now) ≡ false }
    ensures { IfOk result (λ v. v.items
        ≡ filter (may_lose_in (R.document doc.now) action.now)
        (map table_id (R.document doc.now))) }
{
    let mut ids = Vec::new(alloc);
    let mut index = 0;
    while let Some(id) = doc.table(index) {
        push_if(&mut ids, id, may_lose_in(doc, action, id, is_plain))?;
        index += 1;
    }
    Ok(ids)
}

// The same by id, and at most the table of a record action where no column has a formula.
fn tables_in_order<R: DocReader>(
    alloc: Global,
    doc: &R,
    action: &DocAction,
    is_plain: bool,
) -> Result<Vec<Name>, AllocError>
    requires { is_plain ≡ true → has_formulas (R.document doc.now) ≡ false }
    ensures { IfOk result (λ v.
        filter (may_lose (R.document doc.now) action.now)
        (tables_cells (R.document doc.now) v.items)
        ≡ filter (may_lose (R.document doc.now) action.now) (all_cells (R.document doc.now))) }
{
    if is_plain && is_record(action) {
        let tables = tables_written(alloc, action)?;
        return Ok(tables);
    }
    let ids = tables_to_lose(alloc, doc, action, is_plain)?;
    let tables = sorted(alloc, &ids)?;
    Ok(tables)
}

fn may_lose_at(action: &DocAction, column: &ColDef) -> bool
    ensures { result ≡ may_lose_at action.now column.now }
{
    column.info.is_formula || may_lose_column(action, &column.id)
}

// The columns of a table of which cells may be lost, in the order of the document.
fn columns_to_lose<R: DocReader>(
    alloc: Global,
    doc: &R,
    action: &DocAction,
    table: &Name,
) -> Result<Vec<Name>, AllocError>
    ensures { IfOk result (λ v. v.items
        ≡ map column_id (filter (may_lose_at action.now)
        (grid_at (R.document doc.now) table.now).columns)) }
{
    let mut ids = Vec::new(alloc);
    let mut index = 0;
    while let Some(column) = doc.column(table, index) {
        push_if(&mut ids, &column.id, may_lose_at(action, column))?;
        index += 1;
    }
    Ok(ids)
}

// The cells of a column that may be lost: all of a formula column, and else those in these rows.
fn push_column<R: DocReader>(
    doc: &R,
    action: &DocAction,
    table: &Name,
    column: &Name,
    rows: &[u32],
    is_plain: bool,
    cells: &mut Vec<CellOld>,
) -> Result<(), AllocError>
    requires plain { is_plain ≡ true → has_formulas (R.document doc.now) ≡ false }
    requires touched { rows.now ≡ filter (may_lose_row (R.document doc.now) action.now table.now)
        (grid_at (R.document doc.now) table.now).rows }
    ensures { OnOk result (cells.new.items ≡ cells.old.items
        ++ filter (may_lose (R.document doc.now) action.now)
        (cells_at table.now (grid_at (R.document doc.now) table.now) column.now
        (grid_at (R.document doc.now) table.now).rows)) }
{
    if is_computed_in(doc, table, column, is_plain) {
        return push_cells(doc, table, column, rows_in(doc, table), cells);
    }
    if may_lose_column(action, column) {
        return push_cells(doc, table, column, rows, cells);
    }
    Ok(())
}

fn push_table<R: DocReader>(
    alloc: Global,
    doc: &R,
    action: &DocAction,
    table: &Name,
    is_plain: bool,
    cells: &mut Vec<CellOld>,
) -> Result<(), AllocError>
    requires { is_plain ≡ true → has_formulas (R.document doc.now) ≡ false }
    ensures { OnOk result (cells.new.items ≡ cells.old.items
        ++ filter (may_lose (R.document doc.now) action.now)
        (table_cells (R.document doc.now) table.now)) }
{
    let rows = rows_of_table(alloc, doc, action, table)?;
    let ids = columns_to_lose(alloc, doc, action, table)?;
    let columns = sorted(alloc, &ids)?;
    for column in &columns {
        push_column(doc, action, table, column, &rows, is_plain, cells)?;
    }
    Ok(())
}

/// The cells that an action may lose, with what they hold, by table, column and row. The caller may
/// know that no column has a formula: then a record action looks at its own table alone.
///
/// Cost: a look at each table but there; in each that is named or has formula columns, comparing
/// its column ids in pairs; sorting the rows that are named; and the cells.
pub fn watched_cells<R: DocReader>(
    alloc: Global,
    doc: &R,
    action: &DocAction,
    is_plain: bool,
) -> Result<Vec<CellOld>, AllocError>
    requires { is_plain ≡ true → has_formulas (R.document doc.now) ≡ false }
    ensures { IfOk result (λ v. v.items
        ≡ filter (may_lose (R.document doc.now) action.now) (all_cells (R.document doc.now))) }
{
    let tables = tables_in_order(alloc, doc, action, is_plain)?;
    let mut cells = Vec::new(alloc);
    for table in &tables {
        push_table(alloc, doc, action, table, is_plain, &mut cells)?;
    }
    Ok(cells)
}
