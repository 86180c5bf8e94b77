//! The cells that an action on records may lose: of each column the found ones, and those that the
//! action writes or removes.

ghost use Rattle.std.specs.Prelude.{◌≡◌, ◌++◌, filter, map, IfOk, OnOk};
ghost use Rattle.doc_model.specs.Column.{column_id};
ghost use Rattle.doc_model.specs.Document.{table_id};
ghost use Rattle.doc_model.specs.Rows.{has};
ghost use Rattle.doc_readers.specs.Parts.{grid_at};
ghost use Rattle.recalc.specs.Lost.{all_cells, cells_at, table_cells};
ghost use Rattle.affected_search.specs.Losing.{found_rows, has_rows, is_named, is_table_named, named_rows, written_rows};
ghost use Rattle.affected_search.specs.Narrow.{is_narrow};

use crate::affected::AffectedCells;
use crate::by_column::rows_by_column;
use cell_types::{CellOld, Name};
use dep_graph::{ColumnNumber, DepGraph};
use doc_model::{DocAction, DocReader};
use doc_readers::rows_in;
use lookup_index::KeyIndex;
use recalc::{may_lose_column, push_cells, push_if, rows_among, rows_of_table, sorted};
use std::alloc::{AllocError, Global};

// The cells that are named: found ones, as an index has their rows by the numbers of a graph, and
// those that an action writes or removes.
#[derive(Drop)]
struct Named<'a> {
    graph: &'a DepGraph,
    index: &'a KeyIndex<ColumnNumber>,
    action: &'a DocAction,
}

// The found rows of a column.
fn found_rows<'a>(named: &Named<'a>, table: &Name, column: &Name) -> &'a [u32]
    ensures { result.now
        ≡ found_rows named.now.graph.now.names named.now.index.now table.now column.now }
{
    match named.graph.column_number(table, column) {
        Some(number) => named.index.rows_for(&number),
        None => &[],
    }
}

// Whether rows of a column are named, where these are written in its table.
fn has_rows(named: &Named, table: &Name, written: &[u32], column: &Name) -> bool
    ensures { result ≡ has_rows named.now.graph.now.names named.now.index.now named.now.action.now
        table.now written.now column.now }
{
    !found_rows(named, table, column).is_empty()
        || !written.is_empty() && may_lose_column(named.action, column)
}

// The named rows of a column, where these are written in its table.
fn named_rows(
    alloc: Global,
    named: &Named,
    table: &Name,
    written: &[u32],
    column: &Name,
) -> Result<Vec<u32>, AllocError>
    ensures { IfOk result (λ v. v.items ≡ named_rows named.now.graph.now.names named.now.index.now
        named.now.action.now table.now written.now column.now) }
{
    let mut rows = Vec::from_slice(alloc, found_rows(named, table, column))?;
    if may_lose_column(named.action, column) {
        rows.extend_from_slice(written)?;
    }
    Ok(rows)
}

// The columns of a table that have named rows, in the order of the document.
fn columns_named<R: DocReader>(
    alloc: Global,
    doc: &R,
    named: &Named,
    table: &Name,
    written: &[u32],
) -> Result<Vec<Name>, AllocError>
    ensures { IfOk result (λ v. v.items
        ≡ filter (has_rows named.now.graph.now.names named.now.index.now named.now.action.now
        table.now written.now) (map column_id (grid_at (R.document doc.now) table.now).columns)) }
{
    let mut ids = Vec::new(alloc);
    let mut place = 0;
    while let Some(column) = doc.column(table, place) {
        push_if(
            &mut ids,
            &column.id,
            has_rows(named, table, written, &column.id),
        )?;
        place += 1;
    }
    Ok(ids)
}

// Whether a column of the table has named rows.
fn is_table_named<R: DocReader>(
    alloc: Global,
    doc: &R,
    named: &Named,
    table: &Name,
) -> Result<bool, AllocError>
    ensures { IfOk result (λ b. b ≡ is_table_named named.now.graph.now.names named.now.index.now
        (R.document doc.now) named.now.action.now table.now) }
{
    let written = rows_of_table(alloc, doc, named.action, table)?;
    // Of a table that has no number nothing is read, and so none of its cells is found.
    if written.is_empty() && named.graph.number(table).is_none() {
        return Ok(false);
    }
    let columns = columns_named(alloc, doc, named, table, &written)?;
    Ok(!columns.is_empty())
}

// The tables that have such columns, in the order of the document.
fn tables_named<R: DocReader>(
    alloc: Global,
    doc: &R,
    named: &Named,
) -> Result<Vec<Name>, AllocError>
    ensures { IfOk result (λ v. v.items
        ≡ filter (is_table_named named.now.graph.now.names named.now.index.now
        (R.document doc.now) named.now.action.now) (map table_id (R.document doc.now))) }
{
    let mut ids = Vec::new(alloc);
    let mut place = 0;
    while let Some(id) = doc.table(place) {
        let is_named = is_table_named(alloc, doc, named, id)?;
        push_if(&mut ids, id, is_named)?;
        place += 1;
    }
    Ok(ids)
}

// The cells of a column in those of these rows that are there.
fn push_there<R: DocReader>(
    alloc: Global,
    doc: &R,
    table: &Name,
    column: &Name,
    rows: Vec<u32>,
    cells: &mut Vec<CellOld>,
) -> Result<(), AllocError>
    ensures { OnOk result (cells.new.items ≡ cells.old.items
        ++ cells_at table.now (grid_at (R.document doc.now) table.now) column.now
        (filter (has rows.items) (grid_at (R.document doc.now) table.now).rows)) }
{
    let there = rows_among(alloc, rows, rows_in(doc, table))?;
    push_cells(doc, table, column, &there, cells)
}

// The named cells of a column.
fn push_column<R: DocReader>(
    alloc: Global,
    doc: &R,
    named: &Named,
    table: &Name,
    written: &[u32],
    column: &Name,
    cells: &mut Vec<CellOld>,
) -> Result<(), AllocError>
    requires { written.now ≡ written_rows (R.document doc.now) named.now.action.now table.now }
    ensures { OnOk result (cells.new.items ≡ cells.old.items
        ++ filter (is_named named.now.graph.now.names named.now.index.now (R.document doc.now)
        named.now.action.now) (cells_at table.now (grid_at (R.document doc.now) table.now)
        column.now (grid_at (R.document doc.now) table.now).rows)) }
{
    let rows = named_rows(alloc, named, table, written, column)?;
    push_there(alloc, doc, table, column, rows, cells)
}

// The named cells of a table.
fn push_table<R: DocReader>(
    alloc: Global,
    doc: &R,
    named: &Named,
    table: &Name,
    cells: &mut Vec<CellOld>,
) -> Result<(), AllocError>
    ensures { OnOk result (cells.new.items ≡ cells.old.items
        ++ filter (is_named named.now.graph.now.names named.now.index.now (R.document doc.now)
        named.now.action.now) (table_cells (R.document doc.now) table.now)) }
{
    let written = rows_of_table(alloc, doc, named.action, table)?;
    let ids = columns_named(alloc, doc, named, table, &written)?;
    let columns = sorted(alloc, &ids)?;
    for column in &columns {
        push_column(alloc, doc, named, table, &written, column, cells)?;
    }
    Ok(())
}

// All named cells.
fn cells_named<R: DocReader>(
    alloc: Global,
    doc: &R,
    named: &Named,
) -> Result<Vec<CellOld>, AllocError>
    ensures { IfOk result (λ v. v.items
        ≡ filter (is_named named.now.graph.now.names named.now.index.now (R.document doc.now)
        named.now.action.now) (all_cells (R.document doc.now))) }
{
    let ids = tables_named(alloc, doc, named)?;
    let tables = sorted(alloc, &ids)?;
    let mut cells = Vec::new(alloc);
    for table in &tables {
        push_table(alloc, doc, named, table, &mut cells)?;
    }
    Ok(cells)
}

/// The cells that an action on records may lose, with what they hold, by table, column and row: the
/// found ones, and those that it writes or removes.
///
/// Errors: out of memory. Memory: the cells, and their rows.
/// Cost: a look at each table, and at each column of those that are written or have a number, for
/// whether it has such cells; of those that have, and of their tables, comparing their ids in
/// pairs; sorting their rows, and for each row the logarithm of the rows of its table. Other rows
/// are not looked at.
pub fn narrow_cells<R: DocReader>(
    alloc: Global,
    doc: &R,
    graph: &DepGraph,
    found: &AffectedCells,
    action: &DocAction,
) -> Result<Vec<CellOld>, AllocError>
    ensures { IfOk result (λ v. v.items
        ≡ filter (is_narrow graph.now found.now (R.document doc.now) action.now)
        (all_cells (R.document doc.now))) }
{
    let index = rows_by_column(alloc, found)?;
    cells_named(
        alloc,
        doc,
        &Named {
            graph,
            index: &index,
            action,
        },
    )
}
