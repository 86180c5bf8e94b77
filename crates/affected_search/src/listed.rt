//! The reads to be listed of an action on records, by the numbers of a graph, and the search from
//! them.

ghost use Rattle.std.specs.Prelude.{◌≡◌, ◌+◌, ◌++◌, IfOk, IfSome, OnOk, map};
ghost use Rattle.std.specs.Option.{is_some};
ghost use Rattle.doc_model.specs.ByIds.{find_id};
ghost use Rattle.doc_model.specs.Column.{column_id};
ghost use Rattle.doc_readers.specs.Parts.{grid_at};
ghost use Rattle.recalc.specs.MayLose.{is_record};
ghost use Rattle.dep_graph.specs.Sources.{column_in};
ghost use Rattle.affected_search.specs.Listed.{FindsListed, KeepsListed, cells_below, given_reads, moved_cells, moved_reads, record_reads, update_reads, where_some};
ghost use Rattle.affected_search.specs.Reached.{IsAffected};
ghost use Rattle.affected_search.specs.CellNumbers.{cell_at};

use crate::affected::AffectedCells;
use crate::row_reads::{push_column, row_values};
use crate::search::affected_by;
use cell_types::Name;
use dep_graph::{CellNumber, ColumnNumber, DepGraph, ReadNumber};
use doc_model::{CellColumn, DocAction, DocReader};
use doc_readers::find_column;
use std::alloc::{AllocError, Global};

// The number after one; none follows the last one of all.
fn number_after(number: u32) -> Result<u32, AllocError>
    ensures { IfOk result (λ n. n ≡ number + 1) }
{
    match number.checked_add(1) {
        Some(next) => Ok(next),
        None => Err(AllocError),
    }
}

fn push_cells(
    column: ColumnNumber,
    rows: &[u32],
    reads: &mut Vec<ReadNumber>,
) -> Result<(), AllocError>
    ensures { OnOk result (reads.new.items ≡ reads.old.items
        ++ map (λ r. ReadNumber.Cell (cell_at column r)) rows.now) }
{
    for row in rows {
        reads.push(ReadNumber::Cell(CellNumber { column, row: *row }))?;
    }
    Ok(())
}

// All rows of a table, and the cells in these under each name that has a number.
fn moved_cells(
    alloc: Global,
    graph: &DepGraph,
    table: Option<u32>,
    rows: &[u32],
) -> Result<Vec<ReadNumber>, AllocError>
    ensures { IfOk result
        (λ reads. reads.items ≡ moved_cells graph.now.names table rows.now) }
{
    let mut reads = Vec::new(alloc);
    let Some(table) = table else {
        return Ok(reads);
    };
    reads.push(ReadNumber::All(table))?;
    let mut column = 0;
    while graph.name(column).is_some() {
        push_cells(ColumnNumber { table, column }, rows, &mut reads)?;
        column = number_after(column)?;
    }
    Ok(reads)
}

// The same, and the values by which lookups find the rows.
fn moved_reads<R: DocReader>(
    alloc: Global,
    graph: &DepGraph,
    tables: &R,
    table: &Name,
    rows: &[u32],
) -> Result<Vec<ReadNumber>, AllocError>
    ensures { IfOk result (λ reads. reads.items
        ≡ moved_reads graph.now.names (R.document tables.now) table.now rows.now) }
{
    let mut reads = moved_cells(alloc, graph, graph.number(table), rows)?;
    let values = row_values(alloc, graph, tables, table, rows)?;
    reads.extend_from_slice(values.as_slice())?;
    Ok(reads)
}

// The same, and nothing where no rows come or go.
fn reads_of_rows<R: DocReader>(
    alloc: Global,
    graph: &DepGraph,
    tables: &R,
    table: &Name,
    rows: &[u32],
) -> Result<Vec<ReadNumber>, AllocError>
    ensures { IfOk result (λ reads. reads.items ≡ where_some rows.now
        (moved_reads graph.now.names (R.document tables.now) table.now rows.now)) }
{
    if rows.is_empty() {
        return Ok(Vec::new(alloc));
    }
    moved_reads(alloc, graph, tables, table, rows)
}

// Adds of a column that an update gives its cells, and its values, where it has a number.
fn push_given<R: DocReader>(
    alloc: Global,
    tables: &R,
    table: &Name,
    column: &Name,
    number: Option<ColumnNumber>,
    rows: &[u32],
    reads: &mut Vec<ReadNumber>,
) -> Result<(), AllocError>
    ensures { OnOk result (reads.new.items ≡ reads.old.items
        ++ given_reads (grid_at (R.document tables.now) table.now) number rows.now
        (find_id column_id column.now (grid_at (R.document tables.now) table.now).columns)) }
{
    let Some(key) = number else {
        return Ok(());
    };
    push_cells(key, rows, reads)?;
    match find_column(tables, table, column) {
        Some(found) => push_column(alloc, tables, table, found, number, rows, reads),
        None => Ok(()),
    }
}

// The same of each column that it gives.
fn update_reads<R: DocReader>(
    alloc: Global,
    graph: &DepGraph,
    tables: &R,
    table: &Name,
    rows: &[u32],
    columns: &[CellColumn],
) -> Result<Vec<ReadNumber>, AllocError>
    ensures { IfOk result (λ reads. reads.items ≡ update_reads graph.now.names table.now
        (grid_at (R.document tables.now) table.now) rows.now columns.now) }
{
    let mut reads = Vec::new(alloc);
    for column in columns {
        let number = graph.column_number(table, &column.id);
        push_given(alloc, tables, table, &column.id, number, rows, &mut reads)?;
    }
    Ok(reads)
}

/// The reads to be listed of an action on records, of those that have numbers, as a document shows
/// its rows; nothing of another action, and nothing where no rows come or go. Of rows that do they
/// are the cells in these, all rows of the table, and the values by which lookups find the rows;
/// of an update those of the columns that it gives. Listed in the document before and in the one
/// after, they are all that the action changes: a lookup that meets none of the rows reads nothing
/// of it.
///
/// Errors: out of memory, or 2^32 names have numbers. Memory: the reads, and a copy of a value at a
/// time. Cost: of an update its cells, and its columns among those of the table; where rows come or
/// go, each name that has a number and each column of the table in each of the rows.
pub fn record_reads<R: DocReader>(
    alloc: Global,
    graph: &DepGraph,
    tables: &R,
    action: &DocAction,
) -> Result<Option<Vec<ReadNumber>>, AllocError>
    ensures record { IfOk result (λ o. is_some o ≡ is_record action.now) }
    ensures reads { IfOk result (λ o. IfSome o (λ reads. reads.items
        ≡ record_reads graph.now.names (R.document tables.now) action.now)) }
{
    match action {
        DocAction::BulkAdd { table, rows, .. } | DocAction::BulkRemove { table, rows } => {
            Ok(Some(reads_of_rows(alloc, graph, tables, table, rows.as_slice())?))
        }
        DocAction::BulkUpdate {
            table,
            rows,
            columns,
        } => {
            let given = columns.as_slice();
            Ok(Some(update_reads(alloc, graph, tables, table, rows.as_slice(), given)?))
        }
        _ => Ok(None),
    }
}

/// Finds the cells that an action on records affects, by what `record_reads` listed before it and
/// after it, over a graph of what formula cells note: each formula cell that it finds is affected,
/// where the graph holds nothing else.
///
/// Errors: out of memory. Memory and cost: those of `affected_by`.
pub fn affected_by_records(
    alloc: Global,
    graph: &DepGraph,
    before: Vec<ReadNumber>,
    after: &[ReadNumber],
) -> Result<AffectedCells, AllocError>
    ensures affected { IfOk result (IsAffected graph.now.reads (before.items ++ after.now)) }
    ensures others { IfOk result (KeepsListed graph.now before.items after.now) }
    ensures only { IfOk result (FindsListed graph.now before.items after.now) }
{
    let mut reads = before;
    reads.extend_from_slice(after)?;
    affected_by(alloc, graph, reads.as_slice())
}
