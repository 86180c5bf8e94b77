//! The reads by which lookups find rows of a table, by the numbers of a graph.

ghost use Rattle.std.specs.Prelude.{◌≡◌, ◌++◌, IfOk, OnOk, length, map};
ghost use Rattle.doc_model.specs.Column.{column_id};
ghost use Rattle.doc_model.specs.Grid.{cell};
ghost use Rattle.doc_readers.specs.Parts.{grid_at};
ghost use Rattle.formula_parse.specs.Lexemes.{id_word};
ghost use Rattle.lookup_index.specs.Buckets.{part_buckets};
ghost use Rattle.recalc.specs.Indexes.{is_error};
ghost use Rattle.dep_graph.specs.Sources.{column_in};
ghost use Rattle.affected_search.specs.RowValues.{cells_values, column_values, columns_values, id_reads, row_values, value_at, value_reads};

use cell_types::{CellText, CellValue, Name};
use dep_graph::{ColumnNumber, DepGraph, ReadNumber, ValueNumber};
use doc_model::{ColDef, DocReader};
use doc_readers::{cell_in, rows_in};
use formula_eval::as_read;
use lookup_index::{bucket_of, part_bucket};
use recalc::rows_among;
use std::alloc::{AllocError, Global};

fn is_error(value: &CellValue) -> bool
    ensures { result ≡ is_error value.now }
{
    match value {
        CellValue::Err(_) => true,
        _ => false,
    }
}

// How many parts a value has.
fn part_count(value: &CellValue) -> usize
    ensures { result ≡ length (part_buckets value.now) }
{
    match value {
        CellValue::List(items) => items.len(),
        CellValue::RecSet(set) => set.rows.len(),
        _ => 0,
    }
}

fn push_parts(
    column: ColumnNumber,
    value: &CellValue,
    reads: &mut Vec<ReadNumber>,
) -> Result<(), AllocError>
    ensures { OnOk result (reads.new.items ≡ reads.old.items
        ++ map (λ b. ReadNumber.Part (value_at column b)) (part_buckets value.now)) }
{
    for index in 0..part_count(value) {
        let Some(bucket) = part_bucket(value, index) else {
            return Ok(());
        };
        reads.push(ReadNumber::Part(ValueNumber { column, bucket }))?;
    }
    Ok(())
}

fn push_value(
    column: ColumnNumber,
    value: &CellValue,
    reads: &mut Vec<ReadNumber>,
) -> Result<(), AllocError>
    ensures { OnOk result (reads.new.items ≡ reads.old.items ++ value_reads column value.now) }
{
    if is_error(value) {
        reads.push(ReadNumber::Key(column))?;
        return Ok(());
    }
    let bucket = bucket_of(value);
    reads.push(ReadNumber::Value(ValueNumber { column, bucket }))?;
    push_parts(column, value, reads)
}

// Adds the values of a data column in rows, as formulas read them.
fn push_cells<R: DocReader>(
    alloc: Global,
    tables: &R,
    table: &Name,
    column: &ColDef,
    number: ColumnNumber,
    rows: &[u32],
    reads: &mut Vec<ReadNumber>,
) -> Result<(), AllocError>
    ensures { OnOk result (reads.new.items ≡ reads.old.items
        ++ cells_values number column.now.info.ty
        (cell column_id (grid_at (R.document tables.now) table.now) column.now.id) rows.now) }
{
    for row in rows {
        let value = cell_in(tables, table, &column.id, *row)?;
        let read = as_read(alloc, &column.info.ty, &value)?;
        push_value(number, &read, reads)?;
    }
    Ok(())
}

// The same of any column, where it has a number.
pub(crate) fn push_column<R: DocReader>(
    alloc: Global,
    tables: &R,
    table: &Name,
    column: &ColDef,
    number: Option<ColumnNumber>,
    rows: &[u32],
    reads: &mut Vec<ReadNumber>,
) -> Result<(), AllocError>
    ensures { OnOk result (reads.new.items ≡ reads.old.items
        ++ column_values (grid_at (R.document tables.now) table.now) number rows.now column.now) }
{
    let Some(number) = number else {
        return Ok(());
    };
    if column.info.is_formula {
        reads.push(ReadNumber::Key(number))?;
        return Ok(());
    }
    push_cells(alloc, tables, table, column, number, rows, reads)
}

fn push_columns<R: DocReader>(
    alloc: Global,
    graph: &DepGraph,
    tables: &R,
    table: &Name,
    rows: &[u32],
    reads: &mut Vec<ReadNumber>,
) -> Result<(), AllocError>
    ensures { OnOk result (reads.new.items ≡ reads.old.items
        ++ columns_values graph.now.names table.now (grid_at (R.document tables.now) table.now)
        rows.now (grid_at (R.document tables.now) table.now).columns) }
{
    let mut index = 0;
    while let Some(column) = tables.column(table, index) {
        let number = graph.column_number(table, &column.id);
        push_column(alloc, tables, table, column, number, rows, reads)?;
        index += 1;
    }
    Ok(())
}

// The number of `id` as a key column.
#[tactic(auto, unfolding(formula_parse::specs::Lexemes::id_word))]
fn id_number(
    alloc: Global,
    graph: &DepGraph,
    table: &Name,
) -> Result<Option<ColumnNumber>, AllocError>
    ensures { IfOk result (λ o. o ≡ column_in graph.now.names table.now id_word) }
{
    match Name::try_new(CellText::copy_of(alloc, "id")?) {
        Some(id) => Ok(graph.column_number(table, &id)),
        None => Err(AllocError),
    }
}

fn id_reads(
    alloc: Global,
    column: Option<ColumnNumber>,
    rows: &[u32],
) -> Result<Vec<ReadNumber>, AllocError>
    ensures { IfOk result (λ reads. reads.items ≡ id_reads column rows.now) }
{
    let mut reads = Vec::new(alloc);
    if let Some(column) = column {
        for row in rows {
            let bucket = u64::from(*row);
            reads.push(ReadNumber::Value(ValueNumber { column, bucket }))?;
        }
    }
    Ok(reads)
}

/// The reads by which lookups find rows of a table, of those that have numbers: by the rows
/// themselves, and by what stands in those that are there. A formula column is listed whole, and so
/// is a column in which an error stands in one of the rows.
///
/// Errors: out of memory. Memory: the reads, a copy of the rows, and one of a value at a time.
/// Cost: each column of the table in each of the rows that are there; sorting the rows.
pub fn row_values<R: DocReader>(
    alloc: Global,
    graph: &DepGraph,
    tables: &R,
    table: &Name,
    rows: &[u32],
) -> Result<Vec<ReadNumber>, AllocError>
    ensures { IfOk result (λ reads. reads.items
        ≡ row_values graph.now.names (R.document tables.now) table.now rows.now) }
{
    let number = id_number(alloc, graph, table)?;
    let mut reads = id_reads(alloc, number, rows)?;
    let there = rows_among(alloc, Vec::from_slice(alloc, rows)?, rows_in(tables, table))?;
    push_columns(alloc, graph, tables, table, &there, &mut reads)?;
    Ok(reads)
}
