//! Reads that are recorded, and the cells found by them: the cells of one column, each of which
//! reads a cell of its own row and looks up a number.

use crate::samples::name;
use cell_types::{CellId, CellValue, KeyItem, KeyList, Read};
use dep_graph::{CellNumber, ColumnNumber, DepGraph, ReadNumber, ValueNumber};
use formula_eval::{Note, NoteList};
use std::alloc::{AllocError, Global};

// The row of a cell, and the number that it looks up; a later one stands for an earlier one.
const RUNS: [(u32, i64); 4] = [(1, 7), (2, 7), (3, 8), (2, 8)];

// The row of a cell that reads nothing any more.
const DROPPED: u32 = 3;

// A number that is looked up, and the rows of the cells that look it up.
const LOOKED_UP: [(u64, &[u32]); 3] = [(7, &[1]), (8, &[2]), (9, &[])];

fn cell(alloc: Global, column: &str, row: u32) -> Result<CellId, AllocError> {
    let table = name(alloc, "Sales")?;
    let column = name(alloc, column)?;
    Ok(CellId { table, column, row })
}

fn keys_of(alloc: Global, number: i64) -> Result<KeyList, AllocError> {
    let mut keys = KeyList::new(alloc);
    keys.push(KeyItem {
        column: name(alloc, "Kind")?,
        value: CellValue::Int(number),
        contains: false,
    })?;
    Ok(keys)
}

fn notes_of(alloc: Global, row: u32, number: i64) -> Result<NoteList, AllocError> {
    let mut notes = NoteList::new(alloc);
    notes.push(Note::Read(Read::Cell(cell(alloc, "Amount", row)?)))?;
    let table = name(alloc, "Sales")?;
    let keys = keys_of(alloc, number)?;
    notes.push(Note::Met { table, keys })?;
    Ok(notes)
}

fn graph_of(alloc: Global) -> Result<DepGraph, AllocError> {
    let mut graph = DepGraph::new(alloc);
    for (row, number) in &RUNS {
        graph.set(
            &cell(alloc, "Total", *row)?,
            &notes_of(alloc, *row, *number)?,
        )?;
    }
    graph.drop_reader(&cell(alloc, "Total", DROPPED)?);
    Ok(graph)
}

fn column_of(alloc: Global, graph: &DepGraph, column: &str) -> Result<ColumnNumber, AllocError> {
    let table = name(alloc, "Sales")?;
    let column = name(alloc, column)?;
    graph.column_number(&table, &column).ok_or(AllocError)
}

fn are_found(alloc: Global, bucket: u64, rows: &[u32]) -> Result<bool, AllocError> {
    let graph = graph_of(alloc)?;
    let column = column_of(alloc, &graph, "Kind")?;
    let read = ReadNumber::Value(ValueNumber { column, bucket });
    Ok(graph.rows_of(read, column_of(alloc, &graph, "Total")?) == rows)
}

// How many cells of the first column that is told read the amount in this row.
fn readers_found(alloc: Global, row: u32) -> Result<usize, AllocError> {
    let graph = graph_of(alloc)?;
    let column = column_of(alloc, &graph, "Amount")?;
    let read = ReadNumber::Cell(CellNumber { column, row });
    match graph.columns_of(read).first() {
        Some(column) => Ok(graph.rows_of(read, *column).len()),
        None => Ok(0),
    }
}

#[test]
fn finds_the_cells_that_look_a_value_up(rt: HostRuntime) {
    for row in &LOOKED_UP {
        assert!(rt;
            are_found(rt.alloc(), row.0, row.1) == Ok(true),
            "not {}",
            row.0
        );
    }
    assert!(rt; readers_found(rt.alloc(), 1) == Ok(1));
    assert!(rt; readers_found(rt.alloc(), 4) == Ok(0));
}
