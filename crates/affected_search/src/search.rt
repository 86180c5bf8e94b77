//! The search: readers of touched reads, their readers, and so on.

ghost use Rattle.std.specs.Prelude.{◌≡◌, ◌&&◌, IfOk, OnOk};
ghost use Rattle.doc_model.specs.Rows.{has};
ghost use Rattle.dep_graph.specs.Numbers.{is_column};
ghost use Rattle.affected_search.specs.Reached.{IsAffected, reads_naming, reads_one};
ghost use Rattle.affected_search.specs.Found.{HasKeyReaders, IsMore, is_reader};

use crate::affected::AffectedCells;
use dep_graph::{CellNumber, ColumnNumber, DepGraph, ReadNumber};
use std::alloc::{AllocError, Global};
use std::collections::HashSet;

fn add_rows(found: &mut AffectedCells, column: ColumnNumber, rows: &[u32]) -> Result<(), AllocError>
    ensures { OnOk result (IsMore found.old found.new
        (λ c. is_column column c.column && has rows.now c.row)) }
{
    for row in rows {
        found.add(CellNumber { column, row: *row })?;
    }
    Ok(())
}

// Adds the cells that read this.
fn add_readers(
    found: &mut AffectedCells,
    graph: &DepGraph,
    read: ReadNumber,
) -> Result<(), AllocError>
    ensures { OnOk result (IsMore found.old found.new (is_reader graph.now.reads read)) }
{
    let columns = graph.columns_of(read);
    for column in columns {
        add_rows(found, *column, graph.rows_of(read, *column))?;
    }
    Ok(())
}

fn add_readers_of_each(
    found: &mut AffectedCells,
    graph: &DepGraph,
    reads: &[ReadNumber],
) -> Result<(), AllocError>
    ensures { OnOk result (IsMore found.old found.new (reads_one graph.now.reads reads.now)) }
{
    for read in reads {
        add_readers(found, graph, *read)?;
    }
    Ok(())
}

// Adds the cells that read the column as a key column, where these were not added before: so that
// they are gone over once, and not for each cell of the column.
fn add_key_readers(
    found: &mut AffectedCells,
    keys: &mut HashSet<ColumnNumber>,
    graph: &DepGraph,
    column: ColumnNumber,
) -> Result<(), AllocError>
    requires { HasKeyReaders graph.now.reads keys.old.keys found.old }
    ensures more { OnOk result (IsMore found.old found.new
        (is_reader graph.now.reads (ReadNumber.Key column))) }
    ensures keys { OnOk result (HasKeyReaders graph.now.reads keys.new.keys found.new) }
{
    if !keys.insert(column)? {
        return Ok(());
    }
    add_readers(found, graph, ReadNumber::Key(column))
}

// Adds the cells that read this cell, or its column as a key column.
fn add_cell_readers(
    found: &mut AffectedCells,
    keys: &mut HashSet<ColumnNumber>,
    graph: &DepGraph,
    cell: CellNumber,
) -> Result<(), AllocError>
    requires { HasKeyReaders graph.now.reads keys.old.keys found.old }
    ensures more { OnOk result (IsMore found.old found.new
        (reads_one graph.now.reads (reads_naming cell))) }
    ensures keys { OnOk result (HasKeyReaders graph.now.reads keys.new.keys found.new) }
{
    add_readers(found, graph, ReadNumber::Cell(cell))?;
    add_key_readers(found, keys, graph, cell.column)
}

/// Finds the cells that a change affects: those that read something touched, those that read one
/// of these or its column as a key column, and so on.
///
/// Errors: out of memory. Memory: the cells, and their columns. Cost: that of a hash for each read
/// that is touched, each found cell, and each reader and column of these and of the columns of
/// found cells as key columns.
pub fn affected_by(
    alloc: Global,
    graph: &DepGraph,
    touched: &[ReadNumber],
) -> Result<AffectedCells, AllocError>
    ensures { IfOk result (IsAffected graph.now.reads touched.now) }
{
    let mut found = AffectedCells::new(alloc);
    let mut keys = HashSet::new(alloc);
    add_readers_of_each(&mut found, graph, touched)?;
    let mut place = 0;
    while place < found.cells().len() {
        let cell = found.cells()[place];
        add_cell_readers(&mut found, &mut keys, graph, cell)?;
        place += 1;
    }
    Ok(found)
}
