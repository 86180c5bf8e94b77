//! Cells evaluated anew that reads and cells which may have changed affect.

ghost use Rattle.std.specs.Prelude.{◌≡◌, ◌<◌, ◌++◌, [], IfOk, OnOk, OnErr};
ghost use Rattle.doc_model.specs.DocumentLaws.{IsWhole};
ghost use Rattle.dep_graph.specs.Sources.{cell_in, read_source, source_in};
ghost use Rattle.recalc.specs.Evaluated.{sheet_of};
ghost use Rattle.recalc.specs.Indexes.{AreIndexes};
ghost use Rattle.recalc.specs.Kept.{IsEvaluated, IsKeptOf};
ghost use Rattle.affected_values.specs.Taken.{LeadsBack};
ghost use Rattle.known_reads.specs.Beside.{KnowsExact, KnowsReads};
ghost use Rattle.evaluated_doc.specs.Touching.{FindsRefreshed, IsRightOutside, cell_numbers, cells_numbers, read_numbers, reads_numbers, touched_numbers};

use affected_search::affected_by;
use affected_values::named_cells;
use cell_types::{CellId, CellIdList, Read, ReadList};
use dep_graph::{CellNumber, DepGraph, ReadNumber};
use doc_model::DocTables;
use formula_eval::Steps;
use known_reads::{KnownReads, refresh_recording};
use recalc::{ColumnIndex, KeptTable, cell_id};
use std::alloc::{AllocError, Global};
use std::sync::ledger::{Blank, Ledger};

/// Reads and cells that may have changed.
#[derive(Drop)]
pub struct Touched {
    pub reads: ReadList,
    pub cells: CellIdList,
}

// The number of a cell, where its names have numbers.
fn cell_number(graph: &DepGraph, cell: &CellId) -> Option<CellNumber>
    ensures { result ≡ cell_in graph.now.names cell.now }
{
    let column = graph.column_number(&cell.table, &cell.column)?;
    Some(CellNumber {
        column,
        row: cell.row,
    })
}

// The number of a read, where its names have numbers: without one no cell reads it.
fn read_number(graph: &DepGraph, read: &Read) -> Option<ReadNumber>
    ensures { result ≡ source_in graph.now.names (read_source read.now) }
{
    match read {
        Read::Cell(cell) => Some(ReadNumber::Cell(cell_number(graph, cell)?)),
        Read::Key { table, column } => Some(ReadNumber::Key(graph.column_number(table, column)?)),
        Read::Rows { table } => Some(ReadNumber::Rows(graph.number(table)?)),
    }
}

fn push_read(graph: &DepGraph, read: &Read, numbers: &mut Vec<ReadNumber>) -> Result<(), AllocError>
    ensures { OnOk result (numbers.new.items
        ≡ numbers.old.items ++ read_numbers graph.now.names read.now) }
{
    if let Some(number) = read_number(graph, read) {
        numbers.push(number)?;
    }
    Ok(())
}

fn push_cell(
    graph: &DepGraph,
    cell: &CellId,
    numbers: &mut Vec<ReadNumber>,
) -> Result<(), AllocError>
    ensures { OnOk result (numbers.new.items
        ≡ numbers.old.items ++ cell_numbers graph.now.names cell.now) }
{
    if let Some(number) = cell_number(graph, cell) {
        numbers.push(ReadNumber::Cell(number))?;
        numbers.push(ReadNumber::Key(number.column))?;
    }
    Ok(())
}

fn push_reads(
    graph: &DepGraph,
    reads: &[Read],
    numbers: &mut Vec<ReadNumber>,
) -> Result<(), AllocError>
    ensures { OnOk result (numbers.new.items
        ≡ numbers.old.items ++ reads_numbers graph.now.names reads.now) }
{
    for read in reads {
        push_read(graph, read, numbers)?;
    }
    Ok(())
}

fn push_cells(
    graph: &DepGraph,
    cells: &[CellId],
    numbers: &mut Vec<ReadNumber>,
) -> Result<(), AllocError>
    ensures { OnOk result (numbers.new.items
        ≡ numbers.old.items ++ cells_numbers graph.now.names cells.now) }
{
    for cell in cells {
        push_cell(graph, cell, numbers)?;
    }
    Ok(())
}

// The numbers of touched reads, and of what names touched cells.
fn touched_numbers(
    alloc: Global,
    graph: &DepGraph,
    touched: &Touched,
) -> Result<Vec<ReadNumber>, AllocError>
    ensures { IfOk result (λ v. v.items
        ≡ touched_numbers graph.now.names touched.now.reads touched.now.cells) }
{
    let mut numbers = Vec::new(alloc);
    push_reads(graph, touched.reads.as_slice(), &mut numbers)?;
    push_cells(graph, touched.cells.as_slice(), &mut numbers)?;
    Ok(numbers)
}

// Copies of cells, put last.
fn push_copies(cells: &[CellId], copies: &mut Vec<CellId>) -> Result<(), AllocError>
    ensures { OnOk result (copies.new.items ≡ copies.old.items ++ cells.now) }
{
    for cell in cells {
        copies.push(cell_id(&cell.table, &cell.column, cell.row)?)?;
    }
    Ok(())
}

/// The touched cells, the cells that read one of these or its column as a key column, or a touched
/// read, those that read one of these in turn, and so on.
///
/// Errors: out of memory. Memory and cost: those of `affected_by`.
fn touched_cells(
    alloc: Global,
    graph: &DepGraph,
    touched: &Touched,
) -> Result<Vec<CellId>, AllocError>
    ensures { IfOk result (λ v.
        FindsRefreshed touched.now.reads touched.now.cells graph.now v.items) }
{
    let numbers = touched_numbers(alloc, graph, touched)?;
    let found = affected_by(alloc, graph, &numbers)?;
    let mut cells = named_cells(alloc, graph, &found)?;
    push_copies(touched.cells.as_slice(), &mut cells)?;
    Ok(cells)
}

/// Evaluates anew the cells that reads and cells which may have changed affect, where each other
/// formula cell holds its value, in a count of attempts of its own.
///
/// Errors: out of memory; the values are then those before, what cells read is laid aside, and no
/// index is left where evaluating began.
/// Memory and cost: those of `affected_by`, and as to `refresh_recording`.
pub(crate) fn refresh_touched<D: DocTables, L: Ledger>(
    alloc: Global,
    tables: &D,
    kept: &mut Vec<KeptTable>,
    indexes: &mut Vec<ColumnIndex>,
    reads: &mut KnownReads,
    touched: &Touched,
    blank: Blank,
) -> Result<(), AllocError>
    requires name { blank.name ≡ L.name }
    requires parts { blank.parts ≡ L.parts }
    requires some { 0 < L.parts }
    requires whole { IsWhole (D.document tables.now) }
    requires indexed { AreIndexes (sheet_of (D.document tables.now)) indexes.old.items }
    requires of_document { IsKeptOf (D.document tables.now) kept.old.items }
    requires others { IsRightOutside touched.now.reads touched.now.cells
        (D.document tables.now) kept.old.items }
    requires known { KnowsExact (D.document tables.now) reads.old }
    ensures evaluated { OnOk result (IsEvaluated (D.document tables.now) kept.new.items) }
    ensures of_document { IsKeptOf (D.document tables.now) kept.new.items }
    ensures err { OnErr result
        (LeadsBack (D.document tables.now) [] kept.new.items kept.old.items) }
    ensures known { KnowsReads (D.document tables.now) reads.new }
    ensures indexed { AreIndexes (sheet_of (D.document tables.now)) indexes.new.items }
{
    let cells = touched_cells(alloc, reads.graph(), touched)?;
    let mut steps = Steps::<L>::new(blank);
    match refresh_recording(alloc, tables, kept, indexes, reads, cells, &mut steps) {
        Ok(done) => {
            drop(done);
            Ok(())
        }
        Err(_) => {
            *indexes = Vec::new(alloc);
            Err(AllocError)
        }
    }
}
