//! The recorded reads that are touched, from a walk over the formula cells of a document.

ghost use Rattle.std.specs.Prelude.{◌≡◌, [], IfOk, OnOk, OnErr};
ghost use Rattle.doc_model.specs.DocumentLaws.{IsWhole};
ghost use Rattle.doc_readers.specs.Parts.{grid_at};
ghost use Rattle.recalc.specs.Evaluated.{cells_of_column, cells_of_columns, formula_cells};
ghost use Rattle.affected_search.specs.TouchedReads.{with_cells, with_passing, with_read};
ghost use Rattle.affected_search.specs.Touches.{tells};

use crate::touch::{Touch, is_touched};
use cell_types::Name;
use dep_graph::{CellNumber, DepGraph, ReadNumber};
use doc_model::{ColDef, DocReader};
use doc_readers::rows_in;
use std::alloc::{AllocError, Global};
use std::collections::HashSet;
use std::marker::Model;

/// Reads, each once, in the order in which they were added. It is seen as their list.
#[derive(Drop)]
struct ReadSet {
    reads: Vec<ReadNumber>,
    known: HashSet<ReadNumber>,
}

impl Model for ReadSet {
    ghost use Rattle.std.specs.Prelude.{List, ◌≡◌};
    ghost use Rattle.dep_graph.specs.declared.numbers.ReadNumber.{ReadNumber};
    ghost use Rattle.dep_graph.specs.Records.{holds};

    ghost Value = { List ReadNumber };

    ghost view = { λ s. s.reads.items };

    ghost invariant = { λ s. (q : ReadNumber) → holds s.known.keys q ≡ holds s.reads.items q };
}

impl ReadSet {
    fn new(alloc: Global) -> Self
        ensures { result ≡ [] }
    {
        ReadSet {
            reads: Vec::new(alloc),
            known: HashSet::new(alloc),
        }
    }

    // Adds a read, where it is not there.
    fn add(&mut self, read: ReadNumber) -> Result<(), AllocError>
        ensures ok { OnOk result (self.new ≡ with_read read self.old) }
        ensures err { OnErr result (self.new ≡ self.old) }
    {
        self.reads.reserve(1)?;
        if self.known.insert(read)? {
            self.reads.push_reserved(read);
        }
        Ok(())
    }

    fn into_reads(self) -> Vec<ReadNumber>
        ensures { result.items ≡ self }
    {
        self.reads
    }
}

// Adds those of the reads of a cell that are touched.
fn push_touched(
    touches: &[Touch],
    reads: &[ReadNumber],
    found: &mut ReadSet,
) -> Result<(), AllocError>
    ensures { OnOk result (found.new ≡ with_passing (tells touches.now) found.old reads.now) }
{
    for read in reads {
        if is_touched(touches, *read) {
            found.add(*read)?;
        }
    }
    Ok(())
}

// The same of the cells of a column, where it is a formula column.
fn push_column<R: DocReader>(
    graph: &DepGraph,
    tables: &R,
    touches: &[Touch],
    table: &Name,
    column: &ColDef,
    found: &mut ReadSet,
) -> Result<(), AllocError>
    ensures { OnOk result (found.new ≡ with_cells (tells touches.now) graph.now found.old
        (cells_of_column table.now (grid_at (R.document tables.now) table.now) column.now)) }
{
    if !column.info.is_formula {
        return Ok(());
    }
    let Some(column) = graph.column_number(table, &column.id) else {
        return Ok(());
    };
    for row in rows_in(tables, table) {
        push_touched(
            touches,
            graph.reads_of(CellNumber { column, row: *row }),
            found,
        )?;
    }
    Ok(())
}

// The same of the formula cells of a table.
fn push_table<R: DocReader>(
    graph: &DepGraph,
    tables: &R,
    touches: &[Touch],
    table: &Name,
    found: &mut ReadSet,
) -> Result<(), AllocError>
    ensures { OnOk result (found.new ≡ with_cells (tells touches.now) graph.now found.old
        (cells_of_columns table.now (grid_at (R.document tables.now) table.now)
        (grid_at (R.document tables.now) table.now).columns)) }
{
    let mut index = 0;
    while let Some(column) = tables.column(table, index) {
        push_column(graph, tables, touches, table, column, found)?;
        index += 1;
    }
    Ok(())
}

/// The reads of formula cells that are touched, each once.
///
/// Errors: out of memory. Memory: these reads.
/// Cost: each formula cell, with each of its recorded reads against each touch; that of a hash for
/// those that are touched.
pub(crate) fn reads_touched<R: DocReader>(
    alloc: Global,
    graph: &DepGraph,
    tables: &R,
    touches: &[Touch],
) -> Result<Vec<ReadNumber>, AllocError>
    ensures { IfOk result (λ v. IsWhole (R.document tables.now)
        → v.items ≡ with_cells (tells touches.now) graph.now []
        (formula_cells (R.document tables.now))) }
{
    let mut found = ReadSet::new(alloc);
    let mut index = 0;
    while let Some(table) = tables.table(index) {
        push_table(graph, tables, touches, table, &mut found)?;
        index += 1;
    }
    Ok(found.into_reads())
}
