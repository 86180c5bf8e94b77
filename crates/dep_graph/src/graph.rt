//! The graph of reads.

ghost use Rattle.std.specs.Prelude.{◌≡◌, [], ℕ, true, false, IfOk, IfSome, OnOk, OnErr, Some, slice_get};
ghost use Rattle.std.specs.Option.{is_some, option_copied};
ghost use Rattle.doc_model.specs.Rows.{has, IsAscending};
ghost use Rattle.std.specs.List.{list_any};
ghost use Rattle.dep_graph.specs.Graph.{IsDropped, IsKept, IsSet, IsSetTo};
ghost use Rattle.dep_graph.specs.Names.{number_in};
ghost use Rattle.dep_graph.specs.Numbers.{is_column};
ghost use Rattle.dep_graph.specs.Records.{holds, reads_under};
ghost use Rattle.dep_graph.specs.Sources.{cell_in, column_in};
ghost use Rattle.dep_graph.specs.Were.{IsLogged, IsNotedLast};
ghost use Rattle.dep_graph.specs.declared.numbers.CellNumber.{CellNumber};

use crate::named::named_numbers;
use crate::names::NameNumbers;
use crate::noting::{cell_number, note_numbers, run_numbers};
use crate::numbers::{CellNumber, ColumnNumber, ReadNumber};
use crate::readers::Readers;
use crate::records::{Records, forget, record, recorded};
use crate::runs::NoteRuns;
use crate::were::{WereReads, forget_noting, note_reads, record_noting};
use cell_types::{CellId, Name};
use formula_eval::NoteList;
use std::alloc::{AllocError, Global};
use std::collections::HashMap;
use std::marker::Model;

/// Which cells read what. It is seen as the names that have numbers, and the reads of each cell by
/// numbers.
#[derive(Drop)]
pub struct DepGraph {
    alloc: Global,
    names: NameNumbers,
    reads: Records,
    readers: Readers,
}

impl Model for DepGraph {
    ghost use Rattle.dep_graph.specs.Graph.{Graph};
    ghost use Rattle.dep_graph.specs.Records.{AreOfNames, IsInverse};

    ghost Value = { Graph };

    ghost view = { λ g. record { names = g.names; reads = g.reads.entries } };

    ghost invariant = { λ g. IsInverse g.reads.entries g.readers
        × AreOfNames g.names g.reads.entries };
}

impl DepGraph {
    /// No cell reads anything, and no name has a number.
    ///
    /// Memory: none.
    pub fn new(alloc: Global) -> Self
        ensures names { result.names ≡ [] }
        ensures reads { (c : CellNumber) → reads_under result.reads c ≡ [] }
    {
        DepGraph {
            alloc,
            names: NameNumbers::new(alloc),
            reads: HashMap::new(alloc),
            readers: Readers::new(alloc),
        }
    }

    /// Records what a run noted as read, in the place of what the cell read before, and tells
    /// whether that is something else. Where it is the same, it is a comparison alone.
    ///
    /// Errors: out of memory; each cell then reads what it read.
    pub fn set(&mut self, reader: &CellId, notes: &NoteList) -> Result<bool, AllocError>
        ensures ok { OnOk result (IsSet self.old self.new reader.now notes.now) }
        ensures same { IfOk result (λ is_other. is_other ≡ false → IsKept self.old self.new) }
        ensures err { OnErr result (IsKept self.old self.new) }
    {
        let cell = cell_number(&mut self.names, reader)?;
        let new = note_numbers(&mut self.names, self.alloc, notes.as_slice())?;
        record(&mut self.reads, &mut self.readers, self.alloc, cell, new)
    }

    /// Records what a run noted as read, where notes stand together, in the place of what the cell
    /// read before. Where that is something else, it is noted first.
    ///
    /// Errors: out of memory; each cell then reads what it read.
    pub fn set_noting(
        &mut self,
        reader: &CellId,
        runs: &NoteRuns,
        log: &mut Vec<WereReads>,
    ) -> Result<(), AllocError>
        ensures ok { OnOk result (IsSet self.old self.new reader.now runs.now) }
        ensures err { OnErr result (IsKept self.old self.new) }
        ensures logged { IsLogged self.old self.new reader.now log.old.items log.new.items }
    {
        let cell = cell_number(&mut self.names, reader)?;
        let new = run_numbers(&mut self.names, self.alloc, runs.as_slice())?;
        let names = &self.names;
        let reads = &mut self.reads;
        record_noting(
            names,
            reads,
            &mut self.readers,
            self.alloc,
            reader,
            cell,
            new,
            log,
        )
    }

    /// Records again what a cell read.
    ///
    /// Errors: out of memory; each cell then reads what it read.
    pub fn set_back(&mut self, were: &WereReads) -> Result<(), AllocError>
        ensures ok { OnOk result (IsSetTo self.old self.new were.now.cell were.now.reads) }
        ensures err { OnErr result (IsKept self.old self.new) }
    {
        let cell = cell_number(&mut self.names, &were.cell)?;
        let new = named_numbers(&mut self.names, self.alloc, were.reads.as_slice())?;
        let _are_others = record(&mut self.reads, &mut self.readers, self.alloc, cell, new)?;
        Ok(())
    }

    /// Notes last what a cell reads.
    ///
    /// Errors: out of memory; nothing more is noted then.
    pub fn note(&self, reader: &CellId, log: &mut Vec<WereReads>) -> Result<(), AllocError>
        ensures ok { OnOk result
            (IsNotedLast self.now reader.now log.old.items log.new.items) }
        ensures err { OnErr result (log.new.items ≡ log.old.items) }
    {
        let Some(column) = self.column_number(&reader.table, &reader.column) else {
            return note_reads(&self.names, self.alloc, reader, &[], log);
        };
        let row = reader.row;
        let reads = recorded(&self.reads, CellNumber { column, row });
        note_reads(&self.names, self.alloc, reader, reads, log)
    }

    /// Forgets what a cell reads. Where it has a number, what it read is noted first.
    ///
    /// Errors: out of memory; each cell then reads what it read.
    pub fn drop_noting(
        &mut self,
        reader: &CellId,
        log: &mut Vec<WereReads>,
    ) -> Result<(), AllocError>
        ensures ok { OnOk result (IsDropped self.old self.new reader.now) }
        ensures err { OnErr result (IsKept self.old self.new) }
        ensures logged { IsLogged self.old self.new reader.now log.old.items log.new.items }
        ensures noted { OnOk result (is_some (cell_in self.old.names reader.now) ≡ true
            → IsNotedLast self.old reader.now log.old.items log.new.items) }
    {
        let Some(column) = self.column_number(&reader.table, &reader.column) else {
            return Ok(());
        };
        let row = reader.row;
        let cell = CellNumber { column, row };
        let names = &self.names;
        let reads = &mut self.reads;
        forget_noting(
            names,
            reads,
            &mut self.readers,
            self.alloc,
            reader,
            cell,
            log,
        )
    }

    /// Forgets what a cell reads.
    ///
    /// Memory: none.
    pub fn drop_reader(&mut self, reader: &CellId)
        ensures { IsDropped self.old self.new reader.now }
    {
        if let Some(column) = self.column_number(&reader.table, &reader.column) {
            let cell = CellNumber {
                column,
                row: reader.row,
            };
            forget(&mut self.reads, &mut self.readers, self.alloc, cell);
        }
    }

    /// The number of the name of a table or of a column, where it has one. Without one nothing is
    /// read under the name.
    ///
    /// Memory: none.
    pub fn number(&self, name: &Name) -> Option<u32>
        ensures { result ≡ number_in self.now.names name.now }
    {
        self.names.number(name)
    }

    /// The number of a column, where its names have numbers.
    ///
    /// Memory: none.
    pub fn column_number(&self, table: &Name, column: &Name) -> Option<ColumnNumber>
        ensures { result ≡ column_in self.now.names table.now column.now }
    {
        let table = self.names.number(table)?;
        let column = self.names.number(column)?;
        Some(ColumnNumber { table, column })
    }

    /// The name of a number, which is the number of no other name.
    ///
    /// Memory: none.
    pub fn name(&self, number: u32) -> Option<&Name>
        ensures name { option_copied result ≡ slice_get self.now.names number }
        ensures number { IfSome result (λ name. number_in self.now.names name.now ≡ Some number) }
    {
        self.names.name(number)
    }

    /// The columns of the cells that read this; some of them may have no such cell, but one that
    /// reads another row, or looks up another value, or did so before.
    ///
    /// Memory: none.
    pub fn columns_of(&self, read: ReadNumber) -> &[ColumnNumber]
        ensures { (c : CellNumber) → holds (reads_under self.now.reads c) read ≡ true
            → list_any (is_column c.column) result.now ≡ true }
    {
        self.readers.columns(read)
    }

    /// The rows of a column whose cells read this, ascending: exactly those.
    ///
    /// Memory: none.
    pub fn rows_of(&self, read: ReadNumber, column: ColumnNumber) -> &[u32]
        ensures rows { (row : ℕ) → has result.now row
            ≡ holds (reads_under self.now.reads (record { column = column; row = row })) read }
        ensures ascending { IsAscending result.now }
    {
        self.readers.rows(read, column)
    }

    /// The reads of a cell, in the order in which its run noted them.
    ///
    /// Memory: none.
    pub fn reads_of(&self, cell: CellNumber) -> &[ReadNumber]
        ensures { result.now ≡ reads_under self.now.reads cell }
    {
        recorded(&self.reads, cell)
    }
}
