//! Reads recorded anew or forgotten, where it is noted first what the cell read.

ghost use Rattle.std.specs.Prelude.{◌≡◌, [], IfOk, OnErr, OnOk, map};
ghost use Rattle.dep_graph.specs.Named.{source_named, sources_told};
ghost use Rattle.dep_graph.specs.Records.{HasSameReads, IsInverse, IsRecorded, reads_under};
ghost use Rattle.dep_graph.specs.Were.{IsNoted, IsNotedTold};

use crate::named::{NamedRead, named_reads};
use crate::names::NameNumbers;
use crate::numbers::{CellNumber, ReadNumber};
use crate::readers::Readers;
use crate::records::{Records, forget, record, recorded};
use cell_types::CellId;
use std::alloc::{AllocError, Global};
use std::marker::Model;

/// What a cell read at a time. It is seen as the cell, and what it read.
#[derive(Drop)]
pub struct WereReads {
    pub(crate) cell: CellId,
    pub(crate) reads: Vec<NamedRead>,
}

impl Model for WereReads {
    ghost use Rattle.std.specs.Prelude.{map};
    ghost use Rattle.dep_graph.specs.Named.{Were, source_named};

    ghost Value = { Were };

    ghost view = { λ w. record { cell = w.cell; reads = map source_named w.reads.items } };
}

// What is read by numbers, as what the cell read.
fn were_of(
    names: &NameNumbers,
    alloc: Global,
    reader: &CellId,
    reads: &[ReadNumber],
) -> Result<WereReads, AllocError>
    ensures cell { IfOk result (λ w. w.cell ≡ reader.now) }
    ensures reads { IfOk result (λ w. w.reads ≡ sources_told names.now reads.now) }
{
    let reads = named_reads(names, alloc, reads)?;
    let table = reader.table.clone()?;
    let column = reader.column.clone()?;
    let row = reader.row;
    let cell = CellId { table, column, row };
    Ok(WereReads { cell, reads })
}

/// Notes last what a cell reads.
///
/// Errors: out of memory; nothing more is noted then.
pub(crate) fn note_reads(
    names: &NameNumbers,
    alloc: Global,
    reader: &CellId,
    reads: &[ReadNumber],
    log: &mut Vec<WereReads>,
) -> Result<(), AllocError>
    ensures ok { OnOk result
        (IsNotedTold names.now reads.now reader.now log.old.items log.new.items) }
    ensures err { OnErr result (log.new.items ≡ log.old.items) }
{
    let was = were_of(names, alloc, reader, reads)?;
    log.push(was)?;
    Ok(())
}

/// Records the reads of a cell in the place of those before, which are noted first, where these are
/// others.
///
/// Errors: out of memory; all is then recorded as before.
pub(crate) fn record_noting(
    names: &NameNumbers,
    reads: &mut Records,
    readers: &mut Readers,
    alloc: Global,
    reader: &CellId,
    cell: CellNumber,
    new: Vec<ReadNumber>,
    log: &mut Vec<WereReads>,
) -> Result<(), AllocError>
    requires { IsInverse reads.old.entries readers.old }
    ensures ok { OnOk result (IsRecorded reads.old.entries reads.new.entries cell new.items) }
    ensures err { OnErr result (HasSameReads reads.old.entries reads.new.entries) }
    ensures inverse { IsInverse reads.new.entries readers.new }
    ensures noted { IsNoted names.now reads.old.entries reads.new.entries reader.now cell
        log.old.items log.new.items }
{
    if recorded(&*reads, cell) == new.as_slice() {
        return Ok(());
    }
    note_reads(names, alloc, reader, recorded(&*reads, cell), log)?;
    let _are_others = record(reads, readers, alloc, cell, new)?;
    Ok(())
}

/// Forgets the reads of a cell, which are noted first.
///
/// Errors: out of memory; all is then recorded as before.
pub(crate) fn forget_noting(
    names: &NameNumbers,
    reads: &mut Records,
    readers: &mut Readers,
    alloc: Global,
    reader: &CellId,
    cell: CellNumber,
    log: &mut Vec<WereReads>,
) -> Result<(), AllocError>
    requires { IsInverse reads.old.entries readers.old }
    ensures ok { OnOk result (IsRecorded reads.old.entries reads.new.entries cell []) }
    ensures err { OnErr result (reads.new.entries ≡ reads.old.entries) }
    ensures inverse { IsInverse reads.new.entries readers.new }
    ensures noted { OnOk result (IsNotedTold names.now (reads_under reads.old.entries cell)
        reader.now log.old.items log.new.items) }
    ensures unnoted { OnErr result (log.new.items ≡ log.old.items) }
{
    note_reads(names, alloc, reader, recorded(&*reads, cell), log)?;
    forget(reads, readers, alloc, cell);
    Ok(())
}
