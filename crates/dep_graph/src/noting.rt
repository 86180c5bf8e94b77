//! Numbers of what notes read.

ghost use Rattle.std.specs.Prelude.{◌≡◌, ◌∷◌, ◌++◌, [], List, Some, IfOk, OnOk, map};
ghost use Rattle.dep_graph.specs.Names.{IsGrown, number_in};
ghost use Rattle.dep_graph.specs.NumberLaws.{cell_with};
ghost use Rattle.dep_graph.specs.Runs.{more_cells, notes_after, notes_in, notes_of};
ghost use Rattle.dep_graph.specs.Sources.{AreNumbers, Source, all_source, cell_in, column_in, read_source, source_in, source_of_key, sources, sources_of, sources_of_keys};

use crate::names::NameNumbers;
use crate::numbers::{CellNumber, ColumnNumber, ReadNumber, ValueNumber};
use crate::runs::NoteRun;
use cell_types::{CellId, KeyItem, Name, Read};
use formula_eval::Note;
use lookup_index::bucket_of;
use std::alloc::{AllocError, Global};

/// The number of a column, whose names are given numbers where they have none.
///
/// Errors: out of memory; what had a number keeps it.
pub(crate) fn column_number(
    names: &mut NameNumbers,
    table: &Name,
    column: &Name,
) -> Result<ColumnNumber, AllocError>
    ensures ok { IfOk result (λ k. column_in names.new table.now column.now ≡ Some k) }
    ensures grown { IsGrown names.old names.new }
{
    let table = names.add(table)?;
    let column = names.add(column)?;
    Ok(ColumnNumber { table, column })
}

/// The number of a cell, whose names are given numbers where they have none.
///
/// Errors: out of memory; what had a number keeps it.
pub(crate) fn cell_number(names: &mut NameNumbers, cell: &CellId) -> Result<CellNumber, AllocError>
    ensures ok { IfOk result (λ k. cell_in names.new cell.now ≡ Some k) }
    ensures grown { IsGrown names.old names.new }
{
    let column = column_number(names, &cell.table, &cell.column)?;
    Ok(CellNumber {
        column,
        row: cell.row,
    })
}

/// The number of a read, whose names are given numbers where they have none.
///
/// Errors: out of memory; what had a number keeps it.
pub(crate) fn read_number(names: &mut NameNumbers, read: &Read) -> Result<ReadNumber, AllocError>
    ensures ok { IfOk result (λ q. source_in names.new (read_source read.now) ≡ Some q) }
    ensures grown { IsGrown names.old names.new }
{
    match read {
        Read::Cell(cell) => Ok(ReadNumber::Cell(cell_number(names, cell)?)),
        Read::Key { table, column } => Ok(ReadNumber::Key(column_number(names, table, column)?)),
        Read::Rows { table } => Ok(ReadNumber::Rows(names.add(table)?)),
    }
}

fn key_number(
    names: &mut NameNumbers,
    table: &Name,
    key: &KeyItem,
) -> Result<ReadNumber, AllocError>
    ensures ok { IfOk result (λ q. source_in names.new (source_of_key table.now key.now) ≡ Some q) }
    ensures grown { IsGrown names.old names.new }
{
    let column = column_number(names, table, &key.column)?;
    let value = ValueNumber {
        column,
        bucket: bucket_of(&key.value),
    };
    if key.contains {
        Ok(ReadNumber::Part(value))
    } else {
        Ok(ReadNumber::Value(value))
    }
}

fn push_keys(
    names: &mut NameNumbers,
    table: &Name,
    keys: &[KeyItem],
    reads: &mut Vec<ReadNumber>,
) -> Result<(), AllocError>
    ensures ok { (done : List Source) → AreNumbers names.old done reads.old.items → OnOk result
        (AreNumbers names.new (done ++ map (source_of_key table.now) keys.now) reads.new.items) }
    ensures grown { IsGrown names.old names.new }
{
    for key in keys {
        let read = key_number(names, table, key)?;
        reads.push(read)?;
    }
    Ok(())
}

fn push_all(
    names: &mut NameNumbers,
    table: &Name,
    reads: &mut Vec<ReadNumber>,
) -> Result<(), AllocError>
    ensures ok { (done : List Source) → AreNumbers names.old done reads.old.items → OnOk result
        (AreNumbers names.new (done ++ all_source table.now ∷ []) reads.new.items) }
    ensures grown { IsGrown names.old names.new }
{
    let number = ReadNumber::All(names.add(table)?);
    reads.push(number)?;
    Ok(())
}

fn push_met(
    names: &mut NameNumbers,
    table: &Name,
    keys: &[KeyItem],
    reads: &mut Vec<ReadNumber>,
) -> Result<(), AllocError>
    ensures ok { (done : List Source) → AreNumbers names.old done reads.old.items → OnOk result
        (AreNumbers names.new (done ++ sources_of_keys table.now keys.now) reads.new.items) }
    ensures grown { IsGrown names.old names.new }
{
    if keys.is_empty() {
        push_all(names, table, reads)
    } else {
        push_keys(names, table, keys, reads)
    }
}

fn push_read(
    names: &mut NameNumbers,
    read: &Read,
    reads: &mut Vec<ReadNumber>,
) -> Result<(), AllocError>
    ensures ok { (done : List Source) → AreNumbers names.old done reads.old.items → OnOk result
        (AreNumbers names.new (done ++ read_source read.now ∷ []) reads.new.items) }
    ensures grown { IsGrown names.old names.new }
{
    let number = read_number(names, read)?;
    reads.push(number)?;
    Ok(())
}

fn push_note(
    names: &mut NameNumbers,
    note: &Note,
    reads: &mut Vec<ReadNumber>,
) -> Result<(), AllocError>
    ensures ok { (done : List Source) → AreNumbers names.old done reads.old.items → OnOk result
        (AreNumbers names.new (done ++ sources_of note.now) reads.new.items) }
    ensures grown { IsGrown names.old names.new }
{
    match note {
        Note::Read(read) => push_read(names, read, reads),
        Note::All { table } => push_all(names, table, reads),
        Note::Met { table, keys } => push_met(names, table, keys.as_slice(), reads),
    }
}

/// The numbers of what notes read, in order, where names are given numbers that have none.
///
/// Errors: out of memory; what had a number keeps it.
pub(crate) fn note_numbers(
    names: &mut NameNumbers,
    alloc: Global,
    notes: &[Note],
) -> Result<Vec<ReadNumber>, AllocError>
    ensures ok { IfOk result (λ reads. AreNumbers names.new (sources notes.now) reads.items) }
    ensures grown { IsGrown names.old names.new }
{
    let mut reads = Vec::with_capacity(alloc, notes.len())?;
    for note in notes {
        push_note(names, note, &mut reads)?;
    }
    Ok(reads)
}

// Puts the cells of a column in these rows last.
fn push_cells(
    column: ColumnNumber,
    rows: &[u32],
    reads: &mut Vec<ReadNumber>,
) -> Result<(), AllocError>
    ensures { OnOk result (reads.new.items
        ≡ reads.old.items ++ map (λ r. ReadNumber.Cell (cell_with column r)) rows.now) }
{
    for row in rows {
        reads.push(ReadNumber::Cell(CellNumber { column, row: *row }))?;
    }
    Ok(())
}

fn push_more(
    names: &mut NameNumbers,
    table: &Name,
    column: &Name,
    rows: &[u32],
    reads: &mut Vec<ReadNumber>,
) -> Result<(), AllocError>
    ensures ok { (done : List Source) → AreNumbers names.old done reads.old.items → OnOk result
        (AreNumbers names.new (done ++ sources (more_cells table.now column.now rows.now))
        reads.new.items) }
    ensures grown { IsGrown names.old names.new }
{
    let column = column_number(names, table, column)?;
    push_cells(column, rows, reads)
}

fn push_after(
    names: &mut NameNumbers,
    note: &Note,
    rows: &[u32],
    reads: &mut Vec<ReadNumber>,
) -> Result<(), AllocError>
    ensures ok { (done : List Source) → AreNumbers names.old done reads.old.items → OnOk result
        (AreNumbers names.new (done ++ sources (notes_after note.now rows.now)) reads.new.items) }
    ensures grown { IsGrown names.old names.new }
{
    match note {
        Note::Read(Read::Cell(cell)) => push_more(names, &cell.table, &cell.column, rows, reads),
        _ => Ok(()),
    }
}

fn push_run(
    names: &mut NameNumbers,
    run: &NoteRun,
    reads: &mut Vec<ReadNumber>,
) -> Result<(), AllocError>
    ensures ok { (done : List Source) → AreNumbers names.old done reads.old.items → OnOk result
        (AreNumbers names.new (done ++ sources (notes_of run.now)) reads.new.items) }
    ensures grown { IsGrown names.old names.new }
{
    push_note(names, &run.note, reads)?;
    push_after(names, &run.note, run.more.as_slice(), reads)
}

/// The same of notes that stand together.
///
/// Errors: out of memory; what had a number keeps it.
pub(crate) fn run_numbers(
    names: &mut NameNumbers,
    alloc: Global,
    runs: &[NoteRun],
) -> Result<Vec<ReadNumber>, AllocError>
    ensures ok { IfOk result
        (λ reads. AreNumbers names.new (sources (notes_in runs.now)) reads.items) }
    ensures grown { IsGrown names.old names.new }
{
    let mut reads = Vec::with_capacity(alloc, runs.len())?;
    for run in runs {
        push_run(names, run, &mut reads)?;
    }
    Ok(reads)
}
