//! What cells read, by name, so that it can be told once the graph has something else of them.

ghost use Rattle.std.specs.Prelude.{◌≡◌, ◌∷◌, ◌++◌, [], List, Some, IfOk, OnOk, map, slice_get};
ghost use Rattle.std.specs.Option.{option_map};
ghost use Rattle.cell_types.specs.declared.cell.Read.TheVariants.{Cell, Key, Rows};
ghost use Rattle.dep_graph.specs.Names.{IsGrown, number_in};
ghost use Rattle.dep_graph.specs.Named.{of_names, source_named, source_told, sources_told, told_or_none};
ghost use Rattle.dep_graph.specs.NumberLaws.{cell_with};
ghost use Rattle.dep_graph.specs.Sources.{AreNumbers, Source, all_source, column_in, part_source, read_source, source_in, value_source};

use crate::names::NameNumbers;
use crate::noting::{column_number, read_number};
use crate::numbers::{CellNumber, ColumnNumber, ReadNumber, ValueNumber};
use cell_types::{CellId, Name, Read};
use std::alloc::{AllocError, Global};

/// What is read, by name; of a value that is looked up its bucket.
#[derive(Drop)]
pub enum NamedRead {
    Read(Read),
    All {
        table: Name,
    },
    Value {
        table: Name,
        column: Name,
        bucket: u64,
    },
    Part {
        table: Name,
        column: Name,
        bucket: u64,
    },
}

fn named_cell(
    names: &NameNumbers,
    column: ColumnNumber,
    row: u32,
) -> Result<Option<NamedRead>, AllocError>
    ensures { IfOk result (λ o. option_map source_named o
        ≡ of_names (λ t c. read_source (Cell (record { table = t; column = c; row = row })))
        (slice_get names.now column.table) (slice_get names.now column.column)) }
{
    let Some(table) = names.name(column.table) else {
        return Ok(None);
    };
    let Some(column) = names.name(column.column) else {
        return Ok(None);
    };
    let table = table.clone()?;
    let column = column.clone()?;
    Ok(Some(NamedRead::Read(Read::Cell(CellId { table, column, row }))))
}

fn named_key(names: &NameNumbers, column: ColumnNumber) -> Result<Option<NamedRead>, AllocError>
    ensures { IfOk result (λ o. option_map source_named o
        ≡ of_names (λ t c. read_source (Key t c))
        (slice_get names.now column.table) (slice_get names.now column.column)) }
{
    let Some(table) = names.name(column.table) else {
        return Ok(None);
    };
    let Some(column) = names.name(column.column) else {
        return Ok(None);
    };
    let table = table.clone()?;
    let column = column.clone()?;
    Ok(Some(NamedRead::Read(Read::Key { table, column })))
}

fn named_rows(names: &NameNumbers, table: u32) -> Result<Option<NamedRead>, AllocError>
    ensures { IfOk result (λ o. option_map source_named o
        ≡ option_map (λ t. read_source (Rows t)) (slice_get names.now table)) }
{
    let Some(table) = names.name(table) else {
        return Ok(None);
    };
    let table = table.clone()?;
    Ok(Some(NamedRead::Read(Read::Rows { table })))
}

fn named_all(names: &NameNumbers, table: u32) -> Result<Option<NamedRead>, AllocError>
    ensures { IfOk result (λ o. option_map source_named o
        ≡ option_map all_source (slice_get names.now table)) }
{
    let Some(table) = names.name(table) else {
        return Ok(None);
    };
    let table = table.clone()?;
    Ok(Some(NamedRead::All { table }))
}

fn named_value(names: &NameNumbers, value: ValueNumber) -> Result<Option<NamedRead>, AllocError>
    ensures { IfOk result (λ o. option_map source_named o
        ≡ of_names (λ t c. value_source t c value.bucket)
        (slice_get names.now value.column.table) (slice_get names.now value.column.column)) }
{
    let Some(table) = names.name(value.column.table) else {
        return Ok(None);
    };
    let Some(column) = names.name(value.column.column) else {
        return Ok(None);
    };
    let table = table.clone()?;
    let column = column.clone()?;
    let bucket = value.bucket;
    Ok(Some(NamedRead::Value {
        table,
        column,
        bucket,
    }))
}

fn named_part(names: &NameNumbers, value: ValueNumber) -> Result<Option<NamedRead>, AllocError>
    ensures { IfOk result (λ o. option_map source_named o
        ≡ of_names (λ t c. part_source t c value.bucket)
        (slice_get names.now value.column.table) (slice_get names.now value.column.column)) }
{
    let Some(table) = names.name(value.column.table) else {
        return Ok(None);
    };
    let Some(column) = names.name(value.column.column) else {
        return Ok(None);
    };
    let table = table.clone()?;
    let column = column.clone()?;
    let bucket = value.bucket;
    Ok(Some(NamedRead::Part {
        table,
        column,
        bucket,
    }))
}

// What a number stands for, where its names are there.
fn named_read(names: &NameNumbers, read: ReadNumber) -> Result<Option<NamedRead>, AllocError>
    ensures { IfOk result (λ o. option_map source_named o ≡ source_told names.now read) }
{
    match read {
        ReadNumber::Cell(CellNumber { column, row }) => named_cell(names, column, row),
        ReadNumber::Key(column) => named_key(names, column),
        ReadNumber::Rows(table) => named_rows(names, table),
        ReadNumber::All(table) => named_all(names, table),
        ReadNumber::Value(value) => named_value(names, value),
        ReadNumber::Part(value) => named_part(names, value),
    }
}

fn push_told(
    names: &NameNumbers,
    read: ReadNumber,
    told: &mut Vec<NamedRead>,
) -> Result<(), AllocError>
    ensures { OnOk result (map source_named told.new.items
        ≡ map source_named told.old.items ++ told_or_none (source_told names.now read)) }
{
    if let Some(named) = named_read(names, read)? {
        told.push(named)?;
    }
    Ok(())
}

/// What numbers stand for, in order.
///
/// Errors: out of memory.
pub(crate) fn named_reads(
    names: &NameNumbers,
    alloc: Global,
    reads: &[ReadNumber],
) -> Result<Vec<NamedRead>, AllocError>
    ensures { IfOk result
        (λ told. map source_named told.items ≡ sources_told names.now reads.now) }
{
    let mut told = Vec::with_capacity(alloc, reads.len())?;
    for read in reads {
        push_told(names, *read, &mut told)?;
    }
    Ok(told)
}

fn value_number(
    names: &mut NameNumbers,
    table: &Name,
    column: &Name,
    bucket: u64,
) -> Result<ValueNumber, AllocError>
    ensures ok { IfOk result (λ v. (column_in names.new table.now column.now ≡ Some v.column)
        × (v.bucket ≡ bucket)) }
    ensures grown { IsGrown names.old names.new }
{
    let column = column_number(names, table, column)?;
    Ok(ValueNumber { column, bucket })
}

fn named_number(names: &mut NameNumbers, read: &NamedRead) -> Result<ReadNumber, AllocError>
    ensures ok { IfOk result (λ q. source_in names.new (source_named read.now) ≡ Some q) }
    ensures grown { IsGrown names.old names.new }
{
    match read {
        NamedRead::Read(read) => read_number(names, read),
        NamedRead::All { table } => Ok(ReadNumber::All(names.add(table)?)),
        NamedRead::Value {
            table,
            column,
            bucket,
        } => Ok(ReadNumber::Value(value_number(names, table, column, *bucket)?)),
        NamedRead::Part {
            table,
            column,
            bucket,
        } => Ok(ReadNumber::Part(value_number(names, table, column, *bucket)?)),
    }
}

/// The numbers of what is told by name, in order, where names are given numbers that have none.
///
/// Errors: out of memory; what had a number keeps it.
pub(crate) fn named_numbers(
    names: &mut NameNumbers,
    alloc: Global,
    told: &[NamedRead],
) -> Result<Vec<ReadNumber>, AllocError>
    ensures ok { IfOk result
        (λ reads. AreNumbers names.new (map source_named told.now) reads.items) }
    ensures grown { IsGrown names.old names.new }
{
    let mut reads = Vec::with_capacity(alloc, told.len())?;
    for named in told {
        let number = named_number(names, named)?;
        reads.push(number)?;
    }
    Ok(reads)
}
