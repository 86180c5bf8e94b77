//! The reads of cells.

ghost use Rattle.std.specs.Prelude.{List, ◌≡◌, ◌++◌, ◌∷◌, [], Err, None, Some, IfOk, MatchOption, OnOk, OnErr, option_map, ⊤};
ghost use Rattle.cell_types.specs.Conversion.{default_value};
ghost use Rattle.cell_types.specs.Reference.{row_number, no_zero};
ghost use Rattle.formula_eval.specs.declared.note.Note.{Note};
ghost use Rattle.formula_eval.specs.Asked.{read_note, told_at, told_of};
ghost use Rattle.formula_eval.specs.Reader.{Reader, cell_at};
ghost use Rattle.formula_eval.specs.Run.{done};
ghost use Rattle.formula_eval.specs.Reading.{as_read, as_record, as_records, read_cell, row_of_item, rows_of_items, value_out};
ghost use Rattle.formula_eval.specs.Halted.{Comes, IsOut};

use crate::halt::Halt;
use crate::{CellReader, NoteKeeper, Reading};
use cell_types::{
    CellId, CellItem, CellValue, ColType, ErrKind, Name, RowList, RowRef, RowSet, default_of,
};
use std::alloc::{AllocError, Global};

pub(crate) fn cell_id(table: &Name, column: &Name, row: u32) -> Result<CellId, AllocError>
    ensures { IfOk result (λ c. c ≡ cell_at table.now column.now row) }
{
    let table = table.clone()?;
    let column = column.clone()?;
    Ok(CellId { table, column, row })
}

/// The value of a cell, as a formula reads it.
pub(crate) fn read_cell<R: CellReader, N: NoteKeeper>(
    alloc: Global,
    reader: &R,
    table: &Name,
    column: &Name,
    row: u32,
    notes: &mut N,
) -> Result<CellValue, Halt>
    ensures { Comes result (N.noted notes.old) (N.noted notes.new)
        (read_cell (R.told reader.now) (cell_at table.now column.now row)) }
{
    notes.cell(table, column, row)?;
    let ty = reader.ty(table, column);
    let told = reader.cell(table, column, row);
    told_value(alloc, table, column, ty, row, &told)
}

/// The same, where the type of the column and what is told of the cell are at hand, and the read
/// is noted elsewhere.
pub(crate) fn told_value(
    alloc: Global,
    table: &Name,
    column: &Name,
    ty: Option<&ColType>,
    row: u32,
    told: &Reading<'_>,
) -> Result<CellValue, Halt>
    ensures { (reader : Reader) (old : List Note)
        → MatchOption ty.entry (reader.kind table.now column.now ≡ None)
        (λ ty. reader.kind table.now column.now ≡ Some ty.now)
        → told_of told.now ≡ told_at reader table.now column.now row
        → Comes result old (old ++ read_note table.now column.now row ∷ [])
        (read_cell reader (cell_at table.now column.now row)) }
{
    match told {
        Reading::Need => Err(Halt::Need(cell_id(table, column, row)?)),
        Reading::Known(CellValue::Err(ErrKind::Circular)) => Err(Halt::Circular),
        Reading::Known(value) => match ty {
            Some(ty) => known(alloc, ty, value),
            None => Err(Halt::Raised(ErrKind::Attribute)),
        },
        Reading::NoRow => match ty {
            Some(ty) => Ok(default_read(alloc, ty)?),
            None => Err(Halt::Raised(ErrKind::Attribute)),
        },
        Reading::NoTable | Reading::NoColumn => Err(Halt::Raised(ErrKind::Attribute)),
    }
}

fn known(alloc: Global, ty: &ColType, value: &CellValue) -> Result<CellValue, Halt>
    ensures { IsOut result (value_out ty.now value.now) }
{
    match value {
        CellValue::Err(kind) => Err(Halt::Raised(*kind)),
        _ => Ok(as_read(alloc, ty, value)?),
    }
}

fn default_read(alloc: Global, ty: &ColType) -> Result<CellValue, AllocError>
    ensures { IfOk result (λ v. v ≡ as_read ty.now (default_value ty.now)) }
{
    let value = default_of(ty);
    as_read(alloc, ty, &value)
}

/// What a cell of a column of the type holds, as it is read: records in place of their numbers.
///
/// Memory: the value.
pub fn as_read(alloc: Global, ty: &ColType, value: &CellValue) -> Result<CellValue, AllocError>
    ensures { IfOk result (λ v. v ≡ as_read ty.now value.now) }
{
    match ty {
        ColType::Ref(table) => as_record(table, value),
        ColType::RefList(table) => as_records(alloc, table, value),
        _ => value.clone(),
    }
}

/// The row id that a number is, where it is one.
pub(crate) fn row_number(number: i64) -> Option<u32>
    ensures { result ≡ row_number number }
{
    u32::try_from(number).ok()
}

fn as_record(table: &Name, value: &CellValue) -> Result<CellValue, AllocError>
    ensures { IfOk result (λ v. v ≡ as_record table.now value.now) }
{
    match value {
        CellValue::Int(number) => match row_number(*number) {
            Some(row) => {
                let table = table.clone()?;
                Ok(CellValue::Rec(RowRef { table, row }))
            }
            None => Ok(CellValue::Int(*number)),
        },
        _ => value.clone(),
    }
}

fn as_records(alloc: Global, table: &Name, value: &CellValue) -> Result<CellValue, AllocError>
    ensures { IfOk result (λ v. v ≡ as_records table.now value.now) }
{
    match value {
        CellValue::Null => row_set(table, Vec::new(alloc)),
        CellValue::List(items) => match rows_of(alloc, items.as_slice())? {
            Some(rows) => row_set(table, rows),
            None => value.clone(),
        },
        _ => value.clone(),
    }
}

fn row_set(table: &Name, rows: Vec<u32>) -> Result<CellValue, AllocError>
    ensures { IfOk result
        (λ v. v ≡ CellValue.RecSet (record { table = table.now; rows = rows.items })) }
{
    let table = table.clone()?;
    let rows = RowList::from(rows);
    Ok(CellValue::RecSet(RowSet { table, rows }))
}

// The row that an item says by its number.
fn row_of(item: &CellItem) -> Option<u32>
    ensures { result ≡ row_of_item item.now }
{
    let CellItem::Int(number) = item else {
        return None;
    };
    let row = row_number(*number)?;
    if row == 0 { None } else { Some(row) }
}

// The rows that the items say, where each of them says one.
fn rows_of(alloc: Global, items: &[CellItem]) -> Result<Option<Vec<u32>>, AllocError>
    ensures { IfOk result (λ o. option_map (λ v. v.items) o ≡ rows_of_items items.now) }
{
    let mut rows = Vec::with_capacity(alloc, items.len())?;
    for item in items {
        match row_of(item) {
            Some(row) => rows.push(row)?,
            None => return Ok(None),
        }
    }
    Ok(Some(rows))
}
