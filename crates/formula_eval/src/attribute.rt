//! Attributes of records and sets of records, and what may stand in a list.

ghost use Rattle.std.specs.Prelude.{◌≡◌, ◌++◌, ◌∷◌, [], None, Some, IfOk, MatchOption, ◌≤◌, List, length, map, take};
ghost use Rattle.cell_types.specs.Reference.{row_items};
ghost use Rattle.value_ops.specs.Joined.{bounded_list};
ghost use Rattle.formula_parse.specs.Lexemes.{is_id, id_word};
ghost use Rattle.formula_eval.specs.declared.note.Note.{Note};
ghost use Rattle.formula_eval.specs.Asked.{read_note, told_at, told_of};
ghost use Rattle.formula_eval.specs.Reader.{Reader, cell_at};
ghost use Rattle.formula_eval.specs.Run.{done, out_of, collect};
ghost use Rattle.formula_eval.specs.Reading.{read_cell};
ghost use Rattle.formula_eval.specs.Attribute.{item_of, as_item, listed, column_runs, attribute_of};
ghost use Rattle.formula_eval.specs.Halted.{Comes, ComesAs, IsOut, IsOutAs};

use crate::halt::Halt;
use crate::reading::{read_cell, told_value};
use crate::{CellReader, NoteKeeper, Reading};
use cell_types::{CellItem, CellList, CellValue, ColType, ErrKind, Name, RowRef, RowSet};
use std::alloc::{AllocError, Global};
use value_ops::MAX_JOINED_ITEMS;

/// Whether the name is `id`.
#[tactic(auto, unfolding(formula_parse::specs::Lexemes::id_word))]
pub(crate) fn is_id(name: &Name) -> bool
    ensures { result ≡ is_id name.now }
{
    name.as_str() == "id"
}

/// The value as an item of a list.
pub(crate) fn item_of(value: CellValue) -> Result<CellItem, Halt>
    ensures { IsOutAs (λ i. i) result (item_of value) }
{
    match value {
        CellValue::Null => Ok(CellItem::Null),
        CellValue::Int(number) => Ok(CellItem::Int(number)),
        CellValue::Bool(truth) => Ok(CellItem::Bool(truth)),
        CellValue::Text(text) => Ok(CellItem::Text(text)),
        CellValue::Date(seconds) => Ok(CellItem::Date(seconds)),
        CellValue::Rec(row) => Ok(CellItem::Rec(row)),
        other => {
            drop(other);
            Err(Halt::Raised(ErrKind::WrongType))
        }
    }
}

/// A list, where it is within the bound.
pub(crate) fn list_value(items: Vec<CellItem>) -> Result<CellValue, Halt>
    ensures { IsOut result (out_of (bounded_list items.items)) }
{
    if items.len() > MAX_JOINED_ITEMS {
        drop(items);
        return Err(Halt::Raised(ErrKind::Overflow));
    }
    Ok(CellValue::List(CellList::from(items)))
}

/// An attribute of a value.
pub(crate) fn attribute<R: CellReader, N: NoteKeeper>(
    alloc: Global,
    reader: &R,
    name: &Name,
    value: &CellValue,
    notes: &mut N,
) -> Result<CellValue, Halt>
    ensures { Comes result (N.noted notes.old) (N.noted notes.new)
        (attribute_of (R.told reader.now) name.now value.now) }
{
    match value {
        CellValue::Rec(row) => record_attribute(alloc, reader, name, row, notes),
        CellValue::RecSet(set) => set_attribute(alloc, reader, name, set, notes),
        _ => Err(Halt::Raised(ErrKind::Attribute)),
    }
}

/// An attribute of a record.
pub(crate) fn record_attribute<R: CellReader, N: NoteKeeper>(
    alloc: Global,
    reader: &R,
    name: &Name,
    row: &RowRef,
    notes: &mut N,
) -> Result<CellValue, Halt>
    ensures { Comes result (N.noted notes.old) (N.noted notes.new)
        (attribute_of (R.told reader.now) name.now (CellValue.Rec row.now)) }
{
    if is_id(name) {
        return Ok(CellValue::Int(i64::from(row.row)));
    }
    read_cell(alloc, reader, &row.table, name, row.row, notes)
}

fn set_attribute<R: CellReader, N: NoteKeeper>(
    alloc: Global,
    reader: &R,
    name: &Name,
    set: &RowSet,
    notes: &mut N,
) -> Result<CellValue, Halt>
    ensures { Comes result (N.noted notes.old) (N.noted notes.new)
        (attribute_of (R.told reader.now) name.now (CellValue.RecSet set.now)) }
{
    if is_id(name) {
        return list_value(row_items(alloc, set.rows.as_slice())?);
    }
    list_value(column_items(alloc, reader, &set.table, name, set.rows.as_slice(), notes)?)
}

fn row_items(alloc: Global, rows: &[u32]) -> Result<Vec<CellItem>, AllocError>
    ensures { IfOk result (λ v. v.items ≡ row_items rows.now) }
{
    rows.iter()
        .map(|row| CellItem::Int(i64::from(*row)))
        .collect(alloc)
}

// The items of a column in these rows.
fn column_items<R: CellReader, N: NoteKeeper>(
    alloc: Global,
    reader: &R,
    table: &Name,
    column: &Name,
    rows: &[u32],
    notes: &mut N,
) -> Result<Vec<CellItem>, Halt>
    ensures { ComesAs (λ v. v.items) result (N.noted notes.old) (N.noted notes.new)
        (collect (map as_item (column_runs (R.told reader.now) table.now column.now rows.now))) }
{
    let ty = reader.ty(table, column);
    let told = reader.cells(alloc, table, column, rows)?;
    read_items(alloc, table, column, ty, rows, &told, notes)
}

// The same, where the type of the column and what is told of the cells are at hand.
fn read_items<N: NoteKeeper>(
    alloc: Global,
    table: &Name,
    column: &Name,
    ty: Option<&ColType>,
    rows: &[u32],
    told: &[Reading<'_>],
    notes: &mut N,
) -> Result<Vec<CellItem>, Halt>
    requires { length told.now ≡ length rows.now }
    ensures { (reader : Reader)
        → MatchOption ty.entry (reader.kind table.now column.now ≡ None)
        (λ ty. reader.kind table.now column.now ≡ Some ty.now)
        → map told_of told.now ≡ map (told_at reader table.now column.now) rows.now
        → ComesAs (λ v. v.items) result (N.noted notes.old) (N.noted notes.new)
        (collect (map as_item (column_runs reader table.now column.now rows.now))) }
{
    let mut count = 0;
    let items = items_told(alloc, table, column, ty, rows, told, &mut count);
    match notes.cells(table, column, &rows[..count]) {
        Ok(()) => items,
        Err(_) => {
            drop(items);
            Err(Halt::NoMemory)
        }
    }
}

// The items of the cells, and how many cells are read for them: none behind the first one that
// halts.
fn items_told(
    alloc: Global,
    table: &Name,
    column: &Name,
    ty: Option<&ColType>,
    rows: &[u32],
    told: &[Reading<'_>],
    count: &mut usize,
) -> Result<Vec<CellItem>, Halt>
    requires told { length told.now ≡ length rows.now }
    requires count { count.old ≡ 0 }
    ensures count { count.new ≤ length rows.now }
    ensures items { (reader : Reader)
        → MatchOption ty.entry (reader.kind table.now column.now ≡ None)
        (λ ty. reader.kind table.now column.now ≡ Some ty.now)
        → map told_of told.now ≡ map (told_at reader table.now column.now) rows.now
        → ComesAs (λ v. v.items) result []
        (map (read_note table.now column.now) (take count.new rows.now))
        (collect (map as_item (column_runs reader table.now column.now rows.now))) }
{
    let mut items = Vec::with_capacity(alloc, rows.len())?;
    for (index, row) in rows.iter().enumerate() {
        *count = index + 1;
        let item = item_told(alloc, table, column, ty, *row, &told[index])?;
        items.push(item)?;
    }
    Ok(items)
}

fn item_told(
    alloc: Global,
    table: &Name,
    column: &Name,
    ty: Option<&ColType>,
    row: u32,
    told: &Reading<'_>,
) -> Result<CellItem, Halt>
    ensures { (reader : Reader) (old : List Note)
        → MatchOption ty.entry (reader.kind table.now column.now ≡ None)
        (λ ty. reader.kind table.now column.now ≡ Some ty.now)
        → told_of told.now ≡ told_at reader table.now column.now row
        → ComesAs (λ i. i) result old (old ++ read_note table.now column.now row ∷ [])
        (as_item (read_cell reader (cell_at table.now column.now row))) }
{
    item_of(told_value(alloc, table, column, ty, row, told)?)
}
