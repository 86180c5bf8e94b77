//! Lookups over any source of cells, by a look at every key's cell in every row.

ghost use Rattle.std.specs.Prelude.{◌≡◌, ◌&&◌, ◌∷◌, ℕ, Bool, List, IfOk, map, reverse};
ghost use Rattle.std.specs.List.{list_all, list_any};
ghost use Rattle.cell_types.specs.Item.{value_of_item};
ghost use Rattle.formula_eval.specs.Asked.{IsMatching};
ghost use Rattle.value_ops.specs.Equality.{is_row_of};
ghost use Rattle.formula_eval.specs.Lookup.{agrees, holds, is_key_column, kept_row, key_met, matched, meets, row_met, scan, told_meets, value_meets};
ghost use Rattle.formula_eval.specs.Reader.{known};
ghost use Rattle.formula_eval.specs.Reading.{as_record};
ghost use Rattle.formula_eval.specs.Run.{Out, both, gives};
ghost use Rattle.formula_eval.specs.Scanned.{IsMet, IsScanned};

use crate::attribute::is_id;
use crate::lookup::is_key_column;
use crate::reading::{as_read, cell_id, row_number};
use crate::{CellSource, Matching, Reading};
use cell_types::{
    CellId, CellItem, CellValue, ColType, ErrKind, KeyItem, KeyList, Name, RowList, RowSet, Same,
};
use std::alloc::{AllocError, Global};
use value_ops::{equal, item_equals};

/// Whether a row meets keys.
#[derive(Drop)]
pub(crate) enum Met {
    Yes,
    No,
    Circular,
    Need(CellId),
}

/// Which rows meet keys, the last of them first.
#[derive(Drop)]
pub(crate) enum Scanned {
    Rows(Vec<u32>),
    Circular,
    Need(CellId),
}

fn is_row_of(held: &CellValue, wanted: &CellValue) -> bool
    ensures { result ≡ is_row_of held.now wanted.now }
{
    match (held, wanted) {
        (CellValue::Rec(row), CellValue::Int(number)) => *number == i64::from(row.row),
        _ => false,
    }
}

fn agrees(held: &CellValue, wanted: &CellValue) -> bool
    ensures { result ≡ agrees held.now wanted.now }
{
    equal(wanted, held) || is_row_of(held, wanted)
}

fn item_agrees(item: &CellItem, wanted: &CellValue) -> bool
    ensures { result ≡ agrees (value_of_item item.now) wanted.now }
{
    item_equals(item, wanted) || is_item_row(item, wanted)
}

fn is_item_row(item: &CellItem, wanted: &CellValue) -> bool
    ensures { result ≡ is_row_of (value_of_item item.now) wanted.now }
{
    match (item, wanted) {
        (CellItem::Rec(row), CellValue::Int(number)) => *number == i64::from(row.row),
        _ => false,
    }
}

fn row_agrees(table: &Name, row: u32, wanted: &CellValue) -> bool
    ensures { result ≡ agrees (CellValue.Rec (record { table = table.now; row = row })) wanted.now }
{
    match wanted {
        CellValue::Rec(other) => other.row == row && other.table.same_as(table),
        CellValue::Int(number) => *number == i64::from(row),
        _ => false,
    }
}

fn holds(held: &CellValue, wanted: &CellValue) -> bool
    ensures { result ≡ holds held.now wanted.now }
{
    match held {
        CellValue::List(items) => any_agrees(items.as_slice(), wanted),
        CellValue::RecSet(set) => set_holds(set, wanted),
        _ => false,
    }
}

fn any_agrees(items: &[CellItem], wanted: &CellValue) -> bool
    ensures { result ≡ list_any (λ i. agrees (value_of_item i) wanted.now) items.now }
{
    items.iter().any(|item| item_agrees(item, wanted))
}

fn set_holds(set: &RowSet, wanted: &CellValue) -> bool
    ensures { result ≡ holds (CellValue.RecSet set.now) wanted.now }
{
    let rows = set.rows.as_slice();
    rows.iter().any(|row| row_agrees(&set.table, *row, wanted))
}

fn meets(key: &KeyItem, held: &CellValue) -> bool
    ensures { result ≡ meets key.now held.now }
{
    if key.contains {
        holds(held, &key.value)
    } else {
        agrees(held, &key.value)
    }
}

fn value_meets(key: &KeyItem, held: &CellValue) -> bool
    ensures { result ≡ value_meets key.now held.now }
{
    match held {
        CellValue::Err(_) => false,
        _ => meets(key, held),
    }
}

// Whether a cell of a column of references meets the key, as it is read.
fn reference_meets(key: &KeyItem, table: &Name, value: &CellValue) -> bool
    ensures { result ≡ value_meets key.now (as_record table.now value.now) }
{
    let CellValue::Int(number) = value else {
        return value_meets(key, value);
    };
    match row_number(*number) {
        Some(row) => !key.contains && row_agrees(table, row, &key.value),
        None => value_meets(key, value),
    }
}

// Whether a cell of a column of the type meets the key, as it is read. Only a list of references is
// copied for that.
fn is_met(alloc: Global, key: &KeyItem, ty: &ColType, value: &CellValue) -> Result<bool, AllocError>
    ensures { IfOk result (λ met. met ≡ told_meets key.now (Some ty.now) (known value.now)) }
{
    match ty {
        ColType::Ref(table) => Ok(reference_meets(key, table, value)),
        ColType::RefList(_) => {
            let read = as_read(alloc, ty, value)?;
            Ok(value_meets(key, &read))
        }
        _ => Ok(value_meets(key, value)),
    }
}

fn type_of<S: CellSource>(
    source: &S,
    table: &Name,
    column: &Name,
) -> Result<Option<ColType>, AllocError>
    ensures { IfOk result (λ ty. ty ≡ (S.told source.now).kind table.now column.now) }
{
    match source.ty(table, column) {
        Some(ty) => Ok(Some(ty.clone()?)),
        None => Ok(None),
    }
}

// The types of the keys' columns, which are the same for each row.
fn types_of<S: CellSource>(
    alloc: Global,
    source: &S,
    table: &Name,
    keys: &[KeyItem],
) -> Result<Vec<Option<ColType>>, AllocError>
    ensures { IfOk result (λ types. types.items
        ≡ map (λ k. (S.told source.now).kind table.now k.column) keys.now) }
{
    let mut types = Vec::with_capacity(alloc, keys.len())?;
    for key in keys {
        let ty = type_of(source, table, &key.column)?;
        types.push(ty)?;
    }
    Ok(types)
}

fn met_if(met: bool) -> Met
    ensures { IsMet result (gives met) }
{
    if met { Met::Yes } else { Met::No }
}

// Whether a row meets a key, whose column has the type. The row is its own cell in `id`.
fn key_met<S: CellSource>(
    alloc: Global,
    source: &S,
    table: &Name,
    row: u32,
    key: &KeyItem,
    ty: &Option<ColType>,
) -> Result<Met, AllocError>
    requires { ty.now ≡ (S.told source.now).kind table.now key.now.column }
    ensures { IfOk result
        (λ met. IsMet met (key_met (S.told source.now) table.now row key.now)) }
{
    if is_id(&key.column) {
        return Ok(met_if(meets(key, &CellValue::Int(i64::from(row)))));
    }
    match source.cell(table, &key.column, row) {
        Reading::Need => Ok(Met::Need(cell_id(table, &key.column, row)?)),
        Reading::Known(CellValue::Err(ErrKind::Circular)) => Ok(Met::Circular),
        Reading::Known(value) => match ty {
            Some(ty) => Ok(met_if(is_met(alloc, key, ty, value)?)),
            None => Ok(Met::No),
        },
        Reading::NoTable | Reading::NoColumn | Reading::NoRow => Ok(Met::No),
    }
}

#[tactic(auto, using(crate::proofs::Scans::circular_left, crate::proofs::Scans::circular_right, crate::proofs::Scans::need_left, crate::proofs::Scans::need_right, crate::proofs::Scans::named_not, crate::proofs::Scans::given_not))]
fn both_met(left: Met, right: Met) -> Met
    ensures { (o p : Out Bool) → IsMet left o → IsMet right p → IsMet result (both ◌&&◌ o p) }
{
    match (left, right) {
        (Met::Circular, other) | (other, Met::Circular) => {
            drop(other);
            Met::Circular
        }
        (Met::Need(cell), other) | (other, Met::Need(cell)) => {
            drop(other);
            Met::Need(cell)
        }
        (Met::Yes, Met::Yes) => Met::Yes,
        _ => Met::No,
    }
}

// Whether a row meets all keys; each key's cell is looked at.
fn row_met<S: CellSource>(
    alloc: Global,
    source: &S,
    table: &Name,
    row: u32,
    keys: &[KeyItem],
    types: &[Option<ColType>],
) -> Result<Met, AllocError>
    requires { types.now ≡ map (λ k. (S.told source.now).kind table.now k.column) keys.now }
    ensures { IfOk result
        (λ met. IsMet met (row_met (S.told source.now) table.now row keys.now)) }
{
    let Some((key, rest)) = keys.split_first() else {
        return Ok(Met::Yes);
    };
    let Some((ty, types)) = types.split_first() else {
        unreachable!();
    };
    let first = key_met(alloc, source, table, row, key, ty)?;
    match row_met(alloc, source, table, row, rest, types) {
        Ok(others) => Ok(both_met(first, others)),
        Err(error) => {
            drop(first);
            Err(error)
        }
    }
}

// The row before the others, where it meets the keys.
#[tactic(auto, using(crate::proofs::Scans::circular_left, crate::proofs::Scans::circular_right, crate::proofs::Scans::need_left, crate::proofs::Scans::need_right, crate::proofs::Scans::named_not, crate::proofs::Scans::given_not))]
fn kept(row: u32, met: Met, found: Scanned) -> Result<Scanned, AllocError>
    ensures { IfOk result (λ next. (o : Out Bool) (p : Out (List ℕ))
        → IsMet met o → IsScanned found p → IsScanned next (both (kept_row row) o p)) }
{
    match (met, found) {
        (Met::Circular, other) => {
            drop(other);
            Ok(Scanned::Circular)
        }
        (other, Scanned::Circular) => {
            drop(other);
            Ok(Scanned::Circular)
        }
        (Met::Need(cell), other) => {
            drop(other);
            Ok(Scanned::Need(cell))
        }
        (_, Scanned::Need(cell)) => Ok(Scanned::Need(cell)),
        (Met::Yes, Scanned::Rows(rows)) => Ok(Scanned::Rows(with_row(rows, row)?)),
        (Met::No, Scanned::Rows(rows)) => Ok(Scanned::Rows(rows)),
    }
}

fn with_row(rows: Vec<u32>, row: u32) -> Result<Vec<u32>, AllocError>
    ensures { IfOk result (λ more. reverse more.items ≡ row ∷ reverse rows.items) }
{
    let mut rows = rows;
    rows.push(row)?;
    Ok(rows)
}

// The rows that meet the keys, from the last one on.
fn scan_rows<S: CellSource>(
    alloc: Global,
    source: &S,
    table: &Name,
    keys: &[KeyItem],
    rows: &[u32],
) -> Result<Scanned, AllocError>
    ensures { IfOk result
        (λ found. IsScanned found (scan (S.told source.now) table.now keys.now rows.now)) }
{
    let types = types_of(alloc, source, table, keys)?;
    let mut found = Scanned::Rows(Vec::new(alloc));
    let mut index = rows.len();
    while index > 0 {
        index -= 1;
        let row = rows[index];
        let met = row_met(alloc, source, table, row, keys, &types)?;
        found = kept(row, met, found)?;
    }
    Ok(found)
}

fn has_key_columns<S: CellSource>(source: &S, table: &Name, keys: &[KeyItem]) -> bool
    ensures { result
        ≡ list_all (λ k. is_key_column (S.told source.now) table.now k.column) keys.now }
{
    keys.iter()
        .all(|key| is_key_column(source, table, &key.column))
}

fn as_matching(found: Scanned) -> Matching
    ensures { (o : Out (List ℕ)) → IsScanned found o → IsMatching result o }
{
    match found {
        Scanned::Rows(rows) => Matching::Rows(in_order(rows)),
        Scanned::Circular => Matching::Circular,
        Scanned::Need(cell) => Matching::Need(cell),
    }
}

fn in_order(rows: Vec<u32>) -> RowList
    ensures { result ≡ reverse rows.items }
{
    let mut rows = rows;
    rows.reverse();
    RowList::from(rows)
}

/// Which of the given rows of a table meet all the keys of a lookup.
///
/// Errors: want of memory.
/// Memory: the rows that are found, the types of the keys' columns, and a copy of each list of
/// references that is compared.
/// Cost: each key's cell in each of the rows.
pub fn scan_among<S: CellSource>(
    alloc: Global,
    source: &S,
    table: &Name,
    keys: &KeyList,
    rows: &[u32],
) -> Result<Matching, AllocError>
    ensures { IfOk result
        (λ found. IsMatching found (scan (S.told source.now) table.now keys.now rows.now)) }
{
    let found = scan_rows(alloc, source, table, keys.as_slice(), rows)?;
    Ok(as_matching(found))
}

/// The rows that meet all the keys of a lookup, for a source without an index.
///
/// Errors: want of memory.
/// Memory: the rows that are found, the types of the keys' columns, and a copy of each list of
/// references that is compared.
/// Cost: each key's cell in each row of the table.
pub fn scan<S: CellSource>(
    alloc: Global,
    source: &S,
    table: &Name,
    keys: &KeyList,
) -> Result<Matching, AllocError>
    ensures { IfOk result
        (λ found. IsMatching found (matched (S.told source.now) table.now keys.now)) }
{
    let Some(rows) = source.rows(table) else {
        return Ok(Matching::NoTable);
    };
    if !has_key_columns(source, table, keys.as_slice()) {
        return Ok(Matching::NoColumn);
    }
    scan_among(alloc, source, table, keys, rows)
}
