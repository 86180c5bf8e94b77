//! Lookups: what is read before the values of keys, and which rows are found.

ghost use Rattle.std.specs.Prelude.{◌≡◌, ◌++◌, ◌∷◌, [], ℕ, List, true, IfOk, OnOk, OnErr, Err, map};
ghost use Rattle.std.specs.List.{list_all};
ghost use Rattle.formula_parse.specs.Tree.{keys_from};
ghost use Rattle.formula_eval.specs.Lookup.{all_rows, found, found_out, columns_of, given, is_key_column, key_notes, matched, met, opened};
ghost use Rattle.formula_eval.specs.Run.{Out};
ghost use Rattle.formula_eval.specs.Eval.{forms_of};
ghost use Rattle.formula_eval.specs.Asked.{IsMatching};
ghost use Rattle.formula_eval.specs.Halted.{Comes, ComesAs, IsOut};

use crate::attribute::is_id;
use crate::halt::Halt;
use crate::{CellReader, CellSource, Matching, NoteKeeper};
use cell_types::{CellValue, ErrKind, KeyList, Name, RowList, RowRef, RowSet};
use formula_parse::{LookupKey, LookupKeyList, LookupKind};
use std::alloc::{AllocError, Global};

/// All rows of a table.
pub(crate) fn all_rows<R: CellReader, N: NoteKeeper>(
    alloc: Global,
    reader: &R,
    table: &Name,
    notes: &mut N,
) -> Result<CellValue, Halt>
    ensures { Comes result (N.noted notes.old) (N.noted notes.new)
        (all_rows (R.told reader.now) table.now) }
{
    notes.rows(table)?;
    notes.all(table)?;
    match reader.rows(table) {
        Some(rows) => Ok(all_of(alloc, table, rows)?),
        None => Err(Halt::Raised(ErrKind::Name)),
    }
}

fn all_of(alloc: Global, table: &Name, rows: &[u32]) -> Result<CellValue, AllocError>
    ensures { IfOk result
        (λ v. v ≡ CellValue.RecSet (record { table = table.now; rows = rows.now })) }
{
    let rows = RowList::from(Vec::from_slice(alloc, rows)?);
    let table = table.clone()?;
    Ok(CellValue::RecSet(RowSet { table, rows }))
}

/// What a lookup gives of the rows that meet its keys, which are noted.
pub(crate) fn found<R: CellReader, N: NoteKeeper>(
    alloc: Global,
    reader: &R,
    kind: LookupKind,
    table: &Name,
    keys: KeyList,
    notes: &mut N,
) -> Result<CellValue, Halt>
    ensures { Comes result (N.noted notes.old) (N.noted notes.new)
        (given kind table.now (met (R.told reader.now) table.now keys)) }
{
    let matching = reader.matching(alloc, table, &keys);
    match notes.met(table, keys) {
        Ok(()) => of_matching(kind, table, matching?),
        Err(_) => {
            drop(matching);
            Err(Halt::NoMemory)
        }
    }
}

fn of_matching(kind: LookupKind, table: &Name, matching: Matching) -> Result<CellValue, Halt>
    ensures { (o : Out (List ℕ))
        → IsMatching matching o → IsOut result (found_out kind table.now o) }
{
    match matching {
        Matching::Rows(rows) => Ok(of_rows(kind, table, rows)?),
        Matching::NoTable => Err(Halt::Raised(ErrKind::Name)),
        Matching::NoColumn => Err(Halt::Raised(ErrKind::Key)),
        Matching::Circular => Err(Halt::Circular),
        Matching::Need(cell) => Err(Halt::Need(cell)),
    }
}

fn of_rows(kind: LookupKind, table: &Name, rows: RowList) -> Result<CellValue, AllocError>
    ensures { IfOk result (λ v. v ≡ found kind table.now rows) }
{
    let table = table.clone()?;
    match kind {
        LookupKind::Records => Ok(CellValue::RecSet(RowSet { table, rows })),
        LookupKind::One => {
            let row = match rows.as_slice().first() {
                Some(row) => *row,
                None => 0,
            };
            Ok(CellValue::Rec(RowRef { table, row }))
        }
    }
}

/// Whether the table has the column as a key.
pub(crate) fn is_key_column<S: CellSource>(reader: &S, table: &Name, column: &Name) -> bool
    ensures { result ≡ is_key_column (S.told reader.now) table.now column.now }
{
    is_id(column) || reader.ty(table, column).is_some()
}

/// The reads and tests of a lookup before its keys' values.
pub(crate) fn open<R: CellReader, N: NoteKeeper>(
    reader: &R,
    table: &Name,
    keys: &LookupKeyList,
    notes: &mut N,
) -> Result<(), Halt>
    ensures { ComesAs (λ u. true) result (N.noted notes.old) (N.noted notes.new)
        (opened (R.told reader.now) table.now (columns_of (forms_of (keys_from keys.now)))) }
{
    open_keys(reader, table, keys.as_slice(), notes)
}

fn open_keys<R: CellReader, N: NoteKeeper>(
    reader: &R,
    table: &Name,
    keys: &[LookupKey],
    notes: &mut N,
) -> Result<(), Halt>
    ensures { ComesAs (λ u. true) result (N.noted notes.old) (N.noted notes.new)
        (opened (R.told reader.now) table.now (map (λ k. k.name) keys.now)) }
{
    notes.rows(table)?;
    if reader.rows(table).is_none() {
        return Err(Halt::Raised(ErrKind::Name));
    }
    note_keys(table, keys, notes)?;
    if has_columns(reader, table, keys) {
        Ok(())
    } else {
        Err(Halt::Raised(ErrKind::Key))
    }
}

fn note_keys<N: NoteKeeper>(
    table: &Name,
    keys: &[LookupKey],
    notes: &mut N,
) -> Result<(), AllocError>
    ensures { OnOk result (N.noted notes.new
        ≡ N.noted notes.old ++ key_notes table.now (map (λ k. k.name) keys.now)) }
{
    for key in keys {
        notes.key(table, &key.name)?;
    }
    Ok(())
}

fn has_columns<R: CellReader>(reader: &R, table: &Name, keys: &[LookupKey]) -> bool
    ensures { result ≡
        list_all (λ c. is_key_column (R.told reader.now) table.now c) (map (λ k. k.name) keys.now) }
{
    for key in keys {
        if !is_key_column(reader, table, &key.name) {
            return false;
        }
    }
    true
}
