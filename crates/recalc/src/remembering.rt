//! The last lookup by one data column, so that the cells that look the same up need not look at
//! its rows again.

ghost use Rattle.std.specs.Prelude.{◌≡◌, ◌∷◌, [], true, false, Some, None, IfOk, IfSome, OnOk};
ghost use Rattle.std.specs.Option.{is_some};
ghost use Rattle.doc_model.specs.DocumentLaws.{IsWhole};
ghost use Rattle.formula_eval.specs.Lookup.{matched};
ghost use Rattle.formula_eval.specs.Run.{gives};
ghost use Rattle.recalc.specs.Evaluated.{sheet_of};
ghost use Rattle.recalc.specs.Indexes.{AreIndexes, index_at};
ghost use Rattle.recalc.specs.Kept.{IsKeptOf, held_at};
ghost use Rattle.recalc.specs.Remembered.{AreFound, IsRemembered, key_of};
ghost use Rattle.recalc.specs.Sheet.{Sheet, Values, over};

use crate::indexes::{ColumnIndex, find_index};
use crate::kept::KeptTable;
use crate::reading::KnownReader;
use cell_types::{CellValue, KeyItem, KeyList, Name, RowList, Same};
use doc_model::DocTables;
use formula_eval::{CellReader, Matching, Note};
use std::alloc::{AllocError, Global};
use std::mem;

/// A lookup by one data column, with the rows that it finds once it was made again.
#[derive(Drop)]
pub struct LastLookup {
    pub table: Name,
    pub column: Name,
    pub value: CellValue,
    pub rows: Option<RowList>,
}

// The key of a lookup that has one, which is not CONTAINS.
fn one_key(keys: &[KeyItem]) -> Option<&KeyItem>
    ensures { IfSome result (λ key. (keys.now ≡ key.now ∷ []) × (key.now.contains ≡ false)) }
{
    let (key, rest) = keys.split_first()?;
    if rest.is_empty() && !key.contains {
        Some(key)
    } else {
        None
    }
}

// Whether the lookup is this one.
fn is_this(last: &LastLookup, table: &Name, key: &KeyItem) -> bool
    requires { key.now.contains ≡ false }
    ensures { result ≡ true → (last.now.table ≡ table.now) × (key_of last.now ≡ key.now) }
{
    last.column.same_as(&key.column) && last.value.same_as(&key.value) && last.table.same_as(table)
}

// The rows that the last lookup found, where it is this one.
fn rows_of<'a>(last: &'a LastLookup, table: &Name, key: &KeyItem) -> Option<&'a [u32]>
    requires { key.now.contains ≡ false }
    ensures { (s : Sheet) (k : Values) → AreFound s last.now.table (key_of last.now) last.now.rows
        → IfSome result (λ rows. matched (over s k) table.now (key.now ∷ []) ≡ gives rows.now) }
{
    if !is_this(last, table, key) {
        return None;
    }
    match &last.rows {
        Some(rows) => Some(rows.as_slice()),
        None => None,
    }
}

/// The rows of a lookup, where they are remembered.
///
/// Memory: none.
pub(crate) fn remembered<'a>(
    last: &'a Option<LastLookup>,
    table: &Name,
    keys: &[KeyItem],
) -> Option<&'a [u32]>
    ensures { (s : Sheet) (k : Values) → IsRemembered s last.now
        → IfSome result (λ rows. matched (over s k) table.now keys.now ≡ gives rows.now) }
{
    let key = one_key(keys)?;
    match last {
        Some(last) => rows_of(last, table, key),
        None => None,
    }
}

// The rows that a lookup finds, where all cells that it looks at are known.
fn found_rows<D: DocTables>(
    alloc: Global,
    tables: &D,
    kept: &[KeptTable],
    indexes: &[ColumnIndex],
    table: &Name,
    keys: &KeyList,
) -> Result<Option<RowList>, AllocError>
    requires whole { IsWhole (D.document tables.now) }
    requires of_document { IsKeptOf (D.document tables.now) kept.now }
    requires indexed { AreIndexes (sheet_of (D.document tables.now)) indexes.now }
    ensures { IfOk result (λ o. IfSome o (λ rows.
        matched (over (sheet_of (D.document tables.now)) (held_at (D.document tables.now) kept.now))
        table.now keys.now ≡ gives rows)) }
{
    let reader = KnownReader {
        tables,
        kept,
        indexes,
        last: &None,
    };
    match reader.matching(alloc, table, keys)? {
        Matching::Rows(rows) => Ok(Some(rows)),
        other => {
            drop(other);
            Ok(None)
        }
    }
}

// A lookup whose rows are not remembered.
fn new_lookup(table: &Name, key: &KeyItem) -> Result<LastLookup, AllocError>
    ensures { IfOk result (λ l. l.rows ≡ None) }
{
    Ok(LastLookup {
        table: table.clone()?,
        column: key.column.clone()?,
        value: key.value.clone()?,
        rows: None,
    })
}

// The same lookup with its rows.
fn with_rows(last: LastLookup, rows: Option<RowList>) -> LastLookup
    ensures { (result.table ≡ last.table) × (key_of result ≡ key_of last) × (result.rows ≡ rows) }
{
    let mut last = last;
    last.rows = rows;
    last
}

// What is remembered after a lookup by a data column: its rows, where it was the last one before.
fn next_lookup<D: DocTables>(
    alloc: Global,
    tables: &D,
    kept: &[KeptTable],
    indexes: &[ColumnIndex],
    last: LastLookup,
    table: &Name,
    keys: &KeyList,
    key: &KeyItem,
) -> Result<LastLookup, AllocError>
    requires whole { IsWhole (D.document tables.now) }
    requires of_document { IsKeptOf (D.document tables.now) kept.now }
    requires indexed { AreIndexes (sheet_of (D.document tables.now)) indexes.now }
    requires one { keys.now ≡ key.now ∷ [] }
    requires plain { key.now.contains ≡ false }
    requires index { is_some (index_at indexes.now table.now key.now.column) ≡ true }
    ensures { IfOk result (λ l. IsRemembered (sheet_of (D.document tables.now)) (Some l)) }
{
    if !is_this(&last, table, key) {
        drop(last);
        return new_lookup(table, key);
    }
    match found_rows(alloc, tables, kept, indexes, table, keys) {
        Ok(rows) => Ok(with_rows(last, rows)),
        Err(error) => {
            drop(last);
            Err(error)
        }
    }
}

fn remember_lookup<D: DocTables>(
    alloc: Global,
    tables: &D,
    kept: &[KeptTable],
    indexes: &[ColumnIndex],
    last: &mut Option<LastLookup>,
    table: &Name,
    keys: &KeyList,
) -> Result<(), AllocError>
    requires whole { IsWhole (D.document tables.now) }
    requires of_document { IsKeptOf (D.document tables.now) kept.now }
    requires indexed { AreIndexes (sheet_of (D.document tables.now)) indexes.now }
    requires remembered { IsRemembered (sheet_of (D.document tables.now)) last.old }
    ensures { OnOk result (IsRemembered (sheet_of (D.document tables.now)) last.new) }
{
    let Some(key) = one_key(keys.as_slice()) else {
        return Ok(());
    };
    if remembered(&*last, table, keys.as_slice()).is_some()
        || find_index(indexes, table, &key.column).is_none()
    {
        return Ok(());
    }
    let next = match mem::replace(last, None) {
        Some(before) => next_lookup(alloc, tables, kept, indexes, before, table, keys, key)?,
        None => new_lookup(table, key)?,
    };
    *last = Some(next);
    Ok(())
}

/// Remembers the lookup that a run noted, where it is by one data column that has an index: its
/// rows too, where it is the lookup that was remembered before.
///
/// Errors: out of memory. Memory: the value that was looked up, and the rows. Cost: that of the
/// lookup, where it is made for the second time.
pub fn remember<D: DocTables>(
    alloc: Global,
    tables: &D,
    kept: &[KeptTable],
    indexes: &[ColumnIndex],
    last: &mut Option<LastLookup>,
    note: &Note,
) -> Result<(), AllocError>
    requires whole { IsWhole (D.document tables.now) }
    requires of_document { IsKeptOf (D.document tables.now) kept.now }
    requires indexed { AreIndexes (sheet_of (D.document tables.now)) indexes.now }
    requires remembered { IsRemembered (sheet_of (D.document tables.now)) last.old }
    ensures { OnOk result (IsRemembered (sheet_of (D.document tables.now)) last.new) }
{
    match note {
        Note::Met { table, keys } => {
            remember_lookup(alloc, tables, kept, indexes, last, table, keys)
        }
        Note::Read(_) | Note::All { .. } => Ok(()),
    }
}
