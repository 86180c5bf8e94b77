//! The rows that a lookup has to look at.

ghost use Rattle.std.specs.Prelude.{◌≡◌, ◌&&◌, not, false, Some, IfSome};
ghost use Rattle.std.specs.List.{find, list_all};
ghost use Rattle.std.specs.Option.{option_copied};
ghost use Rattle.doc_model.specs.Rows.{IsAscending};
ghost use Rattle.formula_eval.specs.Lookup.{matched, scan};
ghost use Rattle.formula_parse.specs.Lexemes.{is_id};
ghost use Rattle.recalc.specs.Evaluated.{sheet_of};
ghost use Rattle.recalc.specs.Indexes.{AreCandidates, AreIndexes, IsRowAlone, chosen, is_plain};
ghost use Rattle.recalc.specs.Sheet.{Sheet, Values, over};

use crate::indexes::{ColumnIndex, find_index};
use crate::places::row_index;
use cell_types::{KeyItem, Name};
use doc_model::DocTables;
use lookup_index::bucket_of;

/// Whether the name is `id`.
#[tactic(auto, unfolding(formula_parse::specs::Lexemes::id_word))]
pub(crate) fn is_id(name: &Name) -> bool
    ensures { result ≡ is_id name.now }
{
    name.as_str() == "id"
}

fn is_plain(indexes: &[ColumnIndex], table: &Name, key: &KeyItem) -> bool
    ensures { result ≡ is_plain indexes.now table.now key.now }
{
    is_id(&key.column) || find_index(indexes, table, &key.column).is_some()
}

fn are_plain(indexes: &[ColumnIndex], table: &Name, keys: &[KeyItem]) -> bool
    ensures { result ≡ list_all (is_plain indexes.now table.now) keys.now }
{
    keys.iter().all(|key| is_plain(indexes, table, key))
}

fn id_key(keys: &[KeyItem]) -> Option<&KeyItem>
    ensures { option_copied result ≡ find (λ k. not k.contains && is_id k.column) keys.now }
{
    keys.iter().find(|key| !key.contains && is_id(&key.column))
}

fn whole_key(keys: &[KeyItem]) -> Option<&KeyItem>
    ensures { option_copied result ≡ find (λ k. not k.contains) keys.now }
{
    keys.iter().find(|key| !key.contains)
}

fn chosen(keys: &[KeyItem]) -> Option<&KeyItem>
    ensures { option_copied result ≡ chosen keys.now }
{
    match id_key(keys) {
        Some(key) => Some(key),
        None => whole_key(keys),
    }
}

// The row of this number; all rows for a number that none can have.
fn row_alone(rows: &[u32], bucket: u64) -> &[u32]
    requires { IsAscending rows.now }
    ensures { IsRowAlone rows.now bucket result.now }
{
    let Ok(row) = u32::try_from(bucket) else {
        return rows;
    };
    match row_index(rows, row) {
        Some(index) => &rows[index..index + 1],
        None => &[],
    }
}

// The rows under the bucket of a key's value.
fn rows_of_key<'a>(
    indexes: &'a [ColumnIndex],
    rows: &'a [u32],
    table: &Name,
    key: &KeyItem,
) -> Option<&'a [u32]>
    requires ascending { IsAscending rows.now }
    requires whole { key.now.contains ≡ false }
    ensures { (s : Sheet) (k : Values) → s.rows table.now ≡ Some rows.now
        → AreIndexes s indexes.now
        → IfSome result (λ found. AreCandidates (over s k) table.now key.now rows.now found.now) }
{
    let bucket = bucket_of(&key.value);
    if is_id(&key.column) {
        return Some(row_alone(rows, bucket));
    }
    let found = find_index(indexes, table, &key.column)?;
    Some(found.index.rows_for(bucket))
}

/// The rows that a lookup has to look at, where its keys tell them: no other row meets the keys,
/// and none of the keys' cells is needed or circular.
///
/// Memory: none.
pub(crate) fn candidates<'a, D: DocTables>(
    tables: &'a D,
    indexes: &'a [ColumnIndex],
    table: &Name,
    keys: &[KeyItem],
) -> Option<&'a [u32]>
    requires { AreIndexes (sheet_of (D.document tables.now)) indexes.now }
    ensures { (k : Values) → IfSome result (λ found.
        matched (over (sheet_of (D.document tables.now)) k) table.now keys.now
        ≡ scan (over (sheet_of (D.document tables.now)) k) table.now keys.now found.now) }
{
    let rows = tables.rows(table)?;
    if !are_plain(indexes, table, keys) {
        return None;
    }
    let key = chosen(keys)?;
    rows_of_key(indexes, rows, table, key)
}
