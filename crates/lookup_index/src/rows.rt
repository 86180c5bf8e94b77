//! Ascending rows in a vector. A row that goes leaves its room, so that it can come back without
//! memory.

ghost use Rattle.std.specs.Prelude.{◌≡◌, ◌<◌, ◌≤◌, [], ◌∷◌, IsTrue, IsOk, OnOk, OnErr, length, vec_capacity};
ghost use Rattle.doc_model.specs.Rows.{has, IsAscending, insert_row, without};

use doc_model::search_row;
use std::alloc::AllocError;

/// Puts a row in its place, where it is not there.
///
/// Errors: out of memory; the rows are then as they were.
pub(crate) fn put_row(rows: &mut Vec<u32>, row: u32) -> Result<(), AllocError>
    requires { IsAscending rows.old.items }
    ensures ok { OnOk result (rows.new.items ≡ insert_row row rows.old.items) }
    ensures err { OnErr result (rows.new.items ≡ rows.old.items) }
    ensures succeeds { length rows.old.items < vec_capacity rows.old → IsOk result }
    ensures capacity { vec_capacity rows.old ≤ vec_capacity rows.new }
    ensures ascending { IsAscending rows.new.items }
{
    if let Err(index) = search_row(rows, row) {
        rows.insert(index, row)?;
    }
    Ok(())
}

/// Takes a row out, and tells whether it was there.
///
/// Memory: none.
pub(crate) fn take_row(rows: &mut Vec<u32>, row: u32) -> bool
    requires { IsAscending rows.old.items }
    ensures value { result ≡ has rows.old.items row }
    ensures rows { rows.new.items ≡ without (row ∷ []) rows.old.items }
    ensures room { IsTrue result → length rows.new.items < vec_capacity rows.new }
    ensures capacity { vec_capacity rows.old ≤ vec_capacity rows.new }
    ensures ascending { IsAscending rows.new.items }
{
    if let Ok(index) = search_row(rows, row) {
        let _row = rows.remove(index);
        return true;
    }
    false
}

/// Puts a row in its place, where there is room for it.
///
/// Memory: none.
pub(crate) fn put_reserved(rows: &mut Vec<u32>, row: u32)
    requires ascending { IsAscending rows.old.items }
    requires room { length rows.old.items < vec_capacity rows.old }
    ensures rows { rows.new.items ≡ insert_row row rows.old.items }
    ensures capacity { vec_capacity rows.old ≤ vec_capacity rows.new }
    ensures ascending { IsAscending rows.new.items }
{
    if put_row(rows, row).is_err() {
        unreachable!()
    }
}
