//! Actions on records, as lines spell them.
ghost use Rattle.std.specs.Prelude.{◌≡◌, IfOk};
ghost use Rattle.serde_json.specs.View.{view, items_view};
ghost use Rattle.action_lines.specs.RecordActions.{is_explicit, count_from, new_rows_from, add_from, update_from, remove_from};

use crate::columns::columns_in;
use crate::items::Items;
use crate::spelled::read_given;
use cell_types::CellText;
use doc_model::{IdList, UserAction};
use serde_json::Value;
use std::alloc::{AllocError, Global};

// Whether some row was given by its id.
fn is_explicit(ids: &[Option<i64>]) -> bool
    ensures { result ≡ is_explicit ids.now }
{
    ids.iter().any(|id| id.is_some())
}

// How many rows there are, where 32 bits hold that.
fn count_of(ids: &[Option<i64>]) -> Option<u32>
    ensures { result ≡ count_from ids.now }
{
    u32::try_from(ids.len()).ok()
}

// How many rows are added, and whether some row was given by its id.
#[tactic(auto, unfolding(crate::specs::RecordActions::new_rows_from))]
fn new_rows_of(alloc: Global, single: bool, rows: &Value) -> Result<Option<(u32, bool)>, AllocError>
    ensures { IfOk result (λ o. o ≡ new_rows_from single (view rows.now)) }
{
    let Some(ids) = read_given::<Option<i64>>(alloc, single, rows)? else {
        return Ok(None);
    };
    let has_row_ids = is_explicit(ids.as_slice());
    match count_of(ids.as_slice()) {
        Some(count) => Ok(Some((count, has_row_ids))),
        None => Ok(None),
    }
}

/// The action that adds records, from what stands behind its table.
#[tactic(auto, unfolding(crate::specs::RecordActions::add_from))]
pub(crate) fn add_of(
    alloc: Global,
    single: bool,
    table: &str,
    items: Items<'_>,
) -> Result<Option<UserAction>, AllocError>
    ensures { IfOk result (λ o. o ≡ add_from single table.now (items_view items.entry.left.now)) }
{
    let Some((rows, members)) = items.two() else {
        return Ok(None);
    };
    let Some((count, has_row_ids)) = new_rows_of(alloc, single, rows)? else {
        return Ok(None);
    };
    let table = CellText::copy_of(alloc, table)?;
    match columns_in(alloc, single, count as usize, members)? {
        Some(columns) => Ok(Some(UserAction::Add {
            table,
            single,
            count,
            has_row_ids,
            columns,
        })),
        None => Ok(None),
    }
}

/// The action that changes records, from what stands behind its table.
#[tactic(auto, unfolding(crate::specs::RecordActions::update_from))]
pub(crate) fn update_of(
    alloc: Global,
    single: bool,
    table: &str,
    items: Items<'_>,
) -> Result<Option<UserAction>, AllocError>
    ensures { IfOk result (λ o.
        o ≡ update_from single table.now (items_view items.entry.left.now)) }
{
    let Some((rows, members)) = items.two() else {
        return Ok(None);
    };
    let Some(ids) = read_given::<i64>(alloc, single, rows)? else {
        return Ok(None);
    };
    let table = CellText::copy_of(alloc, table)?;
    match columns_in(alloc, single, ids.len(), members)? {
        Some(columns) => Ok(Some(UserAction::Update {
            table,
            single,
            rows: IdList::from(ids),
            columns,
        })),
        None => Ok(None),
    }
}

/// The action that removes records, from what stands behind its table.
#[tactic(auto, unfolding(crate::specs::RecordActions::remove_from))]
pub(crate) fn remove_of(
    alloc: Global,
    single: bool,
    table: &str,
    items: Items<'_>,
) -> Result<Option<UserAction>, AllocError>
    ensures { IfOk result (λ o.
        o ≡ remove_from single table.now (items_view items.entry.left.now)) }
{
    let Some(rows) = items.only() else {
        return Ok(None);
    };
    let table = CellText::copy_of(alloc, table)?;
    match read_given::<i64>(alloc, single, rows)? {
        Some(ids) => Ok(Some(UserAction::Remove {
            table,
            single,
            rows: IdList::from(ids),
        })),
        None => Ok(None),
    }
}
