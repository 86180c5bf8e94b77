//! Actions on tables and columns, as lines spell them.
ghost use Rattle.std.specs.Prelude.{◌≡◌, IfOk, option_map};
ghost use Rattle.serde_json.specs.View.{items_view};
ghost use Rattle.action_lines.specs.SchemaActions.{add_table_from, remove_table_from, rename_table_from, beside_from, add_column_from, remove_column_from, rename_column_from, modify_column_from};

use crate::infos::info_of;
use crate::items::Items;
use crate::spelled::read_given;
use cell_types::CellText;
use doc_model::{UserAction, UserCol, UserColList};
use std::alloc::{AllocError, Global};

// Copies of two texts.
fn copies_of(alloc: Global, first: &str, second: &str) -> Result<(CellText, CellText), AllocError>
    ensures { IfOk result (λ p. p ≡ (first.now, second.now)) }
{
    let first = CellText::copy_of(alloc, first)?;
    Ok((first, CellText::copy_of(alloc, second)?))
}

/// The action that adds a table, from what stands behind its name.
#[tactic(auto, unfolding(crate::specs::SchemaActions::add_table_from))]
pub(crate) fn add_table_of(
    alloc: Global,
    table: &str,
    items: Items<'_>,
) -> Result<Option<UserAction>, AllocError>
    ensures { IfOk result (λ o. o ≡ add_table_from table.now (items_view items.entry.left.now)) }
{
    let Some(infos) = items.only() else {
        return Ok(None);
    };
    let table = CellText::copy_of(alloc, table)?;
    match read_given::<UserCol>(alloc, false, infos)? {
        Some(columns) => Ok(Some(UserAction::AddTable {
            table,
            columns: UserColList::from(columns),
        })),
        None => Ok(None),
    }
}

/// The action that removes a table, from what stands behind its name.
#[tactic(auto, unfolding(crate::specs::SchemaActions::remove_table_from))]
pub(crate) fn remove_table_of(
    alloc: Global,
    table: &str,
    items: Items<'_>,
) -> Result<Option<UserAction>, AllocError>
    ensures { IfOk result (λ o. o ≡ remove_table_from table.now (items_view items.entry.left.now)) }
{
    if !items.is_done() {
        return Ok(None);
    }
    Ok(Some(UserAction::RemoveTable {
        table: CellText::copy_of(alloc, table)?,
    }))
}

/// The action that renames a table, from what stands behind its name.
#[tactic(auto, unfolding(crate::specs::SchemaActions::rename_table_from))]
pub(crate) fn rename_table_of(
    alloc: Global,
    table: &str,
    items: Items<'_>,
) -> Result<Option<UserAction>, AllocError>
    ensures { IfOk result (λ o. o ≡ rename_table_from table.now (items_view items.entry.left.now)) }
{
    let Some(new) = items.only_text() else {
        return Ok(None);
    };
    let (table, new) = copies_of(alloc, table, new)?;
    Ok(Some(UserAction::RenameTable { table, new }))
}

// A column's id, and beside it what is said of it.
#[tactic(auto, unfolding(crate::specs::SchemaActions::beside_from))]
fn beside_of(alloc: Global, items: Items<'_>) -> Result<Option<UserCol>, AllocError>
    ensures { IfOk result (λ o. o ≡ beside_from (items_view items.entry.left.now)) }
{
    match items.text_beside() {
        Some((id, info)) => info_of(alloc, id, info),
        None => Ok(None),
    }
}

// The name of a table, and the column that is said of it.
fn table_and_column(
    alloc: Global,
    table: &str,
    items: Items<'_>,
) -> Result<Option<(CellText, UserCol)>, AllocError>
    ensures { IfOk result (λ o.
        o ≡ option_map (λ c. (table.now, c)) (beside_from (items_view items.entry.left.now))) }
{
    let table = CellText::copy_of(alloc, table)?;
    match beside_of(alloc, items)? {
        Some(column) => Ok(Some((table, column))),
        None => Ok(None),
    }
}

/// The action that adds a column, from what stands behind its table.
#[tactic(auto, unfolding(crate::specs::SchemaActions::add_column_from))]
pub(crate) fn add_column_of(
    alloc: Global,
    table: &str,
    items: Items<'_>,
) -> Result<Option<UserAction>, AllocError>
    ensures { IfOk result (λ o. o ≡ add_column_from table.now (items_view items.entry.left.now)) }
{
    match table_and_column(alloc, table, items)? {
        Some((table, column)) => Ok(Some(UserAction::AddColumn { table, column })),
        None => Ok(None),
    }
}

/// The action that changes a column, from what stands behind its table.
#[tactic(auto, unfolding(crate::specs::SchemaActions::modify_column_from))]
pub(crate) fn modify_column_of(
    alloc: Global,
    table: &str,
    items: Items<'_>,
) -> Result<Option<UserAction>, AllocError>
    ensures { IfOk result (λ o.
        o ≡ modify_column_from table.now (items_view items.entry.left.now)) }
{
    match table_and_column(alloc, table, items)? {
        Some((table, column)) => Ok(Some(UserAction::ModifyColumn { table, column })),
        None => Ok(None),
    }
}

/// The action that removes a column, from what stands behind its table.
#[tactic(auto, unfolding(crate::specs::SchemaActions::remove_column_from))]
pub(crate) fn remove_column_of(
    alloc: Global,
    table: &str,
    items: Items<'_>,
) -> Result<Option<UserAction>, AllocError>
    ensures { IfOk result (λ o.
        o ≡ remove_column_from table.now (items_view items.entry.left.now)) }
{
    let Some(column) = items.only_text() else {
        return Ok(None);
    };
    let (table, column) = copies_of(alloc, table, column)?;
    Ok(Some(UserAction::RemoveColumn { table, column }))
}

/// The action that renames a column, from what stands behind its table.
#[tactic(auto, unfolding(crate::specs::SchemaActions::rename_column_from))]
pub(crate) fn rename_column_of(
    alloc: Global,
    table: &str,
    items: Items<'_>,
) -> Result<Option<UserAction>, AllocError>
    ensures { IfOk result (λ o.
        o ≡ rename_column_from table.now (items_view items.entry.left.now)) }
{
    let Some((column, new)) = items.text_beside() else {
        return Ok(None);
    };
    let Some(new) = new.as_str() else {
        return Ok(None);
    };
    let table = CellText::copy_of(alloc, table)?;
    let (column, new) = copies_of(alloc, column, new)?;
    Ok(Some(UserAction::RenameColumn { table, column, new }))
}
