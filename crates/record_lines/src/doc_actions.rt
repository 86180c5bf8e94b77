//! Document actions, as records spell them.
ghost use Rattle.std.specs.Prelude.{◌≡◌, IfOk};
ghost use Rattle.serde_json.specs.View.{view, items_view};
ghost use Rattle.action_lines.specs.declared.kinds.ActionKind.{ActionKind};
ghost use Rattle.record_lines.specs.Reading.{kind_action_from};

use crate::cells::{cells_of, rows_of};
use crate::infos::{added_column, named_info, table_of};
use crate::names::{name_of, only_name, two_names};
use crate::recorded::Recorded;
use action_lines::{ActionKind, Items, kind_of};
use cell_types::Name;
use doc_model::DocAction;
use serde_json::Value;
use std::alloc::{AllocError, Global};

fn bulk_add(alloc: Global, table: Name, items: Items<'_>) -> Result<Option<DocAction>, AllocError>
    ensures { IfOk result (λ o. o ≡
        kind_action_from ActionKind.BulkAddRecord table (items_view items.entry.left.now)) }
{
    match cells_of(alloc, items)? {
        Some((rows, columns)) => Ok(Some(DocAction::BulkAdd {
            table,
            rows,
            columns,
        })),
        None => Ok(None),
    }
}

fn bulk_update(
    alloc: Global,
    table: Name,
    items: Items<'_>,
) -> Result<Option<DocAction>, AllocError>
    ensures { IfOk result (λ o. o ≡
        kind_action_from ActionKind.BulkUpdateRecord table (items_view items.entry.left.now)) }
{
    match cells_of(alloc, items)? {
        Some((rows, columns)) => Ok(Some(DocAction::BulkUpdate {
            table,
            rows,
            columns,
        })),
        None => Ok(None),
    }
}

fn bulk_remove(
    alloc: Global,
    table: Name,
    items: Items<'_>,
) -> Result<Option<DocAction>, AllocError>
    ensures { IfOk result (λ o. o ≡
        kind_action_from ActionKind.BulkRemoveRecord table (items_view items.entry.left.now)) }
{
    match rows_of(alloc, items)? {
        Some(rows) => Ok(Some(DocAction::BulkRemove { table, rows })),
        None => Ok(None),
    }
}

fn add_table(alloc: Global, table: Name, items: Items<'_>) -> Result<Option<DocAction>, AllocError>
    ensures { IfOk result (λ o. o ≡
        kind_action_from ActionKind.AddTable table (items_view items.entry.left.now)) }
{
    match table_of(alloc, items)? {
        Some((columns, row)) => Ok(Some(DocAction::AddTable {
            table,
            row,
            columns,
        })),
        None => Ok(None),
    }
}

fn remove_table(table: Name, items: Items<'_>) -> Option<DocAction>
    ensures { result ≡
        kind_action_from ActionKind.RemoveTable table (items_view items.entry.left.now) }
{
    if items.is_done() {
        Some(DocAction::RemoveTable { table })
    } else {
        None
    }
}

fn rename_table(
    alloc: Global,
    table: Name,
    items: Items<'_>,
) -> Result<Option<DocAction>, AllocError>
    ensures { IfOk result (λ o. o ≡
        kind_action_from ActionKind.RenameTable table (items_view items.entry.left.now)) }
{
    match only_name(alloc, items)? {
        Some(new) => Ok(Some(DocAction::RenameTable { table, new })),
        None => Ok(None),
    }
}

fn add_column(alloc: Global, table: Name, items: Items<'_>) -> Result<Option<DocAction>, AllocError>
    ensures { IfOk result (λ o. o ≡
        kind_action_from ActionKind.AddColumn table (items_view items.entry.left.now)) }
{
    match added_column(alloc, items)? {
        Some(column) => Ok(Some(DocAction::AddColumn { table, column })),
        None => Ok(None),
    }
}

fn remove_column(
    alloc: Global,
    table: Name,
    items: Items<'_>,
) -> Result<Option<DocAction>, AllocError>
    ensures { IfOk result (λ o. o ≡
        kind_action_from ActionKind.RemoveColumn table (items_view items.entry.left.now)) }
{
    match only_name(alloc, items)? {
        Some(column) => Ok(Some(DocAction::RemoveColumn { table, column })),
        None => Ok(None),
    }
}

fn rename_column(
    alloc: Global,
    table: Name,
    items: Items<'_>,
) -> Result<Option<DocAction>, AllocError>
    ensures { IfOk result (λ o. o ≡
        kind_action_from ActionKind.RenameColumn table (items_view items.entry.left.now)) }
{
    match two_names(alloc, items)? {
        Some((column, new)) => Ok(Some(DocAction::RenameColumn { table, column, new })),
        None => Ok(None),
    }
}

fn modify_column(
    alloc: Global,
    table: Name,
    items: Items<'_>,
) -> Result<Option<DocAction>, AllocError>
    ensures { IfOk result (λ o. o ≡
        kind_action_from ActionKind.ModifyColumn table (items_view items.entry.left.now)) }
{
    match named_info(alloc, items)? {
        Some((column, info)) => Ok(Some(DocAction::ModifyColumn {
            table,
            column,
            info,
        })),
        None => Ok(None),
    }
}

// The action of that kind, from its table and what stands behind it. One record alone is none.
fn kind_action(
    alloc: Global,
    kind: ActionKind,
    table: Name,
    items: Items<'_>,
) -> Result<Option<DocAction>, AllocError>
    ensures { IfOk result (λ o.
        o ≡ kind_action_from kind table (items_view items.entry.left.now)) }
{
    match kind {
        ActionKind::BulkAddRecord => bulk_add(alloc, table, items),
        ActionKind::BulkUpdateRecord => bulk_update(alloc, table, items),
        ActionKind::BulkRemoveRecord => bulk_remove(alloc, table, items),
        ActionKind::AddTable => add_table(alloc, table, items),
        ActionKind::RemoveTable => Ok(remove_table(table, items)),
        ActionKind::RenameTable => rename_table(alloc, table, items),
        ActionKind::AddColumn => add_column(alloc, table, items),
        ActionKind::RemoveColumn => remove_column(alloc, table, items),
        ActionKind::RenameColumn => rename_column(alloc, table, items),
        ActionKind::ModifyColumn => modify_column(alloc, table, items),
        ActionKind::AddRecord | ActionKind::UpdateRecord | ActionKind::RemoveRecord => Ok(None),
    }
}

impl Recorded for DocAction {
    ghost use Rattle.record_lines.specs.Reading.{doc_action_from};

    ghost from = { doc_action_from };

    #[tactic(auto, unfolding(crate::specs::Reading::doc_action_from))]
    fn read(alloc: Global, value: &Value) -> Result<Option<DocAction>, AllocError> {
        let Some(mut items) = Items::of(value) else {
            return Ok(None);
        };
        let Some(word) = items.take_text() else {
            return Ok(None);
        };
        let Some(table) = items.take_text() else {
            return Ok(None);
        };
        let Some(kind) = kind_of(word) else {
            return Ok(None);
        };
        match name_of(alloc, table)? {
            Some(table) => kind_action(alloc, kind, table, items),
            None => Ok(None),
        }
    }
}
