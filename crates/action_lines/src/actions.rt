//! User actions, as lines spell them.
ghost use Rattle.std.specs.Prelude.{◌≡◌, List, true, IfOk, IfSome, IfNone};
ghost use Rattle.std.specs.List.{list_all};
ghost use Rattle.serde_json.specs.View.{view, items_view};
ghost use Rattle.doc_model.specs.declared.user_action.UserAction.{UserAction};
ghost use Rattle.doc_model.specs.WellFormed.{is_well_formed};
ghost use Rattle.action_lines.specs.Actions.{AreActions, kind_action_from, action_from, actions_from};

use crate::items::Items;
use crate::kinds::{ActionKind, kind_of};
use crate::record_actions::{add_of, remove_of, update_of};
use crate::schema_actions::{
    add_column_of, add_table_of, modify_column_of, remove_column_of, remove_table_of,
    rename_column_of, rename_table_of,
};
use crate::spelled::{Spelled, read_given};
use doc_model::{UserAction, UserActionList};
use serde_json::Value;
use std::alloc::{AllocError, Global};

// The action of that kind, from its table and what stands behind it.
fn kind_action(
    alloc: Global,
    kind: ActionKind,
    table: &str,
    items: Items<'_>,
) -> Result<Option<UserAction>, AllocError>
    ensures { IfOk result (λ o.
        o ≡ kind_action_from kind table.now (items_view items.entry.left.now)) }
{
    match kind {
        ActionKind::AddRecord => add_of(alloc, true, table, items),
        ActionKind::BulkAddRecord => add_of(alloc, false, table, items),
        ActionKind::UpdateRecord => update_of(alloc, true, table, items),
        ActionKind::BulkUpdateRecord => update_of(alloc, false, table, items),
        ActionKind::RemoveRecord => remove_of(alloc, true, table, items),
        ActionKind::BulkRemoveRecord => remove_of(alloc, false, table, items),
        ActionKind::AddTable => add_table_of(alloc, table, items),
        ActionKind::RemoveTable => remove_table_of(alloc, table, items),
        ActionKind::RenameTable => rename_table_of(alloc, table, items),
        ActionKind::AddColumn => add_column_of(alloc, table, items),
        ActionKind::RemoveColumn => remove_column_of(alloc, table, items),
        ActionKind::RenameColumn => rename_column_of(alloc, table, items),
        ActionKind::ModifyColumn => modify_column_of(alloc, table, items),
    }
}

impl Spelled for UserAction {
    ghost use Rattle.doc_model.specs.declared.user_action.UserAction.{UserAction};
    ghost use Rattle.action_lines.specs.Actions.{action_from};

    ghost from = { action_from };

    #[tactic(auto, unfolding(crate::specs::Actions::action_from))]
    fn read(alloc: Global, value: &Value) -> Result<Option<UserAction>, AllocError> {
        let Some(mut items) = Items::of(value) else {
            return Ok(None);
        };
        let Some(word) = items.take_text() else {
            return Ok(None);
        };
        let Some(table) = items.take_text() else {
            return Ok(None);
        };
        let Some(kind) = kind_of(word) else {
            return Ok(None);
        };
        kind_action(alloc, kind, table, items)
    }
}

/// Reads the user actions of a bundle, or nothing where the JSON stands for none.
///
/// Source: docs/PROTOCOL.md, "user actions".
pub fn read_actions(alloc: Global, value: &Value) -> Result<Option<UserActionList>, AllocError>
    ensures found { IfOk result (λ o. IfSome o (λ actions. AreActions actions (view value.now))) }
    ensures none { IfOk result (λ o.
        IfNone o ((actions : List UserAction) → AreActions actions (view value.now) → ⊥)) }
    ensures exact { IfOk result (λ o. o ≡ actions_from (view value.now)) }
    ensures well_formed { IfOk result (λ o.
        IfSome o (λ actions. list_all is_well_formed actions ≡ true)) }
{
    actions_of(alloc, value)
}

fn actions_of(alloc: Global, value: &Value) -> Result<Option<UserActionList>, AllocError>
    ensures { IfOk result (λ o. o ≡ actions_from (view value.now)) }
{
    match read_given::<UserAction>(alloc, false, value)? {
        Some(actions) => Ok(Some(UserActionList::from(actions))),
        None => Ok(None),
    }
}
