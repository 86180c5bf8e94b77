//! The document actions that a user action stands for.

ghost use Rattle.std.specs.Prelude.{◌≡◌, ◌<◌, [], ◌∷◌, true, false, map, IfOk, MatchOption};
ghost use Rattle.cell_types.specs.NameRule.{is_name};
ghost use Rattle.doc_model.specs.Apply.{all_valid};
ghost use Rattle.doc_model.specs.DocumentLaws.{IsWhole};
ghost use Rattle.doc_model.specs.WellFormed.{has_whole_columns};
ghost use Rattle.doc_model.specs.declared.action.DocAction.TheVariants.{RemoveColumn, RemoveTable};
ghost use Rattle.user_actions.specs.Allowed.{is_allowed};
ghost use Rattle.user_actions.specs.Kinds.{makes_rows, table_of};
ghost use Rattle.user_actions.specs.StepLaws.{HasFresh, action_of};
ghost use Rattle.user_actions.specs.Marked.{direct};
ghost use Rattle.user_actions.specs.Steps.{last_new_row, steps_of};

use crate::modifying::modify_steps;
use crate::naming::table_name;
use crate::record_steps::{add_steps, direct, remove_steps, update_steps};
use crate::schema_steps::{
    add_column_steps, add_table_steps, rename_column_steps, rename_table_steps,
};
use cell_types::Name;
use doc_model::{DocAction, DocTables, StepList, UserAction};
use name_rules::name_of;
use std::alloc::{AllocError, Global};

fn remove_table_steps(alloc: Global, table: &Name) -> Result<StepList, AllocError>
    ensures { IfOk result (λ l. l ≡ direct (RemoveTable table.now) ∷ []) }
{
    let action = DocAction::RemoveTable {
        table: table.clone()?,
    };
    direct(alloc, action)
}

fn remove_column_steps(alloc: Global, table: &Name, column: &str) -> Result<StepList, AllocError>
    requires { is_name column.now ≡ true }
    ensures { IfOk result (λ l. l ≡ direct (RemoveColumn table.now column.now) ∷ []) }
{
    let action = DocAction::RemoveColumn {
        table: table.clone()?,
        column: name_of(alloc, column)?,
    };
    direct(alloc, action)
}

// The steps of an action that makes rows; nothing where one would pass the last row id.
fn growing_steps<D: DocTables>(
    alloc: Global,
    tables: &D,
    table: &Name,
    action: &UserAction,
) -> Result<Option<StepList>, AllocError>
    requires whole { IsWhole (D.document tables.now) }
    requires allowed { is_allowed (D.document tables.now) action.now ≡ true }
    requires named { table.now ≡ table_of action.now }
    requires grows { makes_rows action.now ≡ true }
    ensures fresh { IfOk result (λ _. HasFresh (D.document tables.now) action.now) }
    ensures made { IfOk result
        (λ o. MatchOption o (4294967295 < last_new_row (D.document tables.now) action.now)
        (λ l. l ≡ steps_of (D.document tables.now) action.now)) }
{
    match action {
        UserAction::Add { count, columns, .. } => {
            add_steps(alloc, tables, table, *count, columns.as_slice())
        }
        UserAction::AddTable { columns, .. } => {
            add_table_steps(alloc, tables, table.as_str(), columns.as_slice())
        }
        UserAction::AddColumn { column, .. } => add_column_steps(alloc, tables, table, column),
        _ => unreachable!(),
    }
}

// The steps of an action that makes no rows.
fn other_steps<D: DocTables>(
    alloc: Global,
    tables: &D,
    table: &Name,
    action: &UserAction,
) -> Result<StepList, AllocError>
    requires whole { IsWhole (D.document tables.now) }
    requires allowed { is_allowed (D.document tables.now) action.now ≡ true }
    requires named { table.now ≡ table_of action.now }
    requires other { makes_rows action.now ≡ false }
    ensures fresh { IfOk result (λ _. HasFresh (D.document tables.now) action.now) }
    ensures made { IfOk result (λ l. l ≡ steps_of (D.document tables.now) action.now) }
{
    match action {
        UserAction::Update { rows, columns, .. } => {
            let rows = rows.as_slice();
            let steps = update_steps(alloc, tables, table, rows, columns.as_slice())?;
            Ok(steps)
        }
        UserAction::Remove { rows, .. } => remove_steps(alloc, tables, table, rows.as_slice()),
        UserAction::RemoveTable { .. } => remove_table_steps(alloc, table),
        UserAction::RenameTable { new, .. } => {
            rename_table_steps(alloc, tables, table, new.as_str())
        }
        UserAction::RemoveColumn { column, .. } => {
            remove_column_steps(alloc, table, column.as_str())
        }
        UserAction::RenameColumn { column, new, .. } => {
            rename_column_steps(alloc, tables, table, column.as_str(), new.as_str())
        }
        UserAction::ModifyColumn { column, .. } => modify_steps(alloc, tables, table, column),
        _ => unreachable!(),
    }
}

fn makes_rows(action: &UserAction) -> bool
    ensures { result ≡ makes_rows action.now }
{
    matches!(
        action,
        UserAction::Add { .. } | UserAction::AddTable { .. } | UserAction::AddColumn { .. }
    )
}

/// The document actions that a user action stands for, in their order; nothing where a new row
/// would pass the last row id, though they are valid there too. Limits are not asked here.
///
/// Errors: out of memory. Cost: the rows and values that are given; a column that changes costs all
/// its cells, and a new id the ids beside it. Where records go or a table is renamed, a walk over
/// all columns, and where records go over all cells of those that refer to the table; a rename
/// walks over the resources.
/// Source: docs/DEFINITIONS.md, "user_actions".
pub fn steps<D: DocTables>(
    alloc: Global,
    tables: &D,
    action: &UserAction,
) -> Result<Option<StepList>, AllocError>
    requires whole { IsWhole (D.document tables.now) }
    requires allowed { is_allowed (D.document tables.now) action.now ≡ true }
    requires well_formed { has_whole_columns action.now ≡ true }
    ensures valid { IfOk result
        (λ _. all_valid (D.document tables.now)
        (map action_of (steps_of (D.document tables.now) action.now)) ≡ true) }
    ensures made { IfOk result
        (λ o. MatchOption o (4294967295 < last_new_row (D.document tables.now) action.now)
        (λ l. l ≡ steps_of (D.document tables.now) action.now)) }
{
    let table = table_name(alloc, action)?;
    if makes_rows(action) {
        let steps = growing_steps(alloc, tables, &table, action)?;
        return Ok(steps);
    }
    let steps = other_steps(alloc, tables, &table, action)?;
    Ok(Some(steps))
}
