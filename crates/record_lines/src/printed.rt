//! Document actions as JSON.
ghost use Rattle.std.specs.Prelude.{◌≡◌, IfOk};
ghost use Rattle.serde_json.specs.Data.{object};
ghost use Rattle.serde_json.specs.View.{view, members_view};
ghost use Rattle.doc_model.specs.declared.action.DocAction.{DocAction};
ghost use Rattle.grist_json.specs.Values.{array_of};
ghost use Rattle.record_lines.specs.Infos.{info_data, described_members, added_data, column_data};
ghost use Rattle.record_lines.specs.Printed.{doc_action_data, doc_actions_data, record_data};

use cell_types::Name;
use doc_model::{ColDef, ColDefList, ColInfo, DocAction, DocActionList};
use grist_json::{
    array_with, cells_action, removed_column_action, removed_rows_action, removed_table_action,
    texts_of_two, type_value, with, with_member,
};
use serde_json::{Map, Value};
use std::alloc::{AllocError, Global};

fn info_value(alloc: Global, info: &ColInfo) -> Result<Value, AllocError>
    ensures { IfOk result (λ v. view v ≡ info_data info.now) }
{
    let formula = Value::try_from_str(alloc, info.formula.as_str())?;
    let members = with_member(alloc, Map::new(alloc), "formula", formula)?;
    let members = with_member(alloc, members, "isFormula", Value::Bool(info.is_formula))?;
    let ty = type_value(alloc, &info.ty)?;
    Ok(Value::Object(with_member(alloc, members, "type", ty)?))
}

// What stands behind a column's id.
fn described_members(alloc: Global, column: &ColDef) -> Result<Map<String, Value>, AllocError>
    ensures { IfOk result (λ m. members_view m.entries ≡ described_members column.now) }
{
    let flag = Value::Bool(column.info.is_formula);
    let members = with_member(alloc, Map::new(alloc), "isFormula", flag)?;
    let members = with_member(alloc, members, "row", Value::from(column.row))?;
    let ty = type_value(alloc, &column.info.ty)?;
    with_member(alloc, members, "type", ty)
}

// The members of a column that is named beside them.
fn added_members(alloc: Global, column: &ColDef) -> Result<Map<String, Value>, AllocError>
    ensures { IfOk result (λ m. object (members_view m.entries) ≡ added_data column.now) }
{
    let formula = Value::try_from_str(alloc, column.info.formula.as_str())?;
    with_member(alloc, described_members(alloc, column)?, "formula", formula)
}

fn column_value(alloc: Global, column: &ColDef) -> Result<Value, AllocError>
    ensures { IfOk result (λ v. view v ≡ column_data column.now) }
{
    let members = added_members(alloc, column)?;
    let id = Value::try_from_str(alloc, column.id.as_str())?;
    Ok(Value::Object(with_member(alloc, members, "id", id)?))
}

fn columns_value(alloc: Global, columns: &[ColDef]) -> Result<Value, AllocError>
    ensures { IfOk result (λ v. view v ≡ array_of column_data columns.now) }
{
    let mut values = Vec::new(alloc);
    for column in columns {
        values.push(column_value(alloc, column)?)?;
    }
    Ok(Value::Array(values))
}

fn of_new_table(
    alloc: Global,
    table: &Name,
    row: u32,
    columns: &ColDefList,
) -> Result<Value, AllocError>
    ensures { IfOk result (λ v.
        view v ≡ doc_action_data (DocAction.AddTable table.now row columns.now)) }
{
    let head = texts_of_two(alloc, "AddTable", table.as_str())?;
    let head = with(head, columns_value(alloc, columns.as_slice())?)?;
    array_with(head, Value::from(row))
}

fn of_renamed_table(alloc: Global, table: &Name, new: &Name) -> Result<Value, AllocError>
    ensures { IfOk result (λ v.
        view v ≡ doc_action_data (DocAction.RenameTable table.now new.now)) }
{
    let head = texts_of_two(alloc, "RenameTable", table.as_str())?;
    array_with(head, Value::try_from_str(alloc, new.as_str())?)
}

fn of_new_column(alloc: Global, table: &Name, column: &ColDef) -> Result<Value, AllocError>
    ensures { IfOk result (λ v.
        view v ≡ doc_action_data (DocAction.AddColumn table.now column.now)) }
{
    let head = texts_of_two(alloc, "AddColumn", table.as_str())?;
    let head = with(head, Value::try_from_str(alloc, column.id.as_str())?)?;
    array_with(head, Value::Object(added_members(alloc, column)?))
}

fn of_renamed_column(
    alloc: Global,
    table: &Name,
    column: &Name,
    new: &Name,
) -> Result<Value, AllocError>
    ensures { IfOk result (λ v.
        view v ≡ doc_action_data (DocAction.RenameColumn table.now column.now new.now)) }
{
    let head = texts_of_two(alloc, "RenameColumn", table.as_str())?;
    let head = with(head, Value::try_from_str(alloc, column.as_str())?)?;
    array_with(head, Value::try_from_str(alloc, new.as_str())?)
}

fn of_changed_column(
    alloc: Global,
    table: &Name,
    column: &Name,
    info: &ColInfo,
) -> Result<Value, AllocError>
    ensures { IfOk result (λ v.
        view v ≡ doc_action_data (DocAction.ModifyColumn table.now column.now info.now)) }
{
    let head = texts_of_two(alloc, "ModifyColumn", table.as_str())?;
    let head = with(head, Value::try_from_str(alloc, column.as_str())?)?;
    array_with(head, info_value(alloc, info)?)
}

fn action_value(alloc: Global, action: &DocAction) -> Result<Value, AllocError>
    ensures { IfOk result (λ v. view v ≡ doc_action_data action.now) }
{
    match action {
        DocAction::BulkAdd {
            table,
            rows,
            columns,
        } => cells_action(alloc, "BulkAddRecord", table, rows, columns),
        DocAction::BulkUpdate {
            table,
            rows,
            columns,
        } => cells_action(alloc, "BulkUpdateRecord", table, rows, columns),
        DocAction::BulkRemove { table, rows } => removed_rows_action(alloc, table, rows),
        DocAction::AddTable {
            table,
            row,
            columns,
        } => of_new_table(alloc, table, *row, columns),
        DocAction::RemoveTable { table } => removed_table_action(alloc, table),
        DocAction::RenameTable { table, new } => of_renamed_table(alloc, table, new),
        DocAction::AddColumn { table, column } => of_new_column(alloc, table, column),
        DocAction::RemoveColumn { table, column } => removed_column_action(alloc, table, column),
        DocAction::RenameColumn { table, column, new } => {
            of_renamed_column(alloc, table, column, new)
        }
        DocAction::ModifyColumn {
            table,
            column,
            info,
        } => of_changed_column(alloc, table, column, info),
    }
}

fn actions_value(alloc: Global, actions: &[DocAction]) -> Result<Value, AllocError>
    ensures { IfOk result (λ v. view v ≡ doc_actions_data actions.now) }
{
    let mut values = Vec::new(alloc);
    for action in actions {
        values.push(action_value(alloc, action)?)?;
    }
    Ok(Value::Array(values))
}

/// A record in its second form.
pub(crate) fn record_value(
    alloc: Global,
    number: u64,
    actions: &DocActionList,
) -> Result<Value, AllocError>
    ensures { IfOk result (λ v. view v ≡ record_data number actions.now) }
{
    let actions = actions_value(alloc, actions.as_slice())?;
    let members = with_member(alloc, Map::new(alloc), "actions", actions)?;
    let members = with_member(alloc, members, "number", Value::from(number))?;
    Ok(Value::Object(with_member(alloc, members, "version", Value::from(2u64))?))
}
