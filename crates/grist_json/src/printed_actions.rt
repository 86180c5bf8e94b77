//! Changes of views as JSON.
ghost use Rattle.std.specs.Prelude.{◌≡◌, IfOk};
ghost use Rattle.doc_model.specs.declared.view.ViewAction.TheVariants.{AddTable, RemoveTable, RemoveColumn, BulkRemove};
ghost use Rattle.serde_json.specs.Data.{item, no_items, string};
ghost use Rattle.serde_json.specs.View.{view, members_view};
ghost use Rattle.grist_json.specs.Actions.{action_of, formula_data, column_data, info_members, info_data, infos_data, columns_data, action_data, actions_data};
ghost use Rattle.grist_json.specs.Values.{rows_data};

use crate::json_parts::{array_with, texts_of_two, type_value, with, with_member};
use crate::printed_values::{rows_value, values_value};
use cell_types::{CellText, Name, RowList};
use doc_model::{CellColumn, ColumnList, ViewAction, ViewCol, ViewColList};
use serde_json::{Map, Value};
use std::alloc::{AllocError, Global};

fn formula_value(alloc: Global, formula: &Option<CellText>) -> Result<Value, AllocError>
    ensures { IfOk result (λ v. view v ≡ formula_data formula.now) }
{
    match formula {
        Some(formula) => Value::try_from_str(alloc, formula.as_str()),
        None => Ok(Value::Null),
    }
}

// What a column is, without its id.
fn info_members(alloc: Global, column: &ViewCol) -> Result<Map<String, Value>, AllocError>
    ensures { IfOk result (λ m. members_view m.entries ≡ info_members column.now) }
{
    let formula = formula_value(alloc, &column.formula)?;
    let info = with_member(alloc, Map::new(alloc), "formula", formula)?;
    let info = with_member(alloc, info, "isFormula", Value::Bool(column.is_formula))?;
    let ty = type_value(alloc, &column.ty)?;
    with_member(alloc, info, "type", ty)
}

fn info_value(alloc: Global, column: &ViewCol) -> Result<Value, AllocError>
    ensures { IfOk result (λ v. view v ≡ info_data column.now) }
{
    Ok(Value::Object(info_members(alloc, column)?))
}

// What a column is, with its id.
fn column_value(alloc: Global, column: &ViewCol) -> Result<Value, AllocError>
    ensures { IfOk result (λ v. view v ≡ column_data column.now) }
{
    let info = info_members(alloc, column)?;
    let id = Value::try_from_str(alloc, column.id.as_str())?;
    Ok(Value::Object(with_member(alloc, info, "id", id)?))
}

fn infos_value(alloc: Global, columns: &[ViewCol]) -> Result<Value, AllocError>
    ensures { IfOk result (λ v. view v ≡ infos_data columns.now) }
{
    let mut values = Vec::new(alloc);
    for column in columns {
        values.push(column_value(alloc, column)?)?;
    }
    Ok(Value::Array(values))
}

// The values of columns, by id.
fn columns_value(alloc: Global, columns: &[CellColumn]) -> Result<Value, AllocError>
    ensures { IfOk result (λ v. view v ≡ columns_data columns.now) }
{
    let mut members = Map::new(alloc);
    for column in columns {
        let values = values_value(alloc, column.values.as_slice())?;
        serde_json::put(&mut members, alloc, column.id.as_str(), values)?;
    }
    Ok(Value::Object(members))
}

// What is said of a column: [word,table,column,info].
fn of_column(alloc: Global, word: &str, table: &Name, column: &ViewCol) -> Result<Value, AllocError>
    ensures { IfOk result (λ v. view v ≡ action_of word.now table.now
        (item (string column.now.id) (item (info_data column.now) no_items))) }
{
    let head = texts_of_two(alloc, word, table.as_str())?;
    let head = with(head, Value::try_from_str(alloc, column.id.as_str())?)?;
    array_with(head, info_value(alloc, column)?)
}

/// A column that goes: ["RemoveColumn",table,column].
pub fn removed_column_action(
    alloc: Global,
    table: &Name,
    column: &Name,
) -> Result<Value, AllocError>
    ensures { IfOk result (λ v. view v ≡ action_data (RemoveColumn table.now column.now)) }
{
    let head = texts_of_two(alloc, "RemoveColumn", table.as_str())?;
    array_with(head, Value::try_from_str(alloc, column.as_str())?)
}

/// Rows with the values of columns: [word,table,rows,columns].
pub fn cells_action(
    alloc: Global,
    word: &str,
    table: &Name,
    rows: &RowList,
    columns: &ColumnList,
) -> Result<Value, AllocError>
    ensures { IfOk result (λ v. view v ≡ action_of word.now table.now
        (item (rows_data rows.now) (item (columns_data columns.now) no_items))) }
{
    let head = texts_of_two(alloc, word, table.as_str())?;
    let head = with(head, rows_value(alloc, rows.as_slice())?)?;
    array_with(head, columns_value(alloc, columns.as_slice())?)
}

fn of_new_table(alloc: Global, table: &Name, columns: &ViewColList) -> Result<Value, AllocError>
    ensures { IfOk result (λ v. view v ≡ action_data (AddTable table.now columns.now)) }
{
    let head = texts_of_two(alloc, "AddTable", table.as_str())?;
    array_with(head, infos_value(alloc, columns.as_slice())?)
}

/// A table that goes: ["RemoveTable",table].
pub fn removed_table_action(alloc: Global, table: &Name) -> Result<Value, AllocError>
    ensures { IfOk result (λ v. view v ≡ action_data (RemoveTable table.now)) }
{
    Ok(Value::Array(texts_of_two(alloc, "RemoveTable", table.as_str())?))
}

/// Rows that go: ["BulkRemoveRecord",table,rows].
pub fn removed_rows_action(alloc: Global, table: &Name, rows: &RowList) -> Result<Value, AllocError>
    ensures { IfOk result (λ v. view v ≡ action_data (BulkRemove table.now rows.now)) }
{
    let head = texts_of_two(alloc, "BulkRemoveRecord", table.as_str())?;
    array_with(head, rows_value(alloc, rows.as_slice())?)
}

fn action_value(alloc: Global, action: &ViewAction) -> Result<Value, AllocError>
    ensures { IfOk result (λ v. view v ≡ action_data action.now) }
{
    match action {
        ViewAction::AddTable { table, columns } => of_new_table(alloc, table, columns),
        ViewAction::RemoveTable { table } => removed_table_action(alloc, table),
        ViewAction::AddColumn { table, column } => of_column(alloc, "AddColumn", table, column),
        ViewAction::RemoveColumn { table, column } => removed_column_action(alloc, table, column),
        ViewAction::ModifyColumn { table, column } => {
            of_column(alloc, "ModifyColumn", table, column)
        }
        ViewAction::BulkAdd {
            table,
            rows,
            columns,
        } => cells_action(alloc, "BulkAddRecord", table, rows, columns),
        ViewAction::BulkUpdate {
            table,
            rows,
            columns,
        } => cells_action(alloc, "BulkUpdateRecord", table, rows, columns),
        ViewAction::BulkRemove { table, rows } => removed_rows_action(alloc, table, rows),
    }
}

// Changes as an array.
pub(crate) fn actions_value(alloc: Global, actions: &[ViewAction]) -> Result<Value, AllocError>
    ensures { IfOk result (λ v. view v ≡ actions_data actions.now) }
{
    let mut values = Vec::new(alloc);
    for action in actions {
        values.push(action_value(alloc, action)?)?;
    }
    Ok(Value::Array(values))
}
