//! Plans as texts.

use cell_types::CellValue;
use doc_model::{UserAction, UserCol, UserColumn};
use rename_flow::RenamePlan;
use std::alloc::{AllocError, Global};

fn push_column(out: &mut String, table: &str, column: &UserCol) -> Result<(), AllocError> {
    out.push_str(table)?;
    out.push_str(".")?;
    out.push_str(column.id.as_str())?;
    if let Some(formula) = &column.formula {
        out.push_str("=")?;
        out.push_str(formula.as_str())?;
    }
    out.push_str(";")
}

// A row as a word: the plans of tests name the first three.
fn row_word(row: i64) -> &'static str {
    match row {
        1 => " 1 ",
        2 => " 2 ",
        3 => " 3 ",
        _ => " ? ",
    }
}

fn push_cells(out: &mut String, rows: &[i64], column: &UserColumn) -> Result<(), AllocError> {
    for (index, row) in rows.iter().enumerate() {
        out.push_str(column.id.as_str())?;
        out.push_str(row_word(*row))?;
        if let Some(CellValue::Text(text)) = column.values.as_slice().get(index) {
            out.push_str(text.as_str())?;
        }
        out.push_str(";")?;
    }
    Ok(())
}

fn push_columns(out: &mut String, rows: &[i64], columns: &[UserColumn]) -> Result<(), AllocError> {
    for column in columns {
        push_cells(out, rows, column)?;
    }
    Ok(())
}

fn push_action(out: &mut String, action: &UserAction) -> Result<(), AllocError> {
    match action {
        UserAction::RenameColumn { new, .. } => {
            out.push_str(new.as_str())?;
            out.push_str(";")
        }
        UserAction::ModifyColumn { table, column } => push_column(out, table.as_str(), column),
        UserAction::Update { rows, columns, .. } => {
            push_columns(out, rows.as_slice(), columns.as_slice())
        }
        _ => out.push_str("?;"),
    }
}

/// The actions of a plan, each with a semicolon behind it: the new name of the rename, a column
/// with its formula, or the texts of rows.
pub fn told(alloc: Global, plan: &RenamePlan) -> Result<String, AllocError> {
    let mut out = String::new(alloc);
    for action in plan.actions.as_slice() {
        push_action(&mut out, action)?;
    }
    Ok(out)
}
