//! Changes of a view as short lines.

use cell_types::{CellValue, Name, RowList};
use doc_model::{ColumnList, ViewAction, ViewActionList};
use std::alloc::{AllocError, Global};

fn value_word(value: &CellValue) -> &'static str {
    match value {
        CellValue::Int(4) => " 4",
        CellValue::Bool(true) => " true",
        CellValue::Bool(false) => " false",
        CellValue::Null => " null",
        _ => " other",
    }
}

fn show_values(text: &mut String, values: &[CellValue]) -> Result<(), AllocError> {
    for value in values {
        text.push_str(value_word(value))?;
    }
    Ok(())
}

fn row_word(row: u32) -> &'static str {
    match row {
        1 => " 1",
        2 => " 2",
        3 => " 3",
        4 => " 4",
        _ => " ?",
    }
}

fn show_rows(text: &mut String, word: &str, rows: &RowList) -> Result<(), AllocError> {
    text.push_str(word)?;
    for row in rows.as_slice() {
        text.push_str(row_word(*row))?;
    }
    Ok(())
}

fn show_columns(text: &mut String, columns: &ColumnList) -> Result<(), AllocError> {
    for column in columns.as_slice() {
        show_name(text, " ", &column.id)?;
        show_values(text, column.values.as_slice())?;
    }
    Ok(())
}

fn show_cells(
    text: &mut String,
    word: &str,
    rows: &RowList,
    columns: &ColumnList,
) -> Result<(), AllocError> {
    show_rows(text, word, rows)?;
    show_columns(text, columns)
}

fn show_name(text: &mut String, word: &str, id: &Name) -> Result<(), AllocError> {
    text.push_str(word)?;
    text.push_str(id.as_str())
}

fn show(text: &mut String, action: &ViewAction) -> Result<(), AllocError> {
    match action {
        ViewAction::AddTable { table, .. } => show_name(text, "|+table ", table),
        ViewAction::RemoveTable { table } => show_name(text, "|-table ", table),
        ViewAction::AddColumn { column, .. } => show_name(text, "|+column ", &column.id),
        ViewAction::RemoveColumn { column, .. } => show_name(text, "|-column ", column),
        ViewAction::ModifyColumn { column, .. } => show_name(text, "|=column ", &column.id),
        ViewAction::BulkRemove { rows, .. } => show_rows(text, "|-rows", rows),
        ViewAction::BulkAdd { rows, columns, .. } => show_cells(text, "|+rows", rows, columns),
        ViewAction::BulkUpdate { rows, columns, .. } => show_cells(text, "|=rows", rows, columns),
    }
}

fn shown(alloc: Global, actions: &ViewActionList) -> Result<String, AllocError> {
    let mut text = String::new(alloc);
    for action in actions.as_slice() {
        show(&mut text, action)?;
    }
    Ok(text)
}

fn is_text(text: &Result<String, AllocError>, want: &str) -> bool {
    match text {
        Ok(text) => text.as_str() == want,
        Err(_) => false,
    }
}

/// Whether the actions were made, and show the wanted lines.
pub fn are_shown(alloc: Global, actions: &Result<ViewActionList, AllocError>, want: &str) -> bool {
    match actions {
        Ok(actions) => is_text(&shown(alloc, actions), want),
        Err(_) => false,
    }
}
