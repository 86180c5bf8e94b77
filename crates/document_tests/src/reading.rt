//! A document as one line of text.
//!
//! `T` and the rows of the table of tables, `C` and those of the table of columns; then each plain
//! table: its id, its columns, a formula behind a `=`, and each row with its cells, null as `-`.
//! What reads a document may be a store or the evaluated document over it.

use cell_types::{CellValue, Name, text_of};
use doc_model::{ColDef, DocReader};
use std::alloc::{AllocError, Global};

fn write_rows(text: &mut String, mark: &str, rows: &[u32]) -> Result<(), AllocError> {
    text.push_str(mark)?;
    for row in rows {
        write!(text, " {row}")?;
    }
    Ok(())
}

fn write_column(text: &mut String, column: &ColDef) -> Result<(), AllocError> {
    write!(text, " {}", column.id.as_str())?;
    if column.info.is_formula {
        write!(text, "={}", column.info.formula.as_str())?;
    }
    Ok(())
}

/// Adds a value: null as `-`, what is too long as `?`.
pub(crate) fn write_value(
    alloc: Global,
    text: &mut String,
    value: &CellValue,
) -> Result<(), AllocError> {
    match value {
        CellValue::Null => text.push_str(" -"),
        _ => match text_of(alloc, value)? {
            Some(shown) => write!(text, " {}", shown.as_str()),
            None => text.push_str(" ?"),
        },
    }
}

fn write_cells<R: DocReader>(
    alloc: Global,
    text: &mut String,
    document: &R,
    table: &Name,
    row: u32,
) -> Result<(), AllocError> {
    write!(text, "; {row}:")?;
    for index in 0..9 {
        if let Some(column) = document.column(table, index) {
            if let Some(value) = document.cell(table, &column.id, row) {
                write_value(alloc, text, value)?;
            }
        }
    }
    Ok(())
}

fn write_columns<R: DocReader>(
    text: &mut String,
    document: &R,
    table: &Name,
) -> Result<(), AllocError> {
    for index in 0..9 {
        if let Some(column) = document.column(table, index) {
            write_column(text, column)?;
        }
    }
    Ok(())
}

fn write_table<R: DocReader>(
    alloc: Global,
    text: &mut String,
    document: &R,
    table: &Name,
) -> Result<(), AllocError> {
    write!(text, "; {}", table.as_str())?;
    write_columns(text, document, table)?;
    if let Some(rows) = document.rows(table) {
        for row in rows {
            write_cells(alloc, text, document, table, *row)?;
        }
    }
    Ok(())
}

// The rows of the table at an index.
fn rows_at<R: DocReader>(document: &R, index: usize) -> &[u32] {
    match document.table(index) {
        Some(table) => document.rows(table).unwrap_or(&[]),
        None => &[],
    }
}

// Adds the plain tables, up to five.
fn write_tables<R: DocReader>(
    alloc: Global,
    text: &mut String,
    document: &R,
) -> Result<(), AllocError> {
    for index in 4..9 {
        if let Some(table) = document.table(index) {
            write_table(alloc, text, document, table)?;
        }
    }
    Ok(())
}

// The document in that form, up to five plain tables of nine columns.
fn reading<R: DocReader>(alloc: Global, document: &R) -> Result<String, AllocError> {
    let mut text = String::new(alloc);
    write_rows(&mut text, "T", rows_at(document, 0))?;
    write_rows(&mut text, "; C", rows_at(document, 1))?;
    write_tables(alloc, &mut text, document)?;
    Ok(text)
}

/// Whether the text was made, and is the wanted one.
pub(crate) fn is_text(text: &Result<String, AllocError>, want: &str) -> bool {
    match text {
        Ok(text) => text.as_str() == want,
        Err(_) => false,
    }
}

/// Whether the document has this form.
pub(crate) fn reads_as<R: DocReader>(alloc: Global, document: &R, want: &str) -> bool {
    is_text(&reading(alloc, document), want)
}
