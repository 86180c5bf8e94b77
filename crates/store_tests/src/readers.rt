//! Whether two readers tell the same document.

use cell_types::{CellValue, Name, Same};
use doc_model::{ColDef, DocReader};
use std::alloc::Global;

// As many tables and columns as any document has here, or more.
const MOST_TABLES: usize = 13;

const MOST_COLUMNS: usize = 12;

fn is_cell_same(left: Option<&CellValue>, right: Option<&CellValue>) -> bool {
    match (left, right) {
        (Some(one), Some(other)) => one.same_as(other),
        _ => false,
    }
}

// Whether both list the same cells of the column in these rows.
fn are_cells_same<L: DocReader, R: DocReader>(
    alloc: Global,
    left: &L,
    right: &R,
    table: &Name,
    column: &Name,
    rows: &[u32],
) -> bool {
    match (
        left.cells(alloc, table, column, rows),
        right.cells(alloc, table, column, rows),
    ) {
        (Ok(cells), Ok(others)) => cells
            .iter()
            .zip(others.iter())
            .all(|(one, other)| is_cell_same(*one, *other)),
        _ => false,
    }
}

// Whether both define the column alike.
fn is_definition_same(left: &ColDef, right: &ColDef) -> bool {
    left.id.same_as(&right.id)
        && left.row == right.row
        && left.info.ty.same_as(&right.info.ty)
        && left.info.is_formula == right.info.is_formula
        && left.info.formula.same_as(&right.info.formula)
}

// Whether both tell the same of the column at that index of the table in these rows, or have none
// there.
fn is_column_same<L: DocReader, R: DocReader>(
    alloc: Global,
    left: &L,
    right: &R,
    table: &Name,
    index: usize,
    rows: &[u32],
) -> bool {
    match (left.column(table, index), right.column(table, index)) {
        (Some(column), Some(other)) => {
            index < MOST_COLUMNS
                && is_definition_same(column, other)
                && are_cells_same(alloc, left, right, table, &column.id, rows)
                && rows.iter().all(|row| {
                    is_cell_same(
                        left.cell(table, &column.id, *row),
                        right.cell(table, &column.id, *row),
                    )
                })
        }
        (None, None) => true,
        _ => false,
    }
}

// Whether both tell the same of the table.
fn is_table_same<L: DocReader, R: DocReader>(
    alloc: Global,
    left: &L,
    right: &R,
    table: &Name,
) -> bool {
    match (left.rows(table), right.rows(table)) {
        (Some(rows), Some(others)) => {
            rows == others
                && (0..=MOST_COLUMNS).all(|index| is_column_same(
                    alloc, left, right, table, index, rows,
                ))
        }
        _ => false,
    }
}

// Whether both have the same table at that index, or none there.
fn is_same_at<L: DocReader, R: DocReader>(
    alloc: Global,
    left: &L,
    right: &R,
    index: usize,
) -> bool {
    match (left.table(index), right.table(index)) {
        (Some(table), Some(other)) => {
            index < MOST_TABLES && table.same_as(other) && is_table_same(alloc, left, right, table)
        }
        (None, None) => true,
        _ => false,
    }
}

/// Whether both tell the same tables in order, each with its columns in order, what these are, its
/// rows, and its cells one by one and by column; without memory for the latter that is false.
pub(crate) fn are_same<L: DocReader, R: DocReader>(alloc: Global, left: &L, right: &R) -> bool {
    (0..=MOST_TABLES).all(|index| is_same_at(alloc, left, right, index))
}
