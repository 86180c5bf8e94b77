//! The actions that the views of these tests are made by, written as parts that can be copied.

use cell_types::{CellText, CellValue, ColType, Name, RowList, ValueList};
use doc_model::{CellColumn, ColumnList, ViewAction, ViewActionList, ViewCol, ViewColList};
use std::alloc::{AllocError, Global};

/// A value of a cell.
#[derive(Clone, Copy)]
pub enum Part {
    Null,
    Int(i64),
    Bool(bool),
}

/// The type of a column.
#[derive(Clone, Copy)]
pub enum Kind {
    Any,
    Int,
    Bool,
}

/// An action: a table with these columns, or rows of the table B that are added or removed.
#[derive(Clone, Copy)]
pub enum Step {
    Table(&'static str, &'static [(&'static str, Kind)]),
    Rows(&'static [u32], &'static [(&'static str, &'static [Part])]),
    Removed(&'static [u32]),
}

/// The name of a text that has the length of one.
pub fn name(alloc: Global, text: &str) -> Result<Name, AllocError> {
    Name::try_new(CellText::copy_of(alloc, text)?).ok_or(AllocError)
}

fn type_of(kind: Kind) -> ColType {
    match kind {
        Kind::Any => ColType::Any,
        Kind::Int => ColType::Int,
        Kind::Bool => ColType::Bool,
    }
}

fn column(alloc: Global, id: &str, kind: Kind) -> Result<ViewCol, AllocError> {
    Ok(ViewCol {
        id: name(alloc, id)?,
        ty: type_of(kind),
        is_formula: false,
        formula: None,
    })
}

fn columns_of(alloc: Global, columns: &[(&str, Kind)]) -> Result<ViewColList, AllocError> {
    let mut list = ViewColList::new(alloc);
    for part in columns {
        list.push(column(alloc, part.0, part.1)?)?;
    }
    Ok(list)
}

fn table(alloc: Global, id: &str, columns: &[(&str, Kind)]) -> Result<ViewAction, AllocError> {
    let columns = columns_of(alloc, columns)?;
    Ok(ViewAction::AddTable {
        table: name(alloc, id)?,
        columns,
    })
}

fn value_of(part: Part) -> CellValue {
    match part {
        Part::Null => CellValue::Null,
        Part::Int(number) => CellValue::Int(number),
        Part::Bool(truth) => CellValue::Bool(truth),
    }
}

fn values_of(alloc: Global, parts: &[Part]) -> Result<ValueList, AllocError> {
    let mut values = ValueList::new(alloc);
    for part in parts {
        values.push(value_of(*part))?;
    }
    Ok(values)
}

fn cells(alloc: Global, id: &str, parts: &[Part]) -> Result<CellColumn, AllocError> {
    let values = values_of(alloc, parts)?;
    Ok(CellColumn {
        id: name(alloc, id)?,
        values,
    })
}

fn cells_of(alloc: Global, columns: &[(&str, &[Part])]) -> Result<ColumnList, AllocError> {
    let mut list = ColumnList::new(alloc);
    for column in columns {
        list.push(cells(alloc, column.0, column.1)?)?;
    }
    Ok(list)
}

fn rows_of(alloc: Global, rows: &[u32]) -> Result<RowList, AllocError> {
    Ok(RowList::from(Vec::from_slice(alloc, rows)?))
}

fn added(
    alloc: Global,
    rows: &[u32],
    columns: &[(&str, &[Part])],
) -> Result<ViewAction, AllocError> {
    let columns = cells_of(alloc, columns)?;
    let rows = rows_of(alloc, rows)?;
    Ok(ViewAction::BulkAdd {
        table: name(alloc, "B")?,
        rows,
        columns,
    })
}

fn removed(alloc: Global, rows: &[u32]) -> Result<ViewAction, AllocError> {
    let rows = rows_of(alloc, rows)?;
    Ok(ViewAction::BulkRemove {
        table: name(alloc, "B")?,
        rows,
    })
}

fn action_of(alloc: Global, step: Step) -> Result<ViewAction, AllocError> {
    match step {
        Step::Table(id, columns) => table(alloc, id, columns),
        Step::Rows(rows, columns) => added(alloc, rows, columns),
        Step::Removed(rows) => removed(alloc, rows),
    }
}

/// The actions that steps stand for.
pub fn actions_of(alloc: Global, steps: &[Step]) -> Result<ViewActionList, AllocError> {
    let mut actions = ViewActionList::new(alloc);
    for step in steps {
        actions.push(action_of(alloc, *step)?)?;
    }
    Ok(actions)
}
