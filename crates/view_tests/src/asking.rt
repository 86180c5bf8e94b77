//! The user actions of these tests, written as parts that can be copied.

use cell_types::CellText;
use doc_model::{IdList, UserAction, UserActionList, UserCol, UserColList, UserColumnList};
use std::alloc::{AllocError, Global};

/// A user action: the row 1 twice in a table; a table that is removed; a new one with a column of
/// this id, type and formula; or a new table `Work` with a column `A` that is said to be a data
/// column and has the formula, or that has one of so many bytes.
#[derive(Clone, Copy)]
pub enum Asked {
    Update(&'static str),
    RemoveTable(&'static str),
    AddTable(&'static str, &'static str, &'static str, &'static str),
    AddData(&'static str),
    AddLong(usize),
}

fn text(alloc: Global, text: &str) -> Result<CellText, AllocError> {
    CellText::copy_of(alloc, text)
}

fn ones(alloc: Global) -> Result<IdList, AllocError> {
    Ok(IdList::from(Vec::from_array(alloc, [1, 1])?))
}

fn update(alloc: Global, table: &str) -> Result<UserAction, AllocError> {
    let rows = ones(alloc)?;
    Ok(UserAction::Update {
        table: text(alloc, table)?,
        single: false,
        rows,
        columns: UserColumnList::new(alloc),
    })
}

fn remove_table(alloc: Global, table: &str) -> Result<UserAction, AllocError> {
    Ok(UserAction::RemoveTable {
        table: text(alloc, table)?,
    })
}

fn column(alloc: Global, id: &str, ty: &str, formula: &str) -> Result<UserCol, AllocError> {
    Ok(UserCol {
        id: text(alloc, id)?,
        ty: Some(text(alloc, ty)?),
        is_formula: None,
        formula: Some(text(alloc, formula)?),
    })
}

fn columns(alloc: Global, id: &str, ty: &str, formula: &str) -> Result<UserColList, AllocError> {
    let mut columns = UserColList::new(alloc);
    columns.push(column(alloc, id, ty, formula)?)?;
    Ok(columns)
}

fn data_columns(alloc: Global, formula: &str) -> Result<UserColList, AllocError> {
    let mut columns = UserColList::new(alloc);
    columns.push(UserCol {
        is_formula: Some(false),
        ..column(alloc, "A", "Int", formula)?
    })?;
    Ok(columns)
}

fn add_data(alloc: Global, formula: &str) -> Result<UserAction, AllocError> {
    let columns = data_columns(alloc, formula)?;
    Ok(UserAction::AddTable {
        table: text(alloc, "Work")?,
        columns,
    })
}

fn add_long(alloc: Global, bytes: usize) -> Result<UserAction, AllocError> {
    let mut formula = String::new(alloc);
    for _ in 0..bytes {
        formula.push_str("1")?;
    }
    add_table(alloc, "Work", "A", "Int", &formula)
}

fn add_table(
    alloc: Global,
    table: &str,
    id: &str,
    ty: &str,
    formula: &str,
) -> Result<UserAction, AllocError> {
    let columns = columns(alloc, id, ty, formula)?;
    Ok(UserAction::AddTable {
        table: text(alloc, table)?,
        columns,
    })
}

fn action_of(alloc: Global, asked: Asked) -> Result<UserAction, AllocError> {
    match asked {
        Asked::Update(table) => update(alloc, table),
        Asked::RemoveTable(table) => remove_table(alloc, table),
        Asked::AddTable(table, id, ty, formula) => add_table(alloc, table, id, ty, formula),
        Asked::AddData(formula) => add_data(alloc, formula),
        Asked::AddLong(bytes) => add_long(alloc, bytes),
    }
}

/// The action that is asked, alone in a list.
pub fn actions_of(alloc: Global, asked: Asked) -> Result<UserActionList, AllocError> {
    let mut actions = UserActionList::new(alloc);
    actions.push(action_of(alloc, asked)?)?;
    Ok(actions)
}
