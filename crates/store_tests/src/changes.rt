//! Random actions, which need not be valid: their ids, rows and metadata rows are drawn from few.
//!
//! A third of all rows that are named is none, so that actions over no rows come up. What a formula
//! says is nothing to a store: its text is an id.

use crate::draws::Draws;
use cell_types::{CellItem, CellList, CellText, CellValue, ColType, Name, RowList, ValueList};
use doc_model::{CellColumn, ColDef, ColDefList, ColInfo, ColumnList, DocAction};
use std::alloc::{AllocError, Global};

// More than are found by a walk. The last one is there from the start, and no schema action may
// name it.
static TABLES: [&str; 10] = [
    "Table1",
    "Books",
    "Authors",
    "Loans",
    "Readers",
    "Shelves",
    "Rooms",
    "Orders",
    "Fines",
    "_grist_ACLResources",
];

// More than are found by a walk. The last one is a column of that table too.
static COLUMNS: [&str; 12] = [
    "A", "B", "C", "D", "E", "F", "G", "H", "I", "J", "K", "tableId",
];

// The text at that place, the first one where there are fewer.
fn text_at(texts: &'static [&'static str], place: u32) -> &'static str {
    match texts.get(place as usize) {
        Some(text) => text,
        None => texts.first().copied().unwrap_or(""),
    }
}

fn name(alloc: Global, id: &str) -> Result<Name, AllocError> {
    Name::try_new(CellText::copy_of(alloc, id)?).ok_or(AllocError)
}

fn table_id(alloc: Global, draws: &mut Draws) -> Result<Name, AllocError> {
    name(alloc, text_at(&TABLES, draws.number() % 10))
}

fn column_id(alloc: Global, draws: &mut Draws) -> Result<Name, AllocError> {
    name(alloc, text_at(&COLUMNS, draws.number() % 12))
}

// A few numbers.
fn list(alloc: Global, draws: &mut Draws) -> Result<CellValue, AllocError> {
    let mut items = CellList::new(alloc);
    for _item in 0..draws.number() % 3 {
        items.push(CellItem::Int(i64::from(draws.number() % 4)))?;
    }
    Ok(CellValue::List(items))
}

fn text(alloc: Global, draws: &mut Draws) -> Result<CellText, AllocError> {
    CellText::copy_of(alloc, text_at(&COLUMNS, draws.number() % 12))
}

// A value that any data column may hold.
fn value(alloc: Global, draws: &mut Draws) -> Result<CellValue, AllocError> {
    let number = i64::from(draws.number() % 9);
    match draws.number() % 8 {
        0 => Ok(CellValue::Text(text(alloc, draws)?)),
        1 => list(alloc, draws),
        2 => Ok(CellValue::Bool(number < 4)),
        3 => Ok(CellValue::Date(number)),
        4 | 5 => Ok(CellValue::Int(number)),
        _ => Ok(CellValue::Null),
    }
}

fn values(alloc: Global, draws: &mut Draws, count: usize) -> Result<ValueList, AllocError> {
    let mut values = ValueList::new(alloc);
    for _row in 0..count {
        values.push(value(alloc, draws)?)?;
    }
    Ok(values)
}

fn cell_column(alloc: Global, draws: &mut Draws, count: usize) -> Result<CellColumn, AllocError> {
    let values = values(alloc, draws, count)?;
    let id = column_id(alloc, draws)?;
    Ok(CellColumn { id, values })
}

// Values of up to two columns.
fn columns(alloc: Global, draws: &mut Draws, count: usize) -> Result<ColumnList, AllocError> {
    let mut columns = ColumnList::new(alloc);
    for _column in 0..draws.number() % 3 {
        columns.push(cell_column(alloc, draws, count)?)?;
    }
    Ok(columns)
}

// Up to two rows among the first twelve, in any order.
fn rows(alloc: Global, draws: &mut Draws) -> Result<Vec<u32>, AllocError> {
    let mut rows = Vec::new(alloc);
    for _row in 0..draws.number() % 3 {
        rows.push(1 + draws.number() % 12)?;
    }
    Ok(rows)
}

fn add(alloc: Global, draws: &mut Draws) -> Result<DocAction, AllocError> {
    let rows = rows(alloc, draws)?;
    let columns = columns(alloc, draws, rows.len())?;
    let table = table_id(alloc, draws)?;
    let rows = RowList::from(rows);
    Ok(DocAction::BulkAdd {
        table,
        rows,
        columns,
    })
}

fn update(alloc: Global, draws: &mut Draws) -> Result<DocAction, AllocError> {
    let rows = rows(alloc, draws)?;
    let columns = columns(alloc, draws, rows.len())?;
    let table = table_id(alloc, draws)?;
    let rows = RowList::from(rows);
    Ok(DocAction::BulkUpdate {
        table,
        rows,
        columns,
    })
}

fn remove(alloc: Global, draws: &mut Draws) -> Result<DocAction, AllocError> {
    let rows = RowList::from(rows(alloc, draws)?);
    let table = table_id(alloc, draws)?;
    Ok(DocAction::BulkRemove { table, rows })
}

fn column_type(alloc: Global, draws: &mut Draws) -> Result<ColType, AllocError> {
    match draws.number() % 7 {
        0 => Ok(ColType::Text),
        1 => Ok(ColType::Int),
        2 => Ok(ColType::Bool),
        3 => Ok(ColType::Date),
        4 => Ok(ColType::Ref(table_id(alloc, draws)?)),
        5 => Ok(ColType::RefList(table_id(alloc, draws)?)),
        _ => Ok(ColType::Any),
    }
}

fn formula(alloc: Global, draws: &mut Draws, is_formula: bool) -> Result<CellText, AllocError> {
    if is_formula {
        text(alloc, draws)
    } else {
        Ok(CellText::empty())
    }
}

fn info(alloc: Global, draws: &mut Draws) -> Result<ColInfo, AllocError> {
    let is_formula = draws.number() % 4 == 0;
    let formula = formula(alloc, draws, is_formula)?;
    let ty = column_type(alloc, draws)?;
    Ok(ColInfo {
        ty,
        is_formula,
        formula,
    })
}

fn definition(alloc: Global, draws: &mut Draws, id: &str) -> Result<ColDef, AllocError> {
    let info = info(alloc, draws)?;
    let id = name(alloc, id)?;
    let row = 1 + draws.number() % 900;
    Ok(ColDef { id, info, row })
}

// Most of the columns, in the order of their ids.
fn definitions(alloc: Global, draws: &mut Draws) -> Result<ColDefList, AllocError> {
    let mut columns = ColDefList::new(alloc);
    for place in 0..12 {
        if draws.number() % 3 != 0 {
            columns.push(definition(alloc, draws, text_at(&COLUMNS, place))?)?;
        }
    }
    Ok(columns)
}

fn add_table(alloc: Global, draws: &mut Draws) -> Result<DocAction, AllocError> {
    let columns = definitions(alloc, draws)?;
    let table = table_id(alloc, draws)?;
    let row = 1 + draws.number() % 40;
    Ok(DocAction::AddTable {
        table,
        row,
        columns,
    })
}

fn remove_table(alloc: Global, draws: &mut Draws) -> Result<DocAction, AllocError> {
    let table = table_id(alloc, draws)?;
    Ok(DocAction::RemoveTable { table })
}

fn rename_table(alloc: Global, draws: &mut Draws) -> Result<DocAction, AllocError> {
    let table = table_id(alloc, draws)?;
    let new = table_id(alloc, draws)?;
    Ok(DocAction::RenameTable { table, new })
}

fn add_column(alloc: Global, draws: &mut Draws) -> Result<DocAction, AllocError> {
    let id = text_at(&COLUMNS, draws.number() % 12);
    let column = definition(alloc, draws, id)?;
    let table = table_id(alloc, draws)?;
    Ok(DocAction::AddColumn { table, column })
}

fn remove_column(alloc: Global, draws: &mut Draws) -> Result<DocAction, AllocError> {
    let column = column_id(alloc, draws)?;
    let table = table_id(alloc, draws)?;
    Ok(DocAction::RemoveColumn { table, column })
}

fn rename_column(alloc: Global, draws: &mut Draws) -> Result<DocAction, AllocError> {
    let column = column_id(alloc, draws)?;
    let new = column_id(alloc, draws)?;
    let table = table_id(alloc, draws)?;
    Ok(DocAction::RenameColumn { table, column, new })
}

fn modify_column(alloc: Global, draws: &mut Draws) -> Result<DocAction, AllocError> {
    let info = info(alloc, draws)?;
    let column = column_id(alloc, draws)?;
    let table = table_id(alloc, draws)?;
    Ok(DocAction::ModifyColumn {
        table,
        column,
        info,
    })
}

// More tables and columns are added than go, so that there are many.
fn schema_change(alloc: Global, draws: &mut Draws) -> Result<DocAction, AllocError> {
    match draws.number() % 16 {
        0 => remove_table(alloc, draws),
        1 => rename_table(alloc, draws),
        2 | 3 | 4 => add_table(alloc, draws),
        5 | 6 => remove_column(alloc, draws),
        7 | 8 => rename_column(alloc, draws),
        9 | 10 | 11 => modify_column(alloc, draws),
        _ => add_column(alloc, draws),
    }
}

/// The next action.
pub(crate) fn change(alloc: Global, draws: &mut Draws) -> Result<DocAction, AllocError> {
    match draws.number() % 8 {
        0 => remove(alloc, draws),
        1 | 2 => update(alloc, draws),
        3 | 4 | 5 => add(alloc, draws),
        _ => schema_change(alloc, draws),
    }
}
