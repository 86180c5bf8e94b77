//! Document actions that tests do, and the plain words for them.

use Change::{
    Add, AddColumn, AddTable, AddWideTable, Define, ModifyColumn, Remove, RemoveColumn,
    RemoveTable, RenameColumn, RenameTable, Update, UpdateList,
};
use cell_types::{CellItem, CellList, CellText, CellValue, ColType, Name, RowList, ValueList};
use doc_model::{CellColumn, ColDef, ColDefList, ColInfo, ColumnList, DocAction};
use std::alloc::{AllocError, Global};

/// An action: the table first, then rows, the id of a column, and what it gives. Records have whole
/// numbers in one column; a new table has columns `X` and `Y` of the last two rows, `Y` given
/// first; a modified or defined column has the formula, or none where that is empty. An updated
/// list of two numbers is the cell of one row. The wide table has one column more than a table may
/// have.
pub(crate) enum Change {
    Add(&'static str, [u32; 2], &'static str, [i64; 2]),
    Update(&'static str, [u32; 2], &'static str, [i64; 2]),
    Remove(&'static str, [u32; 2]),
    AddTable(&'static str, u32, u32, u32),
    AddWideTable,
    RemoveTable(&'static str),
    RenameTable(&'static str, &'static str),
    AddColumn(&'static str, &'static str, u32),
    RemoveColumn(&'static str, &'static str),
    RenameColumn(&'static str, &'static str, &'static str),
    ModifyColumn(&'static str, &'static str, &'static str),
    Define(&'static str, &'static str, u32, Kind, &'static str),
    UpdateList(&'static str, u32, &'static str, [i64; 2]),
}

/// The type of a column.
#[derive(Clone, Copy)]
pub(crate) enum Kind {
    Any,
    Int,
    Ref(&'static str),
    RefList(&'static str),
}

// The records that an action is about.
#[derive(Drop)]
struct Records {
    table: Name,
    rows: RowList,
}

// The column that an action is about.
#[derive(Drop)]
struct Index {
    table: Name,
    column: Name,
}

// A name, which the text has to be.
fn name(alloc: Global, id: &str) -> Result<Name, AllocError> {
    Name::try_new(CellText::copy_of(alloc, id)?).ok_or(AllocError)
}

fn records_of(alloc: Global, table: &str, rows: [u32; 2]) -> Result<Records, AllocError> {
    let rows = RowList::from(Vec::from_array(alloc, rows)?);
    let table = name(alloc, table)?;
    Ok(Records { table, rows })
}

fn index_of(alloc: Global, table: &str, column: &str) -> Result<Index, AllocError> {
    let table = name(alloc, table)?;
    let column = name(alloc, column)?;
    Ok(Index { table, column })
}

fn ints(alloc: Global, values: [i64; 2]) -> Result<ValueList, AllocError> {
    let mut list = ValueList::new(alloc);
    for value in values {
        list.push(CellValue::Int(value))?;
    }
    Ok(list)
}

fn column_of_ints(alloc: Global, id: &str, values: [i64; 2]) -> Result<CellColumn, AllocError> {
    let values = ints(alloc, values)?;
    let id = name(alloc, id)?;
    Ok(CellColumn { id, values })
}

fn columns_of_ints(alloc: Global, id: &str, values: [i64; 2]) -> Result<ColumnList, AllocError> {
    let mut columns = ColumnList::new(alloc);
    columns.push(column_of_ints(alloc, id, values)?)?;
    Ok(columns)
}

fn add(
    alloc: Global,
    table: &str,
    rows: [u32; 2],
    id: &str,
    values: [i64; 2],
) -> Result<DocAction, AllocError> {
    let records = records_of(alloc, table, rows)?;
    let columns = columns_of_ints(alloc, id, values)?;
    Ok(DocAction::BulkAdd {
        table: records.table,
        rows: records.rows,
        columns,
    })
}

fn update(
    alloc: Global,
    table: &str,
    rows: [u32; 2],
    id: &str,
    values: [i64; 2],
) -> Result<DocAction, AllocError> {
    let records = records_of(alloc, table, rows)?;
    let columns = columns_of_ints(alloc, id, values)?;
    Ok(DocAction::BulkUpdate {
        table: records.table,
        rows: records.rows,
        columns,
    })
}

fn remove(alloc: Global, table: &str, rows: [u32; 2]) -> Result<DocAction, AllocError> {
    let records = records_of(alloc, table, rows)?;
    Ok(DocAction::BulkRemove {
        table: records.table,
        rows: records.rows,
    })
}

// A data column of any values.
fn column(alloc: Global, id: &str, row: u32) -> Result<ColDef, AllocError> {
    let id = name(alloc, id)?;
    let info = ColInfo {
        ty: ColType::Any,
        is_formula: false,
        formula: CellText::empty(),
    };
    Ok(ColDef { id, info, row })
}

/// Columns `Y` and `X` of those metadata rows, `Y` first.
pub(crate) fn x_and_y(alloc: Global, x: u32, y: u32) -> Result<ColDefList, AllocError> {
    let mut columns = ColDefList::new(alloc);
    columns.push(column(alloc, "Y", y)?)?;
    columns.push(column(alloc, "X", x)?)?;
    Ok(columns)
}

// A table of these columns.
fn add_table(
    alloc: Global,
    table: &str,
    row: u32,
    columns: ColDefList,
) -> Result<DocAction, AllocError> {
    let table = name(alloc, table)?;
    Ok(DocAction::AddTable {
        table,
        row,
        columns,
    })
}

fn add_x_and_y(
    alloc: Global,
    table: &str,
    row: u32,
    x: u32,
    y: u32,
) -> Result<DocAction, AllocError> {
    let columns = x_and_y(alloc, x, y)?;
    add_table(alloc, table, row, columns)
}

fn numbered_column(alloc: Global, number: u32, row: u32) -> Result<ColDef, AllocError> {
    let id = format!(in alloc; "C{number}")?;
    column(alloc, id.as_str(), row)
}

fn wide_columns(alloc: Global) -> Result<ColDefList, AllocError> {
    let mut columns = ColDefList::new(alloc);
    for number in 0..1025u32 {
        columns.push(numbered_column(alloc, number, 100 + number)?)?;
    }
    Ok(columns)
}

fn add_wide_table(alloc: Global) -> Result<DocAction, AllocError> {
    let columns = wide_columns(alloc)?;
    add_table(alloc, "Wide", 2, columns)
}

fn remove_table(alloc: Global, table: &str) -> Result<DocAction, AllocError> {
    let table = name(alloc, table)?;
    Ok(DocAction::RemoveTable { table })
}

fn rename_table(alloc: Global, table: &str, new: &str) -> Result<DocAction, AllocError> {
    let table = name(alloc, table)?;
    let new = name(alloc, new)?;
    Ok(DocAction::RenameTable { table, new })
}

fn type_of(alloc: Global, kind: Kind) -> Result<ColType, AllocError> {
    match kind {
        Kind::Any => Ok(ColType::Any),
        Kind::Int => Ok(ColType::Int),
        Kind::Ref(table) => Ok(ColType::Ref(name(alloc, table)?)),
        Kind::RefList(table) => Ok(ColType::RefList(name(alloc, table)?)),
    }
}

fn info_of(alloc: Global, kind: Kind, formula: &str) -> Result<ColInfo, AllocError> {
    let text = CellText::copy_of(alloc, formula)?;
    Ok(ColInfo {
        ty: type_of(alloc, kind)?,
        is_formula: !formula.is_empty(),
        formula: text,
    })
}

fn defined(
    alloc: Global,
    id: &str,
    row: u32,
    kind: Kind,
    formula: &str,
) -> Result<ColDef, AllocError> {
    let info = info_of(alloc, kind, formula)?;
    let id = name(alloc, id)?;
    Ok(ColDef { id, info, row })
}

fn define(
    alloc: Global,
    table: &str,
    id: &str,
    row: u32,
    kind: Kind,
    formula: &str,
) -> Result<DocAction, AllocError> {
    let column = defined(alloc, id, row, kind, formula)?;
    let table = name(alloc, table)?;
    Ok(DocAction::AddColumn { table, column })
}

fn list_of(alloc: Global, numbers: [i64; 2]) -> Result<CellList, AllocError> {
    let mut items = CellList::new(alloc);
    for number in numbers {
        items.push(CellItem::Int(number))?;
    }
    Ok(items)
}

fn column_of_list(alloc: Global, id: &str, numbers: [i64; 2]) -> Result<CellColumn, AllocError> {
    let list = list_of(alloc, numbers)?;
    let values = ValueList::from(Vec::from_array(alloc, [CellValue::List(list)])?);
    let id = name(alloc, id)?;
    Ok(CellColumn { id, values })
}

fn columns_of_list(alloc: Global, id: &str, numbers: [i64; 2]) -> Result<ColumnList, AllocError> {
    let mut columns = ColumnList::new(alloc);
    columns.push(column_of_list(alloc, id, numbers)?)?;
    Ok(columns)
}

fn update_list(
    alloc: Global,
    table: &str,
    row: u32,
    id: &str,
    numbers: [i64; 2],
) -> Result<DocAction, AllocError> {
    let columns = columns_of_list(alloc, id, numbers)?;
    let rows = RowList::from(Vec::from_array(alloc, [row])?);
    let table = name(alloc, table)?;
    Ok(DocAction::BulkUpdate {
        table,
        rows,
        columns,
    })
}

fn add_column(alloc: Global, table: &str, id: &str, row: u32) -> Result<DocAction, AllocError> {
    let column = column(alloc, id, row)?;
    let table = name(alloc, table)?;
    Ok(DocAction::AddColumn { table, column })
}

fn remove_column(alloc: Global, table: &str, id: &str) -> Result<DocAction, AllocError> {
    let index = index_of(alloc, table, id)?;
    Ok(DocAction::RemoveColumn {
        table: index.table,
        column: index.column,
    })
}

fn rename_column(alloc: Global, table: &str, id: &str, new: &str) -> Result<DocAction, AllocError> {
    let index = index_of(alloc, table, id)?;
    let new = name(alloc, new)?;
    Ok(DocAction::RenameColumn {
        table: index.table,
        column: index.column,
        new,
    })
}

fn modify_column(
    alloc: Global,
    table: &str,
    id: &str,
    formula: &str,
) -> Result<DocAction, AllocError> {
    let info = info_of(alloc, Kind::Any, formula)?;
    let index = index_of(alloc, table, id)?;
    Ok(DocAction::ModifyColumn {
        table: index.table,
        column: index.column,
        info,
    })
}

/// The action that the words stand for.
pub(crate) fn action_of(alloc: Global, change: &Change) -> Result<DocAction, AllocError> {
    match change {
        Add(table, rows, id, values) => add(alloc, table, *rows, id, *values),
        Update(table, rows, id, values) => update(alloc, table, *rows, id, *values),
        Remove(table, rows) => remove(alloc, table, *rows),
        AddTable(table, row, x, y) => add_x_and_y(alloc, table, *row, *x, *y),
        AddWideTable => add_wide_table(alloc),
        RemoveTable(table) => remove_table(alloc, table),
        RenameTable(table, new) => rename_table(alloc, table, new),
        AddColumn(table, id, row) => add_column(alloc, table, id, *row),
        RemoveColumn(table, id) => remove_column(alloc, table, id),
        RenameColumn(table, id, new) => rename_column(alloc, table, id, new),
        ModifyColumn(table, id, formula) => modify_column(alloc, table, id, formula),
        Define(table, id, row, kind, formula) => define(alloc, table, id, *row, *kind, formula),
        UpdateList(table, row, id, numbers) => update_list(alloc, table, *row, id, *numbers),
    }
}
