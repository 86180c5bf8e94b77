//! Random actions on a table and one beside it: records that come, go and are updated, formulas and
//! types that change, columns and the other table that come, go and are renamed.
//!
//! The table is `Table1` of a new document: `A` and `B` hold small numbers, `C` lists of them, `R`
//! refers to records of the table; `F1` to `F9` have formulas. The other is `Other`, or `Third`:
//! `P` holds small numbers, `G` and `H` have formulas. What is drawn need not be valid.

use crate::draws::Draws;
use cell_types::{CellItem, CellList, CellText, CellValue, ColType, Name, RowList, ValueList};
use doc_model::{CellColumn, ColDef, ColDefList, ColInfo, ColumnList, DocAction};
use std::alloc::{AllocError, Global};

const TABLE: &str = "Table1";

const OTHER: &str = "Other";

// Sums over lookups, chains, choices, references, lists, cells that may need themselves, and reads
// of a table that need not be there.
static FORMULAS: [&str; 15] = [
    "$A + 1",
    "SUM(Table1.lookupRecords(A=$A).B)",
    "Table1.lookupOne(id=$id - 1).F3 + $A",
    "$R.A",
    "IF($A > 1, $F4, $R.F5)",
    "len(Table1.lookupRecords(R=$R))",
    "MAX(Table1.lookupRecords(F1=$A).id)",
    "IF($B > 1, $F9, $F1 * 2)",
    "$F8 + SUM(Table1.all.A)",
    "len(Table1.lookupRecords(C=CONTAINS($A)))",
    "Table1.lookupOne(A=$B, B=$A).F2",
    "$B // $A",
    "SUM(Other.all.P) + $B",
    "len(Other.lookupRecords(P=$A))",
    "IFERROR(Other.lookupOne(P=$B).H, $A)",
];

// The formula columns.
static COLUMNS: [&str; 9] = ["F1", "F2", "F3", "F4", "F5", "F6", "F7", "F8", "F9"];

/// A name.
pub(crate) fn name(alloc: Global, id: &str) -> Result<Name, AllocError> {
    Name::try_new(CellText::copy_of(alloc, id)?).ok_or(AllocError)
}

// The text at that place, the first one where there are fewer.
fn text_at(texts: &'static [&'static str], place: u32) -> &'static str {
    match texts.get(place as usize) {
        Some(text) => text,
        None => texts.first().copied().unwrap_or(""),
    }
}

// A small number, or null.
fn number_or_null(draws: &mut Draws) -> CellValue {
    match draws.number() % 8 {
        7 => CellValue::Null,
        number => CellValue::Int(i64::from(number) - 1),
    }
}

fn list(alloc: Global, draws: &mut Draws) -> Result<CellValue, AllocError> {
    let mut items = CellList::new(alloc);
    for _item in 0..draws.number() % 3 {
        items.push(CellItem::Int(i64::from(draws.number() % 4)))?;
    }
    Ok(CellValue::List(items))
}

fn value(alloc: Global, draws: &mut Draws, is_list: bool) -> Result<CellValue, AllocError> {
    if is_list {
        return list(alloc, draws);
    }
    Ok(number_or_null(draws))
}

fn values(
    alloc: Global,
    draws: &mut Draws,
    count: usize,
    is_list: bool,
) -> Result<ValueList, AllocError> {
    let mut values = ValueList::new(alloc);
    for _row in 0..count {
        values.push(value(alloc, draws, is_list)?)?;
    }
    Ok(values)
}

fn cell_column(
    alloc: Global,
    draws: &mut Draws,
    id: &str,
    count: usize,
) -> Result<CellColumn, AllocError> {
    let values = values(alloc, draws, count, id == "C")?;
    let id = name(alloc, id)?;
    Ok(CellColumn { id, values })
}

// Values of one or two data columns.
fn columns(alloc: Global, draws: &mut Draws, count: usize) -> Result<ColumnList, AllocError> {
    let mut columns = ColumnList::new(alloc);
    let first = draws.number() % 4;
    columns.push(cell_column(alloc, draws, text_at(&["A", "B", "C", "R"], first), count)?)?;
    if draws.number() % 2 == 0 {
        let id = text_at(&["B", "C", "R", "A"], first);
        columns.push(cell_column(alloc, draws, id, count)?)?;
    }
    Ok(columns)
}

// One or two rows among the first ten, ascending.
fn rows(alloc: Global, draws: &mut Draws) -> Result<Vec<u32>, AllocError> {
    let mut rows = Vec::new(alloc);
    let mut row = 0u32;
    for _row in 0..1 + draws.number() % 2 {
        row = row.wrapping_add(1 + draws.number() % 5);
        rows.push(row)?;
    }
    Ok(rows)
}

// Rows of the other table.
fn add_other(alloc: Global, draws: &mut Draws) -> Result<DocAction, AllocError> {
    let rows = rows(alloc, draws)?;
    let mut columns = ColumnList::new(alloc);
    columns.push(cell_column(alloc, draws, "P", rows.len())?)?;
    let table = name(alloc, OTHER)?;
    let rows = RowList::from(rows);
    Ok(DocAction::BulkAdd {
        table,
        rows,
        columns,
    })
}

fn add(alloc: Global, draws: &mut Draws) -> Result<DocAction, AllocError> {
    let rows = rows(alloc, draws)?;
    let columns = columns(alloc, draws, rows.len())?;
    let table = name(alloc, TABLE)?;
    let rows = RowList::from(rows);
    Ok(DocAction::BulkAdd {
        table,
        rows,
        columns,
    })
}

fn update(alloc: Global, draws: &mut Draws) -> Result<DocAction, AllocError> {
    let rows = rows(alloc, draws)?;
    let columns = columns(alloc, draws, rows.len())?;
    let table = name(alloc, TABLE)?;
    let rows = RowList::from(rows);
    Ok(DocAction::BulkUpdate {
        table,
        rows,
        columns,
    })
}

fn remove(alloc: Global, draws: &mut Draws) -> Result<DocAction, AllocError> {
    let rows = RowList::from(rows(alloc, draws)?);
    let table = name(alloc, TABLE)?;
    Ok(DocAction::BulkRemove { table, rows })
}

fn formula_info(alloc: Global, formula: &str) -> Result<ColInfo, AllocError> {
    Ok(ColInfo {
        ty: ColType::Any,
        is_formula: true,
        formula: CellText::copy_of(alloc, formula)?,
    })
}

/// Gives a column a formula.
pub(crate) fn modify(alloc: Global, column: &str, formula: &str) -> Result<DocAction, AllocError> {
    let info = formula_info(alloc, formula)?;
    let column = name(alloc, column)?;
    let table = name(alloc, TABLE)?;
    Ok(DocAction::ModifyColumn {
        table,
        column,
        info,
    })
}

fn add_column(
    alloc: Global,
    column: &str,
    row: u32,
    info: ColInfo,
) -> Result<DocAction, AllocError> {
    let id = name(alloc, column)?;
    let table = name(alloc, TABLE)?;
    let column = ColDef { id, info, row };
    Ok(DocAction::AddColumn { table, column })
}

/// Adds a column with a formula.
pub(crate) fn add_formula(
    alloc: Global,
    column: &str,
    row: u32,
    formula: &str,
) -> Result<DocAction, AllocError> {
    let info = formula_info(alloc, formula)?;
    add_column(alloc, column, row, info)
}

/// Adds a column of any values.
pub(crate) fn add_data(alloc: Global, column: &str, row: u32) -> Result<DocAction, AllocError> {
    let info = data_info(alloc, ColType::Any)?;
    add_column(alloc, column, row, info)
}

// The column of references.
fn add_references(alloc: Global) -> Result<DocAction, AllocError> {
    let info = ColInfo {
        ty: ColType::Ref(name(alloc, TABLE)?),
        is_formula: false,
        formula: CellText::empty(),
    };
    add_column(alloc, "R", 4, info)
}

fn remove_column(alloc: Global, column: &str) -> Result<DocAction, AllocError> {
    let column = name(alloc, column)?;
    let table = name(alloc, TABLE)?;
    Ok(DocAction::RemoveColumn { table, column })
}

fn rename_column(alloc: Global, column: &str, new: &str) -> Result<DocAction, AllocError> {
    let column = name(alloc, column)?;
    let new = name(alloc, new)?;
    let table = name(alloc, TABLE)?;
    Ok(DocAction::RenameColumn { table, column, new })
}

/// The actions that make the columns: the references, then the formula columns, by number from 0.
pub(crate) fn opening(alloc: Global, number: u32) -> Result<DocAction, AllocError> {
    let Some(place) = number.checked_sub(1) else {
        return add_references(alloc);
    };
    let column = text_at(&COLUMNS, place);
    add_formula(
        alloc,
        column,
        number.wrapping_add(4),
        text_at(&FORMULAS, place),
    )
}

fn data_info(alloc: Global, ty: ColType) -> Result<ColInfo, AllocError> {
    Ok(ColInfo {
        ty,
        is_formula: false,
        formula: CellText::empty(),
    })
}

// Gives a data column another type; its cells stay.
fn retype(alloc: Global, ty: ColType) -> Result<DocAction, AllocError> {
    let info = data_info(alloc, ty)?;
    let column = name(alloc, "A")?;
    let table = name(alloc, TABLE)?;
    Ok(DocAction::ModifyColumn {
        table,
        column,
        info,
    })
}

fn definition(alloc: Global, id: &str, row: u32, info: ColInfo) -> Result<ColDef, AllocError> {
    let id = name(alloc, id)?;
    Ok(ColDef { id, info, row })
}

/// Adds the other table.
pub(crate) fn add_table(alloc: Global) -> Result<DocAction, AllocError> {
    let sum = formula_info(alloc, "SUM(Table1.lookupRecords(A=$P).B)")?;
    let next = formula_info(alloc, "$G + len(Table1.all)")?;
    let mut columns = ColDefList::new(alloc);
    columns.push(definition(alloc, "P", 15, data_info(alloc, ColType::Any)?)?)?;
    columns.push(definition(alloc, "G", 16, sum)?)?;
    columns.push(definition(alloc, "H", 17, next)?)?;
    let table = name(alloc, OTHER)?;
    Ok(DocAction::AddTable {
        table,
        row: 2,
        columns,
    })
}

fn remove_table(alloc: Global) -> Result<DocAction, AllocError> {
    let table = name(alloc, OTHER)?;
    Ok(DocAction::RemoveTable { table })
}

fn rename_table(alloc: Global, table: &str, new: &str) -> Result<DocAction, AllocError> {
    let table = name(alloc, table)?;
    let new = name(alloc, new)?;
    Ok(DocAction::RenameTable { table, new })
}

fn table_change(alloc: Global, draws: &mut Draws) -> Result<DocAction, AllocError> {
    match draws.number() % 8 {
        0 => remove_table(alloc),
        1 => rename_table(alloc, OTHER, "Third"),
        2 | 3 => rename_table(alloc, "Third", OTHER),
        4 | 5 => add_table(alloc),
        _ => add_other(alloc, draws),
    }
}

fn schema_change(alloc: Global, draws: &mut Draws) -> Result<DocAction, AllocError> {
    let column = text_at(&COLUMNS, draws.number() % 9);
    let formula = text_at(&FORMULAS, draws.number() % 15);
    match draws.number() % 10 {
        0 => add_formula(alloc, "X", 14, formula),
        1 => remove_column(alloc, "X"),
        2 => rename_column(alloc, "B", "D"),
        3 => rename_column(alloc, "D", "B"),
        4 => rename_column(alloc, "F2", "X"),
        5 => retype(alloc, ColType::Int),
        6 => retype(alloc, ColType::Any),
        _ => modify(alloc, column, formula),
    }
}

/// The next action: most are updates.
pub(crate) fn change(alloc: Global, draws: &mut Draws) -> Result<DocAction, AllocError> {
    match draws.number() % 16 {
        0 => schema_change(alloc, draws),
        5 => table_change(alloc, draws),
        1 | 2 | 3 => add(alloc, draws),
        4 => remove(alloc, draws),
        _ => update(alloc, draws),
    }
}
