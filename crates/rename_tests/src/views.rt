//! Views for tests, written as parts that can be copied.

use cell_types::{CellText, CellValue, ColType, Name, RowList, ValueList};
use doc_model::{CellRowList, View, ViewCol, ViewColList, ViewTable, ViewTableList};
use std::alloc::{AllocError, Global};

/// What a column is of.
#[derive(Clone, Copy)]
pub enum Kind {
    Any,
    Int,
    Ref(&'static str),
    RefList(&'static str),
}

/// A column: its table, its id, what it is of, and its formula. A formula `?` is hidden, and `#` is
/// one of `$K` and blanks, as long as formulas may be.
pub type Column = (&'static str, &'static str, Kind, &'static str);

/// The texts of a resource: its table and its columns.
pub type ResourceRow = (&'static str, &'static str);

/// A rule: the row of its resource, its formula, and the attribute that it says.
pub type RuleRow = (i64, &'static str, &'static str);

/// The name of a text that has the length of one.
pub fn name(alloc: Global, text: &str) -> Result<Name, AllocError> {
    Name::try_new(CellText::copy_of(alloc, text)?).ok_or(AllocError)
}

fn type_of(alloc: Global, kind: Kind) -> Result<ColType, AllocError> {
    match kind {
        Kind::Any => Ok(ColType::Any),
        Kind::Int => Ok(ColType::Int),
        Kind::Ref(table) => Ok(ColType::Ref(name(alloc, table)?)),
        Kind::RefList(table) => Ok(ColType::RefList(name(alloc, table)?)),
    }
}

fn long_formula(alloc: Global) -> Result<CellText, AllocError> {
    let mut text = String::from_str(alloc, "$K")?;
    for _ in 0..4094 {
        text.push(' ')?;
    }
    CellText::from_string(text)
}

fn formula_of(alloc: Global, formula: &str) -> Result<Option<CellText>, AllocError> {
    match formula {
        "?" => Ok(None),
        "#" => Ok(Some(long_formula(alloc)?)),
        _ => Ok(Some(CellText::copy_of(alloc, formula)?)),
    }
}

fn column(
    alloc: Global,
    id: &str,
    kind: Kind,
    is_formula: bool,
    formula: &str,
) -> Result<ViewCol, AllocError> {
    let id = name(alloc, id)?;
    let ty = type_of(alloc, kind)?;
    Ok(ViewCol {
        id,
        ty,
        is_formula,
        formula: formula_of(alloc, formula)?,
    })
}

fn columns_of(alloc: Global, table: &str, all: &[Column]) -> Result<ViewColList, AllocError> {
    let mut columns = ViewColList::new(alloc);
    for (own, id, kind, formula) in all {
        if *own == table {
            columns.push(column(alloc, id, *kind, !formula.is_empty(), formula)?)?;
        }
    }
    Ok(columns)
}

// A table without rows.
fn table_of(alloc: Global, id: &str, all: &[Column]) -> Result<ViewTable, AllocError> {
    let columns = columns_of(alloc, id, all)?;
    Ok(ViewTable {
        id: name(alloc, id)?,
        columns,
        rows: RowList::new(alloc),
        cells: CellRowList::new(alloc),
    })
}

fn text(alloc: Global, text: &str) -> Result<CellValue, AllocError> {
    Ok(CellValue::Text(CellText::copy_of(alloc, text)?))
}

static RESOURCE_COLUMNS: [Column; 2] = [
    ("R", "colIds", Kind::Any, ""),
    ("R", "tableId", Kind::Any, ""),
];

static RULE_COLUMNS: [Column; 3] = [
    ("R", "aclFormula", Kind::Any, ""),
    ("R", "resource", Kind::Any, ""),
    ("R", "userAttributes", Kind::Any, ""),
];

fn resource_cells(alloc: Global, row: ResourceRow) -> Result<ValueList, AllocError> {
    let mut cells = ValueList::new(alloc);
    cells.push(text(alloc, row.1)?)?;
    cells.push(text(alloc, row.0)?)?;
    Ok(cells)
}

fn rule_cells(alloc: Global, row: RuleRow) -> Result<ValueList, AllocError> {
    let mut cells = ValueList::new(alloc);
    cells.push(text(alloc, row.1)?)?;
    cells.push(CellValue::Int(row.0))?;
    cells.push(text(alloc, row.2)?)?;
    Ok(cells)
}

// As many rows, from 1 on.
fn row_ids(alloc: Global, count: usize) -> Result<RowList, AllocError> {
    let mut rows = RowList::new(alloc);
    let mut row = 0_u32;
    for _ in 0..count {
        row = row.saturating_add(1);
        rows.push(row)?;
    }
    Ok(rows)
}

fn resources(alloc: Global, all: &[ResourceRow]) -> Result<ViewTable, AllocError> {
    let columns = columns_of(alloc, "R", &RESOURCE_COLUMNS)?;
    let mut cells = CellRowList::new(alloc);
    for row in all {
        cells.push(resource_cells(alloc, *row)?)?;
    }
    Ok(ViewTable {
        id: name(alloc, "_grist_ACLResources")?,
        columns,
        rows: row_ids(alloc, all.len())?,
        cells,
    })
}

fn rules(alloc: Global, all: &[RuleRow]) -> Result<ViewTable, AllocError> {
    let columns = columns_of(alloc, "R", &RULE_COLUMNS)?;
    let mut cells = CellRowList::new(alloc);
    for row in all {
        cells.push(rule_cells(alloc, *row)?)?;
    }
    Ok(ViewTable {
        id: name(alloc, "_grist_ACLRules")?,
        columns,
        rows: row_ids(alloc, all.len())?,
        cells,
    })
}

/// A view of the tables T and U with these columns, and of the rules.
pub fn view_of(
    alloc: Global,
    columns: &[Column],
    resource_rows: &[ResourceRow],
    rule_rows: &[RuleRow],
) -> Result<View, AllocError> {
    let mut tables = ViewTableList::new(alloc);
    tables.push(table_of(alloc, "T", columns)?)?;
    tables.push(table_of(alloc, "U", columns)?)?;
    tables.push(resources(alloc, resource_rows)?)?;
    tables.push(rules(alloc, rule_rows)?)?;
    Ok(View { tables })
}
