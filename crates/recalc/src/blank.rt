//! What is kept of a document of which nothing is known.

ghost use Rattle.std.specs.Prelude.{◌≡◌, true, None, IfOk, map};
ghost use Rattle.doc_model.specs.DocumentLaws.{IsWhole};
ghost use Rattle.doc_readers.specs.Parts.{grid_at};
ghost use Rattle.formula_parse.specs.FormulaOf.{formula_of};
ghost use Rattle.recalc.specs.Kept.{blank_column, blank_of, blank_table, column_part, table_part};

use crate::kept::{KeptColumn, KeptTable};
use cell_types::{CellText, CellValue, Name};
use doc_model::{ColDef, DocTables};
use doc_readers::rows_in;
use formula_parse::{Formula, ParseFault, parse};
use std::alloc::{AllocError, Global};

// A place for each row, and no value.
fn blank_values(alloc: Global, rows: &[u32]) -> Result<Vec<Option<CellValue>>, AllocError>
    ensures { IfOk result (λ v. v.items ≡ map (λ _. None) rows.now) }
{
    let mut values = Vec::with_capacity(alloc, rows.len())?;
    for _row in rows {
        values.push(None)?;
    }
    Ok(values)
}

/// The formula of a text, where it has one.
///
/// Errors: out of memory.
pub fn tree_of(alloc: Global, text: &CellText) -> Result<Option<Formula>, AllocError>
    ensures { IfOk result (λ tree. tree ≡ formula_of text.now) }
{
    match parse(alloc, text.as_str()) {
        Ok(tree) => Ok(Some(tree)),
        Err(ParseFault::Syntax { .. }) => Ok(None),
        Err(ParseFault::NoMemory) => Err(AllocError),
    }
}

fn formula_column(alloc: Global, rows: &[u32], column: &ColDef) -> Result<KeptColumn, AllocError>
    requires { column.now.info.is_formula ≡ true }
    ensures { IfOk result (λ e. column_part e ≡ blank_column rows.now column.now) }
{
    let tree = tree_of(alloc, &column.info.formula)?;
    let values = blank_values(alloc, rows)?;
    Ok(KeptColumn {
        id: column.id.clone()?,
        ty: column.info.ty.clone()?,
        is_formula: true,
        tree,
        values,
    })
}

fn blank_column(alloc: Global, rows: &[u32], column: &ColDef) -> Result<KeptColumn, AllocError>
    ensures { IfOk result (λ e. column_part e ≡ blank_column rows.now column.now) }
{
    if column.info.is_formula {
        return formula_column(alloc, rows, column);
    }
    Ok(KeptColumn {
        id: column.id.clone()?,
        ty: column.info.ty.clone()?,
        is_formula: false,
        tree: None,
        values: Vec::new(alloc),
    })
}

fn blank_columns<D: DocTables>(
    alloc: Global,
    tables: &D,
    table: &Name,
) -> Result<Vec<KeptColumn>, AllocError>
    requires { IsWhole (D.document tables.now) }
    ensures { IfOk result (λ v. map column_part v.items
        ≡ map (blank_column (grid_at (D.document tables.now) table.now).rows)
        (grid_at (D.document tables.now) table.now).columns) }
{
    let rows = rows_in(tables, table);
    let mut columns = Vec::new(alloc);
    while let Some(column) = tables.column(table, columns.len()) {
        columns.push(blank_column(alloc, rows, column)?)?;
    }
    Ok(columns)
}

fn blank_table<D: DocTables>(alloc: Global, tables: &D, id: &Name) -> Result<KeptTable, AllocError>
    requires { IsWhole (D.document tables.now) }
    ensures { IfOk result (λ k. table_part k
        ≡ blank_of id.now (grid_at (D.document tables.now) id.now).rows
        (grid_at (D.document tables.now) id.now).columns) }
{
    let columns = blank_columns(alloc, tables, id)?;
    Ok(KeptTable {
        id: id.clone()?,
        columns,
    })
}

/// What is kept of a document of which nothing is known.
///
/// Errors: out of memory. Memory: a place for each formula cell, and the formulas.
pub fn blank_tables<D: DocTables>(alloc: Global, tables: &D) -> Result<Vec<KeptTable>, AllocError>
    requires { IsWhole (D.document tables.now) }
    ensures { IfOk result (λ v. map table_part v.items ≡ map blank_table (D.document tables.now)) }
{
    let mut kept = Vec::new(alloc);
    while let Some(id) = tables.table(kept.len()) {
        kept.push(blank_table(alloc, tables, id)?)?;
    }
    Ok(kept)
}
