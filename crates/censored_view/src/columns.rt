//! The columns of a table that are shown, and whether the table is.

ghost use Rattle.std.specs.Prelude.{◌≡◌, None, Some, cond, false, IfOk, OnOk};
ghost use Rattle.std.specs.List.{list_any, position};
ghost use Rattle.doc_model.specs.declared.column.ColDef.{ColDef};
ghost use Rattle.doc_model.specs.declared.view.ViewCol.{ViewCol};
ghost use Rattle.doc_model.specs.ByIds.{has_id, precedes, put_by_id};
ghost use Rattle.doc_model.specs.LaidOut.{IsLaidOut};
ghost use Rattle.doc_model.specs.ViewEdits.{shown_id};
ghost use Rattle.doc_readers.specs.Parts.{grid_at};
ghost use Rattle.censored_view.specs.View.{is_shown, shown_column, shown_columns};

use crate::reading::Lets;
use cell_types::{CellText, Name};
use doc_model::{ColDef, DocReader, ViewCol};
use std::alloc::{AllocError, Global};

// The formula of a column, where that is shown.
fn shown_formula<X: Lets>(
    ctx: &X,
    table: &Name,
    column: &ColDef,
) -> Result<Option<CellText>, AllocError>
    ensures { IfOk result (λ o. o ≡ cond ((X.lets ctx.now table.now).formula column.now.id)
        (Some column.now.info.formula) None) }
{
    if ctx.is_formula_shown(table, &column.id) {
        return Ok(Some(column.info.formula.clone()?));
    }
    Ok(None)
}

fn shown_column<X: Lets>(ctx: &X, table: &Name, column: &ColDef) -> Result<ViewCol, AllocError>
    ensures { IfOk result (λ d. d ≡ shown_column (X.lets ctx.now table.now) column.now) }
{
    let formula = shown_formula(ctx, table, column)?;
    Ok(ViewCol {
        id: column.id.clone()?,
        ty: column.info.ty.clone()?,
        is_formula: column.info.is_formula,
        formula,
    })
}

// The index of the first column with a greater id.
fn column_index(columns: &[ViewCol], id: &Name) -> Option<usize>
    ensures { result ≡ position (λ (d : ViewCol). precedes id.now d.id) columns.now }
{
    columns.iter().position(|column| id.cmp(&column.id).is_lt())
}

// Puts a column of a new id in its place.
fn put_column(columns: &mut Vec<ViewCol>, column: ViewCol) -> Result<(), AllocError>
    requires new { has_id shown_id columns.old.items column.id ≡ false }
    ensures placed { OnOk result (columns.new.items ≡ put_by_id shown_id column columns.old.items) }
{
    let index = column_index(columns.as_slice(), &column.id).unwrap_or(columns.len());
    columns.insert(index, column)?;
    Ok(())
}

// Puts a column of a new id in its place where it is shown.
fn put_shown<X: Lets>(
    ctx: &X,
    table: &Name,
    columns: &mut Vec<ViewCol>,
    column: &ColDef,
) -> Result<(), AllocError>
    requires new { has_id shown_id columns.old.items column.now.id ≡ false }
    ensures placed { OnOk result (columns.new.items
        ≡ cond ((X.lets ctx.now table.now).column column.now.id)
        (put_by_id shown_id (shown_column (X.lets ctx.now table.now) column.now) columns.old.items)
        columns.old.items) }
{
    if !ctx.is_column_shown(table, &column.id) {
        return Ok(());
    }
    let shown = shown_column(ctx, table, column)?;
    put_column(columns, shown)
}

/// The columns of a table that are shown, by id.
///
/// Errors: out of memory. Cost: the square of the columns.
pub fn shown_columns<X: Lets, D: DocReader>(
    alloc: Global,
    ctx: &X,
    tables: &D,
    table: &Name,
) -> Result<Vec<ViewCol>, AllocError>
    requires { IsLaidOut (D.document tables.now) }
    ensures { IfOk result (λ l. l.items ≡ shown_columns (X.lets ctx.now table.now)
        (grid_at (D.document tables.now) table.now).columns) }
{
    let mut shown = Vec::new(alloc);
    let mut index = 0;
    while let Some(column) = tables.column(table, index) {
        put_shown(ctx, table, &mut shown, column)?;
        index += 1;
    }
    Ok(shown)
}

// Whether some column of a table is shown.
fn is_any_shown<X: Lets, D: DocReader>(ctx: &X, tables: &D, table: &Name) -> bool
    ensures { result ≡ list_any (λ (d : ColDef). (X.lets ctx.now table.now).column d.id)
        (grid_at (D.document tables.now) table.now).columns }
{
    let mut index = 0;
    while let Some(column) = tables.column(table, index) {
        if ctx.is_column_shown(table, &column.id) {
            return true;
        }
        index += 1;
    }
    false
}

/// Whether a table of these columns is shown.
///
/// Memory: none. Cost: the columns, up to the first that is shown.
pub fn is_shown<X: Lets, D: DocReader>(ctx: &X, tables: &D, table: &Name) -> bool
    ensures { result ≡ is_shown (X.lets ctx.now table.now)
        (grid_at (D.document tables.now) table.now).columns }
{
    match tables.column(table, 0) {
        Some(_) => is_any_shown(ctx, tables, table),
        None => ctx.is_bare_shown(table),
    }
}
