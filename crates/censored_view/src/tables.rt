//! Tables as a context shows them.

ghost use Rattle.std.specs.Prelude.{◌≡◌, false, IfOk, IfSome, OnOk};
ghost use Rattle.std.specs.List.{position};
ghost use Rattle.doc_model.specs.declared.view.ViewTable.{ViewTable};
ghost use Rattle.doc_model.specs.ByIds.{find_id, has_id, precedes, put_by_id};
ghost use Rattle.doc_model.specs.Changes.{shown_table_id};
ghost use Rattle.doc_model.specs.Document.{table_id};
ghost use Rattle.doc_model.specs.LaidOut.{IsLaidOut};
ghost use Rattle.censored_view.specs.Parts.{seen_part, with_seen};
ghost use Rattle.censored_view.specs.Rows.{rows_at};
ghost use Rattle.censored_view.specs.View.{shown_rows};

use crate::columns::{is_shown, shown_columns};
use crate::read_rows::{read_columns, read_rows};
use crate::reading::Lets;
use crate::rows::shown_rows;
use cell_types::Name;
use doc_model::{DocReader, ViewCol, ViewTable};
use doc_readers::has_table;
use std::alloc::{AllocError, Global};

// The index of the first table with a greater id.
fn table_index(tables: &[ViewTable], id: &Name) -> Option<usize>
    ensures { result ≡ position (λ (t : ViewTable). precedes id.now t.id) tables.now }
{
    tables.iter().position(|table| id.cmp(&table.id).is_lt())
}

// Puts a table of a new id in its place.
fn put_table(tables: &mut Vec<ViewTable>, table: ViewTable) -> Result<(), AllocError>
    requires { has_id shown_table_id tables.old.items table.id ≡ false }
    ensures { OnOk result (tables.new.items ≡ put_by_id shown_table_id table tables.old.items) }
{
    let index = table_index(tables.as_slice(), &table.id).unwrap_or(tables.len());
    tables.insert(index, table)?;
    Ok(())
}

/// Puts a table of a new id in its place, where there is one.
///
/// Errors: out of memory; what the tables are then is not said. Cost: linear in the tables.
pub fn put_seen(tables: &mut Vec<ViewTable>, table: Option<ViewTable>) -> Result<(), AllocError>
    requires { IfSome table (λ t. has_id shown_table_id tables.old.items t.id ≡ false) }
    ensures { OnOk result (tables.new.items ≡ with_seen table tables.old.items) }
{
    match table {
        Some(table) => put_table(tables, table),
        None => Ok(()),
    }
}

// A table of these shown columns and these rows of the document. It is asked for all cells of a
// column at once.
fn made_of<X: Lets, D: DocReader>(
    alloc: Global,
    ctx: &X,
    tables: &D,
    table: &Name,
    columns: Vec<ViewCol>,
    rows: &[u32],
) -> Result<ViewTable, AllocError>
    ensures { IfOk result (λ t. t ≡ shown_rows (X.lets ctx.now table.now) table.now columns.items
        (rows_at (D.document tables.now) table.now rows.now)) }
{
    let read = read_columns(alloc, tables, table, columns.as_slice(), rows)?;
    let rows = read_rows(alloc, tables, table, read.as_slice(), rows)?;
    let shown = shown_rows(alloc, ctx, table, columns, rows.as_slice())?;
    Ok(shown)
}

/// What is seen of a table, made of these of its rows: nothing where it is not there or not shown.
///
/// Errors: out of memory. Cost: that of `shown_rows`, and the square of the table's columns.
pub fn seen_part<X: Lets, D: DocReader>(
    alloc: Global,
    ctx: &X,
    tables: &D,
    table: &Name,
    rows: &[u32],
) -> Result<Option<ViewTable>, AllocError>
    requires { IsLaidOut (D.document tables.now) }
    ensures { IfOk result (λ o. o ≡ seen_part (X.lets ctx.now table.now) table.now
        (find_id table_id table.now (D.document tables.now)) rows.now) }
{
    if !has_table(tables, table) {
        return Ok(None);
    }
    if !is_shown(ctx, tables, table) {
        return Ok(None);
    }
    let columns = shown_columns(alloc, ctx, tables, table)?;
    let shown = made_of(alloc, ctx, tables, table, columns, rows)?;
    Ok(Some(shown))
}
