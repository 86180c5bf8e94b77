//! What is asked of a view that is not made: tables, columns and rows.

ghost use Rattle.std.specs.Prelude.{◌≡◌, ◌&&◌, Some, IfOk};
ghost use Rattle.std.specs.List.{list_any};
ghost use Rattle.doc_model.specs.declared.column.ColDef.{ColDef};
ghost use Rattle.doc_model.specs.ByIds.{find_id, has_id};
ghost use Rattle.doc_model.specs.Changes.{shown_table_id};
ghost use Rattle.doc_model.specs.LaidOut.{IsLaidOut};
ghost use Rattle.doc_readers.specs.Parts.{grid_at};
ghost use Rattle.censored_view.specs.Questions.{is_column_in, is_read, is_row_in};
ghost use Rattle.censored_view.specs.View.{view};

use crate::columns::is_shown;
use crate::document_row::DocumentRow;
use crate::reading::Lets;
use crate::tables::seen_part;
use acl_formula::RowReader;
use cell_types::Name;
use doc_model::{DocReader, ViewTable};
use doc_readers::{has_column, has_table, holds_row, rows_in};
use std::alloc::{AllocError, Global};

/// Whether a context shows the table.
///
/// Memory: none. Cost: its columns, up to the first that is shown.
pub fn is_table_seen<X: Lets, D: DocReader>(ctx: &X, tables: &D, table: &Name) -> bool
    requires { IsLaidOut (D.document tables.now) }
    ensures { result
        ≡ has_id shown_table_id (view (X.lets ctx.now) (D.document tables.now)) table.now }
{
    has_table(tables, table) && is_shown(ctx, tables, table)
}

/// Whether a context shows the column of the table.
///
/// Memory: none. Cost: linear in the columns of the table.
pub fn is_column_seen<X: Lets, D: DocReader>(
    ctx: &X,
    tables: &D,
    table: &Name,
    column: &Name,
) -> bool
    requires { IsLaidOut (D.document tables.now) }
    ensures { result
        ≡ is_column_in (view (X.lets ctx.now) (D.document tables.now)) table.now column.now }
{
    has_column(tables, table, column) && ctx.is_column_shown(table, column)
}

// Whether the column is shown, and the row may be read in it.
fn is_cell_read<X: Lets, W: RowReader>(ctx: &X, table: &Name, column: &Name, row: &W) -> bool
    ensures { result ≡ ((X.lets ctx.now table.now).column column.now
        && (X.lets ctx.now table.now).cell (Some column.now) (W.told row.now)) }
{
    ctx.is_column_shown(table, column) && ctx.is_cell_shown(table, Some(column), row)
}

// Whether a row may be read in some shown column of the table.
fn is_read_in_some<X: Lets, D: DocReader, W: RowReader>(
    ctx: &X,
    tables: &D,
    table: &Name,
    row: &W,
) -> bool
    ensures { result ≡ list_any (λ (d : ColDef). (X.lets ctx.now table.now).column d.id
        && (X.lets ctx.now table.now).cell (Some d.id) (W.told row.now))
        (grid_at (D.document tables.now) table.now).columns }
{
    let mut index = 0;
    while let Some(column) = tables.column(table, index) {
        if is_cell_read(ctx, table, &column.id, row) {
            return true;
        }
        index += 1;
    }
    false
}

// Whether the table is shown, and in it the row.
fn is_read<X: Lets, D: DocReader, W: RowReader>(ctx: &X, tables: &D, table: &Name, row: &W) -> bool
    ensures { result ≡ is_read (X.lets ctx.now table.now)
        (grid_at (D.document tables.now) table.now).columns (W.told row.now) }
{
    match tables.column(table, 0) {
        Some(_) => is_read_in_some(ctx, tables, table, row),
        None => ctx.is_bare_shown(table) && ctx.is_cell_shown(table, None, row),
    }
}

/// Whether a context shows the row of the table.
///
/// Memory: none. Cost: the logarithm of the rows, and a decision for each column of the table, up
/// to the first that shows the row.
pub fn is_row_seen<X: Lets, D: DocReader>(ctx: &X, tables: &D, table: &Name, row: u32) -> bool
    requires { IsLaidOut (D.document tables.now) }
    ensures { result
        ≡ is_row_in (view (X.lets ctx.now) (D.document tables.now)) table.now row }
{
    if !holds_row(rows_in(tables, table), row) {
        return false;
    }
    let read = DocumentRow { tables, table, row };
    is_read(ctx, tables, table, &read)
}

/// A table as a context shows it, with all its rows; nothing where it is not there or not shown.
///
/// Errors: out of memory. Cost: that of `shown_rows`, and the square of the columns.
pub fn seen_table<X: Lets, D: DocReader>(
    alloc: Global,
    ctx: &X,
    tables: &D,
    table: &Name,
) -> Result<Option<ViewTable>, AllocError>
    requires { IsLaidOut (D.document tables.now) }
    ensures { IfOk result (λ o. o
        ≡ find_id shown_table_id table.now (view (X.lets ctx.now) (D.document tables.now))) }
{
    seen_part(alloc, ctx, tables, table, rows_in(tables, table))
}
