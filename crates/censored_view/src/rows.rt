//! The rows of a table that are shown, and their cells. No other module censors a cell.

ghost use Rattle.std.specs.Prelude.{◌≡◌, ◌++◌, ◌∷◌, [], None, Some, cond, map, unwrap_or, IfOk, OnOk};
ghost use Rattle.std.specs.List.{list_any};
ghost use Rattle.cell_types.specs.declared.value.CellValue.TheVariants.{Null};
ghost use Rattle.doc_model.specs.declared.view.ViewCol.{ViewCol};
ghost use Rattle.censored_view.specs.Ruled.{AreRuled, IsRuled, IsRuledTable, columns_in};
ghost use Rattle.censored_view.specs.View.{is_row_shown, shown_rows, shown_value};

use crate::reading::Lets;
use crate::ruled_columns::{RuledColumn, RuledTable, is_read_alone, is_read_in, ruled_table};
use acl_formula::RowReader;
use cell_types::{CellValue, Name, RowList, ValueList, copy_of};
use doc_model::{CellRowList, ViewCol, ViewColList, ViewTable};
use std::alloc::{AllocError, Global};

// A copy of what the row holds in a column, null where it has none.
fn value_in<W: RowReader>(row: &W, column: &Name) -> Result<CellValue, AllocError>
    ensures { IfOk result (λ v. v ≡ unwrap_or ((W.told row.now).cell column.now) Null) }
{
    match row.cell(column) {
        Some(value) => copy_of(value),
        None => Ok(CellValue::Null),
    }
}

// A cell of a row that is shown.
fn shown_value<X: Lets, W: RowReader>(
    ctx: &X,
    table: &Name,
    row: &W,
    alone: bool,
    column: &RuledColumn<'_>,
) -> Result<CellValue, AllocError>
    requires ruled { IsRuled (X.lets ctx.now table.now) column.now }
    requires alone { alone ≡ (X.lets ctx.now table.now).cell None (W.told row.now) }
    ensures { IfOk result (λ v. v
        ≡ shown_value (X.lets ctx.now table.now) (W.told row.now) column.now.column.now) }
{
    if is_read_in(ctx, table, row, alone, column) {
        return value_in(row, &column.column.id);
    }
    Ok(CellValue::Censored)
}

fn row_cells<X: Lets, W: RowReader>(
    alloc: Global,
    ctx: &X,
    table: &Name,
    columns: &[RuledColumn<'_>],
    row: &W,
    alone: bool,
) -> Result<ValueList, AllocError>
    requires ruled { AreRuled (X.lets ctx.now table.now) columns.now }
    requires alone { alone ≡ (X.lets ctx.now table.now).cell None (W.told row.now) }
    ensures { IfOk result (λ l. l
        ≡ map (shown_value (X.lets ctx.now table.now) (W.told row.now)) (columns_in columns.now)) }
{
    let mut values = Vec::with_capacity(alloc, columns.len())?;
    for column in columns {
        values.push(shown_value(ctx, table, row, alone, column)?)?;
    }
    Ok(ValueList::from(values))
}

// Whether a row may be read in some column.
fn is_read_in_any<X: Lets, W: RowReader>(
    ctx: &X,
    table: &Name,
    columns: &[RuledColumn<'_>],
    row: &W,
    alone: bool,
) -> bool
    requires ruled { AreRuled (X.lets ctx.now table.now) columns.now }
    requires alone { alone ≡ (X.lets ctx.now table.now).cell None (W.told row.now) }
    ensures { result ≡ list_any (λ (d : ViewCol).
        (X.lets ctx.now table.now).cell (Some d.id) (W.told row.now)) (columns_in columns.now) }
{
    for column in columns {
        if is_read_in(ctx, table, row, alone, column) {
            return true;
        }
    }
    false
}

// Whether a row is shown in a table of these shown columns.
fn is_row_shown<X: Lets, W: RowReader>(
    ctx: &X,
    table: &Name,
    columns: &[RuledColumn<'_>],
    row: &W,
    alone: bool,
) -> bool
    requires ruled { AreRuled (X.lets ctx.now table.now) columns.now }
    requires alone { alone ≡ (X.lets ctx.now table.now).cell None (W.told row.now) }
    ensures { result
        ≡ is_row_shown (X.lets ctx.now table.now) (columns_in columns.now) (W.told row.now) }
{
    match columns {
        [] => alone,
        _ => is_read_in_any(ctx, table, columns, row, alone),
    }
}

// The rows that are shown, and their cells.
#[derive(Drop)]
struct Shown {
    rows: Vec<u32>,
    cells: Vec<ValueList>,
}

// Adds a row where it is shown.
fn show_row<X: Lets, W: RowReader>(
    alloc: Global,
    ctx: &X,
    table: &Name,
    ruled: &RuledTable<'_>,
    row: &W,
    shown: &mut Shown,
) -> Result<(), AllocError>
    requires { IsRuledTable (X.lets ctx.now table.now) ruled.now }
    ensures rows { OnOk result (shown.new.rows.items ≡ shown.old.rows.items ++ cond
        (is_row_shown (X.lets ctx.now table.now) (columns_in ruled.now.columns.items)
        (W.told row.now)) ((W.told row.now).id ∷ []) []) }
    ensures cells { OnOk result (shown.new.cells.items ≡ shown.old.cells.items ++ cond
        (is_row_shown (X.lets ctx.now table.now) (columns_in ruled.now.columns.items)
        (W.told row.now)) (map (shown_value (X.lets ctx.now table.now) (W.told row.now))
        (columns_in ruled.now.columns.items) ∷ []) []) }
{
    let columns = ruled.columns.as_slice();
    let alone = is_read_alone(ctx, table, &ruled.tests, row);
    if is_row_shown(ctx, table, columns, row, alone) {
        let cells = row_cells(alloc, ctx, table, columns, row, alone)?;
        shown.cells.push(cells)?;
        shown.rows.push(row.id())?;
    }
    Ok(())
}

fn show_rows<X: Lets, W: RowReader>(
    alloc: Global,
    ctx: &X,
    table: &Name,
    columns: &[ViewCol],
    rows: &[W],
) -> Result<Shown, AllocError>
    ensures rows { IfOk result (λ s. s.rows.items ≡ (shown_rows (X.lets ctx.now table.now)
        table.now columns.now (map W.told rows.now)).rows) }
    ensures cells { IfOk result (λ s. s.cells.items ≡ (shown_rows (X.lets ctx.now table.now)
        table.now columns.now (map W.told rows.now)).cells) }
{
    let ruled = ruled_table(alloc, ctx, table, columns)?;
    let mut shown = Shown {
        rows: Vec::new(alloc),
        cells: Vec::new(alloc),
    };
    for row in rows {
        show_row(alloc, ctx, table, &ruled, row, &mut shown)?;
    }
    Ok(shown)
}

/// A table of these shown columns, made of rows: those that are shown, each with its cells.
///
/// Errors: out of memory. Cost: the rules of the table are chosen once; then a decision for each
/// row, and one for each of its cells in columns with rules of their own, and a copy for each cell
/// that is shown.
pub fn shown_rows<X: Lets, W: RowReader>(
    alloc: Global,
    ctx: &X,
    table: &Name,
    columns: Vec<ViewCol>,
    rows: &[W],
) -> Result<ViewTable, AllocError>
    ensures { IfOk result (λ t. t ≡ shown_rows (X.lets ctx.now table.now) table.now
        columns.items (map W.told rows.now)) }
{
    let shown = show_rows(alloc, ctx, table, columns.as_slice(), rows)?;
    Ok(ViewTable {
        id: table.clone()?,
        columns: ViewColList::from(columns),
        rows: RowList::from(shown.rows),
        cells: CellRowList::from(shown.cells),
    })
}
