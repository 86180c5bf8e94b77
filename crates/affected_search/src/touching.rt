//! What an action does to what can be read, by the numbers of a graph.

ghost use Rattle.std.specs.Prelude.{◌≡◌, ◌∷◌, [], IfOk, OnOk, codes, map};
ghost use Rattle.doc_model.specs.declared.column.CellColumn.{CellColumn};
ghost use Rattle.doc_model.specs.DocumentLaws.{IsWhole};
ghost use Rattle.doc_model.specs.MetadataIds.{columns_id, tables_id};
ghost use Rattle.affected_cells.specs.Touched.{cells_written, column_altered, rows_come_or_go, rows_moved, table_altered};
ghost use Rattle.affected_search.specs.Touches.{AddsTouches, TellTouched, column_touches, record_touches, table_touches};

use crate::described::{column_described, columns_described, rows_of_new, table_described};
use crate::touch::{Touch, push_cells, push_column, push_rows, push_table};
use cell_types::{CellText, Name};
use dep_graph::DepGraph;
use doc_model::{CellColumn, DocAction, DocReader};
use std::alloc::{AllocError, Global};

// The name of a text that is short enough to be one.
fn name_of(alloc: Global, text: &str) -> Result<Name, AllocError>
    ensures { IfOk result (λ n. n ≡ text.now) }
{
    match Name::try_new(CellText::copy_of(alloc, text)?) {
        Some(name) => Ok(name),
        None => Err(AllocError),
    }
}

#[tactic(auto, unfolding(doc_model::specs::MetadataIds::tables_id))]
fn tables_name(alloc: Global) -> Result<Name, AllocError>
    ensures { IfOk result (λ n. n ≡ tables_id) }
{
    name_of(alloc, "_grist_Tables")
}

#[tactic(auto, unfolding(doc_model::specs::MetadataIds::columns_id))]
fn columns_name(alloc: Global) -> Result<Name, AllocError>
    ensures { IfOk result (λ n. n ≡ columns_id) }
{
    name_of(alloc, "_grist_Tables_column")
}

// An update writes the cells of each column that it gives.
fn push_given(
    alloc: Global,
    graph: &DepGraph,
    table: &Name,
    rows: &[u32],
    columns: &[CellColumn],
    touches: &mut Vec<Touch>,
) -> Result<(), AllocError>
    ensures { OnOk result (AddsTouches graph.now.names
        (map (λ (k : CellColumn). cells_written table.now k.id rows.now) columns.now)
        touches.old.items touches.new.items) }
{
    for column in columns {
        push_cells(alloc, graph, table, &column.id, rows, touches)?;
    }
    Ok(())
}

// A table comes or goes, and so do the rows that describe it and its columns.
fn push_table_rows(
    alloc: Global,
    graph: &DepGraph,
    table: &Name,
    row: &[u32],
    columns: &[u32],
    touches: &mut Vec<Touch>,
) -> Result<(), AllocError>
    ensures { OnOk result (AddsTouches graph.now.names
        (table_altered table.now ∷ rows_come_or_go tables_id row.now
        ∷ rows_come_or_go columns_id columns.now ∷ []) touches.old.items touches.new.items) }
{
    let described = tables_name(alloc)?;
    let columns_described = columns_name(alloc)?;
    push_table(graph, table, touches)?;
    push_rows(alloc, graph, &described, row, touches)?;
    push_rows(alloc, graph, &columns_described, columns, touches)?;
    Ok(())
}

// A table has another id, in the row that describes it too.
fn push_renamed_table(
    alloc: Global,
    graph: &DepGraph,
    table: &Name,
    new: &Name,
    row: &[u32],
    touches: &mut Vec<Touch>,
) -> Result<(), AllocError>
    ensures { OnOk result (AddsTouches graph.now.names
        (table_altered table.now ∷ table_altered new.now
        ∷ cells_written tables_id (codes "tableId") row.now ∷ [])
        touches.old.items touches.new.items) }
{
    let described = tables_name(alloc)?;
    let id = name_of(alloc, "tableId")?;
    push_table(graph, table, touches)?;
    push_table(graph, new, touches)?;
    push_cells(alloc, graph, &described, &id, row, touches)?;
    Ok(())
}

// A column comes or goes, and so does the row that describes it.
fn push_column_row(
    alloc: Global,
    graph: &DepGraph,
    table: &Name,
    column: &Name,
    row: &[u32],
    touches: &mut Vec<Touch>,
) -> Result<(), AllocError>
    ensures { OnOk result (AddsTouches graph.now.names
        (column_altered table.now column.now ∷ rows_come_or_go columns_id row.now ∷ [])
        touches.old.items touches.new.items) }
{
    let described = columns_name(alloc)?;
    push_column(graph, table, column, touches)?;
    push_rows(alloc, graph, &described, row, touches)?;
    Ok(())
}

// A column has another id, in the row that describes it too.
fn push_renamed_column(
    alloc: Global,
    graph: &DepGraph,
    table: &Name,
    column: &Name,
    new: &Name,
    row: &[u32],
    touches: &mut Vec<Touch>,
) -> Result<(), AllocError>
    ensures { OnOk result (AddsTouches graph.now.names
        (column_altered table.now column.now ∷ column_altered table.now new.now
        ∷ cells_written columns_id (codes "colId") row.now ∷ [])
        touches.old.items touches.new.items) }
{
    let described = columns_name(alloc)?;
    let id = name_of(alloc, "colId")?;
    push_column(graph, table, column, touches)?;
    push_column(graph, table, new, touches)?;
    push_cells(alloc, graph, &described, &id, row, touches)?;
    Ok(())
}

// A column is another one under its id, as the row that describes it says too.
fn push_modified_column(
    alloc: Global,
    graph: &DepGraph,
    table: &Name,
    column: &Name,
    row: &[u32],
    touches: &mut Vec<Touch>,
) -> Result<(), AllocError>
    ensures { OnOk result (AddsTouches graph.now.names
        (column_altered table.now column.now ∷ cells_written columns_id (codes "type") row.now
        ∷ cells_written columns_id (codes "isFormula") row.now
        ∷ cells_written columns_id (codes "formula") row.now ∷ [])
        touches.old.items touches.new.items) }
{
    let described = columns_name(alloc)?;
    let ty = name_of(alloc, "type")?;
    let is_formula = name_of(alloc, "isFormula")?;
    let formula = name_of(alloc, "formula")?;
    push_column(graph, table, column, touches)?;
    push_cells(alloc, graph, &described, &ty, row, touches)?;
    push_cells(alloc, graph, &described, &is_formula, row, touches)?;
    push_cells(alloc, graph, &described, &formula, row, touches)?;
    Ok(())
}

// Rows come or go; where there are none, nothing is touched.
fn push_moved(
    alloc: Global,
    graph: &DepGraph,
    table: &Name,
    rows: &[u32],
    touches: &mut Vec<Touch>,
) -> Result<(), AllocError>
    ensures { OnOk result (AddsTouches graph.now.names (rows_moved table.now rows.now)
        touches.old.items touches.new.items) }
{
    if rows.is_empty() {
        return Ok(());
    }
    push_rows(alloc, graph, table, rows, touches)
}

fn push_record_touches(
    alloc: Global,
    graph: &DepGraph,
    action: &DocAction,
    touches: &mut Vec<Touch>,
) -> Result<(), AllocError>
    ensures { OnOk result (AddsTouches graph.now.names (record_touches action.now)
        touches.old.items touches.new.items) }
{
    match action {
        DocAction::BulkAdd { table, rows, .. } | DocAction::BulkRemove { table, rows } => {
            push_moved(alloc, graph, table, rows.as_slice(), touches)
        }
        DocAction::BulkUpdate {
            table,
            rows,
            columns,
        } => push_given(
            alloc,
            graph,
            table,
            rows.as_slice(),
            columns.as_slice(),
            touches,
        ),
        _ => Ok(()),
    }
}

fn push_table_touches<R: DocReader>(
    alloc: Global,
    graph: &DepGraph,
    tables: &R,
    action: &DocAction,
    touches: &mut Vec<Touch>,
) -> Result<(), AllocError>
    ensures { OnOk result (IsWhole (R.document tables.now) → AddsTouches graph.now.names
        (table_touches (R.document tables.now) action.now) touches.old.items touches.new.items) }
{
    match action {
        DocAction::AddTable {
            table,
            row,
            columns,
        } => {
            let described = rows_of_new(alloc, columns.as_slice())?;
            push_table_rows(alloc, graph, table, &[*row], &described, touches)
        }
        DocAction::RemoveTable { table } => {
            let row = table_described(alloc, tables, table)?;
            let described = columns_described(alloc, tables, table)?;
            push_table_rows(alloc, graph, table, &row, &described, touches)
        }
        DocAction::RenameTable { table, new } => {
            let row = table_described(alloc, tables, table)?;
            push_renamed_table(alloc, graph, table, new, &row, touches)
        }
        _ => Ok(()),
    }
}

fn push_column_touches<R: DocReader>(
    alloc: Global,
    graph: &DepGraph,
    tables: &R,
    action: &DocAction,
    touches: &mut Vec<Touch>,
) -> Result<(), AllocError>
    ensures { OnOk result (AddsTouches graph.now.names
        (column_touches (R.document tables.now) action.now) touches.old.items touches.new.items) }
{
    match action {
        DocAction::AddColumn { table, column } => {
            push_column_row(alloc, graph, table, &column.id, &[column.row], touches)
        }
        DocAction::RemoveColumn { table, column } => {
            let row = column_described(alloc, tables, table, column)?;
            push_column_row(alloc, graph, table, column, &row, touches)
        }
        DocAction::RenameColumn { table, column, new } => {
            let row = column_described(alloc, tables, table, column)?;
            push_renamed_column(alloc, graph, table, column, new, &row, touches)
        }
        DocAction::ModifyColumn { table, column, .. } => {
            let row = column_described(alloc, tables, table, column)?;
            push_modified_column(alloc, graph, table, column, &row, touches)
        }
        _ => Ok(()),
    }
}

/// What an action does to what can be read. What has no number is read by no cell.
///
/// Errors: out of memory. Memory: the rows that it names, once for each column that it writes.
/// Cost: that of a hash for each of these rows; of a schema action also linear in the tables of the
/// document and in the columns of the table.
pub(crate) fn touches_of<R: DocReader>(
    alloc: Global,
    graph: &DepGraph,
    tables: &R,
    action: &DocAction,
) -> Result<Vec<Touch>, AllocError>
    ensures { IfOk result (λ v. IsWhole (R.document tables.now)
        → TellTouched graph.now.names (R.document tables.now) action.now v.items) }
{
    let mut touches = Vec::new(alloc);
    push_record_touches(alloc, graph, action, &mut touches)?;
    push_table_touches(alloc, graph, tables, action, &mut touches)?;
    push_column_touches(alloc, graph, tables, action, &mut touches)?;
    Ok(touches)
}
