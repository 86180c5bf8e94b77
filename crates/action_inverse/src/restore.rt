//! What an action took away, given back.

ghost use Rattle.std.specs.Prelude.{◌≡◌, [], ◌∷◌, ◌++◌, true, IfOk};
ghost use Rattle.action_inverse.specs.Parts.{cells_back, cells_in, data_cells, info_back, old_cells};
ghost use Rattle.doc_readers.specs.Parts.{grid_at};
ghost use Rattle.doc_model.specs.declared.action.DocAction.TheVariants.{AddColumn, AddTable, BulkAdd, BulkRemove, BulkUpdate, ModifyColumn, RemoveColumn, RemoveTable};
ghost use Rattle.doc_model.specs.DocumentLaws.{IsWhole};
ghost use Rattle.doc_model.specs.Inverse.{column_again, inverse};
ghost use Rattle.doc_model.specs.Valid.{valid};

use crate::cells::{column_cells, data_columns, old_columns};
use crate::columns::{columns_of, find_column};
use crate::metadata::metadata_row;
use cell_types::{Name, RowList};
use doc_model::{ColDef, ColDefList, ColumnList, DocAction, DocActionList, DocTables};
use doc_readers::rows_in;
use std::alloc::{AllocError, Global};

/// The list of one action.
pub(crate) fn single(alloc: Global, action: DocAction) -> Result<DocActionList, AllocError>
    ensures { IfOk result (λ l. l ≡ action ∷ []) }
{
    let mut actions = DocActionList::new(alloc);
    actions.push(action)?;
    Ok(actions)
}

// A list of actions, and one more.
fn also(actions: DocActionList, action: DocAction) -> Result<DocActionList, AllocError>
    ensures { IfOk result (λ l. l ≡ actions ++ action ∷ []) }
{
    let mut actions = actions;
    actions.push(action)?;
    Ok(actions)
}

// What writes the old cells of these columns.
fn old_update<D: DocTables>(
    alloc: Global,
    tables: &D,
    table: &Name,
    rows: &RowList,
    columns: &ColumnList,
) -> Result<DocAction, AllocError>
    ensures { IfOk result (λ a.
        a ≡ BulkUpdate table.now rows.now
        (old_cells (D.document tables.now) table.now rows.now columns.now)) }
{
    let columns = old_columns(alloc, tables, table, rows.as_slice(), columns.as_slice())?;
    let rows = rows.clone()?;
    let table = table.clone()?;
    Ok(DocAction::BulkUpdate {
        table,
        rows,
        columns,
    })
}

/// The old cells of an update.
#[tactic(auto, using(crate::proofs::TableLemmas::update_back))]
pub(crate) fn cells_again<D: DocTables>(
    alloc: Global,
    tables: &D,
    table: &Name,
    rows: &RowList,
    columns: &ColumnList,
) -> Result<DocActionList, AllocError>
    requires { valid (D.document tables.now) (BulkUpdate table.now rows.now columns.now) ≡ true }
    ensures { IfOk result (λ l.
        l ≡ inverse (D.document tables.now) (BulkUpdate table.now rows.now columns.now)) }
{
    single(alloc, old_update(alloc, tables, table, rows, columns)?)
}

// The data columns of a table, with their cells in these rows.
fn data_again<D: DocTables>(
    alloc: Global,
    tables: &D,
    table: &Name,
    rows: &[u32],
) -> Result<ColumnList, AllocError>
    ensures { IfOk result (λ l. l ≡ data_cells (D.document tables.now) table.now rows.now) }
{
    let columns = columns_of(alloc, tables, table)?;
    data_columns(alloc, tables, table, &columns, rows)
}

// What adds these rows with all their data.
fn rows_added<D: DocTables>(
    alloc: Global,
    tables: &D,
    table: &Name,
    rows: &[u32],
) -> Result<DocAction, AllocError>
    ensures { IfOk result (λ a.
        a ≡ BulkAdd table.now rows.now (data_cells (D.document tables.now) table.now rows.now)) }
{
    let columns = data_again(alloc, tables, table, rows)?;
    let rows = RowList::from(Vec::from_slice(alloc, rows)?);
    let table = table.clone()?;
    Ok(DocAction::BulkAdd {
        table,
        rows,
        columns,
    })
}

/// The removed rows with all their data, in the order of the removal.
#[tactic(auto, using(crate::proofs::TableLemmas::remove_back))]
pub(crate) fn rows_again<D: DocTables>(
    alloc: Global,
    tables: &D,
    table: &Name,
    rows: &RowList,
) -> Result<DocActionList, AllocError>
    requires { valid (D.document tables.now) (BulkRemove table.now rows.now) ≡ true }
    ensures { IfOk result (λ l.
        l ≡ inverse (D.document tables.now) (BulkRemove table.now rows.now)) }
{
    single(alloc, rows_added(alloc, tables, table, rows.as_slice())?)
}

// What adds the table in its place, without rows.
fn table_added<D: DocTables>(
    alloc: Global,
    tables: &D,
    table: &Name,
    row: u32,
) -> Result<DocAction, AllocError>
    ensures { IfOk result (λ a.
        a ≡ AddTable table.now row (grid_at (D.document tables.now) table.now).columns) }
{
    let columns = ColDefList::from(columns_of(alloc, tables, table)?);
    let table = table.clone()?;
    Ok(DocAction::AddTable {
        table,
        row,
        columns,
    })
}

/// A table in its place, and then its rows.
pub(crate) fn table_again<D: DocTables>(
    alloc: Global,
    tables: &D,
    table: &Name,
) -> Result<DocActionList, AllocError>
    requires whole { IsWhole (D.document tables.now) }
    requires valid { valid (D.document tables.now) (RemoveTable table.now) ≡ true }
    ensures { IfOk result (λ l. l ≡ inverse (D.document tables.now) (RemoveTable table.now)) }
{
    let Some(row) = metadata_row(tables, table) else {
        // Never taken: a whole document describes each table that an action may remove.
        return Ok(DocActionList::new(alloc));
    };
    let added = single(alloc, table_added(alloc, tables, table, row)?)?;
    let rows = rows_in(tables, table);
    if rows.is_empty() {
        return Ok(added);
    }
    also(added, rows_added(alloc, tables, table, rows)?)
}

// What adds the column in its place.
fn column_added(table: &Name, column: &ColDef) -> Result<DocAction, AllocError>
    ensures { IfOk result (λ a. a ≡ AddColumn table.now column.now) }
{
    let column = column.clone()?;
    let table = table.clone()?;
    Ok(DocAction::AddColumn { table, column })
}

// A column in its place, and then its cells in these rows where it has some of its own.
fn found_again<D: DocTables>(
    alloc: Global,
    tables: &D,
    table: &Name,
    column: &ColDef,
) -> Result<DocActionList, AllocError>
    ensures { IfOk result (λ l.
        l ≡ column_again table.now (grid_at (D.document tables.now) table.now) column.now) }
{
    let added = single(alloc, column_added(table, column)?)?;
    let rows = rows_in(tables, table);
    if column.info.is_formula || rows.is_empty() {
        return Ok(added);
    }
    also(added, cells_update(alloc, tables, table, &column.id, rows)?)
}

/// A column in its place, and then its cells where it has some of its own.
pub(crate) fn column_again<D: DocTables>(
    alloc: Global,
    tables: &D,
    table: &Name,
    column: &Name,
) -> Result<DocActionList, AllocError>
    ensures { IfOk result (λ l.
        l ≡ inverse (D.document tables.now) (RemoveColumn table.now column.now)) }
{
    let columns = columns_of(alloc, tables, table)?;
    match find_column(&columns, column) {
        Some(found) => found_again(alloc, tables, table, found),
        None => Ok(DocActionList::new(alloc)),
    }
}

// The list of the column with the cells that it has in these rows.
fn one_column<D: DocTables>(
    alloc: Global,
    tables: &D,
    table: &Name,
    column: &Name,
    rows: &[u32],
) -> Result<ColumnList, AllocError>
    ensures { IfOk result (λ l.
        l ≡ cells_in (D.document tables.now) table.now rows.now column.now ∷ []) }
{
    let mut columns = ColumnList::new(alloc);
    columns.push(column_cells(alloc, tables, table, column, rows)?)?;
    Ok(columns)
}

// An update of one column, to the cells that it has in these rows.
fn cells_update<D: DocTables>(
    alloc: Global,
    tables: &D,
    table: &Name,
    column: &Name,
    rows: &[u32],
) -> Result<DocAction, AllocError>
    ensures { IfOk result (λ a.
        a ≡ cells_back (D.document tables.now) table.now rows.now column.now) }
{
    let columns = one_column(alloc, tables, table, column, rows)?;
    let rows = RowList::from(Vec::from_slice(alloc, rows)?);
    let table = table.clone()?;
    Ok(DocAction::BulkUpdate {
        table,
        rows,
        columns,
    })
}

// What gives the column the info of this one again.
fn info_given(table: &Name, column: &Name, found: &ColDef) -> Result<DocAction, AllocError>
    ensures { IfOk result (λ a. a ≡ ModifyColumn table.now column.now found.now.info) }
{
    let info = found.info.clone()?;
    let column = column.clone()?;
    let table = table.clone()?;
    Ok(DocAction::ModifyColumn {
        table,
        column,
        info,
    })
}

/// The old info of a column.
pub(crate) fn info_again<D: DocTables>(
    alloc: Global,
    tables: &D,
    table: &Name,
    column: &Name,
) -> Result<DocActionList, AllocError>
    ensures { IfOk result (λ l. l ≡ info_back (D.document tables.now) table.now column.now) }
{
    let columns = columns_of(alloc, tables, table)?;
    match find_column(&columns, column) {
        Some(found) => single(alloc, info_given(table, column, found)?),
        None => Ok(DocActionList::new(alloc)),
    }
}
