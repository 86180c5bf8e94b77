//! The steps of record actions.

ghost use Rattle.std.specs.Prelude.{◌≡◌, ◌<◌, ◌≤◌, ◌+◌, ◌++◌, [], ◌∷◌, true, false, map, IfOk, MatchOption, unwrap_or};
ghost use Rattle.std.specs.List.{list_all};
ghost use Rattle.cell_types.specs.Conversion.{fit};
ghost use Rattle.cell_types.specs.Reference.{row_number};
ghost use Rattle.doc_model.specs.DocumentLaws.{IsWhole};
ghost use Rattle.doc_model.specs.ViewEdits.{if_any};
ghost use Rattle.doc_readers.specs.Parts.{grid_at};
ghost use Rattle.doc_model.specs.declared.action.DocAction.TheVariants.{BulkAdd, BulkRemove, BulkUpdate};
ghost use Rattle.user_actions.specs.References.{clearings, referrers};
ghost use Rattle.user_actions.specs.Marked.{direct};
ghost use Rattle.user_actions.specs.Steps.{all_fitted, fitted, last_row, numbers_after, row_ids};
ghost use Rattle.user_actions.specs.Allowed.{may_give};

use crate::clearing::add_clearings;
use crate::gone_rows::GoneRows;
use crate::referrers::referrers;
use crate::rows::row_number;
use crate::table_readers::{column_named, last_row};
use cell_types::{CellValue, ColType, Name, RowList, ValueList, convert};
use doc_model::{
    CellColumn, ColumnList, DocAction, DocTables, LAST_ROW_ID, Step, StepList, UserColumn,
};
use list_ops::all_made;
use std::alloc::{AllocError, Global};

// So many rows after the last one.
fn new_rows(alloc: Global, last: u32, count: u32) -> Result<RowList, AllocError>
    requires { last + count ≤ 4294967295 }
    ensures { IfOk result (λ rows. rows ≡ numbers_after last count) }
{
    let mut rows = Vec::with_capacity(alloc, count as usize)?;
    for index in 0..count {
        rows.push(last + index + 1)?;
    }
    Ok(RowList::from(rows))
}

/// The rows that were written; a number that is no row id is 0, which no table has.
///
/// Errors: out of memory.
pub fn row_ids(alloc: Global, rows: &[i64]) -> Result<RowList, AllocError>
    ensures { IfOk result (λ l. l ≡ row_ids rows.now) }
{
    let ids = all_made(alloc, rows, |row| Ok(row_id(row)))?;
    Ok(RowList::from(ids))
}

fn row_id(number: &i64) -> u32
    ensures { result ≡ unwrap_or (row_number number.now) 0 }
{
    match row_number(*number) {
        Some(row) => row,
        None => 0,
    }
}

// The values as a column of the type holds them.
fn fit_values(alloc: Global, ty: &ColType, values: &[CellValue]) -> Result<ValueList, AllocError>
    ensures { IfOk result (λ l. l ≡ map (fit ty.now) values.now) }
{
    let made = all_made(alloc, values, |value| convert(alloc, ty, value))?;
    Ok(ValueList::from(made))
}

// A given column as the table holds it.
fn fitted<D: DocTables>(
    alloc: Global,
    tables: &D,
    table: &Name,
    column: &UserColumn,
) -> Result<CellColumn, AllocError>
    requires { may_give (grid_at (D.document tables.now) table.now) column.now ≡ true }
    ensures { IfOk result (λ k. k ≡ fitted (grid_at (D.document tables.now) table.now) column.now) }
{
    let Some(known) = column_named(tables, table, column.id.as_str()) else {
        unreachable!()
    };
    let values = fit_values(alloc, &known.info.ty, column.values.as_slice())?;
    let id = known.id.clone()?;
    Ok(CellColumn { id, values })
}

// The given columns as the table holds them.
fn all_fitted<D: DocTables>(
    alloc: Global,
    tables: &D,
    table: &Name,
    columns: &[UserColumn],
) -> Result<ColumnList, AllocError>
    requires { list_all (may_give (grid_at (D.document tables.now) table.now)) columns.now ≡ true }
    ensures { IfOk result (λ l. l ≡ all_fitted (D.document tables.now) table.now columns.now) }
{
    let mut made = Vec::with_capacity(alloc, columns.len())?;
    for column in columns {
        made.push(fitted(alloc, tables, table, column)?)?;
    }
    Ok(ColumnList::from(made))
}

/// The list of one action that rules are asked about.
pub(crate) fn direct(alloc: Global, action: DocAction) -> Result<StepList, AllocError>
    ensures { IfOk result (λ l. l ≡ direct action ∷ []) }
{
    let mut steps = StepList::new(alloc);
    steps.push(Step {
        action,
        direct: true,
    })?;
    Ok(steps)
}

// The action that adds so many records after the last row.
fn added<D: DocTables>(
    alloc: Global,
    tables: &D,
    table: &Name,
    last: u32,
    count: u32,
    columns: &[UserColumn],
) -> Result<DocAction, AllocError>
    requires gives { list_all (may_give (grid_at (D.document tables.now) table.now))
        columns.now ≡ true }
    requires fits { last + count ≤ 4294967295 }
    ensures { IfOk result
        (λ a. a ≡ BulkAdd table.now (numbers_after last count)
        (all_fitted (D.document tables.now) table.now columns.now)) }
{
    Ok(DocAction::BulkAdd {
        table: table.clone()?,
        rows: new_rows(alloc, last, count)?,
        columns: all_fitted(alloc, tables, table, columns)?,
    })
}

/// The steps that add records; nothing where their rows would pass the last row id.
pub(crate) fn add_steps<D: DocTables>(
    alloc: Global,
    tables: &D,
    table: &Name,
    count: u32,
    columns: &[UserColumn],
) -> Result<Option<StepList>, AllocError>
    requires whole { IsWhole (D.document tables.now) }
    requires gives { list_all (may_give (grid_at (D.document tables.now) table.now))
        columns.now ≡ true }
    ensures { IfOk result
        (λ o. MatchOption o (4294967295 < last_row (D.document tables.now) table.now + count)
        (λ l. l ≡ direct
        (BulkAdd table.now (numbers_after (last_row (D.document tables.now) table.now) count)
        (all_fitted (D.document tables.now) table.now columns.now)) ∷ [])) }
{
    let last = last_row(tables, table);
    if LAST_ROW_ID < last as u64 + count as u64 {
        return Ok(None);
    }
    let action = added(alloc, tables, table, last, count, columns)?;
    let steps = direct(alloc, action)?;
    Ok(Some(steps))
}

// The action that updates records.
fn update<D: DocTables>(
    alloc: Global,
    tables: &D,
    table: &Name,
    rows: &[i64],
    columns: &[UserColumn],
) -> Result<DocAction, AllocError>
    requires { list_all (may_give (grid_at (D.document tables.now) table.now)) columns.now ≡ true }
    ensures { IfOk result
        (λ a. a ≡ BulkUpdate table.now (row_ids rows.now)
        (all_fitted (D.document tables.now) table.now columns.now)) }
{
    Ok(DocAction::BulkUpdate {
        table: table.clone()?,
        rows: row_ids(alloc, rows)?,
        columns: all_fitted(alloc, tables, table, columns)?,
    })
}

/// The steps that update records.
pub(crate) fn update_steps<D: DocTables>(
    alloc: Global,
    tables: &D,
    table: &Name,
    rows: &[i64],
    columns: &[UserColumn],
) -> Result<StepList, AllocError>
    requires { list_all (may_give (grid_at (D.document tables.now) table.now)) columns.now ≡ true }
    ensures { IfOk result
        (λ l. l ≡ if_any (row_ids rows.now)
        (direct (BulkUpdate table.now (row_ids rows.now)
        (all_fitted (D.document tables.now) table.now columns.now)))) }
{
    if rows.is_empty() {
        return Ok(StepList::new(alloc));
    }
    let action = update(alloc, tables, table, rows, columns)?;
    let steps = direct(alloc, action)?;
    Ok(steps)
}

// The step that removes records alone.
fn removal(alloc: Global, table: &Name, rows: &[i64]) -> Result<StepList, AllocError>
    ensures { IfOk result (λ l. l ≡ direct (BulkRemove table.now (row_ids rows.now)) ∷ []) }
{
    let action = DocAction::BulkRemove {
        table: table.clone()?,
        rows: row_ids(alloc, rows)?,
    };
    direct(alloc, action)
}

// Adds the steps that clear the references to records that go.
fn add_cleared<D: DocTables>(
    alloc: Global,
    tables: &D,
    table: &Name,
    rows: &[i64],
    steps: &mut StepList,
) -> Result<(), AllocError>
    requires { IsWhole (D.document tables.now) }
    ensures { IfOk result
        (λ _. steps.new
        ≡ steps.old ++ clearings (D.document tables.now) table.now (row_ids rows.now)
        (referrers (D.document tables.now) table.now table.now false)) }
{
    let known = referrers(alloc, tables, table, table, false)?;
    if known.is_empty() {
        return Ok(());
    }
    let gone = GoneRows::new(alloc, row_ids(alloc, rows)?)?;
    add_clearings(alloc, tables, table, &gone, &known, steps)
}

/// The steps that remove records, and then clear the references to them.
pub(crate) fn remove_steps<D: DocTables>(
    alloc: Global,
    tables: &D,
    table: &Name,
    rows: &[i64],
) -> Result<StepList, AllocError>
    requires { IsWhole (D.document tables.now) }
    ensures { IfOk result
        (λ l. l ≡ direct (BulkRemove table.now (row_ids rows.now))
        ∷ clearings (D.document tables.now) table.now (row_ids rows.now)
        (referrers (D.document tables.now) table.now table.now false)) }
{
    let mut steps = removal(alloc, table, rows)?;
    add_cleared(alloc, tables, table, rows, &mut steps)?;
    Ok(steps)
}
