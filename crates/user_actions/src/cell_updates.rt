//! Updates of the cells of a column that something changes.

ghost use Rattle.std.specs.Prelude.{◌≡◌, ◌++◌, [], ◌∷◌, true, false, map, IfOk, MatchOption, Ok};
ghost use Rattle.std.specs.Fn.{FnReturnsAt};
ghost use Rattle.cell_types.specs.declared.value.CellValue.{CellValue};
ghost use Rattle.doc_model.specs.Column.{column_id};
ghost use Rattle.doc_model.specs.Grid.{cell};
ghost use Rattle.doc_model.specs.Same.{same_value};
ghost use Rattle.doc_model.specs.declared.action.DocAction.TheVariants.{BulkUpdate};
ghost use Rattle.doc_readers.specs.Parts.{grid_at};
ghost use Rattle.user_actions.specs.CellUpdates.{rows_changed, update_changed};
ghost use Rattle.user_actions.specs.Marked.{indirect};

use cell_types::{CellValue, Name, RowList, Same, ValueList};
use doc_model::{CellColumn, ColumnList, DocAction, DocTables, Step, StepList};
use doc_readers::cell_in;
use std::alloc::{AllocError, Global};

// Rows, and the values of a column that they get.
#[derive(Drop)]
struct Changed {
    rows: RowList,
    values: ValueList,
}

fn is_same_value(left: &CellValue, right: &CellValue) -> bool
    ensures { result ≡ same_value left.now right.now }
{
    left.same_as(right)
}

// What a cell becomes, where that is another value.
fn if_other(cell: &CellValue, changed: CellValue) -> Option<CellValue>
    ensures { MatchOption result (same_value cell.now changed ≡ true)
        (λ v. (same_value cell.now changed ≡ false) × (v ≡ changed)) }
{
    if is_same_value(cell, &changed) {
        return None;
    }
    Some(changed)
}

// What the cell becomes, where that is another value.
fn change_of<D: DocTables, F: Fn(&CellValue) -> Result<CellValue, AllocError>>(
    tables: &D,
    table: &Name,
    column: &Name,
    row: u32,
    change: &F,
) -> Result<Option<CellValue>, AllocError>
    requires { F.IsAlwaysCallable change.now }
    ensures { (f : CellValue → CellValue)
        → ((x : CellValue) (y : CellValue) → FnReturnsAt F.Fn change.now x (Ok y) → y ≡ f x)
        → IfOk result
        (λ o. MatchOption o
        (same_value (cell column_id (grid_at (D.document tables.now) table.now) column.now row)
        (f (cell column_id (grid_at (D.document tables.now) table.now) column.now row)) ≡ true)
        (λ v. (same_value
        (cell column_id (grid_at (D.document tables.now) table.now) column.now row)
        (f (cell column_id (grid_at (D.document tables.now) table.now) column.now row)) ≡ false)
        × (v ≡ f (cell column_id (grid_at (D.document tables.now) table.now) column.now row)))) }
{
    let cell = cell_in(tables, table, column, row)?;
    let changed = (*change)(&cell)?;
    Ok(if_other(&cell, changed))
}

// Those of the rows in which the column's cell changes, and what it becomes there.
fn changes<D: DocTables, F: Fn(&CellValue) -> Result<CellValue, AllocError>>(
    alloc: Global,
    tables: &D,
    table: &Name,
    column: &Name,
    rows: &[u32],
    change: F,
) -> Result<Changed, AllocError>
    requires { F.IsAlwaysCallable change }
    ensures { (f : CellValue → CellValue)
        → ((x : CellValue) (y : CellValue) → FnReturnsAt F.Fn change x (Ok y) → y ≡ f x)
        → IfOk result
        (λ c. (c.rows ≡ rows_changed (grid_at (D.document tables.now) table.now) column.now f
        rows.now)
        × (c.values ≡ map
        (λ r. f (cell column_id (grid_at (D.document tables.now) table.now) column.now r))
        c.rows)) }
{
    let mut changed = Vec::new(alloc);
    let mut values = Vec::new(alloc);
    for row in rows {
        if let Some(value) = change_of(tables, table, column, *row, &change)? {
            values.push(value)?;
            changed.push(*row)?;
        }
    }
    Ok(Changed {
        rows: RowList::from(changed),
        values: ValueList::from(values),
    })
}

fn update(alloc: Global, table: &Name, column: &Name, changed: Changed) -> Result<Step, AllocError>
    ensures { IfOk result
        (λ s. s ≡ indirect
        (BulkUpdate table.now changed.rows
        (record { id = column.now; values = changed.values } ∷ []))) }
{
    let mut columns = ColumnList::new(alloc);
    columns.push(CellColumn {
        id: column.clone()?,
        values: changed.values,
    })?;
    let action = DocAction::BulkUpdate {
        table: table.clone()?,
        rows: changed.rows,
        columns,
    };
    Ok(Step {
        action,
        direct: false,
    })
}

/// Adds the update of the cells in these rows that change, where there are any: where a function
/// tells what `change` makes of a cell, those that it changes.
///
/// Errors: out of memory.
pub(crate) fn add_update<D: DocTables, F: Fn(&CellValue) -> Result<CellValue, AllocError>>(
    alloc: Global,
    tables: &D,
    table: &Name,
    column: &Name,
    rows: &[u32],
    change: F,
    steps: &mut StepList,
) -> Result<(), AllocError>
    requires { F.IsAlwaysCallable change }
    ensures { (f : CellValue → CellValue)
        → ((x : CellValue) (y : CellValue) → FnReturnsAt F.Fn change x (Ok y) → y ≡ f x)
        → IfOk result
        (λ _. steps.new
        ≡ steps.old ++ update_changed table.now (grid_at (D.document tables.now) table.now)
        column.now f rows.now) }
{
    let changed = changes(alloc, tables, table, column, rows, change)?;
    if changed.rows.is_empty() {
        return Ok(());
    }
    let step = update(alloc, table, column, changed)?;
    steps.push(step)?;
    Ok(())
}
