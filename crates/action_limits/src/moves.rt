//! What document actions remove from the counted sums of a document, and what they add to them.

ghost use Rattle.std.specs.Prelude.{◌≡◌, ◌+◌, ◌-◌, ◌*◌, length, map, true};
ghost use Rattle.std.specs.List.{list_all};
ghost use Rattle.doc_model.specs.CountLaws.{bytes_of_formula, column_weight, given_weight, sums_added, sums_removed};
ghost use Rattle.doc_model.specs.Counts.{formula_bytes, total};
ghost use Rattle.doc_model.specs.DocumentLaws.{IsWhole};
ghost use Rattle.doc_model.specs.declared.column.CellColumn.{CellColumn};
ghost use Rattle.doc_readers.specs.Parts.{grid_at};
ghost use Rattle.action_limits.specs.Capped.{IsCapped, all_moved, all_moved_at, capped, has_named, is_there, moved_by};
ghost use Rattle.action_limits.specs.Updated.{all_updated_at, is_known, updated_by};

use crate::limits::{Counted, no_counts};
use crate::weighing::{
    column_count, column_weight, rows_weight, table_cells, table_weight, total, values_weight,
};
use cell_types::Name;
use doc_model::{CellColumn, ColDef, DocAction, DocTables, Step};
use doc_readers::{find_column, rows_in};

// The weight of the cells of given columns in these rows.
fn cells_given<D: DocTables>(tables: &D, table: &Name, rows: &[u32], columns: &[CellColumn]) -> u64
    ensures { result
        ≡ capped (total
        (map (λ (k : CellColumn). column_weight
        (grid_at (D.document tables.now) table.now) rows.now k.id) columns.now)) }
{
    total(
        columns,
        |column| column_weight(tables, table, &column.id, rows),
    )
}

fn given_weight(columns: &[CellColumn]) -> u64
    ensures { result ≡ capped (given_weight columns.now) }
{
    total(columns, |column| values_weight(column.values.as_slice()))
}

fn formulas_given(columns: &[ColDef]) -> u64
    ensures { result ≡ capped (total (map formula_bytes columns.now)) }
{
    let mut weight = 0u64;
    for column in columns {
        weight = weight.saturating_add(column.info.formula.len() as u64);
    }
    weight
}

fn bytes_of_formula<D: DocTables>(tables: &D, table: &Name, column: &Name) -> u64
    requires { IsWhole (D.document tables.now) }
    ensures { result
        ≡ capped (bytes_of_formula (grid_at (D.document tables.now) table.now) column.now) }
{
    match find_column(tables, table, column) {
        Some(known) => known.info.formula.len() as u64,
        None => 0,
    }
}

fn cells_in_rows<D: DocTables>(tables: &D, table: &Name, rows: &[u32]) -> u64
    requires { IsWhole (D.document tables.now) }
    ensures { result
        ≡ capped (length rows.now * length (grid_at (D.document tables.now) table.now).columns) }
{
    (rows.len() as u64).saturating_mul(column_count(tables, table) as u64)
}

fn column_removed<D: DocTables>(tables: &D, table: &Name, column: &Name) -> u64
    requires { IsWhole (D.document tables.now) }
    ensures { result
        ≡ capped (column_weight (grid_at (D.document tables.now) table.now)
        (grid_at (D.document tables.now) table.now).rows column.now + bytes_of_formula
        (grid_at (D.document tables.now) table.now) column.now) }
{
    let cells = column_weight(tables, table, column, rows_in(tables, table));
    cells.saturating_add(bytes_of_formula(tables, table, column))
}

// What an action removes.
fn sums_removed<D: DocTables>(tables: &D, action: &DocAction) -> Counted
    requires whole { IsWhole (D.document tables.now) }
    requires there { has_named (D.document tables.now) action.now ≡ true }
    ensures { IsCapped result (sums_removed (D.document tables.now) action.now) }
{
    match action {
        DocAction::BulkUpdate {
            table,
            rows,
            columns,
        } => Counted {
            weight: cells_given(tables, table, rows.as_slice(), columns.as_slice()),
            ..no_counts()
        },
        DocAction::BulkRemove { table, rows } => Counted {
            cells: cells_in_rows(tables, table, rows.as_slice()),
            weight: rows_weight(tables, table, rows.as_slice()),
            ..no_counts()
        },
        DocAction::RemoveTable { table } => Counted {
            tables: 1,
            cells: table_cells(tables, table),
            weight: table_weight(tables, table),
            ..no_counts()
        },
        DocAction::RemoveColumn { table, column } => Counted {
            cells: rows_in(tables, table).len() as u64,
            weight: column_removed(tables, table, column),
            ..no_counts()
        },
        DocAction::ModifyColumn { table, column, .. } => Counted {
            weight: bytes_of_formula(tables, table, column),
            ..no_counts()
        },
        _ => no_counts(),
    }
}

// What an action adds.
fn sums_added<D: DocTables>(tables: &D, action: &DocAction) -> Counted
    requires whole { IsWhole (D.document tables.now) }
    requires there { has_named (D.document tables.now) action.now ≡ true }
    ensures { IsCapped result (sums_added (D.document tables.now) action.now) }
{
    match action {
        DocAction::BulkAdd {
            table,
            rows,
            columns,
        } => Counted {
            cells: cells_in_rows(tables, table, rows.as_slice()),
            weight: given_weight(columns.as_slice()),
            ..no_counts()
        },
        DocAction::BulkUpdate { columns, .. } => Counted {
            weight: given_weight(columns.as_slice()),
            ..no_counts()
        },
        DocAction::AddTable { columns, .. } => Counted {
            tables: 1,
            weight: formulas_given(columns.as_slice()),
            ..no_counts()
        },
        DocAction::AddColumn { table, column } => Counted {
            cells: rows_in(tables, table).len() as u64,
            weight: column.info.formula.len() as u64,
            ..no_counts()
        },
        DocAction::ModifyColumn { info, .. } => Counted {
            weight: info.formula.len() as u64,
            ..no_counts()
        },
        _ => no_counts(),
    }
}

// A sum after an action that removes and adds so much.
fn sum_after(before: u64, removed: u64, added: u64) -> u64
    ensures { result ≡ capped (before - removed + added) }
{
    before.saturating_sub(removed).saturating_add(added)
}

/// The sums after an action, from those before it.
pub(crate) fn after_action<D: DocTables>(tables: &D, before: Counted, action: &DocAction) -> Counted
    requires whole { IsWhole (D.document tables.now) }
    requires there { has_named (D.document tables.now) action.now ≡ true }
    ensures { result ≡ moved_by (D.document tables.now) before action.now }
{
    let removed = sums_removed(tables, action);
    let added = sums_added(tables, action);
    Counted {
        tables: sum_after(before.tables, removed.tables, added.tables),
        cells: sum_after(before.cells, removed.cells, added.cells),
        weight: sum_after(before.weight, removed.weight, added.weight),
        ..before
    }
}

/// The sums after steps, from those before them. A store tells the first document alone: each step
/// takes there what it takes at its own index.
pub(crate) fn after_steps<D: DocTables>(tables: &D, before: Counted, steps: &[Step]) -> Counted
    requires whole { IsWhole (D.document tables.now) }
    requires there { list_all (is_there (D.document tables.now)) steps.now ≡ true }
    requires alike { all_moved_at (D.document tables.now) before steps.now
        ≡ all_moved (D.document tables.now) before steps.now }
    ensures { result ≡ all_moved (D.document tables.now) before steps.now }
{
    let mut sums = before;
    for step in steps {
        sums = after_action(tables, sums, &step.action);
    }
    sums
}

// The sums after a step; they are as before where it updates no records.
fn after_update<D: DocTables>(tables: &D, before: Counted, step: &Step) -> Counted
    requires whole { IsWhole (D.document tables.now) }
    requires known { is_known (D.document tables.now) step.now ≡ true }
    ensures { result ≡ updated_by (D.document tables.now) before step.now }
{
    match &step.action {
        DocAction::BulkUpdate { .. } => after_action(tables, before, &step.action),
        _ => before,
    }
}

/// The sums after steps of which the updates of records alone move them, each taken at the document
/// before all of them. The tables of the others need not be there.
pub(crate) fn after_updates<D: DocTables>(tables: &D, before: Counted, steps: &[Step]) -> Counted
    requires whole { IsWhole (D.document tables.now) }
    requires known { list_all (is_known (D.document tables.now)) steps.now ≡ true }
    ensures { result ≡ all_updated_at (D.document tables.now) before steps.now }
{
    let mut sums = before;
    for step in steps {
        sums = after_update(tables, sums, step);
    }
    sums
}
