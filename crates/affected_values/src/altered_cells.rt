//! The formula cells that an action on no records alters.

ghost use Rattle.std.specs.Prelude.{◌≡◌, ◌&&◌, true, false, OnOk};
ghost use Rattle.std.specs.Str.{bytes_eq};
ghost use Rattle.cell_types.specs.declared.cell.CellId.{CellId};
ghost use Rattle.recalc.specs.Stack.{on};
ghost use Rattle.affected_values.specs.Altered.{HasAltered, is_altered};
ghost use Rattle.affected_values.specs.Pushed.{ArePushed};

use crate::row_cells::{push_row_cells, push_where};
use cell_types::{CellId, Name};
use doc_model::{DocAction, DocTables};
use doc_readers::{find_column, rows_in};
use std::alloc::AllocError;

// Puts the formula cells of a table last.
fn push_of_table<D: DocTables>(
    tables: &D,
    table: &Name,
    cells: &mut Vec<CellId>,
) -> Result<(), AllocError>
    ensures { OnOk result (ArePushed (D.document tables.now) (λ c. bytes_eq c.table table.now)
        cells.old.items cells.new.items) }
{
    push_row_cells(tables, table, rows_in(tables, table), cells)
}

// Puts the cells of a column last, where it is a formula column.
fn push_of_column<D: DocTables>(
    tables: &D,
    table: &Name,
    column: &Name,
    cells: &mut Vec<CellId>,
) -> Result<(), AllocError>
    ensures { OnOk result (ArePushed (D.document tables.now)
        (λ c. bytes_eq c.table table.now && bytes_eq c.column column.now)
        cells.old.items cells.new.items) }
{
    match find_column(tables, table, column) {
        Some(found) => push_where(table, found, rows_in(tables, table), cells),
        None => Ok(()),
    }
}

/// Puts the formula cells last that an action alters, as a document before or after it shows them.
/// An action on records alters none.
///
/// Errors: out of memory; some are then there. Memory: the cells.
/// Cost: linear in the columns of the table and in the cells.
pub fn push_altered_cells<D: DocTables>(
    tables: &D,
    action: &DocAction,
    cells: &mut Vec<CellId>,
) -> Result<(), AllocError>
    ensures stays { OnOk result
        ((c : CellId) → on cells.old.items c ≡ true → on cells.new.items c ≡ true) }
    ensures pushed { OnOk result
        (HasAltered (D.document tables.now) action.now cells.new.items) }
    ensures only { OnOk result
        ((c : CellId) → on cells.new.items c ≡ true → on cells.old.items c ≡ false
        → is_altered action.now c ≡ true) }
{
    match action {
        DocAction::AddTable { table, .. } | DocAction::RemoveTable { table } => {
            push_of_table(tables, table, cells)
        }
        DocAction::RenameTable { table, new } => {
            push_of_table(tables, table, cells)?;
            push_of_table(tables, new, cells)
        }
        DocAction::AddColumn { table, column } => {
            push_of_column(tables, table, &column.id, cells)
        }
        DocAction::RemoveColumn { table, column } => push_of_column(tables, table, column, cells),
        DocAction::ModifyColumn { table, column, .. } => {
            push_of_column(tables, table, column, cells)
        }
        DocAction::RenameColumn { table, column, new } => {
            push_of_column(tables, table, column, cells)?;
            push_of_column(tables, table, new, cells)
        }
        _ => Ok(()),
    }
}
