//! A view after changes.

ghost use Rattle.std.specs.Prelude.{◌≡◌, ◌<◌, ◌^◌, length, true, IfErr, IfOk, None, OnOk};
ghost use Rattle.std.specs.List.{AllByRecursion};
ghost use Rattle.doc_model.specs.declared.view.ViewAction.TheVariants.{AddTable};
ghost use Rattle.doc_model.specs.ByIds.{with_id, without_id};
ghost use Rattle.doc_model.specs.Changes.{IsView, grid, shown_table_id};
ghost use Rattle.doc_model.specs.Patch.{fits, patch, patched, unfit_at};
ghost use Rattle.doc_model.specs.ViewEdits.{IsShown};
ghost use Rattle.view_patch.specs.Acts.{act, act_fits, fits_there};
ghost use Rattle.view_patch.specs.Faults.{tells, tells_here};
ghost use Rattle.view_patch.specs.Given.{IsFull};

use crate::copies::{table_copy, tables_copy};
use crate::editing::{with_column, with_rows, with_values, without_column, without_rows};
use crate::fitting::fits;
use crate::placing::{columns_by_id, put_by_id, remove_by_id};
use cell_types::{Name, RowList};
use doc_model::{CellRowList, View, ViewAction, ViewActionList, ViewCol, ViewTable, ViewTableList};
use plain_view::copies::name_copy;
use plain_view::named::index_of;
use std::alloc::{AllocError, Global};

/// Why a view was not patched.
#[derive(Drop)]
pub enum PatchFault {
    /// The action at this index, counted from 0, names what is not there or adds what is.
    Unfit { index: u32 },
    /// Out of memory.
    NoMemory,
}

impl From<AllocError> for PatchFault {
    ghost use Rattle.std.specs.Prelude.{◌≡◌};
    ghost use Rattle.view_patch.specs.declared.patching.PatchFault.TheVariants.{NoMemory};

    ghost from_gives = { λ error fault. fault ≡ NoMemory };

    fn from(_error: AllocError) -> PatchFault {
        PatchFault::NoMemory
    }
}

/// The view after actions, in order.
///
/// Errors: `Unfit` at the first action that does not fit where it stands, and out of memory.
/// Memory: a copy of the view. Cost: the view, and for each action about a table the cells of that
/// table, times the logarithm of its rows: the table is built anew.
pub fn patch(alloc: Global, view: &View, actions: &ViewActionList) -> Result<View, PatchFault>
    requires view { IsView view.now.tables }
    requires full { AllByRecursion IsFull actions.now }
    requires count { length actions.now < 2 ^ 32 }
    ensures ok { IfOk result (λ after. after.tables ≡ patch view.now.tables actions.now) }
    ensures fits { OnOk result (unfit_at view.now.tables actions.now ≡ None) }
    ensures err { IfErr result (λ fault. tells fault (unfit_at view.now.tables actions.now)) }
    ensures kept { IfOk result (λ after. IsView after.tables) }
{
    let mut tables = tables_copy(alloc, view.tables.as_slice())?;
    for (index, action) in actions.as_slice().iter().enumerate() {
        step(alloc, &mut tables, index, action)?;
    }
    Ok(View {
        tables: ViewTableList::from(tables),
    })
}

// The action at an index, where it fits.
fn step(
    alloc: Global,
    tables: &mut Vec<ViewTable>,
    index: usize,
    action: &ViewAction,
) -> Result<(), PatchFault>
    requires view { IsView tables.old.items }
    requires full { IsFull action.now }
    requires few { index < 2 ^ 32 }
    ensures ok { OnOk result (tables.new.items ≡ patched action.now tables.old.items) }
    ensures fits { OnOk result (fits action.now tables.old.items ≡ true) }
    ensures err { IfErr result
        (λ fault. tells_here fault (fits action.now tables.old.items) index) }
{
    if !fits(tables, action) {
        return Err(PatchFault::Unfit {
            index: index as u32,
        });
    }
    Ok(apply(alloc, tables, action)?)
}

fn apply(alloc: Global, tables: &mut Vec<ViewTable>, action: &ViewAction) -> Result<(), AllocError>
    requires view { IsView tables.old.items }
    requires fits { fits action.now tables.old.items ≡ true }
    requires full { IsFull action.now }
    ensures { OnOk result (tables.new.items ≡ patched action.now tables.old.items) }
{
    match action {
        ViewAction::AddTable { table, columns } => {
            add_table(alloc, tables, table, columns.as_slice())
        }
        ViewAction::RemoveTable { table } => {
            remove_by_id(tables, table);
            Ok(())
        }
        ViewAction::AddColumn { table, .. } => edit_table(alloc, tables, table, action),
        ViewAction::RemoveColumn { table, .. } => edit_table(alloc, tables, table, action),
        ViewAction::ModifyColumn { table, .. } => edit_table(alloc, tables, table, action),
        ViewAction::BulkAdd { table, .. } => edit_table(alloc, tables, table, action),
        ViewAction::BulkUpdate { table, .. } => edit_table(alloc, tables, table, action),
        ViewAction::BulkRemove { table, .. } => edit_table(alloc, tables, table, action),
    }
}

fn add_table(
    alloc: Global,
    tables: &mut Vec<ViewTable>,
    id: &Name,
    columns: &[ViewCol],
) -> Result<(), AllocError>
    ensures { OnOk result
        (tables.new.items ≡ patched (AddTable id.now columns.now) tables.old.items) }
{
    let table = ViewTable {
        id: name_copy(id)?,
        columns: columns_by_id(alloc, columns)?,
        rows: RowList::new(alloc),
        cells: CellRowList::new(alloc),
    };
    put_by_id(tables, table)
}

fn edit_table(
    alloc: Global,
    tables: &mut Vec<ViewTable>,
    id: &Name,
    action: &ViewAction,
) -> Result<(), AllocError>
    requires view { IsView tables.old.items }
    requires fits { fits_there id.now action.now tables.old.items ≡ true }
    requires full { IsFull action.now }
    ensures { OnOk result
        (tables.new.items ≡ with_id shown_table_id id.now (act action.now) tables.old.items) }
{
    match index_of(tables, id) {
        Some(index) => {
            tables[index] = edited(alloc, &tables[index], action)?;
        }
        None => {}
    }
    Ok(())
}

fn edited(alloc: Global, table: &ViewTable, action: &ViewAction) -> Result<ViewTable, AllocError>
    requires table { IsShown (grid table.now) }
    requires fits { act_fits action.now table.now ≡ true }
    requires full { IsFull action.now }
    ensures { IfOk result (λ t. t ≡ act action.now table.now) }
{
    match action {
        ViewAction::AddColumn { column, .. } => with_column(alloc, table, column),
        ViewAction::RemoveColumn { column, .. } => without_column(alloc, table, column),
        ViewAction::ModifyColumn { column, .. } => with_column(alloc, table, column),
        ViewAction::BulkAdd { rows, columns, .. } => {
            with_rows(alloc, table, rows.as_slice(), columns.as_slice())
        }
        ViewAction::BulkUpdate { rows, columns, .. } => {
            with_values(alloc, table, rows.as_slice(), columns.as_slice())
        }
        ViewAction::BulkRemove { rows, .. } => without_rows(alloc, table, rows.as_slice()),
        ViewAction::AddTable { .. } | ViewAction::RemoveTable { .. } => table_copy(alloc, table),
    }
}
