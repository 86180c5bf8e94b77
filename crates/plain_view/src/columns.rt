//! The changes of a table's columns: those that are gone, the new ones, and those that are another.

ghost use Rattle.std.specs.Prelude.{◌≡◌, ◌++◌, ◌↔◌, IfOk, IsTrue, OnOk};
ghost use Rattle.doc_model.specs.declared.view.ViewAction.TheVariants.{RemoveColumn};
ghost use Rattle.doc_model.specs.Changes.{for_each};
ghost use Rattle.doc_model.specs.ViewEdits.{differs};
ghost use Rattle.plain_view.specs.Steps.{added_column, modified_column, removed_column};

use crate::actions::add;
use crate::copies::{column_copy, name_copy};
use crate::named::{find_id, is_there};
use cell_types::{CellText, Name, Same};
use doc_model::{ViewAction, ViewCol};
use std::alloc::AllocError;

fn is_same_formula(left: &Option<CellText>, right: &Option<CellText>) -> bool
    ensures { IsTrue result ↔ (left.now ≡ right.now) }
{
    match (left, right) {
        (None, None) => true,
        (Some(left), Some(right)) => left.same_as(right),
        _ => false,
    }
}

fn is_same_column(left: &ViewCol, right: &ViewCol) -> bool
    ensures { IsTrue result ↔ (left.now ≡ right.now) }
{
    left.id.same_as(&right.id)
        && left.ty.same_as(&right.ty)
        && left.is_formula == right.is_formula
        && is_same_formula(&left.formula, &right.formula)
}

/// Whether the column was there before and was another one.
///
/// Memory: none. Cost: linear in the columns.
fn differs(before: &[ViewCol], column: &ViewCol) -> bool
    ensures { result ≡ differs before.now column.now }
{
    match find_id(before, &column.id) {
        Some(old) => !is_same_column(old, column),
        None => false,
    }
}

fn removal(table: &Name, column: &Name) -> Result<ViewAction, AllocError>
    ensures { IfOk result (λ a. a ≡ RemoveColumn table.now column.now) }
{
    let table = name_copy(table)?;
    let column = name_copy(column)?;
    Ok(ViewAction::RemoveColumn { table, column })
}

fn column_told(table: &Name, column: &ViewCol) -> Result<(Name, ViewCol), AllocError>
    ensures { IfOk result (λ t. t ≡ (table.now, column.now)) }
{
    let table = name_copy(table)?;
    Ok((table, column_copy(column)?))
}

fn tell_removed(
    table: &Name,
    after: &[ViewCol],
    column: &ViewCol,
    actions: &mut Vec<ViewAction>,
) -> Result<(), AllocError>
    ensures { OnOk result
        (actions.new.items ≡ actions.old.items ++ removed_column table.now after.now column.now) }
{
    if !is_there(after, &column.id) {
        add(actions, removal(table, &column.id)?)?;
    }
    Ok(())
}

fn tell_added(
    table: &Name,
    before: &[ViewCol],
    column: &ViewCol,
    actions: &mut Vec<ViewAction>,
) -> Result<(), AllocError>
    ensures { OnOk result
        (actions.new.items ≡ actions.old.items ++ added_column table.now before.now column.now) }
{
    if !is_there(before, &column.id) {
        let (table, column) = column_told(table, column)?;
        add(actions, ViewAction::AddColumn { table, column })?;
    }
    Ok(())
}

fn tell_modified(
    table: &Name,
    before: &[ViewCol],
    column: &ViewCol,
    actions: &mut Vec<ViewAction>,
) -> Result<(), AllocError>
    ensures { OnOk result
        (actions.new.items ≡ actions.old.items ++ modified_column table.now before.now column.now) }
{
    if differs(before, column) {
        let (table, column) = column_told(table, column)?;
        add(actions, ViewAction::ModifyColumn { table, column })?;
    }
    Ok(())
}

/// Adds the columns that are gone to the actions.
///
/// Errors: out of memory. Cost: the square of the columns.
pub(crate) fn tell_removed_columns(
    table: &Name,
    before: &[ViewCol],
    after: &[ViewCol],
    actions: &mut Vec<ViewAction>,
) -> Result<(), AllocError>
    ensures { OnOk result
        (actions.new.items ≡ actions.old.items
        ++ for_each (removed_column table.now after.now) before.now) }
{
    for column in before {
        tell_removed(table, after, column, actions)?;
    }
    Ok(())
}

/// Adds the new columns to the actions.
///
/// Errors: out of memory. Cost: the square of the columns.
pub(crate) fn tell_added_columns(
    table: &Name,
    before: &[ViewCol],
    after: &[ViewCol],
    actions: &mut Vec<ViewAction>,
) -> Result<(), AllocError>
    ensures { OnOk result
        (actions.new.items ≡ actions.old.items
        ++ for_each (added_column table.now before.now) after.now) }
{
    for column in after {
        tell_added(table, before, column, actions)?;
    }
    Ok(())
}

/// Adds the columns that are another one than before to the actions.
///
/// Errors: out of memory. Cost: the square of the columns.
pub(crate) fn tell_modified_columns(
    table: &Name,
    before: &[ViewCol],
    after: &[ViewCol],
    actions: &mut Vec<ViewAction>,
) -> Result<(), AllocError>
    ensures { OnOk result
        (actions.new.items ≡ actions.old.items
        ++ for_each (modified_column table.now before.now) after.now) }
{
    for column in after {
        tell_modified(table, before, column, actions)?;
    }
    Ok(())
}
