//! The changes that lead from one view to another.

ghost use Rattle.std.specs.Prelude.{◌≡◌, ◌++◌, IfOk, OnOk};
ghost use Rattle.std.specs.List.{AllByRecursion};
ghost use Rattle.doc_model.specs.Changes.{IsView, changes, for_each, grid, introduced, revised};
ghost use Rattle.doc_model.specs.ViewEdits.{IsShown};
ghost use Rattle.plain_view.specs.Steps.{new_table, removed_table};

use crate::actions::add;
use crate::copies::{head_copy, name_copy, rows_copy};
use crate::named::{find_id, is_there};
use crate::records::tell_added_rows;
use crate::revision::tell_revision;
use doc_model::{View, ViewAction, ViewActionList, ViewTable};
use std::alloc::{AllocError, Global};

/// The changes that lead from the view before to the view after: tables that are gone, new tables,
/// and then the changes of each other table, in the order of the tables.
///
/// Errors: out of memory. Cost: the cells of both views, times the logarithm of the rows, and the
/// squares of the number of tables and of the columns of each table.
pub fn changes(alloc: Global, before: &View, after: &View) -> Result<ViewActionList, AllocError>
    requires before { IsView before.now.tables }
    requires after { IsView after.now.tables }
    ensures { IfOk result (λ l. l ≡ changes before.now.tables after.now.tables) }
{
    let old = before.tables.as_slice();
    let new = after.tables.as_slice();
    let mut actions = Vec::new(alloc);
    tell_removed_tables(old, new, &mut actions)?;
    tell_new_tables(alloc, old, new, &mut actions)?;
    tell_revised_tables(alloc, old, new, &mut actions)?;
    Ok(ViewActionList::from(actions))
}

fn tell_removed(
    after: &[ViewTable],
    table: &ViewTable,
    actions: &mut Vec<ViewAction>,
) -> Result<(), AllocError>
    ensures { OnOk result
        (actions.new.items ≡ actions.old.items ++ removed_table after.now table.now) }
{
    if !is_there(after, &table.id) {
        let table = name_copy(&table.id)?;
        add(actions, ViewAction::RemoveTable { table })?;
    }
    Ok(())
}

fn introduce(
    alloc: Global,
    table: &ViewTable,
    actions: &mut Vec<ViewAction>,
) -> Result<(), AllocError>
    requires { IsShown (grid table.now) }
    ensures { OnOk result (actions.new.items ≡ actions.old.items ++ introduced table.now) }
{
    let (id, columns) = head_copy(table)?;
    add(actions, ViewAction::AddTable { table: id, columns })?;
    tell_added_rows(alloc, table, rows_copy(&table.rows)?, actions)
}

fn tell_new(
    alloc: Global,
    before: &[ViewTable],
    table: &ViewTable,
    actions: &mut Vec<ViewAction>,
) -> Result<(), AllocError>
    requires { IsShown (grid table.now) }
    ensures { OnOk result
        (actions.new.items ≡ actions.old.items ++ new_table before.now table.now) }
{
    if !is_there(before, &table.id) {
        introduce(alloc, table, actions)?;
    }
    Ok(())
}

fn tell_revised(
    alloc: Global,
    before: &[ViewTable],
    table: &ViewTable,
    actions: &mut Vec<ViewAction>,
) -> Result<(), AllocError>
    requires before { AllByRecursion (λ t. IsShown (grid t)) before.now }
    requires table { IsShown (grid table.now) }
    ensures { OnOk result (actions.new.items ≡ actions.old.items ++ revised before.now table.now) }
{
    match find_id(before, &table.id) {
        Some(old) => tell_revision(alloc, old, table, actions),
        None => Ok(()),
    }
}

fn tell_removed_tables(
    before: &[ViewTable],
    after: &[ViewTable],
    actions: &mut Vec<ViewAction>,
) -> Result<(), AllocError>
    ensures { OnOk result
        (actions.new.items ≡ actions.old.items ++ for_each (removed_table after.now) before.now) }
{
    for table in before {
        tell_removed(after, table, actions)?;
    }
    Ok(())
}

fn tell_new_tables(
    alloc: Global,
    before: &[ViewTable],
    after: &[ViewTable],
    actions: &mut Vec<ViewAction>,
) -> Result<(), AllocError>
    requires { AllByRecursion (λ t. IsShown (grid t)) after.now }
    ensures { OnOk result
        (actions.new.items ≡ actions.old.items ++ for_each (new_table before.now) after.now) }
{
    for table in after {
        tell_new(alloc, before, table, actions)?;
    }
    Ok(())
}

fn tell_revised_tables(
    alloc: Global,
    before: &[ViewTable],
    after: &[ViewTable],
    actions: &mut Vec<ViewAction>,
) -> Result<(), AllocError>
    requires before { AllByRecursion (λ t. IsShown (grid t)) before.now }
    requires after { AllByRecursion (λ t. IsShown (grid t)) after.now }
    ensures { OnOk result
        (actions.new.items ≡ actions.old.items ++ for_each (revised before.now) after.now) }
{
    for table in after {
        tell_revised(alloc, before, table, actions)?;
    }
    Ok(())
}
