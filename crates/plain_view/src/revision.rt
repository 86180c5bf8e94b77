//! The changes of a table that is there before and after.

ghost use Rattle.std.specs.Prelude.{◌≡◌, ◌++◌, OnOk};
ghost use Rattle.doc_model.specs.Changes.{grid};
ghost use Rattle.doc_model.specs.ViewEdits.{IsShown};
ghost use Rattle.plain_view.specs.Steps.{column_changes, revision, row_changes};

use crate::columns::{tell_added_columns, tell_modified_columns, tell_removed_columns};
use crate::records::{tell_added_rows, tell_removed_rows, tell_updated_cells};
use crate::rows::rows_without;
use doc_model::{ViewAction, ViewTable};
use std::alloc::{AllocError, Global};

/// Adds what leads from the table before to the table after to the actions: columns that are gone,
/// new and other ones, rows that are gone and new, and then the cells that still differ.
///
/// Errors: out of memory. Cost: the cells of both, times the logarithm of the rows, and the square
/// of the columns.
pub(crate) fn tell_revision(
    alloc: Global,
    before: &ViewTable,
    after: &ViewTable,
    actions: &mut Vec<ViewAction>,
) -> Result<(), AllocError>
    requires before { IsShown (grid before.now) }
    requires after { IsShown (grid after.now) }
    ensures { OnOk result
        (actions.new.items ≡ actions.old.items
        ++ revision after.now.id (grid before.now) (grid after.now)) }
{
    tell_columns(before, after, actions)?;
    tell_rows(alloc, before, after, actions)?;
    tell_updated_cells(alloc, before, after, actions)
}

fn tell_columns(
    before: &ViewTable,
    after: &ViewTable,
    actions: &mut Vec<ViewAction>,
) -> Result<(), AllocError>
    ensures { OnOk result
        (actions.new.items ≡ actions.old.items
        ++ column_changes after.now.id (grid before.now) (grid after.now)) }
{
    let old = before.columns.as_slice();
    let new = after.columns.as_slice();
    tell_removed_columns(&after.id, old, new, actions)?;
    tell_added_columns(&after.id, old, new, actions)?;
    tell_modified_columns(&after.id, old, new, actions)
}

fn tell_rows(
    alloc: Global,
    before: &ViewTable,
    after: &ViewTable,
    actions: &mut Vec<ViewAction>,
) -> Result<(), AllocError>
    requires before { IsShown (grid before.now) }
    requires after { IsShown (grid after.now) }
    ensures { OnOk result
        (actions.new.items ≡ actions.old.items
        ++ row_changes after.now.id (grid before.now) (grid after.now)) }
{
    let old = before.rows.as_slice();
    let new = after.rows.as_slice();
    tell_removed_rows(alloc, &after.id, old, new, actions)?;
    tell_added_rows(alloc, after, rows_without(alloc, old, true, new)?, actions)
}
