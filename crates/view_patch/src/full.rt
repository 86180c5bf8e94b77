//! Whether actions give one value for each of their rows.

ghost use Rattle.std.specs.Prelude.{◌≡◌, ◌↔◌, length, IsTrue};
ghost use Rattle.std.specs.List.{AllByRecursion};
ghost use Rattle.doc_model.specs.declared.column.CellColumn.{CellColumn};
ghost use Rattle.view_patch.specs.Given.{IsFull};

use doc_model::{CellColumn, ViewAction, ViewActionList};

fn are_columns_full(count: usize, columns: &[CellColumn]) -> bool
    ensures { IsTrue result
        ↔ AllByRecursion (λ (k : CellColumn). length k.values ≡ count) columns.now }
{
    for column in columns {
        if column.values.len() != count {
            return false;
        }
    }
    true
}

fn is_full(action: &ViewAction) -> bool
    ensures { IsTrue result ↔ IsFull action.now }
{
    match action {
        ViewAction::BulkAdd { rows, columns, .. } => {
            are_columns_full(rows.len(), columns.as_slice())
        }
        ViewAction::BulkUpdate { rows, columns, .. } => {
            are_columns_full(rows.len(), columns.as_slice())
        }
        _ => true,
    }
}

/// Whether each column of each action has one value for each row of the action, as `patch` wants
/// it.
///
/// Memory: none. Cost: linear in the columns of the actions.
pub fn are_full(actions: &ViewActionList) -> bool
    ensures { IsTrue result ↔ AllByRecursion IsFull actions.now }
{
    for action in actions.as_slice() {
        if !is_full(action) {
            return false;
        }
    }
    true
}
