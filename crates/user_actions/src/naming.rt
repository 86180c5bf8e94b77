//! The table that a user action names.

ghost use Rattle.std.specs.Prelude.{◌≡◌, IfOk};
ghost use Rattle.cell_types.specs.NameLength.{HasNameLength};
ghost use Rattle.user_actions.specs.Kinds.{table_of};

use cell_types::{CellText, Name};
use doc_model::UserAction;
use std::alloc::{AllocError, Global};

/// The table that the action names.
pub fn table_of(action: &UserAction) -> &str
    ensures { result.now ≡ table_of action.now }
{
    match action {
        UserAction::Add { table, .. }
        | UserAction::Update { table, .. }
        | UserAction::Remove { table, .. }
        | UserAction::AddTable { table, .. }
        | UserAction::RemoveTable { table }
        | UserAction::RenameTable { table, .. }
        | UserAction::AddColumn { table, .. }
        | UserAction::RemoveColumn { table, .. }
        | UserAction::RenameColumn { table, .. }
        | UserAction::ModifyColumn { table, .. } => table.as_str(),
    }
}

/// The id of the table that the action names; a document's tables have no longer ones.
///
/// Errors: out of memory.
pub fn table_name(alloc: Global, action: &UserAction) -> Result<Name, AllocError>
    requires { HasNameLength (table_of action.now) }
    ensures { IfOk result (λ n. n ≡ table_of action.now) }
{
    match Name::try_new(CellText::copy_of(alloc, table_of(action))?) {
        Some(name) => Ok(name),
        None => unreachable!(),
    }
}
