//! The words that user actions begin with.
ghost use Rattle.std.specs.Prelude.{◌≡◌};
ghost use Rattle.action_lines.specs.Kinds.{kind_from};

/// What stands first in the array of a user action.
#[derive(Clone, Copy)]
pub enum ActionKind {
    AddRecord,
    BulkAddRecord,
    UpdateRecord,
    BulkUpdateRecord,
    RemoveRecord,
    BulkRemoveRecord,
    AddTable,
    RemoveTable,
    RenameTable,
    AddColumn,
    RemoveColumn,
    RenameColumn,
    ModifyColumn,
}

/// The kind of that word.
pub fn kind_of(text: &str) -> Option<ActionKind>
    ensures { result ≡ kind_from text.now }
{
    match text {
        "AddRecord" => Some(ActionKind::AddRecord),
        "BulkAddRecord" => Some(ActionKind::BulkAddRecord),
        "UpdateRecord" => Some(ActionKind::UpdateRecord),
        "BulkUpdateRecord" => Some(ActionKind::BulkUpdateRecord),
        "RemoveRecord" => Some(ActionKind::RemoveRecord),
        "BulkRemoveRecord" => Some(ActionKind::BulkRemoveRecord),
        "AddTable" => Some(ActionKind::AddTable),
        "RemoveTable" => Some(ActionKind::RemoveTable),
        "RenameTable" => Some(ActionKind::RenameTable),
        "AddColumn" => Some(ActionKind::AddColumn),
        "RemoveColumn" => Some(ActionKind::RemoveColumn),
        "RenameColumn" => Some(ActionKind::RenameColumn),
        "ModifyColumn" => Some(ActionKind::ModifyColumn),
        _ => None,
    }
}
