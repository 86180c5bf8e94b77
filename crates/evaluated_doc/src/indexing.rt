//! Indexes handed out for a change, kept up on its way back, or given up.

ghost use Rattle.std.specs.Prelude.{◌≡◌, IfSome};
ghost use Rattle.doc_model.specs.Document.{Document};
ghost use Rattle.recalc.specs.Evaluated.{sheet_of};
ghost use Rattle.recalc.specs.Indexes.{AreIndexes};
ghost use Rattle.recalc.specs.Sheet.{Sheet};
ghost use Rattle.affected_values.specs.Indexing.{AreLeft};
ghost use Rattle.evaluated_doc.specs.Gone.{AreLeftBehind, IsGone, IsRemovalOf};

use affected_values::{enter_indexes, leave_indexes, left_back_law};
use cell_types::Sequence;
use doc_model::{DocAction, DocTables};
use recalc::ColumnIndex;
use std::alloc::Global;
use std::mem;

/// Hands the indexes out, so that none are left where a change fails.
///
/// Memory: none.
pub(crate) fn take_indexes(alloc: Global, indexes: &mut Vec<ColumnIndex>) -> Vec<ColumnIndex>
    ensures taken { (s : Sheet) → AreIndexes s indexes.old.items → AreIndexes s result.items }
    ensures left { (s : Sheet) → AreIndexes s indexes.new.items }
{
    mem::replace(indexes, Vec::new(alloc))
}

/// Leaves the indexes of a document for an action: right but for its rows.
///
/// Memory and cost: as of `leave_indexes`.
pub(crate) fn leave<D: DocTables>(
    alloc: Global,
    tables: &D,
    indexes: &mut Vec<ColumnIndex>,
    action: &DocAction,
)
    requires { AreIndexes (sheet_of (D.document tables.now)) indexes.old.items }
    ensures { AreLeft (D.document tables.now) action.now indexes.new.items }
{
    let before = mem::replace(indexes, Vec::new(alloc));
    *indexes = leave_indexes(alloc, tables, before, action);
}

/// The rows of an action on records, as their removal.
#[derive(Drop)]
pub(crate) struct GoneRows {
    pub(crate) removal: DocAction,
}

/// The rows of an action on records; nothing, where there is no memory for a copy of them.
pub(crate) fn gone_rows(alloc: Global, action: &DocAction) -> Option<GoneRows>
    ensures { IfSome result (λ gone. IsRemovalOf action.now gone.removal) }
{
    let (table, rows) = match action {
        DocAction::BulkAdd { table, rows, .. }
        | DocAction::BulkUpdate { table, rows, .. }
        | DocAction::BulkRemove { table, rows } => (table, rows.as_slice()),
        _ => return None,
    };
    let Ok(table) = table.clone() else {
        return None;
    };
    let Ok(rows) = Vec::from_slice(alloc, rows) else {
        return None;
    };
    let rows = Sequence::from(rows);
    let removal = DocAction::BulkRemove { table, rows };
    Some(GoneRows { removal })
}

/// Hands out what is left of the indexes, on the way back of an action, without its rows; nothing
/// of them where it is not told which rows these are.
///
/// Memory and cost: as of `leave_indexes`.
pub(crate) fn leave_behind<D: DocTables>(
    alloc: Global,
    tables: &D,
    indexes: &mut Vec<ColumnIndex>,
    gone: &Option<GoneRows>,
) -> Vec<ColumnIndex>
    requires { AreIndexes (sheet_of (D.document tables.now)) indexes.old.items }
    ensures left { (s : Document) → IsGone s (D.document tables.now) gone.now
        → AreLeftBehind s gone.now result.items }
    ensures none { (s : Sheet) → AreIndexes s indexes.new.items }
{
    left_back_law();
    let before = mem::replace(indexes, Vec::new(alloc));
    match gone {
        Some(gone) => leave_indexes(alloc, tables, before, &gone.removal),
        None => {
            drop(before);
            Vec::new(alloc)
        }
    }
}

/// Puts the rows into the indexes that were left without them, now that the document before the
/// action is back.
///
/// Memory and cost: as of `enter_indexes`.
pub(crate) fn enter_behind<D: DocTables>(
    alloc: Global,
    tables: &D,
    left: Vec<ColumnIndex>,
    gone: &Option<GoneRows>,
) -> Vec<ColumnIndex>
    requires { AreLeftBehind (D.document tables.now) gone.now left.items }
    ensures { AreIndexes (sheet_of (D.document tables.now)) result.items }
{
    match gone {
        Some(gone) => enter_indexes(alloc, tables, left, &gone.removal),
        None => left,
    }
}
