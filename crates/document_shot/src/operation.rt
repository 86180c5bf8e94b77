//! What leads a shot on to the next entry.

ghost use Rattle.std.specs.Prelude.{◌≡◌, length};

use crate::sessions::ShotSession;
use bundle_core::CorePast;
use shot_documents::DocumentChanges;

/// What an entry did to a document and its sessions, with the history that it leads to, which only
/// clauses read, and how many entries that has.
#[derive(Drop)]
pub struct DocumentOp {
    pub changes: DocumentChanges,
    pub sessions: Vec<ShotSession>,
    pub entries: u64,
    pub past: CorePast,
    ghost beside: { length changes.cells.values.items ≡ length changes.cells.cells.items },
}
