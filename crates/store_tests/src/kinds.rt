//! How often actions of each kind were done.

use doc_model::DocAction;

const KINDS: usize = 13;

/// How often actions of each kind were done, and how often they were taken back then.
#[derive(Clone, Copy)]
pub(crate) struct Kinds {
    done: [u32; KINDS],
    back: [u32; KINDS],
}

// Which of the kinds it is: records that come, are updated or go, over no rows or some; the schema
// actions in order.
fn kind(action: &DocAction) -> usize {
    match action {
        DocAction::BulkAdd { rows, .. } => usize::from(rows.is_empty()),
        DocAction::BulkUpdate { rows, .. } => 2 + usize::from(rows.is_empty()),
        DocAction::BulkRemove { rows, .. } => 4 + usize::from(rows.is_empty()),
        DocAction::AddTable { .. } => 6,
        DocAction::RemoveTable { .. } => 7,
        DocAction::RenameTable { .. } => 8,
        DocAction::AddColumn { .. } => 9,
        DocAction::RemoveColumn { .. } => 10,
        DocAction::RenameColumn { .. } => 11,
        DocAction::ModifyColumn { .. } => 12,
    }
}

fn count_at(counts: &mut [u32], kind: usize) {
    if let Some(count) = counts.get_mut(kind) {
        *count = count.saturating_add(1);
    }
}

impl Kinds {
    /// None was done.
    pub fn new() -> Self {
        Kinds {
            done: [0; KINDS],
            back: [0; KINDS],
        }
    }

    /// Notes that this action was done, and perhaps taken back.
    pub fn note(&mut self, action: &DocAction, is_back: bool) {
        count_at(&mut self.done, kind(action));
        if is_back {
            count_at(&mut self.back, kind(action));
        }
    }

    /// Whether each kind was done and taken back this often.
    pub fn are_each(&self, least: u32) -> bool {
        self.done.iter().all(|count| least <= *count)
            && self.back.iter().all(|count| least <= *count)
    }

    /// How many actions were done.
    pub fn total(&self) -> u32 {
        self.done
            .iter()
            .fold(0u32, |sum, count| sum.saturating_add(*count))
    }
}
