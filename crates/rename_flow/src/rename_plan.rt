//! The plan of a rename.

ghost use Rattle.std.specs.Prelude.{◌≡◌, [], ◌∷◌, OnOk};
ghost use Rattle.rename_flow.specs.Parts.{count_where, only_count, with_part};

use doc_model::{UserAction, UserActionList};
use std::alloc::AllocError;

/// What a user asks for by the rename of a column through formulas and rules: the user actions in
/// their order, and how many uses of the name cannot be resolved.
///
/// Units: the count stands still at its greatest value. Where it is not 0, nothing is to be done.
#[derive(Drop)]
pub struct RenamePlan {
    pub actions: UserActionList,
    pub unresolved: u32,
}

impl RenamePlan {
    // Counts uses that cannot be resolved.
    #[tactic(auto, unfolding(crate::specs::Parts::with_part))]
    pub(crate) fn count(&mut self, unresolved: u32)
        ensures { self.new ≡ with_part self.old (only_count unresolved) }
    {
        self.unresolved = self.unresolved.saturating_add(unresolved);
    }

    // Counts where a test holds.
    pub(crate) fn count_where(&mut self, test: bool)
        ensures { self.new ≡ with_part self.old (count_where test) }
    {
        self.count(u32::from(test));
    }

    // Adds an action, and counts.
    #[tactic(auto, unfolding(crate::specs::Parts::with_part))]
    pub(crate) fn add(&mut self, action: UserAction, unresolved: u32) -> Result<(), AllocError>
        ensures { OnOk result (self.new ≡ with_part self.old
            (record { actions = action ∷ []; unresolved = unresolved })) }
    {
        self.unresolved = self.unresolved.saturating_add(unresolved);
        self.actions.push(action)?;
        Ok(())
    }
}
