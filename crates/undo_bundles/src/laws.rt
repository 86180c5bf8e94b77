//! Laws of logs of bundles, and of their inverses.

ghost use Rattle.undo_bundles.specs.InverseSteps.{InverseStepsLaw};
ghost use Rattle.undo_bundles.specs.LogLaws.{KeptLaw, MarkLaw, NoteLaw};

/// Exactly the last 100 bundles are found.
#[tactic(auto, using(crate::proofs::LogLaws::kept_law))]
pub fn kept_law()
    ensures { KeptLaw }
{}

/// The bundle that was noted last is found with its inverse, the 99 before it are found as before,
/// and no older one is found.
pub fn note_law()
    ensures { NoteLaw }
{}

/// The bundle that was marked is undone, and each other one is found as before.
pub fn mark_law()
    ensures { MarkLaw }
{}

/// The inverse of valid steps takes them back: each of its steps is valid at its place, and the
/// last one leaves the document before them.
pub fn inverse_steps_law()
    ensures { InverseStepsLaw }
{}
