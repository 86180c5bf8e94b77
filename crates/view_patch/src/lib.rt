//! A view after changes.
//!
//! Stands on `doc_model` (views, and what patches are) and `plain_view` (what stands in a view).
//! Nothing but tests stands on it yet: a client of changes would.
//!
//! Promises: `patch` gives the definition's view exactly where each action fits where it stands,
//! and else tells the index of the first that does not; what it gives is a view again. `are_full`
//! is the test of what it wants of actions.
//! Not promised: time. `patch` builds a table anew for each action about it.
//! Read first: patching.rt, then editing.rt and rebuilding.rt.
#![tactic(auto)]

mod copies;
mod editing;
mod fitting;
mod full;
mod given;
mod patching;
mod placing;
mod rebuilding;
mod rows;

pub use full::are_full;
pub use patching::{PatchFault, patch};
