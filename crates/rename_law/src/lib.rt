//! The law of renames through formulas and rules.
//!
//! Stands on `bundle_judge` and `rule_contexts` (judgements, contexts and views), `rename_flow`
//! (plans), `planned_renames`, `renaming_bundles`, `renamed_documents`, `renamed_rules` and
//! `renamed_values` (what a plan makes of values and of decisions), `rename_marks`, `acl_checks`,
//! `acl_rules`, `acl_formula`, `user_attrs`, `user_actions`, `recalc`, `doc_model` and
//! `cell_types`. No program calls it.
//!
//! Promises: `rename_law`: where a user sees a whole document, the plan of a rename has nothing
//! unresolved, and its bundle is accepted, each cell outside the metadata has its value under the
//! new name; and where rules follow, each decision of theirs is the one before. `judged_law`: the
//! steps of an accepted bundle are those of its actions.
//! Not promised: that the rules of the document follow.
//! Read first: specs/KeepsAll.antt.
#![tactic(auto)]

mod laws;

pub use laws::{judged_law, rename_law};
