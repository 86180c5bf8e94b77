//! Rules that follow a column to its new name decide as they did.
//!
//! Stands on `acl_rules`, `acl_checks` and `user_attrs` (chains, checks, attributes of users),
//! `acl_formula` (what a rule comes to), `formula_parse`, `formula_records`, `rename_texts` and
//! `rename_marks` (which names a rename replaces), `renamed_values` and `renamed_documents`
//! (documents with a column under a new name), `recalc`, `doc_readers`, `doc_model` and
//! `cell_types`. Used by `rename_law`.
//!
//! Promises: `renamed_decision_law`: where each use of a name in a rule can be resolved and is
//! replaced as it has to be, resources and attributes name the column by its new name, and cells
//! stand under it, each decision on a table outside the metadata is the one before: a column taken
//! by its new name, rows and user as they were. `rule_value_law`: a rule comes to the same where
//! each part that asks gets the same. `moved_filling_law`: cells stand so in the documents of
//! `renamed_documents`, with all values in place.
//! `following_rows_law`: the rules of a document follow where each row of its table of rules does.
//! Not promised: that the rows of a document follow; anything of checks that name no table.
//! Read first: specs/Decisions.antt, then specs/RenamedRules.antt.
#![tactic(auto)]

mod laws;

pub use laws::{following_rows_law, moved_filling_law, renamed_decision_law, rule_value_law};
