//! Rules follow the plan of a rename: no decision changes.
//!
//! Stands on `rename_flow` (plans), `planned_renames` and `renaming_bundles` (what a plan's bundle
//! makes of a document), `renamed_rules` (decisions of rules that follow), `renamed_resources`,
//! `rename_texts`, `rename_marks`, `renamed_documents`, `renamed_values` and `formula_records`
//! (texts and names), `user_actions` (steps), `acl_checks`, `acl_rules`, `acl_formula`,
//! `user_attrs`, `json` and `serde_json` (rules, attributes and their texts), `recalc`,
//! `doc_readers`, `doc_model`, `formula_eval`, `formula_parse`, `formula_lex`, `name_rules`,
//! `cell_types` and `unicode_ident`. No program calls it.
//!
//! Promises: `planned_rules_law`: where a view shows a whole document with its rules, the plan of
//! a rename has nothing unresolved, and its bundle is valid, each decision on a table outside the
//! metadata is the one before, a column taken by its new name, and attributes of users look where
//! they looked, by the new name. `planned_rows_law`: each row of the table of rules follows.
//! `renamed_list_law`: a list of columns says the new name where it said the old one, and no other
//! column. `attribute_read_law`: what is written of an attribute is read as that attribute.
//! Not promised: which views show a whole document; anything of checks that name no table.
//! Read first: specs/PlannedRules.antt, then specs/ShownRules.antt.
#![tactic(auto)]

mod laws;

pub use laws::{attribute_read_law, planned_rows_law, planned_rules_law, renamed_list_law};
