//! What the plan of a rename makes of a document: all cells keep their values.
//!
//! Stands on `rename_flow` (plans), `renaming_bundles` (what bundles of renames make of documents),
//! `renamed_documents` and `renamed_values` (values there), `rename_marks`, `rename_texts`,
//! `formula_records`, `formula_parse`, `formula_lex` and `formula_eval` (formulas and their names),
//! `user_actions`, `name_rules`, `recalc`, `doc_readers`, `doc_model` and `cell_types`. Used by
//! `rename_law`.
//!
//! Promises: `planned_values_law`: where a view shows all columns of a whole document with their
//! formulas, its plan leaves nothing unresolved, and the steps of the plan's bundle are valid, the
//! document after it is the one before, with the new name, and with formulas that follow; of such
//! documents `renamed_documents` says that cells keep their values.
//! Not promised: which views show a whole document; anything of rules.
//! Read first: specs/PlannedValues.antt and specs/WholeView.antt.
#![tactic(auto)]

mod laws;

pub use laws::planned_values_law;
