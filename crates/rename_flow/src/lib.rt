//! A column renamed through formulas and rules: what a user asks for by it, told from the user's
//! view.
//!
//! Stands on `rename_marks` and `rename_texts` (which names are replaced, and the new texts),
//! `formula_records`, `formula_parse`, `acl_formula`, `acl_rules` and `user_attrs` (formulas, rules
//! and attributes), `doc_readers`, `doc_model` and `cell_types`.
//!
//! Promises: `plan_rename` gives the plan that specs/Plan.antt says for each view and each three
//! texts: user actions that are well formed, and a count of what cannot be resolved.
//! `plan_reads_law`: a plan is told from the columns of a view, and from the rows of rules.
//! `rewritten_rule_law`: the new text of a rule is the renamed formula.
//! Not promised: that the actions are accepted, or that a rename with nothing unresolved keeps what
//! formulas come to; the definitions are made for that.
//! Read first: specs/Plan.antt, specs/Changes.antt, then planning.rt.
#![tactic(auto)]

mod attribute_texts;
mod column_parts;
mod laws;
mod planning;
mod rename_plan;
mod row_changes;
mod rule_parts;
mod shown_rows;
mod shown_rules;
mod text_change;

pub use column_parts::Place;
pub use laws::{plan_reads_law, rewritten_rule_law};
pub use planning::plan_rename;
pub use rename_plan::RenamePlan;
pub use row_changes::RowChanges;
pub use shown_rules::{RuleAbout, RuleAboutList};
pub use text_change::TextChange;
