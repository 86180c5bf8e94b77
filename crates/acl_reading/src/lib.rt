//! What rules let a user read: which columns, which formula texts, which cells of a row.
//!
//! Stands on `acl_rules` (chains of rules, decisions), `acl_formula` (rules, users and rows),
//! `censored_view` (what is shown of a document by what may be read), `formula_parse`,
//! `doc_readers`, `doc_model` and `cell_types`. Used by the core.
//!
//! Promises: each question has the one answer of specs/Shown.antt, for each book of rules and each
//! user, and takes no memory but for the list of chosen formulas. A column is shown by the walk of
//! its chain over the rules about reading: the first that ends the walk answers, and a rule that
//! uses the row ends it only where it allows reading. A row's cell is read as `decide` says of the
//! row; where `has_own_rules` says no, as the row alone is. The formulas that decide of a table's
//! rows are chosen once for all rows (choosing.rt), and decide the same. `RuleReading` is what all
//! of it lets the user read of each table (specs/RulesLet.antt): nothing of the schema tables, and
//! of the tables of the access rules everything if the user is an owner, else nothing.
//! `reading_law`: what the walk does not show can be read in no row, and without rules owners and
//! editors read what they read today.
//! Not promised: that a rule means what its author meant.
//! Read first: specs/Walk.antt and specs/Shown.antt, then walking.rt, shown.rt and letting.rt.
#![tactic(auto)]

mod cells;
mod choosing;
mod ending;
mod laws;
mod letting;
mod shown;
mod walking;

pub use laws::reading_law;
pub use letting::RuleReading;
pub use shown::{
    has_own_rules, is_bare_shown, is_cell_shown, is_column_shown, is_formula_shown, own_answer,
};
