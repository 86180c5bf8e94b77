//! Rows of the tables of access rules: which of them are good.
//!
//! Stands on `acl_formula` (formulas and permission texts of rules), `acl_rules` (what the texts of
//! a resource say), `formula_parse`, `doc_readers`, `doc_model` and `cell_types`. Used by
//! `user_actions`.
//!
//! Promises: `is_good_resource` and `is_good_rule` say of each row what specs/GoodRows.antt says of
//! it, however the row is kept.
//! Not promised: that memory is found, or that a rule means what its author meant.
//! Read first: specs/GoodRows.antt, then row_cells.rt and rules.rt.
#![tactic(auto)]

mod resources;
mod row_cells;
mod rules;
mod texts;

pub use resources::is_good_resource;
pub use row_cells::RowCells;
pub use rules::is_good_rule;
