//! What records hold after an action, as far as a view tells it: laws over evaluated documents that
//! show a user the same.
//!
//! Stands on `audited_checks` (rows that are alike) and `rule_audit` (open columns), `recalc`
//! (evaluated documents), `user_actions` (values fitted to columns), `acl_checks`, `acl_rules`,
//! `acl_formula`, `acl_reading`, `censored_view`, `plain_view`, `doc_readers`, `doc_model` and
//! `cell_types`. No program calls it.
//!
//! Promises: `cells_laws`: where two documents show a user a table the same, a record that is
//! changed holds the same in both, in each data column that the user reads in every row; so do
//! records that are added, and where there is such a column they have the same ids.
//! Not promised: anything of formula columns.
//! Read first: specs/CellLaws.antt, then proofs/ColumnLemmas.antt, ChangedLemmas.antt and
//! AddedLemmas.antt.
#![tactic(auto)]

mod laws;

pub use laws::cells_laws;
