//! What the checks of an action come to for a closed user: laws over documents that show the user
//! the same.
//!
//! Stands on `rule_audit` (audits), `acl_checks` (what is checked of an action), `acl_rules`,
//! `acl_formula`, `acl_reading`, `censored_view`, `formula_parse`, `doc_readers`, `doc_model` and
//! `cell_types`. No program calls it.
//!
//! Promises: `checks_laws`: where an audit says `Closed`, and two documents show the user a table
//! the same, the checks of rows that go are denied in both by the same rule or in none; so are
//! those of rows that are changed or added, where the rows after the action are alike in both.
//! Not promised: that the rows after an action are alike.
//! Read first: specs/AlikeRows.antt, then specs/CheckLaws.antt.
#![tactic(auto)]

mod laws;

pub use laws::checks_laws;
