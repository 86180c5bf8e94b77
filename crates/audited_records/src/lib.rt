//! What rules say of an action on records of a closed user: a law over documents that show the user
//! the same.
//!
//! Stands on `bundle_judge` (denials), `rule_contexts` (contexts and views), `audited_checks` (what
//! checks come to), `audited_cells` (what records hold after an action), `rule_audit` (audits),
//! `user_actions` (steps), `user_objections`, `action_limits`, `recalc`, `acl_checks`, `acl_rules`,
//! `acl_formula`, `acl_reading`, `censored_view`, `doc_readers`, `doc_model` and `cell_types`. No
//! program calls it.
//!
//! Promises: `records_law`: where an audit says `Closed`, and two whole documents show the user the
//! same under the same rules, an action on records that nothing else stands against is denied in
//! both by the same rule or in none.
//! Not promised: anything of actions on the schema.
//! Read first: specs/SeeAlike.antt, then specs/RecordsLaws.antt.
#![tactic(auto)]

mod laws;

pub use laws::records_law;
