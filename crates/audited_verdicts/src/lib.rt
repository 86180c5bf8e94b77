//! What the verdict on an action of a closed user rests on: the audit law.
//!
//! Stands on `bundle_judge` (judgements), `rule_contexts` (contexts and views), `audited_records`
//! (actions on records), `audited_columns` (what columns are), `rule_audit` (audits), `acl_checks`,
//! `acl_rules`, `acl_formula`, `user_actions` (steps), `user_objections`, `action_limits`,
//! `recalc`, `renamed_resources`, `name_rules`, `doc_readers`, `doc_model` and `cell_types`. No
//! program calls it.
//!
//! Promises: `audit_law`: where an audit says `Closed`, and two whole documents show the user the
//! same by the same rules and attributes, a bundle of one action is accepted in both, or refused in
//! both with one verdict: a refusal by what is shown, or a denial by one rule with one memo.
//! `schema_actions_law`: so it is of denials alone where the action is on tables or columns.
//! `closed_law`: an audit says `Closed` exactly where no fault is found, as these laws have it.
//! Not promised: anything where a limit refuses the action, as limits count what is hidden; which
//! numbers and ids an accepted action makes; anything of bundles of more actions than one.
//! Read first: specs/AuditLaw.antt, then proofs/VerdictLemmas.antt and proofs/SchemaLemmas.antt.
#![tactic(auto)]

mod laws;

pub use laws::{audit_law, closed_law, schema_actions_law};
