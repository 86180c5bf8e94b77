//! The command `audit`: for each user of the input, a line that tells whether verdicts on what the
//! user writes tell no more than the user's view.
//!
//! Stands on `rule_audit` (audits), `rule_contexts` and `user_attrs` (what is in force for users),
//! `evaluated_doc`, `column_store` and `doc_opening` (the document that a keeper's records lead
//! to), `users_alone` (the users of the input), `grist_run` (statuses, sending), `grist_json` and
//! `serde_json` (lines), `io_edges` and `doc_keeper`. Used by `grist_hosting`.
//!
//! Promises: `audit_users` writes one line for each user of the input, in their order, of the audit
//! over the document that the keeper's records lead to (specs/AuditRuns.antt). All lines are made
//! before the first byte is written, so where a status is neither `Done` nor `WriteFault` nothing
//! is written. No request is answered: the history is empty, and the keeper has its records as they
//! were. A fault is told only where the count of faults of the source, the sink or the keeper rose.
//! Not promised: that memory is there.
//! Costs: the records once, the rules once, and for each user what the rules know of it and the
//! audit of `rule_audit`.
//! Read first: specs/AuditRuns.antt and specs/AuditLines.antt, then running.rt, opening.rt and
//! lines.rt.
#![tactic(auto)]

mod lines;
mod opening;
mod running;

pub use running::audit_users;
