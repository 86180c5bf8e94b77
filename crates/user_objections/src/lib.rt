//! What stands against a user action, by its user's view.
//!
//! Stands on `doc_model` (views and user actions), `user_actions` (what an action names and gives),
//! `acl_rows` (good rows of the access rules), `plain_view` (cells of views), `doc_readers` and
//! `name_rules`. Used by `view_refusals` and the core.
//!
//! Promises: `refuse` answers the first objection of specs/Objections.antt, from the action and the
//! view alone; `asked_law` says that the view of the table that the action names is enough, and for
//! rows of the rules that of the resources beside it. `unopposed_law` says that a document allows
//! each action that is not refused in some view of it.
//! Not promised: that memory is found, or that the text of a formula column reads as a formula. A
//! rule's formula must read.
//! Read first: specs/Objections.antt, then refusing.rt and rule_rows.rt.
#![tactic(auto)]

mod asking;
mod laws;
mod refusing;
mod rows;
mod rule_rows;
mod tables;
mod values;

pub use asking::{asks_for, is_about_rules};
pub use laws::{asked_law, unopposed_law};
pub use refusing::refuse;
