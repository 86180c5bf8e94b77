//! Refusals by what a context lets a user see.
//!
//! Stands on `censored_view` (what a context shows) and `user_objections` (what stands against a
//! user action). Used by `rule_contexts` and the core.
//!
//! Promises: `asked_of` is the part of what a context shows that a user action asks for, made of
//! its rows alone, and `requested_law` says that the refusal of the action rests on it.
//! `allowed_view_law`: a document allows what nothing stands against in what a context shows of it,
//! or of what it evaluates to.
//! Costs: `asked_of` costs the rows that are named, not those of the table, and the square of a
//! table's columns.
//! Read first: specs/Parts.antt and specs/RefusalLaws.antt, then asked.rt.
#![tactic(auto)]

mod asked;
mod laws;

pub use asked::asked_of;
pub use laws::{allowed_view_law, requested_law};
