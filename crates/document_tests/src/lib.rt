//! Tests of documents across crates: actions done and taken back over plain tables, and the steps
//! of user actions.
//!
//! Stands on `cell_types`, `doc_model`, `name_rules`, `row_tables`, `action_inverse`,
//! `doc_actions`, `user_actions`, `action_limits`, `censored_view` and `view_refusals`. Evaluated
//! documents are in the cases of the program. Nothing stands on it; it is a crate of its own, so
//! that no crate of the engine depends on a store that only its tests need.
//!
//! Promises: nothing. What is tested is what no clause says: that the definitions mean what is
//! meant, against readings that were worked out by hand, and that calls succeed where there is
//! memory.
//! Read first: tests.rt, then reading.rt.
#![tactic(auto)]

#[cfg(test)]
mod actions;
#[cfg(test)]
mod asked;
#[cfg(test)]
mod bounds;
#[cfg(test)]
mod everything;
#[cfg(test)]
mod limit_tests;
#[cfg(test)]
mod modify_tests;
#[cfg(test)]
mod new_documents;
#[cfg(test)]
mod reading;
#[cfg(test)]
mod reference_tests;
#[cfg(test)]
mod tests;
#[cfg(test)]
mod user_tests;
