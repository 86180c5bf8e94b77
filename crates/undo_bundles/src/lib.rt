//! The accepted bundles of a session that can be undone.
//!
//! Stands on `doc_model` (steps) and `action_inverse` (what takes one action back). Used by the
//! core.
//!
//! Promises: a `BundleLog` numbers a session's bundles from 1 and keeps the last 100 of them, each
//! with the steps that take it back, or that it was undone. Which bundle is found, and which is not
//! found or was undone before, is a definition over plain lists, with laws of what a note and a
//! mark change. A note and a mark take no memory. A `BundleInverse` is the inverse of the actions
//! of a bundle, each noted before it is done; `inverse_steps_law`: that inverse takes them back.
//! Not promised: that the steps in a log take a bundle back; whoever notes it has to know that.
//! Read first: specs/BundleLog.antt and specs/InverseSteps.antt, then log.rt, inverse.rt and
//! laws.rt.
#![tactic(auto)]

mod copies;
mod inverse;
mod laws;
mod log;

pub use copies::{copy_of_actions, copy_of_steps};
pub use inverse::BundleInverse;
pub use laws::{inverse_steps_law, kept_law, mark_law, note_law};
pub use log::{BundleLog, LogFault, MAX_KEPT, NotedBundle};
