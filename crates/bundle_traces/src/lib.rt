//! The traces of evaluated documents as steps of bundles of records.
//!
//! Stands on `recalc` (evaluated documents and what actions lose of them) and `action_censor` (what
//! steps tell of a document before them).
//!
//! Promises: `trace_law`: what a change of an evaluated document tells of a record action makes it
//! a step of each table. `bundle_law`: so what `follow` of `action_censor` tells, by the traces of
//! a bundle, are the changes from what a context showed before the bundle to what it shows after.
//! Read first: specs/TraceLaws.antt.
#![tactic(auto)]

mod laws;

pub use laws::{bundle_law, trace_law};
