//! What user actions come to, limits included: their document actions, or the first limit that
//! would be passed after them.
//!
//! Stands on `doc_model` (documents and what is counted of them), `doc_readers` (what a store
//! tells), `user_actions` (the steps of an action) and `name_rules`. Used by the core.
//!
//! Promises: `over` tells the first limit that a document passes. `expand` gives the steps of an
//! action, or the first limit that would be passed after them, by a `Tally` that is kept from one
//! action to the next (specs/Tallies.antt). `Tally::after` gives the tally after one document
//! action, or the first limit that is passed then, from the document before it and without a walk
//! over its cells.
//! Not promised: that memory is found.
//! Read first: specs/Tallies.antt, then tally.rt, expansion.rt and maxima.rt.
#![tactic(auto)]

mod expansion;
mod limits;
mod maxima;
mod moves;
mod tally;
mod weighing;

pub use expansion::{Expansion, expand};
pub use limits::over;
pub use tally::Tally;
