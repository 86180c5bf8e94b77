//! Opening a document from the records that a keeper has.
//!
//! Stands on `doc_keeper` (what keeps records), `record_lines` (what a record says), `doc_model`
//! (what a store of a document does) and `doc_actions` (valid actions done). Used where a core
//! starts.
//!
//! Promises: `open_records` loads a keeper's records once, from number 0 on, and does the actions
//! of each. The document that it leaves is what the records come to, and where it answers that a
//! record is bad, that is the first one that spells nothing, has another number than its place, or
//! has an action that is not valid there. The records and the count of faults stay known.
//! Not promised: what the store holds after an error.
//! Read first: specs/Opening.antt, then opening.rt.
#![tactic(auto)]

mod opening;
mod taking;

pub use opening::{StartCause, open_records};
