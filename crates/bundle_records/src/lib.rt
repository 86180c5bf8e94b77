//! The records of a document's accepted bundles, given to a keeper one after the other.
//!
//! Stands on `doc_keeper` (what keeps records), `record_lines` (records as lines of JSON) and
//! `doc_opening` (what records make of a document). Used by `bundle_core`.
//!
//! Promises: a `RecordLedger` is seen as what its keeper tells. `record_of` makes the next record
//! of a bundle's actions, numbered by the records before it, which spells them; `keep` adds it, or
//! tells why not. Records that lead to a document lead, with one more, to that after its actions
//! (specs/Ledger.antt, proofs/Reopening.antt).
//! Not promised: that the actions of a bundle always read back. Those that would not, and a record
//! past the 4,294,967,295th, are answered as want of memory.
//! Read first: specs/Ledger.antt, then ledger.rt.
#![tactic(auto)]

mod ledger;
mod printable;

pub use ledger::RecordLedger;
