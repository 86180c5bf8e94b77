//! The tables of a shot: actions are put all or none, where they are valid.
//!
//! Stands on `doc_model` (documents and what actions do) and `doc_actions` (which action is valid).
//! Used by `shot_documents`.
//!
//! Promises: `put_all` leads to the document after all actions, one that is not valid passed over,
//! or leaves the document as it was; which of them it is, its answer tells. What was put before
//! memory ran out is taken back without memory.
//! Not promised: that an action is valid.
//! Read first: putting.rt.
#![tactic(auto)]

mod putting;

pub use putting::put_all;
