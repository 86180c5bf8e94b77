//! What takes a document action back.
//!
//! Stands on `doc_model` (documents, their actions and what a store of a document tells) and
//! `doc_readers` (cells of a table). Used where an undo is kept or made.
//!
//! Promises: `inverse` gives the inverse of a valid action, taken at the document before it, over
//! any store that tells that document; the inverse law of `doc_model` says that this list is valid
//! after the action and gives the document back.
//! Not promised: that the list keeps within limits.
//! Read first: undo.rt, then restore.rt.
#![tactic(auto)]

mod cells;
mod columns;
mod metadata;
mod order;
mod restore;
mod undo;

pub use undo::inverse;
