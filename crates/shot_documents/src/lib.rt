//! What a bundle did, taken into the document of a shot.
//!
//! Stands on `cell_types` (values of cells), `doc_model` (documents and what actions do),
//! `shot_tables` (actions are put all or none), `shot_cells` (what is seen of formula cells beside
//! the tables) and `list_ops`. Used by `document_shot`.
//!
//! Promises: `take_in` leads to the document after all actions of a bundle, with what is seen of
//! the formula cells after it, or leaves both as they were; its answer tells which.
//! Not promised: that the changes are those of a bundle. Whoever notes them says so.
//! Read first: taking.rt.
#![tactic(auto)]

mod taking;

pub use taking::{DocumentChanges, take_in};
