//! What becomes of the values of a shot's formula cells after a bundle.
//!
//! Stands on `cell_types` (cells and their values), `doc_model` and `doc_readers` (what a document
//! tells), `recalc` (documents with values in their formula cells), `action_censor`,
//! `bundle_traces` and `context_changes` (the steps of a bundle of records) and `shot_cells` (what
//! is seen after changes).
//! Used by `document_shot`.
//!
//! Promises: whatever is seen of the formula cells before, if it is their values, then after the
//! changes their values are seen. `changes_of_rows` makes the changes of a bundle of records from
//! what its steps tell, and tells each formula cell that is gone; `changes_anew` makes those of any
//! bundle from the evaluated document alone, and forgets what was seen.
//! Not promised: that a cell stands once. One that several steps changed is set as often, each time
//! to its value after the bundle.
//! Costs: `changes_of_rows` the cells that the steps lost, each with its table's columns, and the
//! formula cells of the rows that they added; `changes_anew` all formula cells.
//! Read first: specs/Leading.antt, bundles.rt.
#![tactic(auto)]

mod bundles;
mod noting;

pub use bundles::{changes_anew, changes_of_rows};
