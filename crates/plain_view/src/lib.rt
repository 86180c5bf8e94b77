//! Changes of a view.
//!
//! Stands on `cell_types` (values and names) and `doc_model` (views, and what changes are). Used by
//! whoever tells users what changed, and by `view_patch`.
//!
//! Promises: `changes` is the definition's list, action by action. What stands in a view is found
//! by id and row: the modules `named`, `rows`, `cells` and `copies`, for crates that work on views.
//! Not promised: time. `changes` is linear in the cells of both views, times the logarithm of the
//! rows, and squares the number of tables and of a table's columns.
//! Read first: view_changes.rt and revision.rt.
#![tactic(auto)]

mod actions;
pub mod cells;
mod columns;
pub mod copies;
mod laws;
pub mod named;
mod records;
mod revision;
pub mod rows;
mod view_changes;

pub use laws::changes_same_law;
pub use view_changes::changes;
