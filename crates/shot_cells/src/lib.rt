//! The values of formula cells in a shot, beside its tables.
//!
//! Stands on `cell_types` (cells and their values), `doc_model` (what a document tells),
//! `doc_readers` (the columns of a table) and `recalc` (documents with values in their formula
//! cells).
//! Used by `shot_documents`.
//!
//! Promises: a `ShotCells` is seen as a function from table, column and row to a value, Null where
//! a cell has no place. Making room changes nothing of it, whatever it answers; setting the values
//! of cells that have a place, and letting cells go, takes no memory and changes it at these cells
//! alone. A `ShotDocument` tells the document of its tables with these values in its formula cells.
//! Not promised: that the values are those that the formulas have. Whoever sets them says so.
//! Read first: cells.rt.
#![tactic(auto)]

mod cells;
mod changes;
mod document;
mod places;

pub use cells::ShotCells;
pub use changes::CellChanges;
pub use document::{ShotDocument, is_formula};
