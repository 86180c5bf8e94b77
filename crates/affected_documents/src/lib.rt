//! Laws of what an action affects in a whole document.
//!
//! Stands on `affected_cells` (what an action touches and may affect), `recalc` (evaluated cells),
//! `doc_model` (documents and actions) and `cell_types`. Nothing stands on it.
//!
//! Promises: `kept_cells_law` says in one sentence of a whole document and a valid action that a
//! formula cell which the action does not affect keeps its value and its reads. `least_set_law`
//! says that the affected cells are a closed set of formula cells, and that they are in each such
//! set. `listed_law` says that the sheet of a document lists each of its formula cells.
//! Not promised: how these cells are found.
//! Read first: specs/AffectedSets.antt.
#![tactic(auto)]

mod laws;

pub use laws::{kept_cells_law, least_set_law, listed_law};
