//! What a change of a document leaves alone: which formula cells an action may affect, and that
//! all others keep their values and their reads.
//!
//! Stands on `recalc` (evaluated cells), `formula_eval` (runs that are alike), `doc_model`
//! (actions) and `cell_types`. Used by `affected_search` and `affected_values`, for updates that
//! evaluate only what they affect.
//!
//! Promises: `unaffected_law` speaks of any two sheets: a formula cell outside of a closed set has
//! the value and the reads that it had. `unaffected_notes_law` is finer, by what runs note: a
//! lookup is left alone where the same rows meet its keys, as `met_law` says of rows that come, go
//! or change and do not meet them. `keeps_law` speaks of a document and an action, for the cells
//! that specs/Affected.antt says; it asks that the action touches no other reads than
//! specs/Touched.antt says, and the laws of actions prove that for each of the ten actions.
//! `bound` says how many attempts at formula cells it takes at most to evaluate what an action may
//! affect: for each such cell 1, and one for each such cell that its reads name. By `needed_law` an
//! attempt needs no other cells than these reads name.
//! Not promised: how these cells are found.
//! Read first: specs/Untouched.antt, specs/Noted.antt, specs/Touched.antt, specs/Affected.antt and
//! specs/Bound.antt.
#![tactic(auto)]

mod actions;
mod laws;

pub use actions::{
    add_column_law, add_table_law, modify_column_law, remove_column_law, remove_table_law,
    rename_column_law, rename_table_law, rows_law, update_law,
};
pub use laws::{
    keeps_law, met_law, needed_law, still_known_law, unaffected_law, unaffected_notes_law,
};
