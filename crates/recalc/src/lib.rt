//! Evaluated cells of a document over any store: what they are, and what is told of cells while
//! they are found.
//!
//! Stands on `cell_types` (values, names and conversion), `doc_model` (documents and actions),
//! `formula_parse` and `formula_eval` (one attempt at a formula), `lookup_index` (which rows hold a
//! value), `doc_readers` (what a store tells) and `doc_actions` (a valid action done). Used by
//! `evaluated_doc`, which keeps the values, and by the laws of `affected_cells`, `affected_search`
//! and `bundle_traces`.
//!
//! Promises: `blank_tables` has a place for the value of each formula cell, `exchange_value` puts
//! one there; a `KnownReader` tells a run what is known; `index_lookups` makes the indexes of the
//! data columns by which a run looked rows up, in which each row stands under the bucket of its
//! cell and under no other, and `index_lookup` those of one lookup; `remember` keeps the last
//! lookup by one data column, and its rows, for a `KnownReader`; `watched_cells` tells the cells
//! that an action may lose, and `keep_lost` leaves those that it lost. laws.rt: more fuel changes
//! no value, as much fuel as there are formula cells is enough, a cell is circular exactly where no
//! fuel gives it a value, and a whole document with its values in place is laid out as views need
//! it.
//! Not promised: speed. A lookup by `id` and data columns looks at the rows of one key's value,
//! once there is an index; by formula columns at every row. No cell is evaluated here:
//! `known_reads` does that, and records what each reads by the same attempts.
//! Read first: specs/Sheet.antt, specs/Evaluated.antt and specs/Lost.antt, then reading.rt; for
//! what a change looks at specs/MayLose.antt, then watched.rt.
#![tactic(auto)]

mod blank;
mod candidates;
mod cells;
mod current;
mod indexes;
mod kept;
pub mod laws;
mod names;
mod places;
mod reading;
mod remembering;
mod rows;
mod touched;
mod watched;

pub use blank::{blank_tables, tree_of};
pub use cells::{cell_id, keep_lost, push_cells, row_of};
pub use current::{brings_formula, has_formula, has_formulas};
pub use indexes::{ColumnIndex, bucket_at, index_column, index_lookup, index_lookups};
pub use kept::{KeptColumn, KeptTable};
pub use names::{push_if, sorted};
pub use places::{column_at, exchange_value, value_beside};
pub use reading::{KnownReader, cell_told};
pub use remembering::{LastLookup, remember};
pub use rows::rows_among;
pub use touched::{may_lose_column, rows_of_table};
pub use watched::watched_cells;
