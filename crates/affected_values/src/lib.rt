//! Values of affected cells: taken out of their places and put back, laid beside other rows, and
//! copied.
//!
//! Stands on `recalc` (evaluated cells, how one is found, and indexes), `affected_search` and
//! `dep_graph` (the cells that an action affects), `affected_cells` (laws of actions),
//! `lookup_index` (rows under buckets), `formula_eval`, `doc_readers`, `doc_model` and
//! `cell_types`. Used by `known_reads` and `evaluated_doc`.
//!
//! Promises: `take_values` takes what is known of some cells out of its places, and
//! `put_values_back` leads back; both take no memory. Over an update the values of cells that are
//! not found are right still, at the places at which they stood (`left_right_law`,
//! `same_places_law`); `named_cells` tells the found ones, and no others, and what was taken leads
//! back over the update (`leads_over_law`, `way_back_law`).
//! Over rows that come or go `lay_anew` moves the values of their table beside its rows and hands
//! out what it had of rows that go; all values but those of the found cells and of the rows are
//! right then (`right_laid_law`), and `lay_back` leads back (`leads_over_rows_law`,
//! `rows_back_law`, `rows_left_law`). `push_row_cells` tells the formula cells of such rows.
//! Over an action on records indexes of data columns are kept up: `leave_indexes` takes its rows
//! out before it, `enter_indexes` puts them in after it (`left_over_law`); so they are on the way
//! back, as if the rows went (`left_back_law`).
//! Over an action on no records `carry_values` copies the values that are kept beside the tables
//! and columns as they are then; of each formula cell that the action does not alter the value
//! stands in its place. `push_altered_cells` tells the formula cells that it alters; by
//! `altered_law` these are new, or their column is modified, and all others have the formulas that
//! they had.
//! Not promised: that an index is not given up.
//! Read first: specs/Taken.antt, then taking.rt; specs/Relaid.antt, then relaying.rt and
//! specs/RowsOver.antt; specs/Indexing.antt, then indexing.rt; specs/Altered.antt, then
//! carrying.rt and altered_cells.rt.
#![tactic(auto)]

mod altered_cells;
mod carrying;
mod indexing;
mod laws;
mod naming;
mod relaying;
mod row_cells;
mod taking;

pub use altered_cells::push_altered_cells;
pub use carrying::carry_values;
pub use indexing::{enter_indexes, leave_indexes};
pub use laws::{
    altered_law, leads_over_law, leads_over_rows_law, left_back_law, left_over_law, left_right_law,
    right_laid_law, rows_back_law, rows_left_law, same_places_law, way_back_law,
};
pub use naming::named_cells;
pub use relaying::{LaidAside, lay_anew, lay_back};
pub use row_cells::push_row_cells;
pub use taking::{HeldValue, is_formula_cell, put_values_back, take_values};
