//! Which tables' records the value of a formula may hold, told from its tree and the types of
//! columns.
//!
//! Stands on `cell_types` (names), `doc_model` (columns of a view) and `formula_parse` (trees).
//! Used by `rename_marks`.
//!
//! Promises: `recs_of` gives the tables that specs/Recs.antt says for each formula and view.
//! Not promised: that a value holds a record of each of these tables.
//! Read first: specs/RecordTables.antt, then specs/Recs.antt and records.rt.
#![tactic(auto)]

mod columns;
mod records;
mod tables;

pub use columns::{find_column, find_table};
pub use records::recs_of;
pub use tables::RecordTables;
