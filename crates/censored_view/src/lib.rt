//! Views of an evaluated document by what a context lets a user read.
//!
//! Stands on `doc_model` (documents, views), `doc_readers` (what a document tells), `plain_view`
//! (parts of views, and their changes) and `acl_formula` (rows as rules read them). Used by
//! `action_censor` and `view_refusals`, and by what makes contexts of rules.
//!
//! Promises: whatever a context says (`Lets`), `whole_view` is what it shows of a document, and is
//! a view; `part` is a part of that, made of its rows alone (`part_made_law`); `seen_table` is one
//! table of it. `is_table_seen`, `is_column_seen` and `is_row_seen` tell of it without making it,
//! and take no memory. `censored_part_law`: the tables and rows outside of which two documents hold
//! the same tell all changes of the views, also where the context changed for these tables. All
//! rows go through `shown_rows`, and it alone censors cells.
//! Not promised: what a context lets be read.
//! Costs: those of `shown_rows`, and the squares of the tables and of each table's columns. A row
//! is decided once for all columns that have no rules of their own (`Lets::has_own_rules`), and a
//! context that can tell once by which formulas it decides is not asked for each row
//! (`Lets::row_tests`, `Lets::own_tests`).
//! Read first: specs/Readable.antt and specs/View.antt, then reading.rt, ruled_columns.rt, rows.rt
//! and parts.rt.
#![tactic(auto)]

mod columns;
mod document_row;
mod laws;
mod parts;
mod questions;
mod read_rows;
mod reading;
mod row_lists;
mod row_tests;
mod rows;
mod ruled_columns;
mod tables;
mod whole;

pub use columns::{is_shown, shown_columns};
pub use document_row::{DocumentRow, document_rows};
pub use laws::{censored_part_law, censored_view_law, part_made_law};
pub use parts::{Selection, part};
pub use questions::{is_column_seen, is_row_seen, is_table_seen, seen_table};
pub use reading::Lets;
pub use row_lists::{once_in_order, rows_among, rows_there};
pub use row_tests::{RowTest, RowTests};
pub use rows::shown_rows;
pub use tables::{put_seen, seen_part};
pub use whole::whole_view;
