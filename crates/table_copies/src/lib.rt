//! Copies of single tables, so that what a document told of one can be read when the document is
//! no longer at hand.
//!
//! Stands on `cell_types` (values and names), `doc_model` (documents, and what one tells),
//! `doc_readers` (the parts of a table), `row_tables` (how the logic stores a table), `list_ops`,
//! and `plain_view` and `censored_view` (what is shown of a table). Used by `document_shot`.
//!
//! Promises: a copy is the table, but for the row that describes it, whatever told of it; it is a
//! document of this one table, which is told as any other; and any context shows the same of it as
//! of the table in its document.
//! Costs: `copy_table` a copy of each cell, and for each column what a look at all of its cells
//! costs; no more is done with them, so that a document which others wait for is soon free.
//! Read first: specs/Copies.antt, specs/Alike.antt and table.rt.
#![tactic(auto)]

mod columns;
mod found;
mod laws;
mod table;

pub use laws::{nothing_shown_law, shown_alike_law};
pub use table::{TableCopy, copy_table};
