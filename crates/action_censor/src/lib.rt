//! The changes of views after bundles of record actions, from the rows alone that these are about.
//!
//! Stands on `censored_view` (what a context shows), `plain_view` (changes), `doc_readers` (what a
//! document tells) and `acl_formula` (rows as rules read them).
//!
//! Promises: `touched_tables` makes what a bundle did once, from its steps and the document after
//! it: of each table that they are about, the rows as they were and the rows that are there.
//! `follow` makes of it the changes of what one context shows, the definition's list over whole
//! views, and reads no cell of any other row. `steps_law`: what steps tell of a table is what it
//! was before them. `told_law`: cells of other rows may hold anything.
//! Not here: bundles that change the schema, or what a context lets be read.
//! Costs: `touched_tables` the cells of the touched rows, and for each touched table the steps'
//! cells and the rows that their actions name; `follow` what `shown_rows` of `censored_view` takes
//! for the touched rows.
//! Read first: specs/Back.antt, specs/TouchedTables.antt, touched_table.rt and following.rt.
#![tactic(auto)]

mod cells_by_row;
mod following;
mod laws;
mod old_rows;
mod steps;
mod table_names;
mod there_before;
mod touched_rows;
mod touched_table;

pub use following::follow;
pub use laws::{narrow_law, steps_law, told_law};
pub use steps::StepTrace;
pub use touched_table::{TouchedTable, touched_tables};
