//! Document actions done where they are valid.
//!
//! Stands on `cell_types` (values and names), `doc_model` (documents, validity, effect and what a
//! store of a document tells) and `name_rules` (good names). Used where a bundle is done.
//!
//! Promises: `apply` does a valid action and no other, over any store of a document, and says that
//! an action is not valid exactly where it is not; `is_valid` is that test, and never wants memory.
//! The document has to be whole, as `apply` leaves it: a store tells columns by index, and could
//! have some behind the last index; the schema tables are found by theirs; and the rows of a table,
//! which are searched by halves, have to ascend.
//! Not promised: that the document keeps within limits. The columns of one action are compared in
//! pairs, and given rows that do not ascend too where there is no memory to sort them.
//! Read first: applying.rt, validity.rt, then record_validity.rt and schema_validity.rt.
#![tactic(auto)]

mod applying;
mod base_values;
mod given_columns;
mod record_validity;
mod row_ids;
mod schema_rows;
mod schema_validity;
mod table_readers;
mod validity;

pub use applying::{ApplyFault, apply};
pub use validity::is_valid;
