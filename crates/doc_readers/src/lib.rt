//! What a document tells of its tables, however it is kept, and the tests of ids, rows and values
//! that several crates make.
//!
//! Stands on `cell_types` (values and names) and `doc_model` (documents, and what one tells). Used
//! by the crates that test, expand and apply actions, and by those that show documents.
//!
//! Promises: each call is the part of the definitions that its clause names, and takes no memory.
//! Nothing is asked of the document but that the schema tables stand first, where they are wanted.
//! Not promised: speed. A column is found by a walk.
//! Read first: table_readers.rt.
#![tactic(auto)]

mod base_values;
mod known_ids;
mod row_ids;
mod table_readers;

pub use base_values::{are_base, is_base, is_short};
pub use known_ids::{is_acl_id, is_metadata_id, is_schema_id};
pub use row_ids::holds_row;
pub use table_readers::{
    cell_in, columns_table, find_column, has_column, has_table, rows_in, tables_table,
};
