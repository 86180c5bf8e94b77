//! What the two schema tables of a document say, and whether the document agrees with them.
//!
//! Stands on `cell_types` (values, names and types), `doc_model` (documents, and what a store
//! answers) and `doc_readers` (the parts of a document that a store tells).
//! Used by `record_lines`, for the texts of types, and by whoever has the tables of a document
//! alone, and wants its schema.
//!
//! Promises: `schema_of` is the definition in specs/Decoding.antt, for every document that a store
//! holds; rows of the schema tables that say no table or no column are passed over. `agrees` is the
//! test in specs/Agreement.antt, and takes no memory. The laws in laws.rt say what both mean: of a
//! whole document the schema is the list of its plain tables, with their ids, rows and columns; and
//! a sound document, as a store tells it, agrees with its schema exactly where it passes the test.
//! As a store tells it, a table has the metadata row that the table of tables has for it;
//! `agrees_law` says the same of documents, with that row as a premise.
//! Not promised: speed. The columns of each table are found by a walk over all that are described.
//! Read first: specs/Decoding.antt and reading.rt, then specs/Agreement.antt and agreement.rt.
#![tactic(auto)]

mod agreement;
pub mod laws;
mod metadata_tables;
mod reading;
mod schema_names;
mod schema_table;
mod told_cells;
mod type_texts;

pub use agreement::agrees;
pub use reading::schema_of;
pub use schema_table::{Schema, SchemaTable};
pub use type_texts::{name_of, type_of};
