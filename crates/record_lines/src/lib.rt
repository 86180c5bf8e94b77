//! Records of bundles as lines of JSON: the document actions of each accepted bundle, read and
//! printed.
//!
//! Stands on `doc_model` and `cell_types` (document actions), `meta_schema` (the texts of types),
//! `action_lines` and `grist_json` (the JSON of rows, columns and values) and `serde_json`. Nothing
//! uses it yet: it is for a core that keeps its bundles past the end of a run.
//!
//! Promises: `read_record` answers the record that the bytes spell, and nothing exactly where they
//! spell none; bytes spell at most one. `write_record` gives the compact text, keys sorted, of the
//! JSON of the record, and that text spells the record where names have their length, numbers fit
//! their bits and columns stand by id with a value for each row.
//! Not promised: that the actions of a record are valid anywhere, or that its number is its place.
//! Read first: specs/Records.antt and records.rt, then specs/DocActions.antt.
#![tactic(auto)]

mod cells;
mod dates;
mod doc_actions;
mod infos;
mod laws;
mod names;
mod printed;
mod recorded;
mod records;
mod writing;

pub use laws::{one_record_law, printed_record_law};
pub use records::{Kept, read_record};
pub use writing::write_record;
