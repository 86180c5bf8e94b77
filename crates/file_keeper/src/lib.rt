//! Kept records in a file of SQLite: the edge to the disk.
//!
//! Stands on `doc_keeper` (what a keeper is) and `sqlite`. A crate of its own, so that whoever
//! keeps records by any keeper does not stand on a database. Used by the programs.
//!
//! Promises: `SqliteKeeper` is a keeper, and its count of faults rises where a call fails. By its
//! code it makes no file before `ready`, and takes a record back that it refused.
//! Not promised: what a file holds. A keeper over a file tells no record; that one is on the disk
//! once `keep` has answered rests on `sqlite` and on the disk.
//! Read first: keeper.rt, then records.rt and new_file.rt.
#![tactic(auto)]

mod keeper;
mod new_file;
mod records;

pub use keeper::SqliteKeeper;
