//! An index of the cells of a column: which rows a looked-up value can be found in.
//!
//! Stands on `cell_types` (values), `doc_model` (rows that ascend) and `value_ops` (equality).
//! Used by `recalc`, whose lookups look at the rows of one bucket, and by `dep_graph`, which keeps
//! rows by keys of its own.
//!
//! Promises: equal values, and a record and the number of its row, have one bucket (`bucket_law`),
//! and a value by which a part of a list or of a set of records is found has the bucket of a part
//! (`part_bucket_law`). `LookupIndex` tells the rows that were put into a bucket, ascending, and
//! `KeyIndex` those under keys of any kind. So the rows of a value's bucket hold all rows whose
//! cells agree with the value, and what else they hold is for the caller to leave out. A row that
//! is taken away leaves its room: it is taken and put back without memory.
//! Not promised: that few other rows share a bucket.
//! Read first: specs/Buckets.antt, then bucket.rt, specs/Under.antt and key_index.rt.
#![tactic(auto)]

mod bucket;
mod index;
mod key_index;
mod laws;
mod rows;

pub use bucket::{bucket_of, part_bucket};
pub use index::LookupIndex;
pub use key_index::KeyIndex;
pub use laws::{bucket_law, part_bucket_law};
