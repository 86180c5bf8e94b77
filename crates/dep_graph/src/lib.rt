//! Who reads what: the reads of each cell, and the cells of each read.
//!
//! Stands on `cell_types` (cells, names), `doc_model` (rows that ascend), `lookup_index` (rows by
//! key, buckets of values) and `formula_eval` (what a run notes). Used by `affected_search` and by
//! what stands on that, for updates that evaluate only what they affect.
//!
//! Promises: after `DepGraph::set` a cell reads exactly what the notes of its run say, and each
//! other cell what it read; on an error no cell reads anything else. `reads_of` tells what a cell
//! reads, `rows_of` exactly the cells of a column that read something, and `columns_of` each column
//! that has such a cell. A lookup reads, beside its key columns, the value that it looks up in each
//! of them, by bucket: so its readers are found by the values that were looked up. Without a key it
//! reads all rows of its table, as what takes them all does. Names have numbers inside; a number is
//! never given again, and its name is found by it (`number_law`), which has no other number. Asking
//! and `DepGraph::drop_reader` take no memory. `NoteRuns` keeps the notes of a run, with the names
//! of a column once for cells of it that are read one after the other. `DepGraph::set_noting` takes
//! them as they stand, and where the cell read something else it notes that first, by name
//! (`WereReads`, `IsLogged`); so does `drop_noting`, which forgets what a cell reads. `set_back`
//! records again what was noted.
//! Not promised: that a column told by `columns_of` has such a cell; that few values share a
//! bucket; anything of what a cell does that was not set.
//! Read first: specs/Sources.antt and specs/Graph.antt, then graph.rt, records.rt and readers.rt.
#![tactic(auto)]

mod differing;
mod graph;
mod laws;
mod links;
mod named;
mod names;
mod noting;
mod numbers;
mod readers;
mod records;
mod runs;
mod were;

pub use graph::DepGraph;
pub use laws::number_law;
pub use named::NamedRead;
pub use numbers::{CellNumber, ColumnNumber, ReadNumber, ValueNumber};
pub use runs::{NoteRun, NoteRuns};
pub use were::WereReads;
