//! A document over any store, with the values of its formula cells kept.
//!
//! Stands on `recalc` (what the evaluated cells of a document are, and how they are found),
//! `doc_actions` (which actions are valid), `doc_readers`, `doc_model` (documents and actions),
//! `formula_eval`, `formula_parse` and `cell_types`; for what a change affects on `known_reads`,
//! `affected_values`, `affected_search`, `affected_cells` and `dep_graph`. Used by `rule_contexts`,
//! `bundle_judge` and `bundle_core`.
//!
//! Promises: `Doc` holds the evaluated cells of its document, after its start, any change and any
//! way back, and is read as the document with them in place; a trace has exactly the cells that a
//! change lost, under the names before it; a change that fails leaves the document as it was.
//! Whatever `Doc::put` and `Doc::change` answer, they make no more attempts at cells than it takes
//! at most to evaluate what the action may affect (`spent`, by `bound`). Beside the values stands a
//! graph that has just what each cell reads, once what ways back laid aside is recorded again.
//! Not promised: speed. Where columns have formulas, a change evaluates what the graph of reads
//! says that it affects, and records what these cells read by the same attempts, of circular cells
//! by one more. A way back takes no memory and attempts no cell: what cells read that read
//! something else after the change is laid aside, and recorded again by the next change.
//! An update looks at these cells and at what it writes for what it lost; so do rows that come or
//! go, which move the values of their table beside its rows: of lookups both affect those by values
//! that the rows have before or after, and those by formula columns. An action on no records looks
//! at each read that is recorded for what it affects, copies the values of all formula cells, and
//! evaluates those that it affects or alters. The indexes of the data columns by which cells look
//! rows up are made once, and each action on records keeps them up by its rows, and so does its way
//! back; any other action gives them up, and so does one on records where memory was wanting. At
//! its start, which goes by levels in as many threads as serve, and where a first column is given a
//! formula, the whole document is evaluated and recorded. Where no column has a formula nothing is
//! kept, and a record action looks at what it writes or removes. Which cells `Doc::refresh`
//! evaluates is not promised, nor how often it, a start or `Doc::refresh_all` attempts one: the
//! values stay.
//! Read first: doc.rt, then specs/WayBack.antt, specs/Update.antt, specs/Moved.antt and
//! specs/Altering.antt, then updating.rt, moving.rt, altering.rt and going_back.rt.
#![tactic(auto)]

mod altering;
mod doc;
mod finding;
mod going_back;
mod indexing;
mod moving;
mod starting;
mod touching;
mod trace;
mod updating;

pub use doc::{ChangeFault, Doc};
pub use touching::Touched;
pub use trace::Trace;
