//! What formula cells of an evaluated document read, recorded in a graph, and cells evaluated with
//! what they read: all of them, or some anew.
//!
//! Stands on `affected_search` (a cell's reads recorded by one attempt) and `dep_graph`, `recalc`
//! (evaluated cells), `affected_values` (values taken out and put back), `par_recalc` (levels),
//! `affected_cells`, `formula_eval`, `formula_parse`, `doc_readers`, `doc_model` and `cell_types`.
//! Used by `evaluated_doc`.
//!
//! Promises: `KnownReads` is a graph that has just what each cell notes, so that a search over it
//! finds affected cells alone, once what ways back laid aside is recorded again (`KnowsReads`,
//! `put_owed`). It takes no memory to lay aside what a change handed out (`lay`, `laid_law`).
//! `evaluate_recording` finds the value of each formula cell of a document, and the attempt that
//! finds it records what the cell reads; a circular cell that was given its value without a whole
//! run is attempted once more. It makes two attempts a cell at most, three a circular one, and no
//! more than one for each cell and one for each that its reads name, whatever comes of them.
//! The indexes of the data columns by which cells look rows up are made and right.
//! `evaluate_in_levels` has the same clauses, of attempts where it succeeds: the cells of a column
//! are attempted in threads over what is known when all columns that it names are evaluated, and
//! put and recorded in order.
//! `refresh_recording` does so for some cells where the values of all others are known, within
//! one attempt for each cell and one for each of them that its reads name (`attempt_bound`). It
//! hands out what cells read that read something else (`AreBefore`). Where memory runs out each
//! value is as it was, and what cells read that was recorded is laid aside.
//! Over an update the graph is right of all cells but the found ones (`reads_same_law`), over rows
//! that come or go also but those of the rows (`reads_over_law`, `rows_stay_law`).
//! Not promised: which indexes are made; that only cells are noted that read something else.
//! Read first: specs/Beside.antt and specs/Attempts.antt, then beside.rt, laid.rt, putting_back.rt
//! and recording.rt; specs/Recorded.antt and specs/Watched.antt, then settling.rt, starting.rt,
//! levels.rt and refreshing.rt.
#![tactic(auto)]

mod attempting;
mod beside;
mod laid;
mod laws;
mod level_indexes;
mod levels;
mod listing;
mod putting_back;
mod recording;
mod refreshing;
mod settling;
mod starting;

pub use beside::KnownReads;
pub use laid::{LaidReads, ReadsBefore};
pub use laws::{laid_law, reads_over_law, reads_same_law, rows_stay_law};
pub use refreshing::{Refreshed, refresh_recording};
pub use starting::{Evaluated, evaluate_in_levels, evaluate_recording};
