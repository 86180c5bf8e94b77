//! The value of a formula, over a reader of the cells around it.
//!
//! Stands on `cell_types` (values, cells, reads), `doc_model` (rows that ascend), `formula_parse`
//! (trees) and `value_ops` (operators). Used by `recalc`, which keeps evaluated cells.
//!
//! Promises: `attempt` gives the value that specs/Eval.antt says for a formula in a row, with all
//! that was read on the way, or a cell that is needed first, in one counted step; `attempt_noting`
//! the same, where a keeper of the caller's takes what is noted. Beside the reads a run notes the
//! keys of each lookup with their values, and each table of which it takes all rows. `scan` answers
//! the lookups of every source of cells, `scan_among` looks at given rows alone. Five laws hold by
//! a formula's text: readers that tell the same at what a run notes make the same run (a lookup
//! asks of its table that it is there, and then which rows meet its keys); those that tell the same
//! at what it reads do so at all that it notes; cells that are needed are named by a read; no error
//! is given as a value, and none raised is that of a circular cell; a text without a formula raises
//! a syntax error and reads nothing.
//! Not promised: which of several needed key cells a lookup names. The value is not yet fitted to
//! its column.
//! Read first: reader.rt, then attempting.rt and evaluate.rt.
#![tactic(auto)]

mod attempting;
mod attribute;
mod call;
mod evaluate;
mod extremes;
mod function;
mod halt;
mod keeper;
mod laws;
mod lookup;
mod note;
mod operator;
mod outcome;
mod reader;
mod reading;
mod scanning;
mod steps;
mod sums;

pub use attempting::{MAX_RESULT_ITEMS, attempt, attempt_noting};
pub use keeper::NoteKeeper;
pub use laws::{alike_law, named_law, obeys_law, reads_law, text_law};
pub use note::{Note, NoteList};
pub use outcome::{Attempt, Tried};
pub use reader::{CellReader, CellSource, Matching, Reading};
pub use reading::as_read;
pub use scanning::{scan, scan_among};
pub use steps::Steps;
