//! Formula columns by levels, and attempts at all cells of a level in several threads.
//!
//! Stands on `cell_types` (names), `formula_parse` (trees), `formula_eval` (one attempt),
//! `dep_graph` (notes of runs) and `rayon`. Used by `known_reads`, for a start.
//!
//! Promises: `levels` puts each formula column in its level by the ids that stand in its formula:
//! in level 0 where it names no formula column, else in the level after the greatest that it names,
//! and in none exactly where naming leads from it into a cycle (`level_law`). So the columns of a
//! level name no column of their own level or of a later one. `run_level` gives for each cell of a
//! level what one attempt over the reader tells, in the order of the plan and by rows, whatever the
//! threads; `attempt_rows` the same for some rows of a column.
//! Not promised: that there are threads, or that they make it faster; which of several needed cells
//! an attempt names.
//! Read first: specs/Naming.antt, specs/Levels.antt and specs/LevelLaws.antt, then leveling.rt;
//! specs/Attempts.antt, then running.rt.
#![tactic(auto)]

mod laws;
mod leveling;
mod naming;
mod numbers;
mod plan;
mod running;

pub use laws::level_law;
pub use leveling::levels;
pub use plan::{ColumnFormula, FormulaList, LevelPlan};
pub use running::{AttemptList, CellAttempt, Found, attempt_rows, run_level};
