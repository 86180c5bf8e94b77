//! The words of a command line, and what they ask for.
//!
//! Stands on `cell_types` and `name_rules` (names) and `clap` (command lines). Used by the run and
//! by the program, which opens the document and the ports that the words name.
//!
//! Promises: `plan` answers what the words ask for by the definitions in specs/Words.antt and
//! specs/ServeWords.antt, and `Usage` exactly where they are of no form; that takes no memory.
//! Options come in any order (specs/Options.antt). What a replay names is read by clap, which takes
//! all its words that are of a form: it fails for want of memory alone. Whether words ask for a
//! replay (`asks_for_replay`) or an audit (`asks_for_audit`), for how many lanes of a server
//! (`lanes_asked`) and for how many rows of a generated script (`rows_asked`), is told without
//! memory.
//! Not promised: that memory is found.
//! Read first: specs/Words.antt, specs/Options.antt and reading.rt, then options.rt, form.rt.
#![tactic(auto)]

mod form;
mod option_words;
mod options;
mod plans;
mod reading;
mod serve_form;

pub use form::{asks_for_audit, asks_for_replay, lanes_asked, rows_asked};
pub use plans::{Plan, PlanFault};
pub use reading::plan;
