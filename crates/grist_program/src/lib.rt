//! What a program takes of the outside, whatever ports it serves: its words, standard input and
//! output, the file of the document that the words name, and a watcher over standard error.
//!
//! Stands on `run_words` (which document, which ports and which watched session), `grist_hosting`,
//! which says what is written for what is read, `io_edges`, `file_keeper` and `doc_keeper`, which
//! keep records in a file or in memory, and `watch_box`. Used by the programs.
//!
//! Promises: none beyond those of the run, whose status is what `status_over` answers.
//! Not promised: that standard input and output pass bytes on, nor what a file holds.
//! Read first: outside.rt, then hosted.rt.
#![tactic(auto)]

mod hosted;
mod outside;

pub use hosted::status_over;
pub use outside::{Outside, listener_on, outside_of, words_of};
