//! A run: the words, users and requests of an input are answered over the document that a keeper's
//! records lead to, and its end told.
//!
//! Stands on `watched_core` and `bundle_core` (a core with watchers, and its history), `run_words`
//! (words), `run_generator` (scripts), `grist_json` (lines of JSON), `io_edges` (sources, sinks and
//! lines), `doc_keeper` (what keeps records) and `watch_box` (watchers). The program hands in
//! standard input and output, a keeper, and watchers of sessions.
//!
//! Promises: `run_alone`, and `run` where its words ask for a replay, say what is written for what
//! was read, in whatever pieces it came, and which event each status stands for; a fault is told
//! only where the count of faults of the source, the sink or the keeper rose. The keeper comes back
//! with its records and one for each bundle that was accepted and kept. `generate` says so of a
//! script in the place of an input, and which line sums it up. `start_watched` attaches all of its
//! watchers, in their order; `completeness_law` says what comes where nothing outside fails.
//! Not promised: that memory is there.
//! Read first: running.rt, then specs/Replay.antt, specs/Run.antt and specs/UserLines.antt; for a
//! generated run generating.rt and specs/Generated.antt.
#![tactic(auto)]

mod answering;
mod denials;
mod generated_line;
mod generating;
mod laws;
mod line_request;
mod line_room;
mod reading;
mod running;
mod sending;
mod serving;
mod status;
mod user_lines;
mod watching;

pub use generating::generate;
pub use laws::completeness_law;
pub use line_room::{append, append_number, send};
pub use running::{run, run_alone, start_status, without_history};
pub use status::{Outcome, Status};
pub use user_lines::{Front, read_users};
pub use watching::{WatchedSession, start_watched};
