//! Watchers: who takes the stream lines of sessions, and a list of them.
//!
//! Stands on `cell_types` (names of sessions) and `io_edges` (what it is that a call failed). For a
//! core that tells watchers what it tells its sessions.
//!
//! Promises: a watcher is seen as the lines that it took and as a count of faults; it fails only
//! where that count rose, and where it tells from which length on it refuses a line, exactly there.
//! A list gives a line to each watcher of the session; one that fails is dropped then and there,
//! and all others stay as they are, in their order and with their numbers. That takes no memory.
//! Not promised: that standard error passes lines on.
//! Read first: watcher.rt, then watch_list.rt.
#![tactic(auto)]

mod any_watcher;
mod error_out;
mod memory_watcher;
mod standard;
mod watch_list;
mod watcher;

pub use any_watcher::AnyWatcher;
pub use error_out::ErrorOut;
pub use memory_watcher::{MemWatcher, SureWatcher};
pub use standard::StderrWatcher;
pub use watch_list::{Unattached, WatchList};
pub use watcher::Watcher;
