//! Lanes: the connections of many ports, served at the same time at one core.
//!
//! Stands on `grist_serve` (one connection served, which may peek), `session_gate` (turns at one
//! machine), `shot_core` (a core that publishes shots, which is the machine), `document_shot` (its
//! shots and their readers) and `io_edges` (ports and links). Used by `grist_hosting`, whose server
//! it is.
//!
//! Promises: `serve_lanes` gives each port a lane, which serves its connections one after the
//! other until none will come or the port fails, and hands each back with its end. The core comes
//! back with what it began from; behind the history that it had there are entries of sessions of
//! these lanes alone. The entries of the session of each connection are those that
//! `serve_shot_link` tells of it. What was written to it is what that history gives its session,
//! with the answers to its peeks in their places: all of it, or a front where writing failed
//! (specs/InHistory.antt). A peek takes no turn and adds no entry. It is answered what the session
//! sees of the document after a history that continues the one which the core brought and all that
//! the lane's reader of shots took before, and has no fewer entries than the pass had seen by its
//! last turn. `lane_names_law`: no two connections have one session; `full_law`: a connection that
//! ends `Full` found the history nearly full. It counts the connections that the ports handed out,
//! and `serve_ports` also tells whether each port said that no more will come, or one failed
//! (specs/Handed.antt). Where there is no memory for lanes, no port was asked.
//! Not promised: that lanes run at the same time, that a turn or a connection comes, that memory
//! or a shot is there; that the history which answers a peek is a beginning of the one that the
//! core comes back with; the ports that fail say so by their counts.
//! Memory: while lanes serve there are two more copies of the document.
//! Read first: specs/Services.antt, specs/InHistory.antt, then serving.rt, lane.rt and lanes.rt.
#![tactic(auto)]

mod lane;
mod lanes;
mod laws;
mod opening;
mod serving;
mod session_names;

pub use laws::{full_law, lane_names_law};
pub use serving::{NoServe, Served, ServedPorts, serve_lanes, serve_ports};
pub use session_names::session_name;
