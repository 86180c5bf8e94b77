//! A run with all its commands: a replay, a generated run, an audit, or a server of lanes.
//!
//! Stands on `grist_run` (replays, generated runs, statuses), `audit_run` (audits), `users_alone`
//! (the users of an input), `grist_lanes` (the connections of many ports served at the same time),
//! `bundle_core` (the core), `run_words` (words) and `io_edges`. The program hands in standard
//! input and output, ports and a keeper.
//!
//! Promises: `run` does what the words ask for. A server hears users alone, serves the connections
//! of all ports over the document that the keeper's records lead to, and then writes one line that
//! tells its accepted bundles, its connections and its entries; what each connection asked for and
//! was given is what the history has of it (specs/Hosting.antt). The room for the line is taken
//! before a port is asked. `PortFault` comes only where a port's count of faults rose; all lanes
//! end before it is told. A replay is that of `run_alone`, an audit that of `audit_users`.
//! `run_law`: where a run can be answered whole and nothing outside fails, its status is
//! 0 with every entry kept, or 7 (specs/Complete.antt).
//! Not promised: that memory is there, that a connection or a turn comes, that lanes run at the
//! same time.
//! Read first: specs/Hosting.antt, then hosting.rt.
#![tactic(auto)]

mod hosting;
mod laws;
mod summary;

pub use hosting::run;
pub use laws::run_law;
