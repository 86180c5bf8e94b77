//! Tests of connections: what a link is written for the lines that come, and how it ends.
//!
//! Stands on `grist_serve`, `bundle_core` and `session_gate`. What several links do beside one
//! another, a session that lags, and what the whole server does are tried over the built program,
//! by tools/try_lanes.py and tools/try_bad_clients.py.
//! Nothing stands on it; it is a crate of its own, so that serving is not proved a second time with
//! its tests.
//!
//! Promises: nothing. What is tested is what no clause says: that calls succeed where there is
//! memory, and that an open core answers through the gate as it does alone.
//! Read first: links.rt.
#![tactic(auto)]

#[cfg(test)]
mod cores;
#[cfg(test)]
mod links;
