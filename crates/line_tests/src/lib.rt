//! Tests of lines: how they are taken in, read, printed and sent, and of generated scripts, beside
//! the lines that spell their requests.
//!
//! Stands on `io_edges`, `doc_keeper`, `run_generator`, `action_lines`, `grist_json` and
//! `record_lines`. Nothing stands on it; it is a crate of its own, so that none of those is proved
//! a second time with its tests.
//!
//! Promises: nothing. What is tested is what no clause says: that the protocol is the one meant,
//! that calls succeed where there is memory, and what the edge to the outside does.
//! Read first: requests.rt, then actions.rt, records.rt, edges.rt and scripts.rt.
#![tactic(auto)]

#[cfg(test)]
mod actions;
#[cfg(test)]
mod edges;
#[cfg(test)]
mod records;
#[cfg(test)]
mod requests;
#[cfg(test)]
mod scripts;
#[cfg(test)]
mod texts;
