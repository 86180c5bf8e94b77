//! Tests of whole runs: what is given for the lines that come, and how a run ends.
//!
//! Stands on `grist_run`, `io_edges` and `doc_keeper`. Nothing stands on it; it is a crate of its
//! own, so that the run is not proved a second time with its tests.
//!
//! Promises: nothing. What is tested is what no clause says: that the definition of a run means
//! what the protocol says, and that calls succeed where there is memory.
//! Read first: runs.rt, then kept.rt, faults.rt, generated.rt and strangers.rt.
#![tactic(auto)]

#[cfg(test)]
mod faults;
#[cfg(test)]
mod generated;
#[cfg(test)]
mod kept;
#[cfg(test)]
mod runs;
#[cfg(test)]
mod strangers;
