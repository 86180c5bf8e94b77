//! Tests of watchers: lines told to lists of them, and by a core.
//!
//! Stands on `watched_core`, `watch_box` and what these take and give. Nothing stands on it; it is
//! a crate of its own, so that these are not proved a second time with their tests.
//!
//! Promises: nothing. What is tested is what no clause says: that calls succeed where there is
//! memory.
//! Read first: watchers.rt, then watched_cores.rt.
#![tactic(auto)]

#[cfg(test)]
mod watched_cores;
#[cfg(test)]
mod watchers;
