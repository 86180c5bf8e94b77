//! A core with watchers: each takes the stream lines of a session as they are made.
//!
//! Stands on `bundle_core` (the core) and `watch_box` (watchers, and lists of them); `doc_model`,
//! `cell_types` and `grist_json` (requests, names and lines), `doc_keeper` (the keeper of accepted
//! bundles) and `session_gate` (machines that threads step in turn).
//!
//! Promises: a `WatchedCore` steps as its core does, and each watcher is told the stream line that
//! the step makes for its session, where it makes one, and nothing else (specs/Watched.antt). It is
//! told then, though the session itself is given the line later. One that fails is dropped then
//! and there, and nothing else changes. Telling takes no memory: what wants it is taken before the
//! core steps, and nothing of it where there are no watchers. A watcher's number is how many were
//! attached before. It is a `Machine`, so that threads may step it by a gate, by histories alone.
//! Not promised: that a watcher passes on what it took.
//! Costs: a step costs that of its core, and for each watcher two walks over the open sessions.
//! Read first: specs/Watched.antt, then watched.rt and telling.rt.
#![tactic(auto)]

mod machine;
mod telling;
mod watched;

pub use watched::WatchedCore;
