//! A core that publishes a shot of its document at each entry.
//!
//! Stands on `watched_core` (a core with its watchers), `document_shot` (shots of its document,
//! which readers take without waiting) and `session_gate` (machines that threads step in turn).
//! Used by `grist_serve` and `grist_lanes`.
//!
//! What it does: where a step adds an entry it publishes a shot of what the history leads to, and
//! hands out the mark of it; a step that adds none hands out the mark of the last one that did.
//! Where a shot cannot be published for want of memory the step hands out no mark, and its answer
//! is the core's all the same; where what the entry did cannot even be noted, no step hands out a
//! mark any more.
//! Promises: a `ShotCore` steps as its core does, and a mark that it hands out has as many entries
//! as the history then; within, that shot is the one that readers find. The core with its watchers
//! comes back as it is.
//! Not promised: that a step hands out a mark at all, or that a reader finds the newest shot.
//! Publishing waits for readers that took a shot before the last publishing.
//! Read first: specs/Machine.antt, then shot_core.rt.
#![tactic(auto)]

mod machine;
mod shot_core;

pub use machine::ShotOut;
pub use shot_core::ShotCore;
