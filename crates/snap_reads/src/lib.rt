//! Shots of what a history leads to, taken by readers that wait for nobody.
//!
//! Stands on `left_right` (two copies of a value: readers take the one that is shown, and one
//! writer changes the other). It knows nothing of documents: what a shot holds is a type that meets
//! `Shot`. Used by `document_shot`.
//!
//! Promises: what a peek answers is an answer of a shot that is what its history leads to. That
//! history continues all that this reader took or was told of before, and has no fewer entries than
//! each mark that the reader learned. What is published stands for the history that the last
//! operation carries; where memory runs out nothing is published, and what waits is published with
//! the next operation, or nothing is any more.
//! Not promised: that a shot is the newest; that the histories which two readers took are
//! beginnings of one history; that a peek finds a shot.
//! Read first: shot.rt, then specs/Past.antt, specs/Rule.antt and specs/Views.antt.
#![tactic(auto)]

mod opening;
mod past;
mod reader;
mod rule;
mod shot;
mod writer;

pub use opening::open_shots;
pub use past::{Mark, Past};
pub use reader::{NoShot, ShotReader};
pub use shot::{Question, Shot};
pub use writer::ShotWriter;
