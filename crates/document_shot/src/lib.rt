//! Shots of a core's document: what its entries did to it, and what readers of shots are answered.
//!
//! Stands on `snap_reads` (shots that a writer publishes and readers take without waiting),
//! `shot_documents`, `shot_cells` and `shot_changes` (the tables of a shot with the values of their
//! formula cells beside them, and what a bundle did to both), `bundle_core` (the core, its history
//! and its last change), `rule_contexts` and `censored_view` (what a user sees), `table_copies`
//! (what a peek takes along) and `peek_lines` (what it is answered). Used by `shot_core`,
//! `grist_serve` and `grist_lanes`.
//!
//! Promises: a shot that stands for a history has the document, the values of all formula cells and
//! the open sessions that the history leads to (`Stands`). `last_operation` makes of a core what
//! leads from the history before its last entry to the one with it (`Leads`). So what
//! `PeekReader::peek` answers a session is what the state after some history says (`IsPeekAnswer`),
//! which continues all that the reader took before, and has no fewer entries than its marks ask.
//! Not promised: that a shot is the newest; that the histories which two readers took are
//! beginnings of one.
//! Costs: three copies of the document where a core has a writer. A peek reads the rules anew and
//! copies the table, which is all that a writer may wait for; it makes its answer of these when it
//! has left the shot.
//! Read first: specs/Shots.antt and specs/PeekAnswers.antt, then shot.rt, look.rt and making.rt.
#![tactic(auto)]

mod answers;
mod look;
mod making;
mod operation;
mod past;
mod reader;
mod sessions;
mod shot;
mod trail;
mod writer;

pub use making::last_operation;
pub use operation::DocumentOp;
pub use past::CoreStart;
pub use reader::PeekReader;
pub use sessions::ShotSession;
pub use shot::DocumentShot;
pub use trail::{DocumentStep, Trail};
pub use writer::PeekWriter;
