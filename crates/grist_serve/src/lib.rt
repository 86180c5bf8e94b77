//! Connections at one core: each line of a link is a request of its session, and what the session
//! is given goes back over the link.
//!
//! Stands on `session_gate` (turns at one machine), `bundle_core` (the core, which is the machine),
//! `io_edges` (links, lines, a buffer before what goes out), `grist_json` (requests), and for peeks
//! on `peek_lines`, `document_shot` (readers of shots) and `shot_core` (a core that publishes
//! them). For lanes, which serve connections at the same time.
//!
//! Promises: `serve_link` says, by each end, which lines came, that its pass asked for exactly what
//! they ask for, in their order and then for the end of the connection, and which bytes were
//! written of those that it was given. That holds whatever other threads do at the gate meanwhile.
//! A fault is told only where that count of this link rose; nothing is answered behind an answer
//! that closes the session. `given_law`: what a pass was given in its stretch of the history is
//! what its session is given in all of it. An answer is one write where it fits into the buffer.
//! `serve_shot_link` says the same of a connection whose lines may be peeks: each is answered in
//! its place among the others, takes no turn of its pass and adds no entry. Its answer is what the
//! session sees of the document after some history, which continues all that its reader of shots
//! took before, and has no fewer entries than the pass had seen by its last turn.
//! Not promised: that a turn is ever given, that memory or a shot is there, how many writes are
//! made.
//! Read first: specs/Turns.antt, specs/Answering.antt and specs/Link.antt, then serving.rt; for
//! peeks specs/Answered.antt, specs/Standing.antt and specs/ShotLink.antt, then shot_serving.rt.
#![tactic(auto)]

mod answering;
mod laws;
mod peeking;
mod requests;
mod sending;
mod serving;
mod shot_answering;
mod shot_asking;
mod shot_serving;

pub use laws::given_law;
pub use serving::serve_link;
pub use shot_serving::serve_shot_link;
