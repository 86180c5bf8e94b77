//! Lines of JSON of peeks: which lines ask for one, and how one is answered.
//!
//! Stands on `grist_json` (the JSON of lines, replies), `action_lines` (members of an object, one
//! after the other), `doc_model` and `cell_types`. Used by `document_shot` and `grist_serve`.
//!
//! Promises: `read_peek` answers the table of the line that spells a peek, and nothing exactly
//! where it spells none; such a line spells no request, so that whoever reads requests alone takes
//! it as a bad line. `write_peek` prints the reply that tells an answer, as `write_reply` prints
//! the same verdict of a request.
//! Not promised: that a line is not too long, which whoever reads lines has to test.
//! Read first: peeks.rt, then answers.rt.
#![tactic(auto)]

mod answers;
mod peeks;
#[cfg(test)]
mod tests;

pub use answers::{PeekAnswer, write_peek};
pub use peeks::read_peek;
