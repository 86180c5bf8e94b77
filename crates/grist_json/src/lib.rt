//! Lines of JSON: what requests, frames and users they spell, and how replies are printed.
//!
//! Stands on `action_lines` (user actions), `doc_model` and `cell_types` (what is read and
//! printed), `name_rules` (names of sessions) and `serde_json` (the text of JSON). Used by the core
//! and the program.
//!
//! Promises: each reader answers the request, frame or user that the bytes spell, and nothing
//! exactly where there is none; bytes spell at most one. What is read asks for well-formed actions
//! alone. Each writer gives the compact text, keys sorted, of the JSON that stands for its
//! argument, and that text reads back as this JSON; a printed line in its frame is read back as the
//! frame.
//! Not promised: that a line is not too long, which whoever reads lines has to test.
//! Read first: requests.rt, then frames.rt and printed_replies.rt.
#![tactic(auto)]

mod frames;
mod json_parts;
mod json_text;
mod laws;
mod line;
mod numbers;
mod printed_actions;
mod printed_replies;
mod printed_values;
mod requests;
mod stream_front;
mod users;
mod writers;

pub use doc_model::{RetIdList, RetValue, RetValueList, Verdict};
pub use frames::{Frame, read_frame};
pub use json_parts::{array_with, texts_of_two, type_value, with, with_member};
pub use json_text::json_of;
pub use laws::{frame_law, one_reading_law};
pub use line::Line;
pub use numbers::whole_of;
pub use printed_actions::{
    cells_action, removed_column_action, removed_rows_action, removed_table_action,
};
pub use requests::{ReadFault, read_request};
pub use stream_front::StreamFront;
pub use users::{UserLine, read_user};
pub use writers::{write_frame, write_reply, write_stream};
