//! The users of an input in which they stand alone.
//!
//! Stands on `grist_run` (the users at the front of an input, statuses), `io_edges` (sources,
//! lines) and `doc_model` (users). Used by `audit_run` and `grist_hosting`, for commands that hear
//! nothing but users.
//!
//! Promises: `read_users_alone` reads the whole input and answers the users that its lines say, or
//! the number of the first line that says none or a bad one (specs/UsersAlone.antt).
//! Not promised: that memory is there.
//! Read first: specs/UsersAlone.antt, then reading.rt.
#![tactic(auto)]

mod reading;

pub use reading::read_users_alone;
