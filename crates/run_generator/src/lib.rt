//! A large run made from a number: the script of a generated run, request by request.
//!
//! Stands on `cell_types` and `doc_model` (requests and users). For a run that reads no input.
//!
//! Promises: a generator is seen as the entries that it has still to make; at first these are the
//! script of its number, by the definition in specs/Script.antt, and each call makes the first of
//! them. Each is well formed, and none is the end of a connection. It keeps a number and its place,
//! and never the script.
//! Not promised: that memory is there.
//! Read first: specs/Draws.antt and specs/Script.antt, then generator.rt.
#![tactic(auto)]

mod generator;
mod record_actions;
mod requests;
mod stage;
mod users;

pub use generator::Generator;
pub use requests::{first_session, second_session};
pub use users::generated_users;
