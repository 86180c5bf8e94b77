//! What a request to the server of browsers is answered by.
//!
//! Stands on the kit's `httparse`, `itoa` and `websocket`. Used by `web_edges`, which reads the
//! requests and sends the answers; it is a crate of its own, so that its edits cost little.
//!
//! Promises: the answer is the definition in specs/Requests.antt: a connection, the page, or a
//! refusal, and nothing but a refusal where the request's host is not this server's or a page of
//! another site asks.
//! Not promised: that an answer is sent.
//! Read first: specs/Requests.antt, then request.rt.
#![tactic(auto)]

mod request;

pub use request::{Answer, answer_to};
