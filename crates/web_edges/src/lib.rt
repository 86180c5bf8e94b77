//! Connections of browsers: links and ports over WebSockets.
//!
//! Stands on `io_edges` (sources, sinks, links and ports), on `web_requests` (what a request is
//! answered by) and on the kit's `httparse`, `websocket` and `tungstenite`. Used by the program
//! that serves browsers.
//!
//! Promises: a connection and the page are given to no request but one that names this server as
//! its host and that no page of another site asks. A link and a port tell counts of faults, as
//! those over TCP do.
//! Not promised: what a message holds, that the handshake is written, and when a browser sends.
//! Read first: specs/Sending.antt and handshake.rt, then web_link.rt.
#![tactic(auto)]

mod handshake;
mod web_link;
mod web_port;

pub use web_link::WebSocketLink;
pub use web_port::WebSocketPort;
