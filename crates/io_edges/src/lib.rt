//! The outside of the engine: sources, sinks, links and ports, and the lines of a source.
//!
//! Stands on std alone. Used by every crate that reads or writes bytes.
//!
//! Promises: a source and a sink are seen as the bytes that they have left or hold and as a count
//! of faults; a call fails only where that count rose in it, and then no told byte has moved.
//! `LineReader` gives the lines of a source in bounded memory, and says after each answer which
//! bytes came; `is_blank` and `is_long` say which are passed over, and refused. `write_all` and
//! `Outbox` write in order, and after a fault what was written is a front of it. A port hands out
//! one link at a time, and takes it back with how it ended.
//! Not promised: what a real stream gives or takes. `StdSource`, `StdSink`, `TcpLink` and `TcpPort`
//! tell counts alone.
//! Read first: source.rt, then line_reader.rt; port.rt.
#![tactic(auto)]

mod accepting;
mod laws;
mod line_kinds;
mod line_parts;
mod line_reader;
mod link;
mod listed_calls;
mod memory_link;
mod memory_port;
mod memory_sink;
mod memory_source;
mod outbox;
mod port;
mod session_end;
mod sink;
mod source;
mod standard;
mod tcp_link;
mod tcp_port;
mod writing;

pub use accepting::next_stream;
pub use laws::{kept_law, stream_law};
pub use line_kinds::{is_blank, is_long};
pub use line_reader::{LineReader, NextLine, ReadEnd};
pub use link::Link;
pub use memory_link::{MemLink, SureLink};
pub use memory_port::MemPort;
pub use memory_sink::{MemSink, SureSink};
pub use memory_source::{MemSource, SureSource};
pub use outbox::Outbox;
pub use port::{Port, Returned};
pub use session_end::SessionEnd;
pub use sink::Sink;
pub use source::Source;
pub use standard::{StdSink, StdSource};
pub use tcp_link::TcpLink;
pub use tcp_port::TcpPort;
pub use writing::write_all;

/// A call to the outside failed.
#[derive(Clone, Copy, Debug, PartialEq, Eq)]
pub struct Failed;
