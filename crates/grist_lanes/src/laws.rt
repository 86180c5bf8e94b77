//! Laws over the names of sessions, and over the ends of connections.

ghost use Rattle.grist_lanes.specs.FullEnds.{FullLaw};
ghost use Rattle.grist_lanes.specs.Services.{telling};
ghost use Rattle.grist_lanes.specs.SessionNames.{NamesTellApart};

use io_edges::{Link, Port, Sink, Source};

/// No two connections have one name.
pub fn lane_names_law()
    ensures { NamesTellApart }
{}

/// A connection ends `Full` only where the history has as many entries as it may have, or so many
/// bytes that a longest line may pass their bound.
pub fn full_law<P: Port>()
    ensures { FullLaw (telling P.Conn.left P.Conn.written P.Conn.Source.faults P.Conn.Sink.faults) }
{}
