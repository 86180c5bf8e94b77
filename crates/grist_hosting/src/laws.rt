//! Laws of whole runs, each on the contract of a function that does nothing.
ghost use Rattle.grist_lanes.specs.Services.{telling};
ghost use Rattle.grist_hosting.specs.Complete.{CompletenessLaws};

use io_edges::{Link, Port, Sink, Source};

/// Where a run can be answered whole and nothing outside fails, all is answered and every entry
/// kept, or memory was wanting: of a replay, a generated run, an audit and a server.
pub fn run_law<P: Port>()
    ensures { CompletenessLaws
        (telling P.Conn.left P.Conn.written P.Conn.Source.faults P.Conn.Sink.faults) }
{}
