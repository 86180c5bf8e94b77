//! A lane: the connections of one port, served one after the other by one pass, and peeking by one
//! reader of shots.
ghost use Rattle.std.specs.Prelude.{◌≡◌, ◌≤◌, ◌<◌, false};
ghost use Rattle.io_edges.specs.Ports.{PortState};
ghost use Rattle.session_gate.specs.Gate.{IsPassOf};
ghost use Rattle.grist_lanes.specs.SessionNames.{session_name};
ghost use Rattle.grist_lanes.specs.Services.{IsServed, ServesLane, ServesNext, lane_view, telling};
ghost use Rattle.grist_lanes.specs.LaneEnds.{EndsLane};

use crate::lanes::LaneEnd;
use crate::session_names::session_name;
use doc_keeper::Keeper;
use document_shot::PeekReader;
use grist_serve::serve_shot_link;
use io_edges::{Failed, Link, Port, SessionEnd, Sink, Source};
use session_gate::{Gate, Pass};
use shot_core::ShotCore;
use std::alloc::Global;
use std::sync::Wait;
use std::thread::Threads;
use watch_box::Watcher;

// Serves the connection of that number.
fn serve_connection<R: Threads + Wait + Sync, K: Keeper, W: Watcher, L: Link>(
    rt: &R,
    alloc: Global,
    gate: &Gate<ShotCore<K, W>>,
    pass: &mut Pass<ShotCore<K, W>>,
    shots: &mut PeekReader,
    lane: u32,
    number: u64,
    conn: &mut L,
) -> SessionEnd
    requires { IsPassOf gate.now pass.old }
    ensures own { IsPassOf gate.now pass.new }
    ensures served { IsServed
        (telling L.left L.written L.Source.faults L.Sink.faults)
        (session_name lane number)
        record {
          before = conn.old;
          after = conn.new;
          end = result;
          old = lane_view pass.old shots.old.known;
          new = lane_view pass.new shots.new.known;
        } }
{
    let Ok(name) = session_name(alloc, lane, number) else {
        return SessionEnd::NoMemory;
    };
    serve_shot_link(rt, alloc, gate, pass, shots, &name, conn)
}

// Serves the next connection of a port, which has that number, and answers whether there was one.
fn serve_next<R: Threads + Wait + Sync, K: Keeper, W: Watcher, P: Port>(
    rt: &R,
    alloc: Global,
    gate: &Gate<ShotCore<K, W>>,
    port: &mut P,
    pass: &mut Pass<ShotCore<K, W>>,
    shots: &mut PeekReader,
    lane: u32,
    number: u64,
) -> Result<bool, Failed>
    requires pass { IsPassOf gate.now pass.old }
    requires home { (P.state port.old).lent ≡ false }
    ensures own { IsPassOf gate.now pass.new }
    ensures next { ServesNext
        (telling P.Conn.left P.Conn.written P.Conn.Source.faults P.Conn.Sink.faults)
        lane (P.state port.old) (P.state port.new) (lane_view pass.old shots.old.known)
        (lane_view pass.new shots.new.known) result number }
{
    match port.next() {
        Ok(Some(conn)) => {
            let mut conn = conn;
            let end = serve_connection(rt, alloc, gate, pass, shots, lane, number, &mut conn);
            port.done(conn, end);
            Ok(true)
        }
        Ok(None) => Ok(false),
        Err(fault) => Err(fault),
    }
}

/// Serves the connections of a port, one after the other, until none will come or the port fails.
/// The session of the k-th one is `session_name lane k`.
///
/// It may wait, for connections and for turns. Cost: that of `serve_shot_link` for each
/// connection.
pub(crate) fn serve_port<R: Threads + Wait + Sync, K: Keeper, W: Watcher, P: Port>(
    rt: &R,
    alloc: Global,
    gate: &Gate<ShotCore<K, W>>,
    port: &mut P,
    pass: &mut Pass<ShotCore<K, W>>,
    shots: &mut PeekReader,
    lane: u32,
) -> LaneEnd
    requires pass { IsPassOf gate.now pass.old }
    requires home { (P.state port.old).lent ≡ false }
    ensures own { IsPassOf gate.now pass.new }
    ensures serves { ServesLane
        (telling P.Conn.left P.Conn.written P.Conn.Source.faults P.Conn.Sink.faults)
        lane (P.state port.old) (P.state port.new) (lane_view pass.old shots.old.known)
        (lane_view pass.new shots.new.known) }
    ensures ends { EndsLane result (P.state port.old) (P.state port.new) }
{
    let mut number = 1;
    loop {
        match serve_next(rt, alloc, gate, port, pass, shots, lane, number) {
            Ok(true) => number += 1,
            Ok(false) => {
                return LaneEnd {
                    connections: number - 1,
                    has_ended: true,
                };
            }
            Err(_) => {
                return LaneEnd {
                    connections: number - 1,
                    has_ended: false,
                };
            }
        }
    }
}
