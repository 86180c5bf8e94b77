//! All lanes of a core, served at the same time.
ghost use Rattle.std.specs.Prelude.{◌≡◌, ◌≤◌, ◌<◌, ◌+◌, suc, All, IfErr, IfOk, false, length, map, vec_len};
ghost use Rattle.std.specs.Thread.{IsSend, IsSync};
ghost use Rattle.session_gate.specs.Gate.{IsPassOf};
ghost use Rattle.bundle_core.specs.Machine.{opening_of};
ghost use Rattle.grist_lanes.specs.Handed.{EndedBy, all_handed};
ghost use Rattle.grist_lanes.specs.InHistory.{ServesLanes};
ghost use Rattle.grist_lanes.specs.LaneEnds.{EndsLane};
ghost use Rattle.grist_lanes.specs.Places.{AtEach};
ghost use Rattle.grist_lanes.specs.Services.{ServesLane, lane_view, telling};
ghost use Rattle.grist_lanes.specs.Sessions.{AreOfNoLane};

use crate::lane::serve_port;
use crate::lanes::{Lane, connections_of, have_all_ended, join_lanes, part_lanes};
use crate::opening::{Opened, close_gate, open_gate};
use doc_keeper::Keeper;
use io_edges::{Link, Port, Sink, Source};
use session_gate::{Gate, PassList};
use shot_core::ShotCore;
use std::alloc::Global;
use std::marker::Send;
use std::sync::Wait;
use std::thread;
use std::thread::Threads;
use watch_box::Watcher;
use watched_core::WatchedCore;

// Serves the ports of all lanes, each in a thread of its own where one can be made.
fn serve_all<R: Threads + Wait + Sync, K: Keeper + Send, W: Watcher + Send, P: Port + Send>(
    rt: &R,
    alloc: Global,
    gate: &Gate<ShotCore<K, W>>,
    lanes: &mut Vec<Lane<P, K, W>>,
)
    requires few { length lanes.old.items ≤ 64 }
    requires all { All (λ l. IsPassOf gate.now l.pass × ((P.state l.port).lent ≡ false))
        lanes.old.items }
    ensures own { All (λ l. IsPassOf gate.now l.pass) lanes.new.items }
    ensures count { length lanes.new.items ≡ length lanes.old.items }
    ensures serves { AtEach (λ place old new.
        ServesLane (telling P.Conn.left P.Conn.written P.Conn.Source.faults P.Conn.Sink.faults)
        (suc place) (P.state old.port) (P.state new.port)
        (lane_view old.pass old.shots.known) (lane_view new.pass new.shots.known))
        lanes.old.items lanes.new.items }
    ensures ends { AtEach (λ place old new.
        EndsLane new.end (P.state old.port) (P.state new.port))
        lanes.old.items lanes.new.items }
{
    let many = lanes.len().max(1);
    thread::for_each_mut(
        rt,
        lanes.as_mut_slice(),
        many,
        &|place: usize, lane: &mut Lane<P, K, W>|
            requires { IsSync R.row × IsSend P.row × (place < 64) × IsPassOf gate.now lane.old.pass
                × ((P.state lane.old.port).lent ≡ false) }
            ensures { IsPassOf gate.entry.now lane.new.pass
                × ServesLane
                (telling P.Conn.left P.Conn.written P.Conn.Source.faults P.Conn.Sink.faults)
                (suc place) (P.state lane.old.port) (P.state lane.new.port)
                (lane_view lane.old.pass lane.old.shots.known)
                (lane_view lane.new.pass lane.new.shots.known)
                × EndsLane lane.new.end (P.state lane.old.port) (P.state lane.new.port) }
        {
            lane.end = serve_port(
                rt,
                alloc,
                gate,
                &mut lane.port,
                &mut lane.pass,
                &mut lane.shots,
                place as u32 + 1,
            );
        },
    );
}

/// The ports were served, and the core comes back; and how many connections they handed out.
#[derive(Drop)]
pub struct Served<K: Keeper, W: Watcher> {
    pub watched: WatchedCore<K, W>,
    pub connections: u64,
}

/// The ports were served; and whether each of them said that no more connections will come.
#[derive(Drop)]
pub struct ServedPorts<K: Keeper, W: Watcher> {
    pub served: Served<K, W>,
    pub have_ended: bool,
}

/// There was no memory for lanes. The core comes back as it was, and no port was asked.
#[derive(Drop)]
pub struct NoServe<K: Keeper, W: Watcher> {
    pub watched: WatchedCore<K, W>,
}

/// Serves the connections of all ports, a lane each, until none will come to a port or it fails,
/// and tells whether none failed. The session of the k-th connection of the i-th port is
/// `session_name i k`.
///
/// It may wait, for connections and for turns.
/// Errors: `NoServe`, which is out of memory.
pub fn serve_ports<R: Threads + Wait + Sync, K: Keeper + Send, W: Watcher + Send, P: Port + Send>(
    rt: &R,
    alloc: Global,
    watched: WatchedCore<K, W>,
    ports: &mut Vec<P>,
) -> Result<ServedPorts<K, W>, NoServe<K, W>>
    requires count { (0 < vec_len ports.old) × (vec_len ports.old ≤ 64) }
    requires home { All (λ p. (P.state p).lent ≡ false) ports.old.items }
    requires none { AreOfNoLane watched.core.state.history }
    ensures opening { IfOk result (λ s.
        opening_of s.served.watched.core ≡ opening_of watched.core) }
    ensures serves { IfOk result (λ s. ServesLanes
        (telling P.Conn.left P.Conn.written P.Conn.Source.faults P.Conn.Sink.faults)
        (opening_of watched.core) watched.core.state.history
        s.served.watched.core.state.history
        (map P.state ports.old.items) (map P.state ports.new.items)) }
    ensures connections { IfOk result (λ s. all_handed (map P.state ports.new.items)
        ≡ all_handed (map P.state ports.old.items) + s.served.connections) }
    ensures ended { IfOk result (λ s. EndedBy s.have_ended
        (map P.state ports.old.items) (map P.state ports.new.items)) }
    ensures err { IfErr result (λ n. (n.watched ≡ watched) × (ports.new.items ≡ ports.old.items)) }
{
    let Ok(mut lanes) = Vec::with_capacity(alloc, ports.len()) else {
        return Err(NoServe { watched });
    };
    let opened = match open_gate(rt, alloc, watched, ports.len() as u32) {
        Ok(opened) => opened,
        Err(watched) => {
            lanes.destroy_empty();
            return Err(NoServe { watched });
        }
    };
    let Opened {
        gate,
        passes,
        mut readers,
    } = opened;
    let mut passes = passes.into_vec();
    join_lanes(ports, &mut passes, &mut readers, &mut lanes);
    serve_all(rt, alloc, &gate, &mut lanes);
    let connections = connections_of(lanes.as_slice());
    let have_ended = have_all_ended(lanes.as_slice());
    part_lanes(ports, &mut passes, &mut lanes);
    lanes.destroy_empty();
    let watched = close_gate(gate, PassList::from(passes)).finish(rt);
    Ok(ServedPorts {
        served: Served {
            watched,
            connections,
        },
        have_ended,
    })
}

/// Serves the connections of all ports as `serve_ports` does.
///
/// It may wait, for connections and for turns.
/// Errors: `NoServe`, which is out of memory.
pub fn serve_lanes<R: Threads + Wait + Sync, K: Keeper + Send, W: Watcher + Send, P: Port + Send>(
    rt: &R,
    alloc: Global,
    watched: WatchedCore<K, W>,
    ports: &mut Vec<P>,
) -> Result<Served<K, W>, NoServe<K, W>>
    requires count { (0 < vec_len ports.old) × (vec_len ports.old ≤ 64) }
    requires home { All (λ p. (P.state p).lent ≡ false) ports.old.items }
    requires none { AreOfNoLane watched.core.state.history }
    ensures opening { IfOk result (λ s. opening_of s.watched.core ≡ opening_of watched.core) }
    ensures serves { IfOk result (λ s. ServesLanes
        (telling P.Conn.left P.Conn.written P.Conn.Source.faults P.Conn.Sink.faults)
        (opening_of watched.core) watched.core.state.history s.watched.core.state.history
        (map P.state ports.old.items) (map P.state ports.new.items)) }
    ensures connections { IfOk result (λ s. all_handed (map P.state ports.new.items)
        ≡ all_handed (map P.state ports.old.items) + s.connections) }
    ensures err { IfErr result (λ n. (n.watched ≡ watched) × (ports.new.items ≡ ports.old.items)) }
{
    match serve_ports(rt, alloc, watched, ports) {
        Ok(
            ServedPorts {
                served,
                have_ended: _,
            },
        ) => Ok(served),
        Err(none) => Err(none),
    }
}
