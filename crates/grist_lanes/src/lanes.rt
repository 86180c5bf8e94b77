//! Lanes: a port, a pass and a reader of shots each, put together and taken apart.
ghost use Rattle.std.specs.Prelude.{◌≡◌, ◌≤◌, [], length, map, sum_by, vec_capacity, vec_len};
ghost use Rattle.std.specs.List.{AllByRecursion, list_all};
ghost use Rattle.io_edges.specs.Ports.{handed_bound};

use doc_keeper::Keeper;
use document_shot::PeekReader;
use io_edges::Port;
use session_gate::Pass;
use shot_core::ShotCore;
use watch_box::Watcher;

/// How many connections a lane served, and whether its port said that no more will come.
#[derive(Clone, Copy)]
pub(crate) struct LaneEnd {
    pub connections: u64,
    pub has_ended: bool,
}

/// A port, the pass by which its connections are served, the reader of shots by which they peek,
/// and what came of it.
pub(crate) struct Lane<P, K: Keeper, W: Watcher> {
    pub port: P,
    pub pass: Pass<ShotCore<K, W>>,
    pub shots: PeekReader,
    pub end: LaneEnd,
}

impl<P, K: Keeper, W: Watcher> Lane<P, K, W> {
    fn into_parts(self) -> (P, Pass<ShotCore<K, W>>)
        ensures { (result.0 ≡ self.port) × (result.1 ≡ self.pass) }
    {
        let Lane {
            port,
            pass,
            shots: _,
            end: _,
        } = self;
        (port, pass)
    }
}

/// Puts each port with the pass and the reader in its place into a lane. The vectors keep their
/// room.
///
/// Memory: none.
pub(crate) fn join_lanes<P: Port, K: Keeper, W: Watcher>(
    ports: &mut Vec<P>,
    passes: &mut Vec<Pass<ShotCore<K, W>>>,
    readers: &mut Vec<PeekReader>,
    lanes: &mut Vec<Lane<P, K, W>>,
)
    requires count { vec_len ports.old ≡ vec_len passes.old }
    requires readers { vec_len ports.old ≡ vec_len readers.old }
    requires room { vec_len ports.old ≤ vec_capacity lanes.old }
    requires empty { lanes.old.items ≡ [] }
    ensures ports { map (λ l. l.port) lanes.new.items ≡ ports.old.items }
    ensures passes { map (λ l. l.pass) lanes.new.items ≡ passes.old.items }
    ensures readers { map (λ l. l.shots) lanes.new.items ≡ readers.old.items }
    ensures empty { (ports.new.items ≡ []) × (passes.new.items ≡ []) }
    ensures port_room { vec_capacity ports.new ≡ vec_capacity ports.old }
    ensures pass_room { vec_capacity passes.new ≡ vec_capacity passes.old }
{
    while let Some(port) = ports.pop() {
        let Some(shots) = readers.pop() else {
            unreachable!()
        };

        // Last, since nothing may let go of it: a pass of a core with shots is let go of nowhere.
        let Some(pass) = passes.pop() else {
            unreachable!()
        };
        lanes.push_reserved(Lane {
            port,
            pass,
            shots,
            end: LaneEnd {
                connections: 0,
                has_ended: false,
            },
        });
    }
    lanes.reverse();
}

/// Takes the lanes apart into their ports and passes, in their order, and lets their readers go.
///
/// Memory: none.
pub(crate) fn part_lanes<P: Port, K: Keeper, W: Watcher>(
    ports: &mut Vec<P>,
    passes: &mut Vec<Pass<ShotCore<K, W>>>,
    lanes: &mut Vec<Lane<P, K, W>>,
)
    requires empty { (ports.old.items ≡ []) × (passes.old.items ≡ []) }
    requires port_room { vec_len lanes.old ≤ vec_capacity ports.old }
    requires pass_room { vec_len lanes.old ≤ vec_capacity passes.old }
    ensures ports { ports.new.items ≡ map (λ l. l.port) lanes.old.items }
    ensures passes { passes.new.items ≡ map (λ l. l.pass) lanes.old.items }
    ensures empty { lanes.new.items ≡ [] }
{
    lanes.reverse();
    while let Some(lane) = lanes.pop() {
        let (port, pass) = lane.into_parts();
        ports.push_reserved(port);
        passes.push_reserved(pass);
    }
}

/// How many connections the lanes served together.
pub(crate) fn connections_of<P: Port, K: Keeper, W: Watcher>(lanes: &[Lane<P, K, W>]) -> u64
    requires few { length lanes.now ≤ 64 }
    requires each { AllByRecursion (λ l. l.end.connections ≤ handed_bound) lanes.now }
    ensures { result ≡ sum_by (λ l. l.end.connections) lanes.now }
{
    let mut connections = 0;
    for lane in lanes {
        connections += lane.end.connections;
    }
    connections
}

/// Whether the port of each lane said that no more connections will come.
pub(crate) fn have_all_ended<P: Port, K: Keeper, W: Watcher>(lanes: &[Lane<P, K, W>]) -> bool
    ensures { result ≡ list_all (λ l. l.end.has_ended) lanes.now }
{
    lanes.iter().all(|lane| lane.end.has_ended)
}
