//! What of the outside the words of a command line ask for.

use cell_types::Name;
use run_words::{Plan, PlanFault, plan};
use std::alloc::{AllocError, Global};
use std::net::{Ipv4Addr, Net, TcpListener, TcpStream};
use std::{env, io};

/// The words behind the program's own name.
pub fn words_of(rt: &HostRuntime) -> io::Result<Vec<String>> {
    Ok(env::args(rt)?.skip(1).collect(rt.alloc())?)
}

/// What of the outside the words ask for: the name of a kept document, the session whose stream
/// lines are written to standard error, and ports.
#[derive(Drop)]
pub struct Outside {
    pub doc: Option<Name>,
    pub watch: Option<Name>,
    pub lanes: u32,
    pub port: u16,
    pub conns: u32,
}

impl Outside {
    // No ports, and no document in a file but the named one.
    fn without_ports(doc: Option<Name>, watch: Option<Name>) -> Self {
        Outside {
            doc,
            watch,
            lanes: 0,
            port: 0,
            conns: 0,
        }
    }
}

fn outside_for(plan: Plan) -> Outside {
    match plan {
        Plan::Replay { doc, watch } => Outside::without_ports(doc, watch),
        Plan::Serve {
            lanes,
            port,
            conns,
            doc,
            watch,
        } => Outside {
            doc,
            watch,
            lanes,
            port,
            conns,
        },
        Plan::Gen { n: _n } => Outside::without_ports(None, None),
        Plan::Audit { doc } => Outside::without_ports(doc, None),
    }
}

/// What the words ask for; nothing where they are of no form, which the run itself refuses.
pub fn outside_of(alloc: Global, words: &[String]) -> Result<Outside, AllocError> {
    match plan(alloc, words) {
        Ok(plan) => Ok(outside_for(plan)),
        Err(PlanFault::Usage) => Ok(Outside::without_ports(None, None)),
        Err(PlanFault::NoMemory) => Err(AllocError),
    }
}

/// A listener on a port of this machine alone, where it could be bound.
pub fn listener_on<R: Net<Listener = TcpListener, Stream = TcpStream>>(
    rt: &R,
    port: u32,
) -> Option<TcpListener> {
    let Ok(port) = u16::try_from(port) else {
        return None;
    };
    TcpListener::bind(rt, (Ipv4Addr::LOCALHOST, port)).ok()
}
