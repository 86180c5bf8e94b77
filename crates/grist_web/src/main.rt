//! The program for browsers: what `grist_main` does, with connections over WebSockets and a page
//! that shows the document.
//!
//! Stands on `grist_program`, which does all but the ports, and on `web_edges` (ports of browsers).
//! All lanes listen at one port, since a browser knows one address.
//!
//! Promises: none beyond those of the run.
//! Not promised: what the page shows, and that standard input and output pass bytes on.
#![tactic(auto)]

ghost use Rattle.std.specs.Prelude.{◌≡◌, All, IfOk, false};

mod page;

use crate::page::PAGE;
use grist_program::{Outside, listener_on, outside_of, status_over, words_of};
use grist_run::Status;
use std::alloc::AllocError;
use std::net::{Net, TcpListener, TcpStream};
use std::process::ExitCode;
use std::sync::Wait;
use std::thread::Threads;
use web_edges::WebSocketPort;

// A port of each lane, all over one listener: a connection goes to a lane that waits. Where it
// could not be bound each fails at its first connection.
fn ports_of<R: Net<Listener = TcpListener, Stream = TcpStream>>(
    rt: &R,
    host: &HostRuntime,
    outside: &Outside,
) -> Result<Vec<WebSocketPort<TcpListener, HostRuntime>>, AllocError>
    ensures { IfOk result (λ v. All (λ p. p.lent ≡ false) v.items) }
{
    let shared = match outside.lanes {
        0 => None,
        _ => listener_on(rt, u32::from(outside.port)),
    };
    let alloc = host.alloc();
    let mut ports = Vec::new(alloc);
    for _lane in 0..outside.lanes {
        let listener = match &shared {
            Some(listener) => listener.try_clone().ok(),
            None => None,
        };
        let page = PAGE.as_bytes();
        let port = WebSocketPort::new(alloc, *host, outside.port, page, listener, outside.conns);
        ports.push(port)?;
    }
    Ok(ports)
}

fn status_of<R: Threads + Wait + Net<Listener = TcpListener, Stream = TcpStream> + Sync>(
    rt: &R,
    host: &HostRuntime,
    words: &[String],
) -> Result<Status, AllocError> {
    let outside = outside_of(host.alloc(), words)?;
    let ports = ports_of(rt, host, &outside)?;
    status_over(rt, host, words, outside, ports)
}

fn main(rt: HostRuntime) -> ExitCode {
    let Ok(words) = words_of(&rt) else {
        return ExitCode::from(Status::NoMemory.code());
    };
    match status_of(&rt, &rt, words.as_slice()) {
        Ok(status) => ExitCode::from(status.code()),
        Err(_) => ExitCode::from(Status::NoMemory.code()),
    }
}
