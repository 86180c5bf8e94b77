//! The program: a run over its words, standard input and standard output, the ports that the words
//! ask for, and the file of the document that they name.
//!
//! Stands on `grist_program`, which does all but the ports, and on `io_edges` (ports over TCP).
//!
//! Promises: none beyond those of the run.
//! Not promised: that standard input and output pass bytes on, nor what a file holds.
#![tactic(auto)]

ghost use Rattle.std.specs.Prelude.{◌≡◌, All, IfOk, false};

use grist_program::{Outside, listener_on, outside_of, status_over, words_of};
use grist_run::Status;
use io_edges::TcpPort;
use std::alloc::AllocError;
use std::net::{Net, TcpListener, TcpStream};
use std::process::ExitCode;
use std::sync::Wait;
use std::thread::Threads;

// A port of each lane, one after the other. One that could not be bound fails at its first
// connection.
fn ports_of<R: Net<Listener = TcpListener, Stream = TcpStream>>(
    rt: &R,
    host: &HostRuntime,
    outside: &Outside,
) -> Result<Vec<TcpPort<TcpListener, HostRuntime>>, AllocError>
    ensures { IfOk result (λ v. All (λ p. p.lent ≡ false) v.items) }
{
    let mut ports = Vec::new(host.alloc());
    for lane in 0..outside.lanes {
        let listener = listener_on(rt, u32::from(outside.port).saturating_add(lane));
        ports.push(TcpPort::new(*host, listener, outside.conns))?;
    }
    Ok(ports)
}

fn status_of<R: Threads + Wait + Net<Listener = TcpListener, Stream = TcpStream> + Sync>(
    rt: &R,
    host: &HostRuntime,
    words: &[String],
) -> Result<Status, AllocError> {
    let outside = outside_of(host.alloc(), words)?;
    let ports = ports_of(rt, host, &outside)?;
    status_over(rt, host, words, outside, ports)
}

fn main(rt: HostRuntime) -> ExitCode {
    let Ok(words) = words_of(&rt) else {
        return ExitCode::from(Status::NoMemory.code());
    };
    match status_of(&rt, &rt, words.as_slice()) {
        Ok(status) => ExitCode::from(status.code()),
        Err(_) => ExitCode::from(Status::NoMemory.code()),
    }
}
