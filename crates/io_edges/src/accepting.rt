//! The trusted edge: the next connection of a listener, whatever passes meanwhile.
ghost use Rattle.std.specs.Prelude.{◌≤◌};

use std::io::{Error, ErrorKind};
use std::net::OpenListener;
use std::thread;
use std::time::{Clock, Duration};

/// How often accepting is tried: with its rests, for as long as no server runs.
const MAX_TRIES: u32 = 4_294_967_295;

/// How long it rests before it tries again.
const REST_MILLIS: u64 = 50;

// Whether accepting may succeed later: a client that was gone, a network that was, no descriptor or
// no memory that is free. Linux's numbers: EPERM, EINTR, EAGAIN, ENOMEM, ENFILE, EMFILE, ENONET,
// EPROTO, ENOPROTOOPT, ENETDOWN, ENETUNREACH, ECONNABORTED, ECONNRESET, ENOBUFS, ETIMEDOUT,
// EHOSTDOWN, EHOSTUNREACH.
fn is_passing(error: &Error) -> bool {
    match error.raw_os_error() {
        Some(1 | 4 | 11 | 12 | 23 | 24 | 64 | 71 | 92 | 100 | 101) => true,
        Some(103 | 104 | 105 | 110 | 112 | 113) => true,
        _ => false,
    }
}

/// Waits for the next connection. Where accepting fails and may succeed later it is counted as a
/// fault and tried again, after a rest unless the client was gone: it says nothing of the clients
/// behind it. `None` where accepting fails for good.
///
/// Memory: none.
pub fn next_stream<L: OpenListener, C: Clock>(
    listener: &L,
    clock: &C,
    faults: &mut u64,
) -> Option<L::Stream>
    ensures { faults.old ≤ faults.new }
{
    for _ in 0..MAX_TRIES {
        let error = match listener.accept() {
            Ok((stream, _)) => return Some(stream),
            Err(error) => error,
        };
        if !is_passing(&error) {
            return None;
        }
        *faults = faults.saturating_add(1);
        if error.kind() != ErrorKind::ConnectionAborted {
            thread::sleep(clock, Duration::from_millis(REST_MILLIS));
        }
    }
    None
}
