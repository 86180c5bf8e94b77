//! The trusted edge: standard error, as a watcher writes to it.
ghost use Rattle.std.specs.Io.{WritesAtMost};

use std::fs::{File, OpenOptions};
use std::io::{ErrorKind, Write};
use std::net::TcpStream;
use std::os::fd::OwnedFd;
use std::time::Duration;
use std::{fs, io, thread};

/// What leads to standard error.
const STANDARD_ERROR: &str = "/proc/self/fd/2";

/// How often a write that finds no room rests before it fails.
const MAX_RESTS: u32 = 20;

/// How long each time.
const REST_MILLIS: u64 = 1;

/// Standard error. Where nobody is to wait for whoever reads it, a write for which there is no room
/// soon fails.
#[derive(Drop)]
pub struct ErrorOut {
    host: HostRuntime,
    // A way of its own to the same pipe or terminal, where writes do not wait.
    apart: Option<File>,
}

impl ErrorOut {
    /// Standard error, which is waited for.
    pub fn waiting(rt: &HostRuntime) -> Self {
        ErrorOut {
            host: *rt,
            apart: None,
        }
    }

    /// Standard error, for which nobody waits longer than 20 milliseconds. Where it is a socket it
    /// is waited for; a file takes what it is given.
    pub fn unwaiting(rt: &HostRuntime) -> Self {
        ErrorOut {
            host: *rt,
            apart: opened_apart(rt),
        }
    }
}

// Opened anew, so that no other program that writes there comes to write without waiting; and for
// reading too, since opening a pipe with a name for writing alone waits for a reader.
fn opened_apart(rt: &HostRuntime) -> Option<File> {
    if fs::metadata(rt, STANDARD_ERROR).ok()?.is_file() {
        return None;
    }
    let file = OpenOptions::new()
        .read(true)
        .append(true)
        .open(rt, STANDARD_ERROR)
        .ok()?;
    // A stream of std is what sets the mode, which a copy of a descriptor shares.
    let stream = TcpStream::from(OwnedFd::from(file.try_clone().ok()?));
    stream.set_nonblocking(true).ok()?;
    Some(file)
}

// Writes some bytes as soon as there is room, and fails where there is none soon.
fn write_soon(rt: &HostRuntime, file: &mut File, bytes: &[u8]) -> io::Result<usize>
    ensures { WritesAtMost result bytes.now }
{
    for _ in 0..MAX_RESTS {
        match file.write(bytes) {
            Err(error) if error.kind() == ErrorKind::WouldBlock => {}
            written => return written,
        }
        thread::sleep(rt, Duration::from_millis(REST_MILLIS));
    }
    file.write(bytes)
}

impl Write for ErrorOut {
    fn write(&mut self, bytes: &[u8]) -> io::Result<usize> {
        match &mut self.apart {
            Some(file) => write_soon(&self.host, file, bytes),
            None => self.host.stderr().write(bytes),
        }
    }

    fn flush(&mut self) -> io::Result<()> {
        self.host.stderr().flush()
    }
}
