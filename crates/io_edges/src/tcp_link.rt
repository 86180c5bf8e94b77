//! The trusted edge: one end of a connection of the network, with counts of faults.
ghost use Rattle.std.specs.Prelude.{None, refl};

use crate::{Failed, Link, Sink, Source};
use std::io::{Read, Write};
use std::net::{OpenStream, Shutdown};
use std::time::Duration;

/// How long a write may stand still before it is a fault.
const MAX_WRITE_SECONDS: u64 = 60;

/// How long what a client still sends is waited for once its session is over, each time.
const LAST_READ_MILLIS: u64 = 200;

/// How often it is, each time for up to 4,096 bytes.
const MAX_LAST_READS: u32 = 512;

/// A link over a stream of std. It tells no bytes. A write that takes nothing is a fault, and so is
/// one that makes no progress for a minute: a client that reads nothing does not keep its lane.
/// What is written is sent at once.
#[derive(Drop)]
pub struct TcpLink<T: Read> {
    stream: T,
    read_faults: u64,
    write_faults: u64,
}

impl<T: Read + OpenStream> TcpLink<T> {
    ghost use Rattle.std.specs.Prelude.{◌≡◌};

    /// One end of the connection of that stream. A stream that can't be set up so serves as it is.
    pub fn new(stream: T) -> Self
        ensures read { result.read_faults ≡ 0 }
        ensures write { result.write_faults ≡ 0 }
    {
        let _ = stream.set_nodelay(true);
        let _ = stream.set_write_timeout(Some(Duration::from_secs(MAX_WRITE_SECONDS)));
        TcpLink {
            stream,
            read_faults: 0,
            write_faults: 0,
        }
    }
}

impl<T: Read + OpenStream + Drop> TcpLink<T> {
    /// Ends the connection: tells the client that nothing more comes, and reads away what it still
    /// sends. A connection that is dropped with bytes unread is reset, and then the client may lose
    /// lines that were written to it.
    pub(crate) fn end(self) {
        let mut stream = self.stream;
        let _ = stream.shutdown(Shutdown::Write);
        let _ = stream.set_read_timeout(Some(Duration::from_millis(LAST_READ_MILLIS)));
        let mut away = [0; 4096];
        for _ in 0..MAX_LAST_READS {
            match stream.read(&mut away) {
                Ok(count) if count > 0 => {}
                _ => return,
            }
        }
    }
}

impl<T: Read + Write + Drop> Source for TcpLink<T> {
    ghost left = { λ _. None };

    ghost outgoing = { λ l. record { written = None; faults = l.write_faults } };

    ghost faults = { λ l. l.read_faults };

    fn read(&mut self, buf: &mut [u8]) -> Result<usize, Failed> {
        match self.stream.read(buf) {
            Ok(count) => Ok(count),
            Err(_) => {
                self.read_faults = self.read_faults.saturating_add(1);
                Err(Failed)
            }
        }
    }
}

impl<T: Read + Write + Drop> Sink for TcpLink<T> {
    ghost written = { λ _. None };

    ghost incoming = { λ l. record { left = None; faults = l.read_faults } };

    ghost faults = { λ l. l.write_faults };

    fn write(&mut self, piece: &[u8]) -> Result<usize, Failed> {
        match self.stream.write(piece) {
            Ok(count) if count > 0 || piece.is_empty() => Ok(count),
            _ => {
                self.write_faults = self.write_faults.saturating_add(1);
                Err(Failed)
            }
        }
    }

    fn flush(&mut self) -> Result<(), Failed> {
        match self.stream.flush() {
            Ok(()) => Ok(()),
            Err(_) => {
                self.write_faults = self.write_faults.saturating_add(1);
                Err(Failed)
            }
        }
    }
}

impl<T: Read + Write + Drop> Link for TcpLink<T> {
    ghost goes_out = { λ _. refl };

    ghost comes_in = { λ _. refl };
}
