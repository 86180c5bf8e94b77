//! The trusted edge: one end of a connection of a browser, with counts of faults.
ghost use Rattle.std.specs.Prelude.{None, refl};

use crate::handshake::{End, opened};
use bytes::{ByteStr, Bytes};
use io_edges::{Failed, Link, Sink, Source};
use memchr::memchr;
use std::alloc::Global;
use std::io::{Read, Write};
use std::mem;
use std::net::OpenStream;
use tungstenite::{CloseCode, CloseFrame, Error, Message, NoMask, WebSocket, WebSocketConfig};

/// The largest message: one byte more than the longest line has, so that the line of such a
/// message is told as too long.
const MOST: usize = 1_048_577;

/// How many messages without a line are passed over, pings for one, until one with a line comes.
const PASSED: u32 = 1 << 31;

/// What a read of a connection gave.
#[derive(Drop)]
enum Arrival {
    Line(Bytes),
    /// A message without a line.
    Nothing,
    /// The browser closed the connection.
    End,
    /// What is no line; the connection ends, and the browser is told why.
    Refused(CloseCode),
    Fault,
}

/// A link over a WebSocket on a stream of std: a text message that comes is a line, and a line that
/// goes out is a text message. It tells no bytes. The handshake is made at the first read.
///
/// Memory: three times the longest message that comes, three times the longest line that goes out,
/// and 128 KiB.
#[derive(Drop)]
pub struct WebSocketLink<T> {
    alloc: Global,
    port: u16,
    page: &'static [u8],
    end: End<T>,
    // What is left of the message that came last, and whether its newline is left too.
    ahead: Bytes,
    newline: bool,
    // The front of a line that goes out.
    line: Vec<u8>,
    read_faults: u64,
    write_faults: u64,
}

fn arrival_of_error(error: &Error) -> Arrival {
    match error {
        Error::ConnectionClosed => Arrival::End,
        Error::Utf8 => Arrival::Refused(CloseCode::Invalid),
        Error::Capacity(_) => Arrival::Refused(CloseCode::Size),
        Error::Protocol(_) => Arrival::Refused(CloseCode::Protocol),
        _ => Arrival::Fault,
    }
}

// Of a message that is no text.
fn arrival_of_message(message: &Message) -> Arrival {
    match message {
        Message::Binary(_) => Arrival::Refused(CloseCode::Unsupported),
        _ => Arrival::Nothing,
    }
}

// Errors and messages have many forms, and are dropped by calls: where one is dropped in place its
// forms are proved there once more.
fn arrival_of(read: Result<Message, Error>) -> Arrival {
    match read {
        Ok(Message::Text(text)) => Arrival::Line(text.into_bytes()),
        Ok(message) => {
            let arrival = arrival_of_message(&message);
            drop(message);
            arrival
        }
        Err(error) => {
            let arrival = arrival_of_error(&error);
            drop(error);
            arrival
        }
    }
}

// Whether it was done. All faults are alike here.
fn is_done(done: Result<(), Error>) -> bool {
    match done {
        Ok(()) => true,
        Err(error) => {
            drop(error);
            false
        }
    }
}

// Tells the browser why the connection ends, as far as it still listens.
fn refused<T: Read + Write + Drop>(socket: &mut WebSocket<T, NoMask>, code: CloseCode) -> Failed {
    let reason = ByteStr::new();
    let _ = is_done(socket.close(Some(CloseFrame { code, reason })));
    Failed
}

// The next message that is a line. `None` is the end.
fn next_line<T: Read + Write + Drop>(
    socket: &mut WebSocket<T, NoMask>,
) -> Result<Option<Bytes>, Failed> {
    for _ in 0..PASSED {
        match arrival_of(socket.read()) {
            Arrival::Line(line) => return Ok(Some(line)),
            Arrival::Nothing => {}
            Arrival::End => return Ok(None),
            Arrival::Refused(code) => return Err(refused(socket, code)),
            Arrival::Fault => return Err(Failed),
        }
    }
    Err(Failed)
}

// The line as a message.
fn message_of(line: Vec<u8>) -> Result<Message, Failed> {
    let Ok(bytes) = Bytes::from_vec(line) else {
        return Err(Failed);
    };
    match ByteStr::from_utf8(bytes) {
        Ok(text) => Ok(Message::Text(text)),
        Err(_) => Err(Failed),
    }
}

fn config() -> WebSocketConfig {
    WebSocketConfig::default()
        .read_buffer_size(16_384)
        .max_message_size(Some(MOST))
        .max_frame_size(Some(MOST))
}

impl<T: Read + Write + OpenStream + Drop> WebSocketLink<T> {
    ghost use Rattle.std.specs.Prelude.{◌≡◌, ◌<◌, ◌≤◌, length, IfOk};

    /// One end of the connection of that stream, whose handshake is still to be made, at the server
    /// of that port and page.
    pub fn new(alloc: Global, port: u16, page: &'static [u8], stream: T) -> Self
        ensures read { result.read_faults ≡ 0 }
        ensures write { result.write_faults ≡ 0 }
    {
        WebSocketLink {
            alloc,
            port,
            page,
            end: End::Fresh(stream),
            ahead: Bytes::new(),
            newline: false,
            line: Vec::new(alloc),
            read_faults: 0,
            write_faults: 0,
        }
    }

    // Makes the handshake, where it was not made yet.
    fn open(&mut self)
        ensures read { self.new.read_faults ≡ self.old.read_faults }
        ensures write { self.new.write_faults ≡ self.old.write_faults }
    {
        let end = mem::replace(&mut self.end, End::Gone);
        let end = opened(self.alloc, self.port, end, self.page, config());
        drop(mem::replace(&mut self.end, end));
    }

    // Takes the next message that is a line. `false` is the end.
    fn take_message(&mut self) -> Result<bool, Failed>
        ensures read { self.new.read_faults ≡ self.old.read_faults }
        ensures write { self.new.write_faults ≡ self.old.write_faults }
    {
        self.open();
        let line = match &mut self.end {
            End::Open(socket) => next_line(socket)?,
            End::Answered => return Ok(false),
            _ => return Err(Failed),
        };
        let Some(line) = line else {
            return Ok(false);
        };
        drop(mem::replace(&mut self.ahead, line));
        self.newline = true;
        Ok(true)
    }

    // Hands out what is left of a message, and then its newline.
    fn hand_out(&mut self, buf: &mut [u8]) -> usize
        ensures bound { result ≤ length buf.new }
        ensures read { self.new.read_faults ≡ self.old.read_faults }
        ensures write { self.new.write_faults ≡ self.old.write_faults }
    {
        let count = self.ahead.len().min(buf.len());
        buf[..count].copy_from_slice(&self.ahead.as_slice()[..count]);
        self.ahead.advance(count);
        if count == buf.len() || !self.newline {
            return count;
        }
        buf[count] = b'\n';
        self.newline = false;
        count + 1
    }

    // Sends the line that was gathered as a message.
    fn send_line(&mut self) -> Result<(), Failed>
        ensures read { self.new.read_faults ≡ self.old.read_faults }
        ensures write { self.new.write_faults ≡ self.old.write_faults }
    {
        let message = message_of(mem::replace(&mut self.line, Vec::new(self.alloc)))?;
        let done = match &mut self.end {
            End::Open(socket) => is_done(socket.write(message)),
            _ => {
                drop(message);
                false
            }
        };
        if done { Ok(()) } else { Err(Failed) }
    }

    // Takes bytes up to a newline, and sends the line where that was there.
    fn gather(&mut self, piece: &[u8]) -> Result<usize, Failed>
        ensures bound { IfOk result (λ n. n ≤ length piece.now) }
        ensures some { 0 < length piece.now → IfOk result (λ n. 0 < n) }
        ensures read { self.new.read_faults ≡ self.old.read_faults }
        ensures write { self.new.write_faults ≡ self.old.write_faults }
    {
        let Some(len) = memchr(b'\n', piece) else {
            return match self.line.extend_from_slice(piece) {
                Ok(()) => Ok(piece.len()),
                Err(_) => Err(Failed),
            };
        };
        if self.line.extend_from_slice(&piece[..len]).is_err() {
            return Err(Failed);
        }
        self.send_line()?;
        Ok(len + 1)
    }
}

impl<T: Read + Write + OpenStream + Drop> Source for WebSocketLink<T> {
    ghost left = { λ _. None };

    ghost outgoing = { λ l. record { written = None; faults = l.write_faults } };

    ghost faults = { λ l. l.read_faults };

    fn read(&mut self, buf: &mut [u8]) -> Result<usize, Failed> {
        if self.ahead.is_empty() && !self.newline {
            match self.take_message() {
                Ok(true) => {}
                Ok(false) => return Ok(0),
                Err(_) => {
                    self.read_faults = self.read_faults.saturating_add(1);
                    return Err(Failed);
                }
            }
        }
        Ok(self.hand_out(buf))
    }
}

impl<T: Read + Write + OpenStream + Drop> Sink for WebSocketLink<T> {
    ghost written = { λ _. None };

    ghost incoming = { λ l. record { left = None; faults = l.read_faults } };

    ghost faults = { λ l. l.write_faults };

    fn write(&mut self, piece: &[u8]) -> Result<usize, Failed> {
        match self.gather(piece) {
            Ok(count) => Ok(count),
            Err(_) => {
                self.write_faults = self.write_faults.saturating_add(1);
                Err(Failed)
            }
        }
    }

    fn flush(&mut self) -> Result<(), Failed> {
        let flushed = match &mut self.end {
            End::Open(socket) => is_done(socket.flush()),
            _ => true,
        };
        if flushed {
            return Ok(());
        }
        self.write_faults = self.write_faults.saturating_add(1);
        Err(Failed)
    }
}

impl<T: Read + Write + OpenStream + Drop> Link for WebSocketLink<T> {
    ghost goes_out = { λ _. refl };

    ghost comes_in = { λ _. refl };
}
