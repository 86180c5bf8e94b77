//! The head of a request as it comes, and what is sent for it.
ghost use Rattle.std.specs.Prelude.{◌≡◌, ◌≤◌, IfOk, IfSome, length, take, true};
ghost use Rattle.httparse.specs.Spans.{IsRequestWithin};
ghost use Rattle.websocket.specs.Headers.{fields_of};
ghost use Rattle.web_requests.specs.Requests.{is_from_here};
ghost use Rattle.web_edges.specs.Sending.{is_granted};

use httparse::Status;
use httparse::spans::{EMPTY_HEADER_SPAN, HeaderSpan, RequestSpans, parse_request};
use io_edges::Failed;
use std::alloc::Global;
use std::io::{Read, Write};
use std::net::OpenStream;
use std::time::Duration;
use tungstenite::{NoMask, Role, WebSocket, WebSocketConfig};
use web_requests::{Answer, answer_to};
use websocket::handshake::server::{check_request, write_response};

/// How many bytes one read of a head asks for.
const CHUNK: usize = 4_096;

/// How many reads a head has.
const READS: u32 = 16;

/// How many fields a head has at most.
const FIELDS: usize = 64;

/// How many seconds a read of a head waits: a browser opens connections ahead and says nothing on
/// them, and each would keep its lane from others.
const PATIENCE: u64 = 2;

/// The page may run its own script, speak to its own server and show itself in a frame; nothing of
/// another site, nor in a frame of one.
const PAGE_HEAD: &[u8] = b"HTTP/1.1 200 OK\r\ncontent-type: text/html; charset=utf-8\r\n\
    cache-control: no-store\r\nx-content-type-options: nosniff\r\nreferrer-policy: no-referrer\r\n\
    content-security-policy: default-src 'none'; script-src 'unsafe-inline'; \
    style-src 'unsafe-inline'; img-src data:; frame-src 'self'; frame-ancestors 'self'; \
    connect-src 'self' ws://127.0.0.1:* ws://localhost:*; base-uri 'none'; form-action 'none'\r\n\
    connection: close\r\n\r\n";

const BAD_REQUEST: &[u8] = b"HTTP/1.1 400 Bad Request\r\nconnection: close\r\n\
    content-type: text/plain\r\ncontent-length: 19\r\n\r\nThis is no request.";

const FORBIDDEN: &[u8] = b"HTTP/1.1 403 Forbidden\r\nconnection: close\r\n\
    content-type: text/plain\r\ncontent-length: 39\r\n\r\nThis server answers its own page alone.";

const NOT_FOUND: &[u8] = b"HTTP/1.1 404 Not Found\r\nconnection: close\r\n\
    content-type: text/plain\r\ncontent-length: 17\r\n\r\nNothing is there.";

const NO_UPGRADE: &[u8] = b"HTTP/1.1 426 Upgrade Required\r\nupgrade: websocket\r\n\
    sec-websocket-version: 13\r\nconnection: Upgrade, close\r\ncontent-length: 0\r\n\r\n";

/// What a request is sent.
#[derive(Drop)]
enum Sent {
    /// The bytes behind which the connection stands.
    Socket(Vec<u8>),
    Page,
    Refusal(&'static [u8]),
}

/// One end of a connection of a browser.
#[derive(Drop)]
pub(crate) enum End<T> {
    /// Its handshake is still to be made.
    Fresh(T),
    Open(WebSocket<T, NoMask>),
    /// The request was answered, and asked for no connection.
    Answered,
    Gone,
}

fn sent_for(
    alloc: Global,
    port: u16,
    head: &[u8],
    found: &RequestSpans,
    spans: &[HeaderSpan],
) -> Result<Sent, Failed>
    requires { IsRequestWithin head.now spans.now found.now }
    ensures { IfOk result (λ s. is_granted s ≡ true
        → is_from_here port (fields_of head.now (take found.now.headers spans.now)) ≡ true) }
{
    let key = check_request(head, found, spans).ok();
    match (answer_to(port, head, found, spans, key.is_some()), key) {
        (Answer::Socket, Some(key)) => {
            let mut bytes = Vec::new(alloc);
            match write_response(&key, &[], &mut bytes) {
                Ok(()) => Ok(Sent::Socket(bytes)),
                Err(_) => Err(Failed),
            }
        }
        (Answer::Page, _) => Ok(Sent::Page),
        (Answer::Forbidden, _) => Ok(Sent::Refusal(FORBIDDEN)),
        (Answer::NotFound, _) => Ok(Sent::Refusal(NOT_FOUND)),
        _ => Ok(Sent::Refusal(NO_UPGRADE)),
    }
}

// What is sent for the bytes, and how many of them are the head; `None` where more are to come.
fn heard(alloc: Global, port: u16, head: &[u8]) -> Result<Option<(Sent, usize)>, Failed>
    ensures { IfOk result (λ o. IfSome o (λ a. a.1 ≤ length head.now)) }
{
    let mut spans = [EMPTY_HEADER_SPAN; FIELDS];
    match parse_request(head, &mut spans) {
        Ok(Status::Complete(found)) => {
            Ok(Some((sent_for(alloc, port, head, &found, &spans)?, found.len)))
        }
        Ok(Status::Partial) => Ok(None),
        Err(_) => Ok(Some((Sent::Refusal(BAD_REQUEST), head.len()))),
    }
}

fn add(bytes: &mut Vec<u8>, more: &[u8]) -> Result<(), Failed> {
    match bytes.extend_from_slice(more) {
        Ok(()) => Ok(()),
        Err(_) => Err(Failed),
    }
}

// Reads more of a head.
fn read_more<T: Read>(stream: &mut T, head: &mut Vec<u8>) -> Result<(), Failed> {
    let mut chunk = [0u8; CHUNK];
    match stream.read(&mut chunk).ok() {
        Some(count) if count > 0 => add(head, &chunk[..count]),
        _ => Err(Failed),
    }
}

// Reads a head, and gives what is sent for it. What is left in the list came behind the head.
fn read_head<T: Read>(
    alloc: Global,
    port: u16,
    stream: &mut T,
    head: &mut Vec<u8>,
) -> Result<Sent, Failed> {
    for _ in 0..READS {
        read_more(stream, head)?;
        if let Some((sent, len)) = heard(alloc, port, head)? {
            head.drain(..len);
            return Ok(sent);
        }
    }
    // A head that has not ended by now is refused like one that is no head.
    head.clear();
    Ok(Sent::Refusal(BAD_REQUEST))
}

fn send<T: Write>(stream: &mut T, bytes: &[u8]) -> Result<(), Failed> {
    match stream.write_all(bytes) {
        Ok(()) => match stream.flush() {
            Ok(()) => Ok(()),
            Err(_) => Err(Failed),
        },
        Err(_) => Err(Failed),
    }
}

fn send_page<T: Write>(alloc: Global, stream: &mut T, page: &[u8]) -> Result<(), Failed> {
    let mut bytes = Vec::new(alloc);
    add(&mut bytes, PAGE_HEAD)?;
    add(&mut bytes, page)?;
    send(stream, &bytes)
}

// Sends it. Whether a connection stands behind it.
fn send_answer<T: Write>(
    alloc: Global,
    stream: &mut T,
    sent: &Sent,
    page: &[u8],
) -> Result<bool, Failed> {
    match sent {
        Sent::Socket(bytes) => send(stream, bytes)?,
        Sent::Page => send_page(alloc, stream, page)?,
        Sent::Refusal(bytes) => send(stream, bytes)?,
    }
    Ok(matches!(sent, Sent::Socket(_)))
}

// How long a read waits; with none it waits until something comes.
fn set_patience<T: OpenStream>(stream: &T, most: Option<Duration>) -> Result<(), Failed> {
    match stream.set_read_timeout(most) {
        Ok(()) => Ok(()),
        Err(_) => Err(Failed),
    }
}

// Hears a request and answers it. Whether a connection stands then; what is in the list came
// behind the head.
fn answer<T: Read + Write + OpenStream>(
    alloc: Global,
    port: u16,
    stream: &mut T,
    page: &[u8],
    head: &mut Vec<u8>,
) -> Result<bool, Failed> {
    set_patience(stream, Some(Duration::from_secs(PATIENCE)))?;
    let sent = read_head(alloc, port, stream, head)?;
    let stands = send_answer(alloc, stream, &sent, page);
    drop(sent);
    let stands = stands?;
    if stands {
        set_patience(stream, None)?;
    }
    Ok(stands)
}

/// The end where its handshake was made: a request is heard and answered by a connection, by the
/// page, or by a refusal. It is gone where the stream fails or ends, a read of the head takes too
/// long, or memory is wanting.
pub(crate) fn opened<T: Read + Write + OpenStream + Drop>(
    alloc: Global,
    port: u16,
    end: End<T>,
    page: &[u8],
    config: WebSocketConfig,
) -> End<T> {
    let mut stream = match end {
        End::Fresh(stream) => stream,
        other => return other,
    };
    let mut tail = Vec::new(alloc);
    let stands = answer(alloc, port, &mut stream, page, &mut tail);
    if let Ok(true) = stands {
        let (role, config) = (Role::Server, Some(config));
        let socket = WebSocket::from_partially_read(alloc, stream, NoMask, tail, role, config);
        return End::Open(socket);
    }
    drop(tail);
    drop(stream);
    match stands {
        Ok(_) => End::Answered,
        Err(_) => End::Gone,
    }
}
