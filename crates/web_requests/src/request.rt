//! What a request is answered by.
ghost use Rattle.std.specs.Prelude.{◌≡◌, ◌++◌, All, length, option_map, take};
ghost use Rattle.httparse.specs.Spans.{IsHeaderWithin, IsRequestWithin, span_bytes};
ghost use Rattle.websocket.specs.Headers.{eq_ignore_case, fields_of, header_value};
ghost use Rattle.web_requests.specs.Requests.{answer_to, is_at, is_from_here, is_joined, is_own_host, is_own_page, routed};

use httparse::spans::{HeaderSpan, RequestSpans};
use itoa::Buffer;

/// What a request is answered by.
#[derive(Clone, Copy, Debug, PartialEq, Eq)]
pub enum Answer {
    /// A connection: lines as messages from here on.
    Socket,
    /// The page.
    Page,
    /// Another host is asked, or a page of another site asks.
    Forbidden,
    /// Nothing is at that path.
    NotFound,
    /// The path is that of connections, and the request is no good handshake.
    NoUpgrade,
}

// Whether the texts are equal but for the case of letters.
fn is_alike(left: &[u8], right: &[u8]) -> bool
    ensures { result ≡ eq_ignore_case left.now right.now }
{
    left.eq_ignore_ascii_case(right)
}

// The value of the first field with that name.
fn value_of<'b>(head: &'b [u8], spans: &[HeaderSpan], name: &[u8]) -> Option<&'b [u8]>
    requires { All (IsHeaderWithin (length head.now)) spans.now }
    ensures { option_map (λ v. v.now) result
        ≡ header_value (fields_of head.now spans.now) name.now }
{
    for span in spans {
        if is_alike(span.name.of(head), name) {
            return Some(span.value.of(head));
        }
    }
    None
}

// Whether the text is these two, one behind the other.
fn is_joined(text: &[u8], front: &[u8], back: &[u8]) -> bool
    ensures { result ≡ is_joined text.now front.now back.now }
{
    match text.strip_prefix(front) {
        Some(rest) => rest == back,
        None => false,
    }
}

fn is_own_host(port: u16, host: &[u8]) -> bool
    ensures { result ≡ is_own_host port host.now }
{
    let mut buffer = Buffer::new();
    let digits = buffer.format(port).as_bytes();
    is_joined(host, b"127.0.0.1:", digits) || is_joined(host, b"localhost:", digits)
}

fn is_own_page(host: &[u8], origin: Option<&[u8]>) -> bool
    ensures { result ≡ is_own_page host.now (option_map (λ o. o.now) origin.entry) }
{
    match origin {
        Some(origin) => is_joined(origin, b"http://", host),
        None => true,
    }
}

// Whether a request is for this server, and a page of its own or no page asks.
fn is_from_here(port: u16, head: &[u8], spans: &[HeaderSpan]) -> bool
    requires { All (IsHeaderWithin (length head.now)) spans.now }
    ensures { result ≡ is_from_here port (fields_of head.now spans.now) }
{
    match value_of(head, spans, b"host") {
        Some(host) => is_own_host(port, host)
            && is_own_page(host, value_of(head, spans, b"origin")),
        None => false,
    }
}

// Whether the target is that path, with or without a query.
fn is_at(target: &[u8], path: &[u8]) -> bool
    ensures { result ≡ is_at target.now path.now }
{
    match target.strip_prefix(path) {
        Some([]) => true,
        Some([first, ..]) => *first == b'?',
        None => false,
    }
}

fn routed(method: &[u8], target: &[u8], is_handshake: bool) -> Answer
    ensures { result ≡ routed method.now target.now is_handshake }
{
    if is_at(target, b"/socket") {
        if is_handshake {
            Answer::Socket
        } else {
            Answer::NoUpgrade
        }
    } else if method == b"GET".as_slice() && (is_at(target, b"/") || is_at(target, b"/two")) {
        Answer::Page
    } else {
        Answer::NotFound
    }
}

/// What a request to the server of that port is answered by.
///
/// Memory: none. Cost: linear in the head.
pub fn answer_to(
    port: u16,
    head: &[u8],
    request: &RequestSpans,
    spans: &[HeaderSpan],
    is_handshake: bool,
) -> Answer
    requires { IsRequestWithin head.now spans.now request.now }
    ensures { result ≡ answer_to port (span_bytes head.now request.now.method)
        (span_bytes head.now request.now.path)
        (fields_of head.now (take request.now.headers spans.now)) is_handshake }
{
    if is_from_here(port, head, &spans[..request.headers]) {
        routed(request.method.of(head), request.path.of(head), is_handshake)
    } else {
        Answer::Forbidden
    }
}
