//! The trusted edge: the connections of browsers that a listener accepts, with counts.
ghost use Rattle.std.specs.Prelude.{None};

use crate::WebSocketLink;
use io_edges::{Failed, Port, SessionEnd, next_stream};
use std::alloc::Global;
use std::io::{Read, Write};
use std::marker::Send;
use std::net::{OpenListener, OpenStream};
use std::time::Clock;

/// Hands out the connections that a listener accepts, up to a number. It tells none of them.
/// Without a listener, which is how one that could not be bound is handed in, `next` fails.
/// What passes while it accepts, as that too many files are open, is counted and does not fail it.
#[derive(Drop)]
pub struct WebSocketPort<L: OpenListener, C: Clock> {
    alloc: Global,
    clock: C,
    port: u16,
    page: &'static [u8],
    listener: Option<L>,
    most: u32,
    handed: u32,
    lent: bool,
    ended: bool,
    faults: u64,
}

impl<L: OpenListener, C: Clock> WebSocketPort<L, C> {
    ghost use Rattle.std.specs.Prelude.{◌≡◌, false};

    /// Hands out so many connections at most, of the server of that port and page, and rests by
    /// that clock.
    pub fn new(
        alloc: Global,
        clock: C,
        port: u16,
        page: &'static [u8],
        listener: Option<L>,
        most: u32,
    ) -> Self
        ensures handed { result.handed ≡ 0 }
        ensures lent { result.lent ≡ false }
        ensures ended { result.ended ≡ false }
        ensures faults { result.faults ≡ 0 }
    {
        WebSocketPort {
            alloc,
            clock,
            port,
            page,
            listener,
            most,
            handed: 0,
            lent: false,
            ended: false,
            faults: 0,
        }
    }
}

impl<L: OpenListener + Drop, C: Clock + Drop> Port for WebSocketPort<L, C>
where
    L::Stream: Read + Write + OpenStream + Drop + Send,
{
    type Conn = WebSocketLink<L::Stream>;

    ghost state = { λ p. record {
      handed = p.handed;
      lent = p.lent;
      ended = p.ended;
      faults = p.faults;
      left = None;
      back = None;
    } };

    fn next(&mut self) -> Result<Option<WebSocketLink<L::Stream>>, Failed> {
        self.ended = self.handed >= self.most;
        if self.ended {
            return Ok(None);
        }
        let accepted = match &self.listener {
            Some(listener) => next_stream(listener, &self.clock, &mut self.faults),
            None => None,
        };
        let Some(stream) = accepted else {
            self.faults = self.faults.saturating_add(1);
            return Err(Failed);
        };
        self.handed += 1;
        self.lent = true;
        Ok(Some(WebSocketLink::new(self.alloc, self.port, self.page, stream)))
    }

    fn done(&mut self, conn: WebSocketLink<L::Stream>, _end: SessionEnd) {
        drop(conn);
        self.lent = false;
    }
}
