//! The trusted edge: the connections that a listener accepts, with counts.
ghost use Rattle.std.specs.Prelude.{None};

use crate::accepting::next_stream;
use crate::{Failed, Port, SessionEnd, TcpLink};
use std::io::{Read, Write};
use std::marker::Send;
use std::net::{OpenListener, OpenStream};
use std::time::Clock;

/// Hands out the connections that a listener accepts, up to a number. It tells none of them.
/// Without a listener, which is how one that could not be bound is handed in, `next` fails.
/// What passes while it accepts, as that too many files are open, is counted and does not fail it.
#[derive(Drop)]
pub struct TcpPort<L: OpenListener, C: Clock> {
    clock: C,
    listener: Option<L>,
    most: u32,
    handed: u32,
    lent: bool,
    ended: bool,
    faults: u64,
}

impl<L: OpenListener, C: Clock> TcpPort<L, C> {
    ghost use Rattle.std.specs.Prelude.{◌≡◌, false};

    /// Hands out so many connections at most, and rests by that clock.
    pub fn new(clock: C, listener: Option<L>, most: u32) -> Self
        ensures handed { result.handed ≡ 0 }
        ensures lent { result.lent ≡ false }
        ensures ended { result.ended ≡ false }
        ensures faults { result.faults ≡ 0 }
    {
        TcpPort {
            clock,
            listener,
            most,
            handed: 0,
            lent: false,
            ended: false,
            faults: 0,
        }
    }
}

impl<L: OpenListener + Drop, C: Clock + Drop> Port for TcpPort<L, C>
where
    L::Stream: Read + Write + OpenStream + Drop + Send,
{
    type Conn = TcpLink<L::Stream>;

    ghost state = { λ p. record {
      handed = p.handed;
      lent = p.lent;
      ended = p.ended;
      faults = p.faults;
      left = None;
      back = None;
    } };

    fn next(&mut self) -> Result<Option<TcpLink<L::Stream>>, Failed> {
        self.ended = self.handed >= self.most;
        if self.ended {
            return Ok(None);
        }
        let accepted = match &self.listener {
            Some(listener) => next_stream(listener, &self.clock, &mut self.faults),
            None => None,
        };
        let Some(stream) = accepted else {
            self.faults = self.faults.saturating_add(1);
            return Err(Failed);
        };
        self.handed += 1;
        self.lent = true;
        if self.handed >= self.most {
            // Nobody is to wait behind the last one: the system refuses them from now on.
            self.listener = None;
        }
        Ok(Some(TcpLink::new(stream)))
    }

    fn done(&mut self, conn: TcpLink<L::Stream>, _end: SessionEnd) {
        conn.end();
        self.lent = false;
    }
}
