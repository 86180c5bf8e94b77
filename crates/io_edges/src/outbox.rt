//! A buffer in front of a sink.
use crate::writing::write_all;
use crate::{Failed, Sink};
use std::alloc::{AllocError, Global};
use std::marker::Model;

/// How many bytes an outbox gathers before it writes.
const ROOM: usize = 65536;

/// Bytes that wait to be written, in order. It is seen as those bytes.
#[derive(Drop)]
pub struct Outbox {
    waiting: Vec<u8>,
}

impl Model for Outbox {
    ghost use Rattle.std.specs.Prelude.{List, ℕ};

    ghost Value = { List ℕ };

    ghost view = { λ o. o.waiting.items };
}

impl Outbox {
    ghost use Rattle.std.specs.Prelude.{◌≡◌, ◌++◌, ◌≤◌, [], IfOk, OnOk, OnErr, if◌then◌else◌};
    ghost use Rattle.std.specs.Io.KnownBytes.{Appends};
    ghost use Rattle.io_edges.specs.Causes.{Rose};
    ghost use Rattle.io_edges.specs.Sending.{Sends, SendsFront};

    /// An outbox in which nothing waits.
    ///
    /// Memory: takes its room here, and none later.
    pub fn new(alloc: Global) -> Result<Self, AllocError>
        ensures { IfOk result (λ o. o ≡ []) }
    {
        Ok(Outbox {
            waiting: Vec::with_capacity(alloc, ROOM)?,
        })
    }

    /// Adds bytes behind those that wait, and writes all where they find no room.
    ///
    /// Errors: `Failed`, where a write failed. A front of what waited and was added is then
    /// written,
    /// and the rest is forgotten.
    pub fn put<O: Sink>(&mut self, out: &mut O, bytes: &[u8]) -> Result<(), Failed>
        ensures ok { OnOk result
            (Sends (self.old ++ bytes.now) self.new (O.written out.old) (O.written out.new)) }
        ensures err { OnErr result
            (SendsFront (self.old ++ bytes.now) (O.written out.old) (O.written out.new)) }
        ensures lost { OnErr result (self.new ≡ []) }
        ensures apart { O.incoming out.new ≡ O.incoming out.old }
        ensures later { O.faults out.old ≤ O.faults out.new }
        ensures cause { OnErr result (Rose (O.faults out.old) (O.faults out.new)) }
    {
        if self.keeps(bytes) {
            return Ok(());
        }
        self.send(out)?;
        write_all(out, bytes)
    }

    /// Writes all that waits, and flushes the sink.
    ///
    /// Errors: `Failed`, where a write or the flush failed. A front of what waited is then written,
    /// and the rest is forgotten.
    pub fn flush<O: Sink>(&mut self, out: &mut O) -> Result<(), Failed>
        ensures ok { OnOk result (Appends (O.written out.old) (O.written out.new) self.old) }
        ensures err { OnErr result (SendsFront self.old (O.written out.old) (O.written out.new)) }
        ensures empty { self.new ≡ [] }
        ensures apart { O.incoming out.new ≡ O.incoming out.old }
        ensures later { O.faults out.old ≤ O.faults out.new }
        ensures cause { OnErr result (Rose (O.faults out.old) (O.faults out.new)) }
    {
        self.send(out)?;
        out.flush()
    }

    // Adds bytes where they fit into the room that was taken.
    fn keeps(&mut self, bytes: &[u8]) -> bool
        ensures { self.new ≡ (if result then self.old ++ bytes.now else self.old) }
    {
        let fits = bytes.len() <= ROOM.saturating_sub(self.waiting.len());
        fits && self.waiting.extend_from_slice(bytes).is_ok()
    }

    // Writes all that waits.
    fn send<O: Sink>(&mut self, out: &mut O) -> Result<(), Failed>
        ensures ok { OnOk result (Appends (O.written out.old) (O.written out.new) self.old) }
        ensures err { OnErr result (SendsFront self.old (O.written out.old) (O.written out.new)) }
        ensures empty { self.new ≡ [] }
        ensures apart { O.incoming out.new ≡ O.incoming out.old }
        ensures later { O.faults out.old ≤ O.faults out.new }
        ensures cause { OnErr result (Rose (O.faults out.old) (O.faults out.new)) }
    {
        let sent = write_all(out, &self.waiting);
        self.waiting.clear();
        sent
    }
}
