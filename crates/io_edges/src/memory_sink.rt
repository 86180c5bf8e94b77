//! Sinks in memory: one that fails at listed calls and where it has no room, and one that never
//! fails.
ghost use Rattle.std.specs.Prelude.{◌≡◌, ◌≤◌, [], Some, None, vec_len, vec_capacity};
ghost use Rattle.io_edges.specs.Sides.{nothing_in};

use crate::listed_calls::ListedCalls;
use crate::{Failed, Sink};
use std::alloc::{AllocError, Global};

/// A sink in memory that fails at the listed calls, and where it has no room.
#[derive(Drop)]
pub struct MemSink {
    bytes: Vec<u8>,
    room: usize,
    calls: ListedCalls,
    faults: u64,
    ghost within: { vec_len bytes ≤ room },
    ghost reserved: { room ≤ vec_capacity bytes },
}

impl MemSink {
    ghost use Rattle.std.specs.Prelude.{◌≡◌, [], IfOk};
    ghost use Rattle.io_edges.specs.Memory.{written_of, write_faults, write_calls, failing_writes, room_of};

    /// Holds up to `room` bytes, and fails at the calls whose numbers are listed.
    ///
    /// Units: calls are numbered from 0, writes and flushes together.
    /// Memory: takes its room here, and none later.
    pub fn new(alloc: Global, room: usize, failing: Vec<u64>) -> Result<Self, AllocError>
        ensures empty { IfOk result (λ s. written_of s ≡ []) }
        ensures faults { IfOk result (λ s. write_faults s ≡ 0) }
        ensures calls { IfOk result (λ s. write_calls s ≡ 0) }
        ensures failing { IfOk result (λ s. failing_writes s ≡ failing.items) }
        ensures room { IfOk result (λ s. room_of s ≡ room) }
    {
        Ok(MemSink {
            bytes: Vec::with_capacity(alloc, room)?,
            room,
            calls: ListedCalls::new(failing),
            faults: 0,
        })
    }

    /// What was written.
    pub fn bytes(&self) -> &[u8]
        ensures { result.now ≡ written_of self.now }
    {
        &self.bytes
    }
}

impl Sink for MemSink {
    ghost use Rattle.std.specs.Prelude.{◌≡◌, ◌↔◌, ◌<◌, ◌≤◌, ◌+◌, ◌-◌, ◌^◌, min, length, Some, IsErr, IfOk, Contains};
    ghost use Rattle.std.specs.Io.{WritesAtMost};
    ghost use Rattle.std.specs.Io.KnownBytes.{WriteAppends, Keeps};
    ghost use Rattle.io_edges.specs.Causes.{HasCause};
    ghost use Rattle.io_edges.specs.Memory.{written_of, write_faults, write_calls, failing_writes, room_of, space_of, RefusesPiece};

    ghost written = { λ s. Some s.bytes.items };

    ghost incoming = { λ _. nothing_in };

    ghost faults = { λ s. s.faults };

    fn write(&mut self, piece: &[u8]) -> Result<usize, Failed>
        ensures bound { WritesAtMost result piece.now }
        ensures some { 0 < length piece.now → IfOk result (λ n. 0 < n) }
        ensures bytes { WriteAppends (Some (written_of self.old))
            (Some (written_of self.new)) result piece.now }
        ensures cause { HasCause (write_faults self.old) (write_faults self.new) result }

        // It fails exactly where its call is listed or there is no room, and takes all there is
        // room for.
        ensures refused { IsErr result ↔ RefusesPiece self.old piece.now }
        ensures count { IfOk result (λ n. n ≡ min (space_of self.old) (length piece.now)) }
        ensures held { length (written_of self.old) ≤ room_of self.old
            → length (written_of self.new) ≤ room_of self.new }
        ensures failing { failing_writes self.new ≡ failing_writes self.old }
        ensures room { room_of self.new ≡ room_of self.old }
        ensures calls { write_calls self.new ≡ min (write_calls self.old + 1) (2 ^ 64 - 1) }
    {
        let listed = self.calls.is_next_failing();
        let count = piece.len().min(self.room - self.bytes.len());
        let full = count == 0 && !piece.is_empty();
        if listed || full || self.bytes.extend_from_slice(&piece[..count]).is_err() {
            self.faults = self.faults.saturating_add(1);
            return Err(Failed);
        }
        Ok(count)
    }

    fn flush(&mut self) -> Result<(), Failed>
        ensures bytes { Keeps (Some (written_of self.old)) (Some (written_of self.new)) }
        ensures cause { HasCause (write_faults self.old) (write_faults self.new) result }
        ensures listed { IsErr result ↔ Contains (failing_writes self.old) (write_calls self.old) }
        ensures failing { failing_writes self.new ≡ failing_writes self.old }
        ensures room { room_of self.new ≡ room_of self.old }
        ensures calls { write_calls self.new ≡ min (write_calls self.old + 1) (2 ^ 64 - 1) }
    {
        if self.calls.is_next_failing() {
            self.faults = self.faults.saturating_add(1);
            return Err(Failed);
        }
        Ok(())
    }
}

/// A sink that never fails, keeps nothing of what it is given and tells none of it.
#[derive(Drop)]
pub struct SureSink;

impl Sink for SureSink {
    ghost written = { λ _. None };

    ghost incoming = { λ _. nothing_in };

    ghost faults = { λ _. 0 };

    fn write(&mut self, piece: &[u8]) -> Result<usize, Failed> {
        Ok(piece.len())
    }

    fn flush(&mut self) -> Result<(), Failed> {
        Ok(())
    }
}
