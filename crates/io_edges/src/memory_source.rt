//! Sources over bytes in memory: one that fails at listed calls, and one that never fails.
ghost use Rattle.std.specs.Prelude.{◌≡◌, [], ◌++◌, ◌<◌, ◌≤◌, length, take, drop, Some, vec_len};
ghost use Rattle.io_edges.specs.Sides.{nothing_out};

use crate::listed_calls::ListedCalls;
use crate::{Failed, Source};

// Moves as many bytes as both have from the place `at` on, and the place behind them.
fn take_front(bytes: &[u8], at: &mut usize, buf: &mut [u8]) -> usize
    requires { at.old ≤ length bytes.now }
    ensures place { at.new ≤ length bytes.now }
    ensures bound { result ≤ length buf.new }
    ensures bytes { drop at.old bytes.now ≡ take result buf.new ++ drop at.new bytes.now }
    ensures end { result ≡ 0 → 0 < length buf.new → drop at.new bytes.now ≡ [] }
{
    let from = &bytes[*at..];
    let count = from.len().min(buf.len());
    buf[..count].copy_from_slice(&from[..count]);
    *at += count;
    count
}

/// A source over bytes in memory that fails at the listed calls.
#[derive(Drop)]
pub struct MemSource {
    bytes: Vec<u8>,
    at: usize,
    calls: ListedCalls,
    faults: u64,
    ghost within: { at ≤ vec_len bytes },
}

impl MemSource {
    ghost use Rattle.io_edges.specs.Memory.{left_of, read_faults, read_calls, failing_reads};

    /// Gives these bytes, and fails at the calls whose numbers are listed.
    ///
    /// Units: calls are numbered from 0.
    pub fn new(bytes: Vec<u8>, failing: Vec<u64>) -> Self
        ensures left { left_of result ≡ bytes.items }
        ensures faults { read_faults result ≡ 0 }
        ensures calls { read_calls result ≡ 0 }
        ensures failing { failing_reads result ≡ failing.items }
    {
        MemSource {
            bytes,
            at: 0,
            calls: ListedCalls::new(failing),
            faults: 0,
        }
    }
}

impl Source for MemSource {
    ghost use Rattle.std.specs.Prelude.{◌≡◌, ◌↔◌, ◌+◌, ◌-◌, ◌^◌, min, drop, Some, IsErr, Contains};
    ghost use Rattle.std.specs.Io.{ReadsAtMost};
    ghost use Rattle.std.specs.Io.KnownBytes.{ReadConsumes};
    ghost use Rattle.io_edges.specs.Causes.{HasCause};
    ghost use Rattle.io_edges.specs.Memory.{left_of, read_faults, read_calls, failing_reads};

    ghost left = { λ s. Some (drop s.at s.bytes.items) };

    ghost outgoing = { λ _. nothing_out };

    ghost faults = { λ s. s.faults };

    fn read(&mut self, buf: &mut [u8]) -> Result<usize, Failed>
        ensures bound { ReadsAtMost result buf.new }
        ensures bytes { ReadConsumes (Some (left_of self.old))
            (Some (left_of self.new)) result buf.new }
        ensures cause { HasCause (read_faults self.old) (read_faults self.new) result }
        ensures listed { IsErr result ↔ Contains (failing_reads self.old) (read_calls self.old) }
        ensures failing { failing_reads self.new ≡ failing_reads self.old }
        ensures calls { read_calls self.new ≡ min (read_calls self.old + 1) (2 ^ 64 - 1) }
    {
        if self.calls.is_next_failing() {
            self.faults = self.faults.saturating_add(1);
            return Err(Failed);
        }
        Ok(take_front(&self.bytes, &mut self.at, buf))
    }
}

/// A source over bytes in memory that never fails.
#[derive(Drop)]
pub struct SureSource {
    bytes: Vec<u8>,
    at: usize,
    ghost within: { at ≤ vec_len bytes },
}

impl SureSource {
    ghost use Rattle.io_edges.specs.Memory.{sure_left_of};

    /// Gives these bytes.
    pub fn new(bytes: Vec<u8>) -> Self
        ensures { sure_left_of result ≡ bytes.items }
    {
        SureSource { bytes, at: 0 }
    }
}

impl Source for SureSource {
    ghost left = { λ s. Some (drop s.at s.bytes.items) };

    ghost outgoing = { λ _. nothing_out };

    ghost faults = { λ _. 0 };

    fn read(&mut self, buf: &mut [u8]) -> Result<usize, Failed> {
        Ok(take_front(&self.bytes, &mut self.at, buf))
    }
}
