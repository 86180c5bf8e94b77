//! Ports in memory, which fail at listed calls.
ghost use Rattle.std.specs.Prelude.{◌≡◌, ◌+◌, ◌≤◌, [], Some, cond, vec_capacity, vec_len};
ghost use Rattle.std.specs.VecDeque.{deque_len};
ghost use Rattle.io_edges.specs.Ports.{handed_bound};

use crate::listed_calls::ListedCalls;
use crate::{Failed, Link, Port, Returned, SessionEnd};
use std::alloc::{AllocError, Global};
use std::collections::VecDeque;
use std::marker::Send;

/// A port in memory: it hands out the connections that it was made with, in their order, keeps
/// those that come back, and fails at the listed calls.
#[derive(Drop)]
pub struct MemPort<L> {
    waiting: VecDeque<L>,
    back: Vec<Returned<L>>,
    handed: u32,
    lent: bool,
    ended: bool,
    calls: ListedCalls,
    faults: u64,
    ghost few: { handed + deque_len waiting ≤ handed_bound },
    ghost room: { vec_len back + cond lent 1 0 + deque_len waiting ≤ vec_capacity back },
}

impl<L: Drop> MemPort<L> {
    ghost use Rattle.std.specs.Prelude.{◌≡◌, ◌≤◌, [], IfOk, false, length};
    ghost use Rattle.io_edges.specs.Memory.{back_of, failing_nexts, handed_of, is_ended, is_lent, next_calls, next_faults, waiting_of};

    /// Hands out these connections, and fails at the calls whose numbers are listed.
    ///
    /// Units: calls of `next` are numbered from 0.
    /// Errors: out of memory, for the room of the connections that come back; none is taken later.
    pub fn new(alloc: Global, conns: VecDeque<L>, failing: Vec<u64>) -> Result<Self, AllocError>
        requires { length conns.items ≤ handed_bound }
        ensures waiting { IfOk result (λ p. waiting_of p ≡ conns.items) }
        ensures back { IfOk result (λ p. back_of p ≡ []) }
        ensures handed { IfOk result (λ p. handed_of p ≡ 0) }
        ensures lent { IfOk result (λ p. is_lent p ≡ false) }
        ensures ended { IfOk result (λ p. is_ended p ≡ false) }
        ensures faults { IfOk result (λ p. next_faults p ≡ 0) }
        ensures calls { IfOk result (λ p. next_calls p ≡ 0) }
        ensures failing { IfOk result (λ p. failing_nexts p ≡ failing.items) }
    {
        let back = Vec::with_capacity(alloc, conns.len())?;
        Ok(MemPort {
            waiting: conns,
            back,
            handed: 0,
            lent: false,
            ended: false,
            calls: ListedCalls::new(failing),
            faults: 0,
        })
    }

    /// The connections that came back, in that order.
    pub fn back(&self) -> &[Returned<L>]
        ensures { result.now ≡ back_of self.now }
    {
        &self.back
    }
}

impl<L: Link + Send> Port for MemPort<L> {
    ghost use Rattle.std.specs.Prelude.{◌≡◌, ◌↔◌, ◌+◌, ◌-◌, ◌^◌, min, Some, IsErr, Contains, false};
    ghost use Rattle.io_edges.specs.Causes.{HasCause};
    ghost use Rattle.io_edges.specs.Ports.{Gives};
    ghost use Rattle.io_edges.specs.Memory.{failing_nexts, is_lent, next_calls, next_faults, port_state};

    type Conn = L;

    ghost state = { λ p. port_state p };

    fn next(&mut self) -> Result<Option<L>, Failed>
        requires { is_lent self.old ≡ false }
        ensures gives { Gives (port_state self.old) (port_state self.new) result }
        ensures cause { HasCause (next_faults self.old) (next_faults self.new) result }
        ensures listed { IsErr result ↔ Contains (failing_nexts self.old) (next_calls self.old) }
        ensures failing { failing_nexts self.new ≡ failing_nexts self.old }
        ensures calls { next_calls self.new ≡ min (next_calls self.old + 1) (2 ^ 64 - 1) }
    {
        self.ended = false;
        if self.calls.is_next_failing() {
            self.faults = self.faults.saturating_add(1);
            return Err(Failed);
        }
        let conn = self.waiting.pop_front();
        match conn {
            Some(conn) => {
                self.handed += 1;
                self.lent = true;
                Ok(Some(conn))
            }
            None => {
                self.ended = true;
                Ok(None)
            }
        }
    }

    fn done(&mut self, conn: L, end: SessionEnd) {
        self.back.push_reserved(Returned { conn, end });
        self.lent = false;
    }
}
