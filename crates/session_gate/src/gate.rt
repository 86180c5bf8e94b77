//! The gate, and its calls.
ghost use Rattle.std.specs.Prelude.{◌≡◌, IfOk, IsOk, OnErr};
ghost use Rattle.session_gate.specs.Gate.{IsPassOf};
ghost use Rattle.session_gate.specs.Call.{IsSamePass, IsCall, SeesMore, HasSeenLegal, IsSureAt};

use crate::machine::Machine;
use crate::pass::Pass;
use crate::table::GateTable;
use crate::turn::take_turn;
use std::alloc::AllocError;
use std::marker::Model;
use std::sync::Wait;
use std::thread::Threads;

/// A machine that threads step in turn, each by a pass of its own.
///
/// Threads share the gate by reference. What they share is one atomic word and one slot that the
/// machine lies in between two turns; no lock is used. Contracts see which gate it is, the machine
/// that it was made with, and how many passes it made (`GateView`).
#[derive(Drop)]
pub struct Gate<M: Machine> {
    pub(crate) table: GateTable<M>,
    pub(crate) made: u32,
}

impl<M: Machine> Model for Gate<M> {
    ghost use Rattle.std.specs.Prelude.{◌≡◌, ◌<◌};
    ghost use Rattle.session_gate.specs.Views.{GateView};

    ghost Value = { GateView M };

    ghost view = { λ g. record {
      id = g.table.shared.table_id;
      start = g.table.shared.key.machine.value;
      made = g.made;
    } };

    ghost invariant = { λ g.
        (g.table.shared.table_id.words ≡ 1) × (g.table.shared.table_id.slots ≡ 1)
        × (g.table.shared.key.passes ≡ g.made) × (0 < g.made) };
}

impl<M: Machine> Gate<M> {
    /// Waits for a turn, and steps the machine in it.
    ///
    /// The answer is the machine's at that point of one legal history, which begins with all that
    /// the pass had seen. The call's own entry, where the step adds one, stands at its end, one
    /// more of the pass's calls. `close` shows that all passes saw beginnings of one history.
    ///
    /// It may wait: a thread that finds the turn held sleeps until one is returned and spends no
    /// processor time. That it is ever served, or in which order, is not promised.
    /// Errors: out of memory in the machine's step; the pass may then have seen more, but no call
    /// of its own is added.
    /// Memory: none but the step's. Cost: the step, and a few atomic steps.
    pub fn call<R: Threads + Wait + Sync>(
        &self,
        rt: &R,
        pass: &mut Pass<M>,
        event: M::Event,
    ) -> Result<M::Out, AllocError>
        requires own { IsPassOf self.now pass.old }
        requires takes { M.takes event }
        ensures same { IsSamePass pass.old pass.new }
        ensures ok { IfOk result (λ out. IsCall M.answers pass.old pass.new event out) }
        ensures err { OnErr result (SeesMore pass.old pass.new) }
        ensures legal { HasSeenLegal M.takes M.answers pass.new }

        // An event that the machine takes without memory is always answered.
        ensures sure { IsSureAt M.takes M.answers M.is_sure pass.old event → IsOk result }
    {
        take_turn(rt, &self.table.shared, &mut pass.seat, event)
    }
}
